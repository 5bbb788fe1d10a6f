//! What is proved of a run's values, from their definition.
ghost use Rattle.tv_fill.specs.Laws.{FillingsSatisfy};

/// The values for each run that answers satisfy its system, over both networks; they have the
/// answer and the tape's words at its public wires, and the words that they take of the auxiliary
/// tape are those that the run reads.
pub fn fillings_satisfy()
    ensures { FillingsSatisfy }
{}
