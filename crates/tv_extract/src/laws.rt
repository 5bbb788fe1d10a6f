//! What is proved of extracted runs, from the definitions.
ghost use Rattle.tv_extract.specs.Runs.{ExtractedIsRun, SatisfyingHaveRuns};

/// What is extracted is a run of the assignment: the machine answers the word at wire 1 on the
/// words at the tape's wires and those taken.
pub fn extracted_are_runs()
    ensures { ExtractedIsRun }
{}

/// Each satisfying assignment has a run, which reads all of its auxiliary tape.
pub fn satisfying_have_runs()
    ensures { SatisfyingHaveRuns }
{}
