//! What is proved of listings, from the definitions.
ghost use Rattle.tv_listing.specs.Laws.{ListingIsTrace, SatisfyingAreListed};

/// Of an assignment that satisfies a program's system the lines up to each step are those of the
/// run that it has: boot lines, and the lines of the machine's steps on the words at the tape's
/// wires and those taken. So its listing is, byte for byte, that of the run's trace.
pub fn listings_are_traces()
    ensures { ListingIsTrace }
{}

/// Each assignment that satisfies a program's system has a run that can be extracted, and its lines
/// up to the step that answers are those of that run.
pub fn satisfying_are_listed()
    ensures { SatisfyingAreListed }
{}
