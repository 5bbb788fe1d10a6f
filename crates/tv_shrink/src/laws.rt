//! What is proved of shrunk systems, from the definitions.
ghost use Rattle.tv_shrink.specs.Laws.{KeepsPublics, KeepsSolutions, SolutionsAreOne};
ghost use Rattle.tv_shrink.specs.Laws.{SystemsAreOver};

/// The assignments that satisfy a shrunk system are those that some assignment which satisfies the
/// system has at the kept wires.
pub fn keeps_solutions()
    ensures { KeepsSolutions }
{}

/// No two assignments that satisfy a system have the same numbers at the kept wires.
#[tactic(auto, using(crate::proofs::Solutions::solutions_are_one))]
pub fn solutions_are_one()
    ensures { SolutionsAreOne }
{}

/// Wire 0 and all public wires are kept, with their numbers.
#[tactic(auto, using(crate::proofs::Solutions::keeps_publics))]
pub fn keeps_publics()
    ensures { KeepsPublics }
{}

/// The constraints of a system that a file holds are of wires that there are.
pub fn systems_are_over()
    ensures { SystemsAreOver }
{}
