//! The mathematics of a memory argument over double cells: pairs of words, each line checked
//! against its successor in address order. It has no circuit and no program: `specs/` has the
//! definitions and the statements, and each function here is a law.
//!
//! A double line is an access of a double cell, whose pair of words goes from old to new. Its item
//! is two numbers, 2 b cell + the sum of the old pair, and b time + the second old word, b being
//! the number of words. The sum of a pair is 0 for (0, 0) alone, so no flag says which line is the
//! first of its cell. Whatever permutation brings an item to each place, the checks at all places
//! but one make the lines honest; and the single words that they show are honest lines of memory.
//!
//! The program does not stand on this crate yet.
#![tactic(auto)]

ghost use Rattle.tv_doubles.specs.Chain.{ChainIsHonest};
ghost use Rattle.tv_doubles.specs.Example.{ExampleIsRight};
ghost use Rattle.tv_doubles.specs.Parts.{PartsAreRight};
ghost use Rattle.tv_doubles.specs.Singles.{SinglesAreHonest};
ghost use Rattle.tv_doubles.specs.Successors.{SuccessorsAreRight};
ghost use Rattle.tv_doubles.specs.Whole.{ArgumentIsRight};
ghost use Rattle.tv_doubles.specs.Within.{ChecksAreSound, ChecksAreComplete};

/// The constraints of each check, as equations modulo P, show that the item is the successor's: a
/// line above in address order, which begins at what the checked line leaves, or at (0, 0) in
/// another double cell. Reaches have up to 30 bits; with 31 it would be false.
#[tactic(auto, using(crate::proofs::WithinLaws::checks_sound))]
pub fn checks_are_sound()
    ensures { ChecksAreSound }
{}

/// The item of the successor meets the constraints of each check, by the reach and the excess that
/// the two lines determine.
#[tactic(auto, using(crate::proofs::WithinLaws::checks_complete))]
pub fn checks_are_complete()
    ensures { ChecksAreComplete }
{}

/// Double lines of which each but one is followed by the line at its place in a permutation are
/// honest, whichever permutation it is, if the line at the exempt place's image begins at (0, 0).
/// A line that leaves (0, 0) in a double cell that no earlier line accesses may be its own image.
pub fn chain_is_honest()
    ensures { ChainIsHonest }
{}

/// The single lines of honest double lines are honest: those of the words that each one shows.
#[tactic(auto, using(crate::proofs::SinglesLaws::singles_honest))]
pub fn singles_are_honest()
    ensures { SinglesAreHonest }
{}

/// The successors of honest double lines are a permutation of their places, and each line but the
/// greatest is followed by its successor. They depend on the double cells alone.
#[tactic(auto, using(crate::proofs::SuccessorLaws::successors_right))]
pub fn successors_are_right()
    ensures { SuccessorsAreRight }
{}

/// Where the constraints are met at all places, the double lines and their single lines are honest;
/// and honest double lines, of which the last is the greatest, meet them by reaches that fit.
#[tactic(auto, using(crate::proofs::WholeLaws::argument_right))]
pub fn argument_is_right()
    ensures { ArgumentIsRight }
{}

/// What the lines of a system are made of: different words have different numbers of cells, the
/// pairs of a step's data line follow from the word at its side and the other one, double lines are
/// honest where their single lines are, and a line is near above each.
#[tactic(auto, using(crate::proofs::PartsLaws::parts_right))]
pub fn parts_are_right()
    ensures { PartsAreRight }
{}

/// Five lines, one of each kind, meet all premises of the laws.
#[tactic(auto, using(crate::proofs::ExampleLaws::example_right))]
pub fn example_is_right()
    ensures { ExampleIsRight }
{}
