//! Lines of memory, as numbers and as combinations.
ghost use Rattle.std.specs.Prelude.{◌≡◌, []};

use crate::combination::Lc;
use crate::field::F;

/// A line of memory: an access to a cell at a time. The cell's word is `old` before and `new` from
/// then on.
#[derive(Clone, Copy, PartialEq, Eq)]
pub struct Line {
    /// A word of memory, a word of the primary tape, or none, by its number, which is below 2^31.
    pub cell: u32,
    /// The time, counted from the first line.
    pub time: u32,
    /// The cell's word before that time.
    pub old: u32,
    /// The cell's word from then on.
    pub new: u32,
}

/// A line of memory in combinations: at a time a cell's word goes from `old` to `new`.
#[derive(Drop)]
pub struct LineLc {
    /// The number of the cell.
    pub cell: Lc,
    /// The time.
    pub time: Lc,
    /// The cell's word before that time.
    pub old: Lc,
    /// The cell's word from then on.
    pub new: Lc,
}

/// The numbers of a `LineLc`.
#[derive(Clone, Copy, PartialEq, Eq)]
pub struct LineNum {
    /// The number of the cell.
    pub cell: F,
    /// The time.
    pub time: F,
    /// The cell's word before that time.
    pub old: F,
    /// The cell's word from then on.
    pub new: F,
}

/// Two combinations that a network moves together.
#[derive(Drop)]
pub struct Pair {
    /// The first of the two.
    pub first: Lc,
    /// The second.
    pub second: Lc,
}

impl Pair {
    /// Returns two combinations without terms.
    pub fn empty() -> Pair
        ensures first { result.first ≡ [] }
        ensures second { result.second ≡ [] }
    {
        Pair {
            first: Lc::empty(),
            second: Lc::empty(),
        }
    }
}

/// The numbers of a `Pair`.
#[derive(Clone, Copy, PartialEq, Eq)]
pub struct PairNum {
    /// The number of the first.
    pub first: F,
    /// That of the second.
    pub second: F,
}

/// The sizes of a constraint system.
#[derive(Clone, Copy, PartialEq, Eq)]
pub struct Counts {
    /// Its wires, with the constant wire 0.
    pub wires: u32,
    /// Those among them that are public outputs, which follow the constant wire.
    pub outputs: u32,
    /// Those that are public inputs, which follow the outputs.
    pub inputs: u32,
    /// Its constraints.
    pub constraints: u32,
    /// The terms of all combinations of the constraints.
    pub terms: u64,
}
