//! Double lines of memory, as numbers.

/// The two words of a double cell.
#[derive(Clone, Copy, PartialEq, Eq)]
pub struct WordPair {
    /// The first word.
    pub first: u32,
    /// The second word.
    pub second: u32,
}

/// An access of a double cell, whose pair of words goes from `old` to `new`.
#[derive(Clone, Copy, PartialEq, Eq)]
pub struct DoubleLine {
    /// The number of the double cell.
    pub cell: u32,
    /// The words before.
    pub old: WordPair,
    /// The words from then on.
    pub new: WordPair,
}
