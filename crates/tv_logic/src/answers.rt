//! What the gadget returns, and the wires that it makes on the way.
use tv_core::Wire;

/// The wires of the bitwise operations of two words: their numbers, and whether each is 0.
#[derive(Clone, Copy, PartialEq, Eq, Debug)]
pub struct Logic {
    /// The bits that are 1 in both.
    pub and_word: Wire,
    /// The bits that are 1 in one at least.
    pub or_word: Wire,
    /// The bits that are 1 in one alone.
    pub xor_word: Wire,
    /// The bits that are 0 in the second.
    pub not_word: Wire,
    /// 1 where `and_word` is 0, else 0.
    pub and_zero: Wire,
    /// 1 where `or_word` is 0, else 0.
    pub or_zero: Wire,
    /// 1 where `xor_word` is 0, else 0.
    pub xor_zero: Wire,
    /// 1 where `not_word` is 0, else 0.
    pub not_zero: Wire,
}

/// The words of the four operations: what `logic` has made before it tests them for 0.
#[derive(Clone, Copy, PartialEq, Eq, Debug)]
pub struct LogicWords {
    /// The bits that are 1 in both.
    pub and_word: Wire,
    /// The bits that are 1 in one at least.
    pub or_word: Wire,
    /// The bits that are 1 in one alone.
    pub xor_word: Wire,
    /// The bits that are 0 in the second.
    pub not_word: Wire,
}

/// The zero flags of the four words.
#[derive(Clone, Copy, PartialEq, Eq, Debug)]
pub struct LogicFlags {
    /// 1 where the word of ands is 0, else 0.
    pub and_zero: Wire,
    /// 1 where the word of ors is 0, else 0.
    pub or_zero: Wire,
    /// 1 where the word of exclusive ors is 0, else 0.
    pub xor_zero: Wire,
    /// 1 where the complement is 0, else 0.
    pub not_zero: Wire,
}
