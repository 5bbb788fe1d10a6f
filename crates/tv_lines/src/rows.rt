//! The bits of a line of memory.
use tv_bits::Bits;

/// The bits of a line's four numbers: 31 of its cell, 20 of its time, 32 of each word.
#[derive(Clone, Copy)]
pub struct LineBits {
    /// The bits of the cell's number.
    pub cell: Bits,
    /// The bits of the time.
    pub time: Bits,
    /// The bits of the word before.
    pub old: Bits,
    /// The bits of the word after.
    pub new: Bits,
}
