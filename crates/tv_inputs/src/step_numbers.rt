//! What the values of a step's wires are computed from.
use tv_isa::Instr;

/// What the values of a step's wires are computed from, beside the state before it. Each is
/// computed once.
#[derive(Clone, Copy)]
pub struct StepNumbers {
    /// The number of the primary tape's words.
    pub n: u32,
    /// The instruction.
    pub instr: Instr,
    /// The operand.
    pub operand: u32,
    /// The other word: what is stored, or else the one in the source register.
    pub other: u32,
    /// The word whose bits stand beside the row: the other word, except at a division.
    pub decomposed: u32,
    /// The low half of the row, which is the data word where the step has one.
    pub low: u32,
    /// The high half of the row.
    pub high: u32,
    /// Whether a word of the primary tape is taken.
    pub primary: bool,
    /// Whether a word of the auxiliary tape is taken.
    pub aux: bool,
    /// Whether a read finds a word.
    pub found: bool,
    /// The word in the cell of the data line before the step; 0 in the null cell.
    pub old: u32,
}
