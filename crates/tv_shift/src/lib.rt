//! Shifts of a word of 16 or of 32 bits by a word as long. Contracts above cite `IsShifted`, which
//! says that two wires hold the word shifted to the left and to the right, as whole numbers, and
//! `ShiftSizes` for the wires.
#![tactic(auto)]

mod ends;
mod halves;
mod masks;
mod shifts;
mod thermometer;
mod values;

pub use ends::Shift;
pub use masks::{Part, Parts, Places};
pub use shifts::{shift, shift_laws};
pub use values::fill_shift;
