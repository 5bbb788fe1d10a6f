//! The whole system: the constraints of a program's runs of T steps. Its public wires are the
//! answer and the words of the primary tape; the steps stand in a row, and the memory argument
//! constrains their lines to be honest.
//!
//! `emit_system` emits a system into any sink; `wires` and `sizes` return its counts, and
//! `count_system` counts what is emitted; `line` and `spot` return parts by their indexes. None of
//! them allocates, since wires are computed from indexes.
#![tactic(auto)]

mod checks;
mod counts;
mod laws;
mod lines;
mod places;
mod sequence;
mod spots;
mod system;
mod totals;

pub use checks::line_kind;
pub use counts::{count_system, sizes, wires};
pub use laws::{
    systems_are_complete, systems_are_normal, systems_are_sized, systems_are_sound, systems_reduce,
};
pub use lines::line;
pub use places::{ANSWER, STATE_WIRES, log_of, public_wires, tape_wire};
pub use spots::spot;
pub use system::emit_system;
