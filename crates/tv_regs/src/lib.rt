//! Gadgets over the sixteen registers: three of them read by their numbers and one updated, as a
//! step does it, and one read or written by the one-hot row of its number. Contracts above cite
//! `written_regs`, the registers after a write.
#![tactic(auto)]

mod reads;
mod triple;
mod update;
mod writes;

pub use reads::{fill_read_reg, read_reg, read_reg_laws};
pub use triple::{Names, Triple, fill_triple, read_triple, triple_laws};
pub use update::{Write, fill_update, update_laws, update_register};
pub use writes::{fill_write_reg, wires_from, write_reg, write_reg_laws};
