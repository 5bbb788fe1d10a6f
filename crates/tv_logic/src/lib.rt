//! The bitwise operations of two words of 16 or of 32 bits, with their zero flags. The word of ands
//! takes a constraint for two ands; the other words are linear in it. Contracts above cite
//! `IsLogic`, and `LogicSizes` for the wires.
#![tactic(auto)]

mod ands;
mod answers;
mod flags;
mod gadget;
mod words;

pub use answers::{Logic, LogicFlags, LogicWords};
pub use gadget::{fill_logic, logic, logic_laws};
