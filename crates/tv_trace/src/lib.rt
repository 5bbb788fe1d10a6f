//! The text of a run, a line for each step, for a person who asks what a program does.
//! `trace_text` writes it for every run, also for one that doesn't answer. The machine is that of
//! `tv_step`, and an instruction reads as the disassembler writes it.
#![tactic(auto)]

mod before;
mod line;
mod run;

pub use run::{Shown, Traced, trace_text};
