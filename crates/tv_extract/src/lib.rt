//! The run that an assignment of a program's system has: its answer and its tape stand at the
//! public wires, and the words that its steps take at wires computed from the steps' positions.
//! Each satisfying assignment has one; another may have one too, or the first thing wrong is
//! reported.
#![tactic(auto)]

mod extraction;
mod laws;
mod run;

pub use extraction::extract;
pub use laws::{extracted_are_runs, satisfying_have_runs};
pub use run::{ExtractFault, Run};
pub use tv_step::NotRun;
