//! The verdict on a constraint system, an assignment and public numbers, straight from the system's
//! file: `check` reads it to its end, one row at a time, and returns the verdict that `verdict_of`
//! the whole file is, or the file's first fault.
#![tactic(auto)]

mod checker;
mod laws;
mod publics;
mod verdict;

pub use checker::check;
pub use laws::{systems_have_room, verdicts_are_exact};
pub use verdict::Verdict;
