//! The command line as one function: `command` takes the words and the files, prints its line, and
//! returns a status. Its contract is the program's promise; the binary only calls it.
#![tactic(auto)]

mod assignment;
mod build;
mod commands;
mod extract;
mod laws;
mod listing;
mod shrink;
mod trial;
mod witness;
mod words;

pub use commands::command;
pub use laws::{done_calls_leave_these, headline, tapes_come_back};
pub use tv_draw::{Drawn, draw};
pub use tv_extract::NotRun;
pub use tv_plan::{
    NoWhy, Refusal, Status, What, Width, definitions_want_no_memory, image_comes_back,
};
