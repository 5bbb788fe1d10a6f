//! Lines of memory as text, for a person who asks what a run did, or why an assignment is refused.
//! `listing` writes the lines that an assignment of a program's system has, whether or not it
//! satisfies the system, and `trace_text` those of a trace. For an assignment that satisfies the
//! system, and the trace of its run, the two texts are one.
#![tactic(auto)]

mod assignment;
mod laws;
mod row;
mod text;
mod trace_lines;

pub use assignment::listing;
pub use laws::{listings_are_traces, satisfying_are_listed};
pub use row::By;
pub use trace_lines::trace_text;
