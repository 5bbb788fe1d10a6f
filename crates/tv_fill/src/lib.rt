//! The values of a system's wires for a run that answers: its trace is made once, the items of its
//! lines are packed, the settings are found that bring to each line its predecessor's, and the
//! values follow in the order of the wires.
#![tactic(auto)]

mod fault;
mod filling;
mod front;
mod items;
mod laws;
mod run_lines;
mod steps;

pub use fault::FillFault;
pub use filling::{Filling, fill_system, prepare};
pub use laws::fillings_satisfy;
