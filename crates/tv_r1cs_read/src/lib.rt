//! Reading a constraint system from an r1cs file, of any size and with its sections in any order:
//! one row at a time, each the next constraint of `r1cs_system` of the whole file, or the file's
//! first fault.
//!
//! Two functions read a combination: `sum_held` sums one that the window holds whole, with no call
//! and no refusal for a term; `read_far` takes any, to sum it or to keep it.
#![tactic(auto)]

mod addition;
mod far_trial;
mod header;
mod held;
mod held_trial;
mod progress;
mod reader;
mod rows;
mod sum;
mod terms;

pub use header::{HEADER_BYTES, Header, R1CS};
pub use progress::Progress;
pub use reader::{SystemReader, Unread, survey};
pub use rows::{Row, Terms};
pub use terms::TERM_BYTES;
pub use tv_container::{ReadRefusal, ReadWhy};
