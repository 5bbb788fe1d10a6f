//! Containers: files of a magic, a version and sections that stand in any order, as both formats of
//! this project are. Contracts above cite `sections_of`, which cuts a whole file into its sections
//! or reports its first fault, and `number`, the number in the bytes at a place of a file. A
//! `Window` yields these from a file of any size, a piece at a time.
#![tactic(auto)]

mod buffer;
mod faults;
mod field;
mod heads;
mod numbers;
mod pending;
mod place;
mod refusal;
mod sections;
mod why;
mod window;

pub use buffer::Buffer;
pub use faults::sink_fault;
pub use field::this_field;
pub use numbers::{long_bytes, short_bytes};
pub use pending::Pending;
pub use refusal::NotBegun;
pub use sections::{Form, Found, Section, find_sections, wanted};
pub use why::{ReadRefusal, ReadWhy};
pub use window::Window;
