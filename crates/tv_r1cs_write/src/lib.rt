//! Writing a constraint system to an r1cs file, streaming: `StreamSink` is a sink that keeps at
//! most 8,192 bytes. Contracts above cite `file_bytes`, which is the whole file of a list, and what
//! was written is read back: `r1cs_system` of those bytes is the list's system.
#![tactic(auto)]

mod head;
mod laws;
mod parts;
mod stream;

pub use laws::{files_are_fronts, files_are_of_systems, files_are_whole, systems_come_back};
pub use stream::StreamSink;
pub use tv_container::NotBegun;
