//! The outside world: the trait `Files`, through which every byte is read and written, with what
//! each call may do to names, bytes and counts; `MemFiles`, which keeps all in memory and can fail
//! on demand; `slurp`, whose `Ok` is a name's whole contents; and `write_file`, which writes them.
#![tactic(auto)]

mod calls;
mod mem_files;
mod outcome;
mod parts;
mod whole;

pub use calls::{FileRefusal, Files};
pub use mem_files::MemFiles;
pub use outcome::Slurp;
pub use whole::{slurp, write_file};
