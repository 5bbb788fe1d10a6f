//! Assignments in wtns files. `read_values` reads one from a file of any size, with its sections in
//! any order: its clause `gives` says that it returns `assignment_of` the whole file, the values in
//! order, or the file's first fault. `read_first_values` keeps the first values alone, and judges
//! and counts them all. `FileValues` writes one as its values come, and what was written is read.
#![tactic(auto)]

mod assignment;
mod file_values;
mod laws;
mod values;

pub use assignment::{assignments_are_below_the_prime, read_first_values, read_values};
pub use file_values::FileValues;
pub use laws::{assignments_come_back, files_are_fronts, files_are_of_assignments};
pub use tv_container::NotBegun;
pub use values::FirstValues;
