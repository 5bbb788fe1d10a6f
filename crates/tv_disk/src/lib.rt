//! The operating system's files and standard output as `Files`: `DiskFiles`. Contracts see how
//! often its calls were refused, by cause, and nothing of what a file holds or what was printed.
//! Beside it the numbers of standard streams that were closed, and how a name is shown.
#![tactic(auto)]

mod counts;
mod disk;
mod escaped;
mod open;
mod progress;
mod reader;
mod standard;

pub use counts::{Call, RefusalCounts};
pub use disk::DiskFiles;
pub use escaped::Escaped;
pub use progress::Progress;
pub use standard::occupy;
