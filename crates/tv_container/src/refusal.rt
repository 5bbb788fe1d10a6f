//! A file that couldn't be created.
use tv_core::SinkFault;
use tv_files::Files;

/// A file that couldn't be created: why, and the files again.
#[derive(Drop)]
pub struct NotBegun<'a, D: Files> {
    /// The files, as the refused call left them.
    pub files: &'a mut D,
    /// Why the file couldn't be created.
    pub why: SinkFault,
}
