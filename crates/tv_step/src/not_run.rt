//! Why an assignment has no run.

use crate::end::End;
use thiserror::Error;

/// Why an assignment has no run.
#[derive(Clone, Copy, PartialEq, Eq, Debug, Error)]
pub enum NotRun {
    /// It has `has` values, where the system has `wants` wires.
    #[error("{has} wires, {wants} wanted")]
    WireCount { has: u64, wants: u64 },
    /// The number at this wire, which is public or that of a word taken, is no word.
    #[error("wire {at} is wide")]
    WideWire { at: u64 },
    /// The run on its tapes doesn't answer the word at wire 1; this is how it ends.
    #[error("no run")]
    NotARun { end: End },
}
