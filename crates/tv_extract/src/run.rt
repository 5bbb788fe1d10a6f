//! Runs that answer, and why none was extracted.
ghost use Rattle.std.specs.Prelude.{◌≡◌};
ghost use Rattle.tv_extract.specs.Extraction.{fault_of};
ghost use Rattle.tv_extract.specs.declared.run.ExtractFault.TheVariants.{Memory};

use std::alloc::AllocError;
use thiserror::Error;
use tv_step::{End, NotRun};
use tv_word::Words;

/// A run of the machine that answers.
#[derive(Drop)]
pub struct Run {
    /// What it answers.
    pub answer: u32,
    /// The words of its primary tape.
    pub tape: Words,
    /// The words of its auxiliary tape: those that the assignment's steps take. The run reads all
    /// of them where the assignment satisfies the system.
    pub aux: Words,
    /// The step that answers, counted from 1.
    pub step: u64,
}

/// Why no run was extracted.
#[derive(Clone, Copy, PartialEq, Eq, Debug, Error)]
pub enum ExtractFault {
    /// The assignment has `has` values, where the system has `wants` wires.
    #[error("{has} wires, {wants} wanted")]
    WireCount { has: u64, wants: u64 },
    /// The number at this wire, which is public or that of a word taken, is no word.
    #[error("wire {at} is wide")]
    WideWire { at: u64 },
    /// The run on its tapes doesn't answer the word at wire 1; this is how it ends.
    #[error("no run")]
    NotARun { end: End },
    /// Memory ran out.
    #[error("out of memory")]
    Memory,
}

impl From<NotRun> for ExtractFault {
    ghost from_gives = { λ why fault. fault ≡ fault_of why };

    fn from(why: NotRun) -> ExtractFault {
        match why {
            NotRun::WireCount { has, wants } => ExtractFault::WireCount { has, wants },
            NotRun::WideWire { at } => ExtractFault::WideWire { at },
            NotRun::NotARun { end } => ExtractFault::NotARun { end },
        }
    }
}

impl From<AllocError> for ExtractFault {
    ghost from_gives = { λ _ fault. fault ≡ Memory };

    fn from(_: AllocError) -> ExtractFault {
        ExtractFault::Memory
    }
}
