//! Why a system is not shrunk.
ghost use Rattle.std.specs.Prelude.{◌≡◌};
ghost use Rattle.tv_shrink.specs.Answers.{read_fault};
ghost use Rattle.tv_shrink.specs.declared.fault.ShrinkFault.TheVariants.{Memory};

use std::alloc::{AllocError, AllocFailed};
use thiserror::Error;
use tv_container::{ReadRefusal, ReadWhy};

/// Why a system is not shrunk.
#[derive(Clone, Copy, Debug, Error)]
pub enum ShrinkFault {
    /// The file's first fault, at this byte.
    #[error("byte {at}: {why}")]
    Bad { at: u64, why: ReadWhy },
    /// The system has this many terms, more than 4,194,304.
    #[error("{has} terms")]
    Terms { has: u64 },
    /// This is how many terms the first combination has that, once made normal, has more than 128.
    #[error("a combination of {has} terms")]
    Combination { has: u64 },
    /// A read failed.
    #[error("reading failed")]
    Fault,
    /// Memory ran out.
    #[error("out of memory")]
    Memory,
}

impl From<ReadRefusal> for ShrinkFault {
    ghost from_gives = { λ why fault. fault ≡ read_fault why };

    fn from(why: ReadRefusal) -> ShrinkFault {
        match why {
            ReadRefusal::Bad { at, why } => ShrinkFault::Bad { at, why },
            ReadRefusal::Fault => ShrinkFault::Fault,
            ReadRefusal::Memory => ShrinkFault::Memory,
        }
    }
}

impl From<AllocError> for ShrinkFault {
    ghost from_gives = { λ _ fault. fault ≡ Memory };

    fn from(_: AllocError) -> ShrinkFault {
        ShrinkFault::Memory
    }
}

impl<T: Drop> From<AllocFailed<T>> for ShrinkFault {
    ghost from_gives = { λ _ fault. fault ≡ Memory };

    fn from(_: AllocFailed<T>) -> ShrinkFault {
        ShrinkFault::Memory
    }
}
