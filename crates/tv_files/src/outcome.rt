//! How reading a whole file can end without its contents.
ghost use Rattle.std.specs.Prelude.{◌≡◌};
ghost use Rattle.tv_files.specs.Refusals.{slurp_refusal};
ghost use Rattle.tv_files.specs.declared.outcome.Slurp.TheVariants.{Memory};

use crate::calls::FileRefusal;
use std::alloc::AllocError;
use thiserror::Error;

/// Why `slurp` returned no contents.
#[derive(Clone, Copy, PartialEq, Eq, Debug, Error)]
pub enum Slurp {
    /// Reading failed.
    #[error("reading failed")]
    Fault,
    /// Memory ran out.
    #[error("out of memory")]
    Memory,
    /// The file has more than `most` bytes.
    #[error("more than {most} bytes")]
    TooLong {
        /// The most bytes that were allowed.
        most: u64,
    },
}

impl From<FileRefusal> for Slurp {
    ghost from_gives = { λ refusal slurp. slurp ≡ slurp_refusal refusal };

    fn from(refusal: FileRefusal) -> Slurp {
        match refusal {
            FileRefusal::Failed => Slurp::Fault,
            FileRefusal::Memory => Slurp::Memory,
        }
    }
}

impl From<AllocError> for Slurp {
    ghost from_gives = { λ _ slurp. slurp ≡ Memory };

    fn from(_: AllocError) -> Slurp {
        Slurp::Memory
    }
}
