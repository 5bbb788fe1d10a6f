//! Why an image has no program text.
ghost use Rattle.std.specs.Prelude.{◌≡◌};
ghost use Rattle.tv_disasm.specs.declared.fault.DisFault.TheVariants.{Memory};

use std::alloc::AllocError;
use thiserror::Error;

/// Why an image has no program text.
#[derive(Clone, Copy, PartialEq, Eq, Debug, Error)]
pub enum DisFault {
    /// The bytes aren't whole instructions, of 8 bytes where words have 32 bits and of 4 where 16.
    #[error("{len} bytes aren't whole instructions")]
    Ragged {
        /// How many bytes there are.
        len: u64,
    },
    /// Memory ran out.
    #[error("out of memory")]
    Memory,
}

impl From<AllocError> for DisFault {
    ghost from_gives = { λ _ fault. fault ≡ Memory };

    fn from(_error: AllocError) -> DisFault {
        DisFault::Memory
    }
}
