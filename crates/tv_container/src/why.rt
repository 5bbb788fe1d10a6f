//! What can be wrong with a container.
ghost use Rattle.std.specs.Prelude.{◌≡◌};
ghost use Rattle.tv_container.specs.Refusals.{read_refusal};
ghost use Rattle.tv_container.specs.declared.why.ReadRefusal.TheVariants.{Memory};

use std::alloc::AllocFailed;
use thiserror::Error;
use tv_files::FileRefusal;

/// What is wrong with a container, at a place of its bytes.
#[derive(Clone, Copy, Debug, PartialEq, Eq, Error)]
pub enum ReadWhy {
    /// The file doesn't begin with the container's four bytes.
    #[error("bad magic")]
    BadMagic,
    /// The container's version is another one.
    #[error("version {found}")]
    BadVersion { found: u32 },
    /// A section that has to be there isn't.
    #[error("section {section} missing")]
    Missing { section: u32 },
    /// A section that may stand once stands again.
    #[error("section {section} doubled")]
    Doubled { section: u32 },
    /// The numbers are of another field.
    #[error("another prime")]
    OtherPrime,
    /// A size or a number is `has`, and should be `wants`.
    #[error("{has} for {wants}")]
    BadCount { has: u64, wants: u64 },
    /// A term's wire isn't one of the system's.
    #[error("wire {wire} of {wires}")]
    WireRange { wire: u32, wires: u32 },
    /// A number is P or more.
    #[error("not below p")]
    NotCanonical,
    /// A field, a section, a count, a term or a value doesn't fit.
    #[error("truncated")]
    Truncated,
    /// A combination has more than 1,048,576 terms.
    #[error("{terms} terms")]
    TooWide { terms: u32 },
    /// There are bytes after the last section.
    #[error("bytes after the end")]
    Trailing,
}

/// Why reading stopped.
#[derive(Clone, Copy, Debug, PartialEq, Eq, Error)]
pub enum ReadRefusal {
    /// The file's first fault, at this byte.
    #[error("byte {at}: {why}")]
    Bad { at: u64, why: ReadWhy },
    /// A read failed.
    #[error("reading failed")]
    Fault,
    /// Memory ran out.
    #[error("out of memory")]
    Memory,
}

impl From<FileRefusal> for ReadRefusal {
    ghost from_gives = { λ refusal read. read ≡ read_refusal refusal };

    fn from(refusal: FileRefusal) -> ReadRefusal {
        match refusal {
            FileRefusal::Failed => ReadRefusal::Fault,
            FileRefusal::Memory => ReadRefusal::Memory,
        }
    }
}

impl<T: Drop> From<AllocFailed<T>> for ReadRefusal {
    ghost from_gives = { λ _ read. read ≡ Memory };

    fn from(_: AllocFailed<T>) -> ReadRefusal {
        ReadRefusal::Memory
    }
}
