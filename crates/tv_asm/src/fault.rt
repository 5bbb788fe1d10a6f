//! Why a line is refused, and why a text has no image.
ghost use Rattle.std.specs.Prelude.{◌≡◌};
ghost use Rattle.tv_asm.specs.declared.fault.AsmFault.TheVariants.{Memory};

use std::alloc::AllocError;
use thiserror::Error;

/// Why a line of program text is refused. The first reason that holds is reported, in this order;
/// of the last three, which are about operands, the one of the first operand at fault.
#[derive(Clone, Copy, PartialEq, Eq, Debug, Error)]
pub enum AsmWhy {
    /// Outside its comment the line has a byte other than a tab and those from the space to `~`.
    #[error("not text")]
    NotText,
    /// Line 1 is a header for another width of words, or for another number of registers than 16.
    #[error("bad header")]
    BadHeader,
    /// The line begins with `_`, but not with a label.
    #[error("bad label")]
    BadLabel,
    /// An earlier line defines the line's label.
    #[error("label defined twice")]
    DoubledLabel,
    /// The name is no instruction's.
    #[error("unknown name")]
    UnknownName,
    /// The instruction takes another number of operands.
    #[error("{has} operands, {wants} wanted")]
    Operands {
        /// How many the line has.
        has: u64,
        /// How many the instruction names.
        wants: u64,
    },
    /// The operand isn't `r` and a number below 16 without a leading zero.
    #[error("bad register")]
    BadRegister,
    /// The operand isn't a decimal number, or `0x` and a hexadecimal one, below 2^W.
    #[error("bad number")]
    BadNumber,
    /// The operand begins with `_` and is no label that a line defines.
    #[error("unknown label")]
    UnknownLabel,
}

/// Why a program text has no image.
#[derive(Clone, Copy, PartialEq, Eq, Debug, Error)]
pub enum AsmFault {
    /// The first line at fault, counted from 1, is refused.
    #[error("line {line}: {why}")]
    Bad {
        /// The line's number.
        line: u64,
        /// What is wrong there.
        why: AsmWhy,
    },
    /// With the words of this line the image would have more than `most`.
    #[error("line {line}: more than {most} words")]
    TooMany {
        /// The line's number.
        line: u64,
        /// How many words are allowed.
        most: u32,
    },
    /// Memory ran out.
    #[error("out of memory")]
    Memory,
}

impl From<AllocError> for AsmFault {
    ghost from_gives = { λ _ fault. fault ≡ Memory };

    fn from(_error: AllocError) -> AsmFault {
        AsmFault::Memory
    }
}
