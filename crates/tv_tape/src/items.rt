//! The numbers of a tape's text.
ghost use Rattle.std.specs.Prelude.{◌≡◌, ◌⊎◌, Ok, Err, IfOk, IfErr};
ghost use Rattle.tv_word.specs.Numeral.{is_numeral};
ghost use Rattle.tv_tape.specs.Tape.{is_separator, number_of, tape_of, KeepsNumber};
ghost use Rattle.tv_tape.specs.declared.items.TapeFault.TheVariants.{Memory};

use std::alloc::{AllocFailed, Global};
use thiserror::Error;
use tv_word::decimal_of;

/// Why a tape's text was refused.
#[derive(Clone, Copy, Debug, PartialEq, Eq, Error)]
pub enum TapeFault {
    /// The item with this number, counted from 0, has a byte that isn't a digit.
    #[error("item {at} isn't a number")]
    BadItem { at: u64 },
    /// The item with this number is a number of the bound or more.
    #[error("item {at} is too big")]
    TooBig { at: u64 },
    /// There are more than `most` items.
    #[error("more than {most} items")]
    TooMany { most: u32 },
    /// Memory ran out.
    #[error("out of memory")]
    Memory,
}

impl<T: Drop> From<AllocFailed<T>> for TapeFault {
    ghost from_gives = { λ _ fault. fault ≡ Memory };

    fn from(_: AllocFailed<T>) -> TapeFault {
        TapeFault::Memory
    }
}

fn is_separator(byte: u8) -> bool
    ensures { result ≡ is_separator byte }
{
    matches!(byte, b' ' | b'\t' | b'\r' | b'\n')
}

// Whether there are bytes, and each is a digit.
fn is_decimal(item: &[u8]) -> bool
    ensures { result ≡ is_numeral 10 item.now }
{
    !item.is_empty() && item.iter().all(|byte| byte.is_ascii_digit())
}

// The number of the item that has this number among the items.
fn number_of(item: &[u8], at: u64, below: u64) -> Result<u64, TapeFault>
    ensures { result ≡ number_of below at item.now }
{
    match decimal_of(item) {
        Some(number) if number < below => Ok(number),
        None if !is_decimal(item) => Err(TapeFault::BadItem { at }),
        _ => Err(TapeFault::TooBig { at }),
    }
}

/// Returns the numbers of a tape's text: decimal numbers below `below`, leading zeros allowed,
/// between spaces, tabs, carriage returns and line feeds, and at most `most` of them.
///
/// Each item is judged before the next one is. `TooMany` comes where there is an item with the
/// number `most`, whatever it is; `BadItem` where an item isn't all digits; `TooBig` where it is a
/// number of `below` or more, also one of 2^64 or more. Takes one pass, and memory for the numbers
/// alone, as each is read: `Memory` comes only where there is one.
pub fn read_tape(alloc: Global, text: &[u8], below: u64, most: u32) -> Result<Vec<u64>, TapeFault>
    ensures numbers { IfOk result (λ numbers. tape_of text.now below most ≡ Ok numbers.items) }
    ensures fault { IfErr result (λ fault. (tape_of text.now below most ≡ Err fault)
        ⊎ ((fault ≡ Memory) × KeepsNumber text.now below most)) }
{
    let mut numbers = Vec::new(alloc);
    let items = text
        .split(|byte| is_separator(*byte))
        .filter(|item| !item.is_empty());
    for item in items {
        let at = numbers.len() as u64;
        if at >= u64::from(most) {
            return Err(TapeFault::TooMany { most });
        }
        let number = number_of(item, at, below)?;
        numbers.push(number)?;
    }
    Ok(numbers)
}
