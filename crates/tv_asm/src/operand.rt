//! Operands: registers, addresses of labels, and numbers.
ghost use Rattle.std.specs.Prelude.{◌≡◌, ◌^◌, ◌<◌, ◌≤◌, IfOk, IfSome};
ghost use Rattle.std.specs.Option.{ok_or};
ghost use Rattle.tv_word.specs.Numeral.{numeral};
ghost use Rattle.tv_word.specs.Widths.{IsWidth};
ghost use Rattle.tv_asm.specs.Operand.{register, number, operand};
ghost use Rattle.tv_asm.specs.Views.{address_in};
ghost use Rattle.tv_asm.specs.declared.fault.AsmWhy.TheVariants.{BadNumber};

use crate::fault::AsmWhy;
use crate::labels::Labels;
use tv_word::numeral_of;

/// The operand A: a number as it stands, or a register's number.
#[derive(Drop)]
pub(crate) struct Operand {
    pub(crate) imm: bool,
    pub(crate) a: u32,
}

impl Operand {
    /// Returns the operand A. A register where the text begins with `r`, a label's address where it
    /// begins with `_`, else a number.
    #[tactic(auto, unfolding(crate::specs::Operand::operand))]
    pub(crate) fn of<const W: u32>(text: &[u8], labels: &Labels<'_>) -> Result<Operand, AsmWhy>
        requires { IsWidth W }
        ensures { result ≡ operand W (address_in labels.now) text.now }
    {
        match text {
            [b'r', ..] => Ok(Operand {
                imm: false,
                a: u32::from(register(text)?),
            }),
            [b'_', ..] => Ok(Operand {
                imm: true,
                a: labels.address(text).ok_or(AsmWhy::UnknownLabel)?,
            }),
            _ => Ok(Operand {
                imm: true,
                a: number::<W>(text)?,
            }),
        }
    }
}

/// Returns the number of a register: `r` and a number below 16 without a leading zero.
#[tactic(auto, unfolding(crate::specs::Operand::register))]
pub(crate) fn register(text: &[u8]) -> Result<u8, AsmWhy>
    ensures value { result ≡ register text.now }
    ensures range { IfOk result (λ r. r < 16) }
{
    match text {
        [b'r', b'0', _, ..] => Err(AsmWhy::BadRegister),
        [b'r', digits @ ..] => match numeral_below(digits, 10, 16) {
            Some(number) => Ok(number as u8),
            None => Err(AsmWhy::BadRegister),
        },
        _ => Err(AsmWhy::BadRegister),
    }
}

/// Returns a number below 2^W: decimal digits, or `0x` and hexadecimal digits.
#[tactic(auto, unfolding(crate::specs::Operand::number))]
pub(crate) fn number<const W: u32>(text: &[u8]) -> Result<u32, AsmWhy>
    requires { IsWidth W }
    ensures { result ≡ number W text.now }
{
    match text {
        [b'0', b'x', digits @ ..] => word::<W>(digits, 16),
        _ => word::<W>(text, 10),
    }
}

/// Returns the value of digits, where it is below 2^W.
fn word<const W: u32>(digits: &[u8], base: u32) -> Result<u32, AsmWhy>
    requires width { IsWidth W }
    requires least { 2 ≤ base }
    requires greatest { base ≤ 36 }
    ensures { result ≡ ok_or (numeral base (2 ^ W) digits.now) BadNumber }
{
    numeral_below(digits, base, 1 << W).ok_or(AsmWhy::BadNumber)
}

/// Returns the value of digits, where it is below a bound.
fn numeral_below(digits: &[u8], base: u32, bound: u64) -> Option<u32>
    requires least { 2 ≤ base }
    requires greatest { base ≤ 36 }
    requires word { bound ≤ 2 ^ 32 }
    ensures value { result ≡ numeral base bound digits.now }
    ensures below { IfSome result (λ number. number < bound) }
{
    match numeral_of(digits, base) {
        Some(number) if number < bound => Some(number as u32),
        _ => None,
    }
}
