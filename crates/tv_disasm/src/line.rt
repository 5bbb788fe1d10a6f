//! The line of two words.
ghost use Rattle.std.specs.Prelude.{◌≡◌, ◌++◌, ◌-◌, ◌/◌, ◌<◌, drop, OnOk};
ghost use Rattle.tv_word.specs.Widths.{IsWidth};
ghost use Rattle.tv_disasm.specs.Disassembly.{digit_char, hexadecimal, instruction_text};
ghost use Rattle.tv_disasm.specs.Disassembly.{leaves_zero, raw_text, shows_all_bits};
ghost use Rattle.tv_disasm.specs.Disassembly.{two_words_text};

use crate::operands::{push_decimal, push_operands};
use std::alloc::AllocError;
use tv_isa::{Instr, Operation, Shape, decode, operation_of};

/// Adds the line of two words of `W` bits, 16 or 32, without its end: at most 48 bytes.
#[tactic(auto, unfolding(crate::specs::Disassembly::two_words_text))]
pub fn push_line<const W: u32>(text: &mut Vec<u8>, h: u32, a: u32) -> Result<(), AllocError>
    requires { IsWidth W }
    ensures { OnOk result (text.new.items ≡ text.old.items ++ two_words_text W h a) }
{
    let instr = decode::<W>(h, a);
    match operation_of(instr.op) {
        Some(operation) if shows_all_bits::<W>(h, operation.shape, &instr) => {
            push_instruction(text, operation, &instr)
        }
        _ => push_raw::<W>(text, h, a),
    }
}

/// Returns whether an instruction's text determines all of its two words.
fn shows_all_bits<const W: u32>(h: u32, shape: Shape, instr: &Instr) -> bool
    requires { IsWidth W }
    ensures { result ≡ shows_all_bits W h shape instr.now }
{
    h % (1 << (W - 14)) == 0 && leaves_zero(shape, instr) && (instr.imm || instr.a < 16)
}

/// Returns whether the register fields that the form doesn't name are 0.
fn leaves_zero(shape: Shape, instr: &Instr) -> bool
    ensures { result ≡ leaves_zero shape instr.now }
{
    match shape {
        Shape::DestSourceA => true,
        Shape::DestA | Shape::ADest => instr.source == 0,
        Shape::SourceA => instr.dest == 0,
        Shape::OnlyA => instr.dest == 0 && instr.source == 0,
        Shape::Unused => false,
    }
}

/// Adds an instruction's name and operands.
fn push_instruction(
    text: &mut Vec<u8>,
    operation: Operation,
    instr: &Instr,
) -> Result<(), AllocError>
    ensures { OnOk result
        (text.new.items ≡ text.old.items ++ instruction_text operation.name.now operation.shape
        instr.now) }
{
    text.extend_from_slice(operation.name.as_bytes())?;
    text.push(b' ')?;
    push_operands(text, operation.shape, instr)
}

/// Adds two words as they are: the first in `W / 4` hexadecimal digits, the second in decimal.
fn push_raw<const W: u32>(text: &mut Vec<u8>, h: u32, a: u32) -> Result<(), AllocError>
    requires { IsWidth W }
    ensures { OnOk result (text.new.items ≡ text.old.items ++ raw_text W h a) }
{
    text.extend_from_slice(b".raw 0x")?;
    push_hexadecimal::<W>(text, h)?;
    text.extend_from_slice(b", ")?;
    push_decimal(text, a)
}

/// Adds the `W / 4` hexadecimal digits of a word.
fn push_hexadecimal<const W: u32>(text: &mut Vec<u8>, word: u32) -> Result<(), AllocError>
    requires { IsWidth W }
    ensures { OnOk result (text.new.items ≡ text.old.items ++ hexadecimal (W / 4) word) }
{
    let digits = hexadecimal(word);
    text.extend_from_slice(lowest::<W>(&digits))
}

/// Of eight hexadecimal digits the last, which are those of the `W` lowest bits.
fn lowest<const W: u32>(digits: &[u8; 8]) -> &[u8]
    requires { IsWidth W }
    ensures { result.now ≡ drop (8 - W / 4) digits.now }
{
    &digits[8 - (W / 4) as usize..]
}

/// Eight hexadecimal digits of a word.
#[tactic(auto, unfolding(crate::specs::Disassembly::hexadecimal))]
fn hexadecimal(word: u32) -> [u8; 8]
    ensures { result ≡ hexadecimal 8 word }
{
    [
        digit_char((word >> 28) % 16),
        digit_char((word >> 24) % 16),
        digit_char((word >> 20) % 16),
        digit_char((word >> 16) % 16),
        digit_char((word >> 12) % 16),
        digit_char((word >> 8) % 16),
        digit_char((word >> 4) % 16),
        digit_char(word % 16),
    ]
}

/// Returns the lower-case character of a hexadecimal digit.
fn digit_char(digit: u32) -> u8
    requires { digit < 16 }
    ensures { result ≡ digit_char digit }
{
    b"0123456789abcdef"[digit as usize]
}
