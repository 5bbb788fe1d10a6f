//! The operands of an instruction, as its line has them.
ghost use Rattle.std.specs.Prelude.{◌≡◌, ◌++◌, OnOk, codes, decimal};
ghost use Rattle.tv_disasm.specs.Disassembly.{comma_separated, last_text};
ghost use Rattle.tv_disasm.specs.Disassembly.{operand_texts, register_text};

use itoa::Buffer;
use std::alloc::AllocError;
use tv_isa::{Instr, Shape};

/// Adds the operands that the form names, in the order of its text.
pub(crate) fn push_operands(
    text: &mut Vec<u8>,
    shape: Shape,
    instr: &Instr,
) -> Result<(), AllocError>
    ensures { OnOk result (text.new.items ≡ text.old.items
        ++ comma_separated (operand_texts shape instr.now)) }
{
    let dest = u32::from(instr.dest);
    let source = u32::from(instr.source);
    match shape {
        Shape::DestSourceA => {
            push_register(text, dest)?;
            push_comma(text)?;
            push_register(text, source)?;
            push_comma(text)?;
            push_last(text, instr)
        }
        Shape::DestA => {
            push_register(text, dest)?;
            push_comma(text)?;
            push_last(text, instr)
        }
        Shape::SourceA => {
            push_register(text, source)?;
            push_comma(text)?;
            push_last(text, instr)
        }
        Shape::OnlyA => push_last(text, instr),
        Shape::ADest => {
            push_last(text, instr)?;
            push_comma(text)?;
            push_register(text, dest)
        }
        Shape::Unused => Ok(()),
    }
}

/// Adds the operand A.
fn push_last(text: &mut Vec<u8>, instr: &Instr) -> Result<(), AllocError>
    ensures { OnOk result (text.new.items ≡ text.old.items ++ last_text instr.now) }
{
    if instr.imm {
        push_decimal(text, instr.a)
    } else {
        push_register(text, instr.a)
    }
}

/// Adds a register.
fn push_register(text: &mut Vec<u8>, number: u32) -> Result<(), AllocError>
    ensures { OnOk result (text.new.items ≡ text.old.items ++ register_text number) }
{
    text.push(b'r')?;
    push_decimal(text, number)
}

/// Adds what stands between two operands.
fn push_comma(text: &mut Vec<u8>) -> Result<(), AllocError>
    ensures { OnOk result (text.new.items ≡ text.old.items ++ codes ", ") }
{
    text.extend_from_slice(b", ")
}

/// Adds a number in decimal.
pub(crate) fn push_decimal(text: &mut Vec<u8>, number: u32) -> Result<(), AllocError>
    ensures { OnOk result (text.new.items ≡ text.old.items ++ decimal number) }
{
    let mut digits = Buffer::new();
    text.extend_from_slice(digits.format(number).as_bytes())
}
