//! The two words of an instruction, from its name and operands.
ghost use Rattle.std.specs.Prelude.{◌≡◌, ◌<◌, ◌≤◌, length, IfOk};
ghost use Rattle.std.specs.List.{position_or_len};
ghost use Rattle.tv_asm.specs.Instruction.{operands_in, operand_at, operand_count, fields, counted};
ghost use Rattle.tv_asm.specs.Instruction.{raw_words, table_words, words_of};
ghost use Rattle.tv_asm.specs.Text.{is_blank};
ghost use Rattle.tv_asm.specs.Views.{address_in};
ghost use Rattle.tv_isa.specs.Instruction.{IsInstruction};
ghost use Rattle.tv_word.specs.Widths.{IsWidth};

use crate::fault::AsmWhy;
use crate::labels::Labels;
use crate::operand::{Operand, number, register};
use crate::text::{cut, is_blank, trimmed};
use tv_isa::{Instr, Operation, Shape, encode, operation_named};

/// Returns the two words of an instruction.
#[tactic(auto, unfolding(crate::specs::Instruction::words_of))]
pub(crate) fn words_of<const W: u32>(text: &[u8], labels: &Labels<'_>) -> Result<[u32; 2], AsmWhy>
    requires { IsWidth W }
    ensures { result ≡ words_of W (address_in labels.now) text.now }
{
    let (name, operands) = text.split_at(name_end(text));
    if name == b".raw".as_slice() {
        raw_words::<W>(operands)
    } else {
        table_words::<W>(name, operands, labels)
    }
}

/// Returns where an instruction's name ends.
fn name_end(text: &[u8]) -> usize
    ensures end { result ≡ position_or_len is_blank text.now }
    ensures within { result ≤ length text.now }
{
    text.iter().take_while(|byte| !is_blank(**byte)).count()
}

/// Returns two numbers, as they are.
fn raw_words<const W: u32>(text: &[u8]) -> Result<[u32; 2], AsmWhy>
    requires { IsWidth W }
    ensures { result ≡ raw_words W (operands_in text.now) }
{
    check_count(text, 2)?;
    let (h, a, _) = operands(text);
    let h = number::<W>(h)?;
    let a = number::<W>(a)?;
    Ok([h, a])
}

/// Returns the words of an instruction of the table.
fn table_words<const W: u32>(
    name: &[u8],
    text: &[u8],
    labels: &Labels<'_>,
) -> Result<[u32; 2], AsmWhy>
    requires { IsWidth W }
    ensures { result ≡ table_words W (address_in labels.now) name.now (operands_in text.now) }
{
    let operation = operation_named(name).ok_or(AsmWhy::UnknownName)?;
    check_count(text, operand_count(operation.shape))?;
    let instr = fields::<W>(operation, text, labels)?;
    Ok(encode::<W>(&instr))
}

fn operand_count(shape: Shape) -> u64
    ensures { result ≡ operand_count shape }
{
    match shape {
        Shape::DestSourceA => 3,
        Shape::DestA | Shape::SourceA | Shape::ADest => 2,
        Shape::OnlyA => 1,
        Shape::Unused => 0,
    }
}

fn check_count(text: &[u8], wants: u64) -> Result<(), AsmWhy>
    ensures { result ≡ counted (operands_in text.now) wants }
{
    let has = count(text);
    if has == wants {
        Ok(())
    } else {
        Err(AsmWhy::Operands { has, wants })
    }
}

/// Returns how many operands stand after a name.
fn count(text: &[u8]) -> u64
    ensures { result ≡ length (operands_in text.now) }
{
    if text.is_empty() {
        return 0;
    }
    text.iter().filter(|byte| **byte == b',').count() as u64 + 1
}

/// Returns the first three operands, empty where there are fewer.
fn operands(text: &[u8]) -> (&[u8], &[u8], &[u8])
    ensures first { result.0.now ≡ operand_at (operands_in text.now) 0 }
    ensures second { result.1.now ≡ operand_at (operands_in text.now) 1 }
    ensures third { result.2.now ≡ operand_at (operands_in text.now) 2 }
{
    let (first, rest) = cut(text, b',');
    let (second, rest) = cut(rest, b',');
    let (third, _) = cut(rest, b',');
    (trimmed(first), trimmed(second), trimmed(third))
}

/// Returns the fields of an instruction of the table, from its operands.
fn fields<const W: u32>(
    operation: Operation,
    text: &[u8],
    labels: &Labels<'_>,
) -> Result<Instr, AsmWhy>
    requires width { IsWidth W }
    requires used { operation.op < 32 }
    ensures value { result ≡ fields W (address_in labels.now) operation.op operation.shape
        (operand_at (operands_in text.now)) }
    ensures range { IfOk result IsInstruction }
{
    let op = operation.op;
    let (first, second, third) = operands(text);
    let (dest, source, last) = match operation.shape {
        Shape::DestSourceA => {
            let dest = register(first)?;
            let source = register(second)?;
            let last = Operand::of::<W>(third, labels)?;
            (dest, source, last)
        }
        Shape::DestA => {
            let dest = register(first)?;
            let last = Operand::of::<W>(second, labels)?;
            (dest, 0, last)
        }
        Shape::SourceA => {
            let source = register(first)?;
            let last = Operand::of::<W>(second, labels)?;
            (0, source, last)
        }
        Shape::OnlyA => {
            let last = Operand::of::<W>(first, labels)?;
            (0, 0, last)
        }
        Shape::ADest => {
            let last = Operand::of::<W>(first, labels)?;
            let dest = register(second)?;
            (dest, 0, last)
        }
        Shape::Unused => return Err(AsmWhy::UnknownName),
    };
    Ok(Instr {
        op,
        imm: last.imm,
        dest,
        source,
        a: last.a,
    })
}
