//! The line of a step.
ghost use Rattle.std.specs.Prelude.{◌≡◌, ◌++◌, ◌<◌, OnOk, decimal};
ghost use Rattle.tv_step.specs.State.{State};
ghost use Rattle.tv_step.specs.Views.{state_of};
ghost use Rattle.tv_word.specs.Widths.{IsWidth};
ghost use Rattle.tv_trace.specs.Before.{before_of};
ghost use Rattle.tv_trace.specs.Line.{begin_text, changes_text, changed, ends_text, step_text};

use crate::before::{Before, Left};
use itoa::Buffer;
use std::alloc::AllocError;
use tv_disasm::push_line;
use tv_step::Machine;

/// Adds the line of a step, the machine having taken it. So many words are taken of each tape.
#[tactic(auto, unfolding(crate::specs::Line::step_text))]
pub(crate) fn push_step<const W: u32>(
    text: &mut Vec<u8>,
    step: u64,
    before: &Before,
    machine: &Machine<W>,
    taken: Left,
) -> Result<(), AllocError>
    requires width { IsWidth W }
    requires range { before.now.instr.dest < 16 }
    ensures { OnOk result (text.new.items ≡ text.old.items
        ++ step_text W step before.now (state_of machine.now) taken) }
{
    push_begin::<W>(text, step, before)?;
    push_changes(text, before, machine)?;
    push_ends(text, machine.flag(), taken)
}

/// Adds the step's number, the program counter and the instruction.
fn push_begin<const W: u32>(
    text: &mut Vec<u8>,
    step: u64,
    before: &Before,
) -> Result<(), AllocError>
    requires width { IsWidth W }
    ensures { OnOk result (text.new.items ≡ text.old.items ++ begin_text W step before.now) }
{
    push_number(text, step)?;
    text.push(b' ')?;
    push_number(text, u64::from(before.pc))?;
    text.push(b' ')?;
    push_line::<W>(text, before.first, before.second)
}

/// Adds the register and the word of memory that the step has changed.
fn push_changes<const W: u32>(
    text: &mut Vec<u8>,
    before: &Before,
    machine: &Machine<W>,
) -> Result<(), AllocError>
    requires width { IsWidth W }
    requires range { before.now.instr.dest < 16 }
    ensures { OnOk result (text.new.items ≡ text.old.items
        ++ changes_text W before.now (state_of machine.now)) }
{
    let dest = u32::from(before.instr.dest);
    push_changed(text, "r", dest, before.held, machine.reg(dest))?;
    let (at, word) = (before.operand, machine.word_at(before.operand));
    push_changed(text, "cell ", at / (W / 8), before.word, word)
}

/// Adds a word that has changed, by the name and the number of its place.
fn push_changed(
    text: &mut Vec<u8>,
    name: &str,
    number: u32,
    old: u32,
    new: u32,
) -> Result<(), AllocError>
    ensures { OnOk result (text.new.items ≡ text.old.items
        ++ changed name.now number old new) }
{
    if old == new {
        return Ok(());
    }
    text.extend_from_slice(b"; ")?;
    text.extend_from_slice(name.as_bytes())?;
    push_number(text, u64::from(number))?;
    text.push(b' ')?;
    push_number(text, u64::from(old))?;
    text.extend_from_slice(b" -> ")?;
    push_number(text, u64::from(new))
}

/// Adds the flag, how many words are taken of each tape, and the line's end.
fn push_ends(text: &mut Vec<u8>, flag: bool, taken: Left) -> Result<(), AllocError>
    ensures { OnOk result (text.new.items ≡ text.old.items ++ ends_text flag taken) }
{
    text.extend_from_slice(b"; flag ")?;
    text.push(if flag { b'1' } else { b'0' })?;
    text.extend_from_slice(b"; taken ")?;
    push_number(text, taken.primary as u64)?;
    text.push(b' ')?;
    push_number(text, taken.aux as u64)?;
    text.push(b'\n')?;
    Ok(())
}

/// Adds a number in decimal.
fn push_number(text: &mut Vec<u8>, number: u64) -> Result<(), AllocError>
    ensures { OnOk result (text.new.items ≡ text.old.items ++ decimal number) }
{
    let mut digits = Buffer::new();
    text.extend_from_slice(digits.format(number).as_bytes())
}
