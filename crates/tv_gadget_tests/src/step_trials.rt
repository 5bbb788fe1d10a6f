//! A state at the first wires, and a step after it.
ghost use Rattle.std.specs.Prelude.{◌≡◌, ◌<◌, ◌^◌, true, false, IfOk};
ghost use Rattle.tv_block.specs.Values.{numbers_view};
ghost use Rattle.tv_numbers.specs.Views.{ViewInRange};
ghost use Rattle.tv_inputs.specs.States.{StateUnder};
ghost use Rattle.tv_step.specs.Range.{AreWords};
ghost use Rattle.tv_word.specs.Widths.{IsWidth};

use crate::assignments::at;
use std::alloc::Global;
use std::test::Fail;
use tv_block::{StateNum, StateWires, block, fill_block};
use tv_core::{CountSink, F, ListValues, Put, TestSink, Wire, give_values, give_words};
use tv_regs::wires_from;
use tv_step::TraceState;

/// The first wire of the step: after wire 0 stand the program counter, the registers, the flag,
/// the words taken and the ended bit.
pub const FIRST: Wire = Wire(21);

/// The wires of the state before it.
pub fn state_wires() -> StateWires
    ensures { StateUnder 21 result }
{
    StateWires {
        pc: Wire(1),
        regs: wires_from(Wire(2)),
        flag: Wire(18),
        taken_of_primary: Wire(19),
        aux_ended: Wire(20),
    }
}

// The numbers of a state of a trace.
fn numbers(state: &TraceState) -> StateNum {
    StateNum {
        pc: state.pc,
        regs: state.regs,
        flag: state.flag,
        taken_of_primary: state.primary,
        aux_ended: state.ended,
    }
}

fn is_word<const W: u32>(word: u32) -> bool
    requires width { IsWidth W }
    ensures { result ≡ true → word < 2 ^ W }
{
    u64::from(word) < 1 << W
}

fn are_words<const W: u32>(words: &[u32; 16]) -> bool
    requires width { IsWidth W }
    ensures { result ≡ true → AreWords W words.now }
{
    for word in words {
        if !is_word::<W>(*word) {
            return false;
        }
    }
    true
}

fn is_in_range<const W: u32>(n: u32, state: &StateNum) -> bool
    requires width { IsWidth W }
    ensures { result ≡ true → ViewInRange W n (numbers_view state.now) }
{
    is_word::<W>(state.pc)
        && state.pc % (W / 4) == 0
        && are_words::<W>(&state.regs)
        && state.taken_of_primary <= n
}

// 1 and the numbers of a state.
fn inputs(alloc: Global, state: &StateNum) -> Put<ListValues>
    ensures { IfOk result (λ values. values.broken ≡ false) }
{
    let mut values = ListValues::new(alloc);
    give_values(&mut values, &[F::ONE, F::from(state.pc)])?;
    give_words(&mut values, &state.regs)?;
    let (flag, ended) = (F::from(state.flag), F::from(state.aux_ended));
    give_values(&mut values, &[flag, F::from(state.taken_of_primary), ended])?;
    Ok(values)
}

// Whether the wires of a state hold the numbers of one.
fn holds(values: &[F], wires: &StateWires, state: &StateNum) -> bool {
    let others = [
        (wires.pc, state.pc),
        (wires.flag, u32::from(state.flag)),
        (wires.taken_of_primary, state.taken_of_primary),
        (wires.aux_ended, u32::from(state.aux_ended)),
    ];
    for (wire, number) in wires.regs.iter().copied().zip(state.regs).chain(others) {
        if at(values, wire.0) != F::from(number) {
            return false;
        }
    }
    true
}

/// Returns, of a step from `before`, how many constraints a sink counts, how many are tested over
/// its values and how many of these hold, and whether the wires of the state after it hold the
/// numbers of `after`. It is given the old words of its three lines, and the word that it takes of
/// the auxiliary tape; the primary tape has one word. An error where what is given is out of range.
pub fn trial<const W: u32>(
    alloc: Global,
    before: &TraceState,
    olds: &[u32; 3],
    aux: Option<u32>,
    after: &TraceState,
) -> Result<(u32, u32, u32, bool), Fail>
    requires width { IsWidth W }
{
    let state = numbers(before);
    let data = match aux {
        Some(word) => word,
        None => olds[2],
    };
    if !is_in_range::<W>(1, &state) || !is_word::<W>(olds[1]) || !is_word::<W>(data) {
        return Err(Fail::from("out of range"));
    }
    let mut values = inputs(alloc, &state)?;
    fill_block::<W, ListValues>(&mut values, &state, 1, 0, olds, aux)?;
    let mut count = CountSink::new(FIRST.0);
    block::<W, CountSink>(&mut count, &state_wires(), 1, 0)?;
    let mut tests = TestSink::over(values.as_slice(), FIRST.0);
    let made = block::<W, TestSink>(&mut tests, &state_wires(), 1, 0)?;
    let reaches = holds(values.as_slice(), &made.next, &numbers(after));
    Ok((count.constraints(), tests.tested(), tests.held(), reaches))
}
