//! The text of a run.
ghost use Rattle.std.specs.Prelude.{◌≡◌, ◌++◌, ◌||◌, ◌*◌, ◌/◌, ◌≤◌, ◌^◌, length, IfOk, OnOk};
ghost use Rattle.tv_step.specs.Machine.{start, end_of, next, state_after};
ghost use Rattle.tv_step.specs.Range.{AreWords, StateInRange};
ghost use Rattle.tv_step.specs.State.{State};
ghost use Rattle.tv_step.specs.Views.{state_of, CameTo};
ghost use Rattle.tv_word.specs.Widths.{IsWidth};
ghost use Rattle.tv_trace.specs.Before.{left_of};
ghost use Rattle.tv_trace.specs.Trace.{lines_of, line_of, is_shown, is_unused, taken_by};
ghost use Rattle.tv_trace.specs.Trace.{trace_text};

use crate::before::{Before, Left};
use crate::line::push_step;
use std::alloc::{AllocError, Global};
use tv_step::{End, Machine, Outcome};

/// Which steps have a line: as many as `count`, from step `from` on. Steps count from 1.
#[derive(Clone, Copy)]
pub struct Shown {
    /// The first step.
    pub from: u64,
    /// How many steps.
    pub count: u64,
}

impl Shown {
    /// Returns whether a step has a line.
    fn has(self, step: u64) -> bool
        ensures { result ≡ is_shown self step }
    {
        step >= self.from && step - self.from < self.count
    }
}

/// The text of a run, and how the run ends.
#[derive(Drop)]
pub struct Traced {
    /// The lines.
    pub text: Vec<u8>,
    /// The end.
    pub end: End,
}

/// What the lines of a run are made for: the lengths of the whole tapes, and the steps shown.
#[derive(Clone, Copy)]
struct Tracing {
    tapes: Left,
    shown: Shown,
}

impl Tracing {
    /// Returns whether a step that led to this has a line.
    fn shows(self, step: u64, outcome: Outcome) -> bool
        ensures { result ≡ (is_shown self.shown step || is_unused outcome) }
    {
        self.shown.has(step) || matches!(outcome, Outcome::Undefined { .. })
    }

    /// Returns how many words are taken where so many are left.
    fn taken(self, left: Left) -> Left
        requires primary { left.primary ≤ self.tapes.primary }
        requires aux { left.aux ≤ self.tapes.aux }
        ensures { result ≡ taken_by self.tapes left }
    {
        Left {
            primary: self.tapes.primary - left.primary,
            aux: self.tapes.aux - left.aux,
        }
    }
}

/// Takes a step, and adds its line where it is shown, or where its opcode isn't used.
fn trace_step<const W: u32>(
    text: &mut Vec<u8>,
    machine: &mut Machine<W>,
    left: &mut Left,
    step: u64,
    tracing: Tracing,
) -> Result<Outcome, AllocError>
    requires width { IsWidth W }
    requires range { StateInRange W (state_of machine.old) }
    requires left { left.old ≡ left_of (state_of machine.old) }
    requires primary { left.old.primary ≤ tracing.tapes.primary }
    requires aux { left.old.aux ≤ tracing.tapes.aux }
    ensures text { OnOk result (text.new.items ≡ text.old.items
        ++ line_of W tracing.tapes tracing.shown step (state_of machine.old)) }
    ensures came { IfOk result (λ outcome. CameTo (next W (state_of machine.old)) outcome
        (state_of machine.old) (state_of machine.new)) }
    ensures left { OnOk result (left.new ≡ left_of (state_of machine.new)) }
{
    let before = Before::of(machine);
    let outcome = machine.step()?;
    *left = left.after(&before);
    if tracing.shows(step, outcome) {
        push_step(text, step, &before, machine, tracing.taken(*left))?;
    }
    Ok(outcome)
}

/// Adds the lines of at most `t` steps of a machine, and returns how it ends.
fn trace_steps<const W: u32>(
    text: &mut Vec<u8>,
    machine: &mut Machine<W>,
    t: u64,
    tracing: Tracing,
) -> Result<End, AllocError>
    requires width { IsWidth W }
    requires range { StateInRange W (state_of machine.old) }
    requires whole { tracing.tapes ≡ left_of (state_of machine.old) }
    ensures text { OnOk result (text.new.items ≡ text.old.items
        ++ lines_of W tracing.tapes tracing.shown t (state_of machine.old)) }
    ensures end { IfOk result (λ end. end ≡ end_of W t (state_of machine.old)) }
{
    let mut left = tracing.tapes;
    for taken in 0..t {
        let step = taken + 1;
        match trace_step::<W>(text, machine, &mut left, step, tracing)? {
            Outcome::Gone => {}
            Outcome::Answered { value } => return Ok(End::Answer { value, step }),
            Outcome::Undefined { op } => return Ok(End::Undefined { op, step }),
        }
    }
    Ok(End::Silent { steps: t })
}

/// Returns the text of the run of at most `t` steps on an image and two tapes, and how it ends. A
/// step that is shown has a line: its number, the program counter, the instruction as the
/// disassembler writes it, the register and the cell of memory that it changes, each with the old
/// word and the new one, the flag, and how many words are taken of the two tapes. A step whose
/// opcode isn't used always has its line. The machine stops at it, and at an answer, and these
/// change nothing.
///
/// Words have `W` bits, 16 or 32, and the image fits in memory. A line has at most 200 bytes.
/// Memory holds the text, the tapes and what the run writes.
pub fn trace_text<const W: u32>(
    alloc: Global,
    image: &[u32],
    tape: &[u32],
    aux: &[u32],
    t: u64,
    shown: Shown,
) -> Result<Traced, AllocError>
    requires width { IsWidth W }
    requires image { length image.now * (W / 8) ≤ 2 ^ W }
    requires tape { AreWords W tape.now }
    requires aux { AreWords W aux.now }
    ensures text { IfOk result (λ traced. traced.text.items ≡
        trace_text W shown t (start W image.now tape.now aux.now)) }
    ensures end { IfOk result (λ traced. traced.end ≡
        end_of W t (start W image.now tape.now aux.now)) }
{
    let mut machine = Machine::<W>::start_on(alloc, image, tape, aux)?;
    let mut text = Vec::new(alloc);
    let tapes = Left {
        primary: tape.len(),
        aux: aux.len(),
    };
    let end = trace_steps::<W>(&mut text, &mut machine, t, Tracing { tapes, shown })?;
    Ok(Traced { text, end })
}
