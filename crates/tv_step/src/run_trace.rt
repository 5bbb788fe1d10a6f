//! The trace of a run that answers.
ghost use Rattle.std.specs.Prelude.{◌≡◌, ◌+◌, ◌*◌, ◌≤◌, ◌<◌, ◌^◌, ◌/◌, All, length, max, IfOk};
ghost use Rattle.std.specs.Prelude.{IfErr};
ghost use Rattle.tv_word.specs.Widths.{IsWidth};
ghost use Rattle.tv_step.specs.Machine.{start, end_of};
ghost use Rattle.tv_step.specs.Trace.{lines_of, states_of};
ghost use Rattle.tv_step.specs.RunTrace.{IsTrace, IsRefused};
ghost use Rattle.tv_step.specs.Views.{state_of};
ghost use Rattle.tv_step.specs.declared.run_trace.TraceFault.TheVariants.{Memory};

use crate::end::End;
use crate::lines::{Lines, States, Trace};
use crate::state::Machine;
use std::alloc::{AllocError, Global};
use thiserror::Error;

/// Why there is no trace.
#[derive(Clone, Copy, PartialEq, Eq, Debug, Error)]
pub enum TraceFault {
    /// The run doesn't answer within its steps; this is how it ends.
    #[error("no answer")]
    NoRun {
        /// Its end.
        end: End,
    },
    /// Memory ran out.
    #[error("out of memory")]
    Memory,
}

impl From<AllocError> for TraceFault {
    ghost from_gives = { λ _ fault. fault ≡ Memory };

    fn from(_: AllocError) -> TraceFault {
        TraceFault::Memory
    }
}

// The lines and states of `t` steps of a machine, the tapes having had `n` and `m` words, the first
// line at a time. Room for all of them is made at once, and so nothing is copied later.
fn record<const W: u32>(
    alloc: Global,
    machine: &mut Machine<W>,
    n: u32,
    m: u32,
    time: u32,
    t: u32,
) -> Result<(Lines, States), AllocError>
    requires width { IsWidth W }
    requires short { n < 2 ^ 29 }
    requires times { time + 3 * t < 2 ^ 32 }
    ensures lines { IfOk result (λ recorded. recorded.0
        ≡ lines_of W n time (state_of machine.old) t) }
    ensures states { IfOk result (λ recorded. recorded.1
        ≡ states_of W n m (state_of machine.old) t) }
{
    let steps = t as usize;
    let mut lines = Vec::with_capacity(alloc, 3 * steps)?;
    let mut states = Vec::with_capacity(alloc, steps + 1)?;
    let mut ended = false;
    states.push(machine.recorded(n, m, ended))?;
    for taken in 0..t {
        let step = machine.record_step(n, time + 3 * taken, ended)?;
        ended = step.ended;
        lines.extend_from_slice(&step.lines)?;
        states.push(machine.recorded(n, m, ended))?;
    }
    Ok((lines.into(), states.into()))
}

// How the run of at most `t` steps on an image and two tapes ends.
fn end_of_run<const W: u32>(
    alloc: Global,
    image: &[u32],
    tape: &[u32],
    aux: &[u32],
    t: u32,
) -> Result<End, AllocError>
    requires width { IsWidth W }
    requires image { length image.now * (W / 8) ≤ 2 ^ W }
    requires tape { All (λ v. v < 2 ^ W) tape.now }
    requires aux { All (λ v. v < 2 ^ W) aux.now }
    ensures { IfOk result (λ end. end ≡ end_of W t (start W image.now tape.now aux.now)) }
{
    Machine::<W>::start_on(alloc, image, tape, aux)?.run(u64::from(t))
}

// The lines and states of `t` steps of that run.
fn record_run<const W: u32>(
    alloc: Global,
    image: &[u32],
    tape: &[u32],
    aux: &[u32],
    t: u32,
) -> Result<(Lines, States), AllocError>
    requires width { IsWidth W }
    requires tape_words { All (λ v. v < 2 ^ W) tape.now }
    requires aux_words { All (λ v. v < 2 ^ W) aux.now }
    requires image { length image.now * (W / 8) ≤ 2 ^ W }
    requires tape { length tape.now < 2 ^ 29 }
    requires counts { max (length aux.now) (length image.now + length tape.now + 3 * t) < 2 ^ 32 }
    ensures lines { IfOk result (λ recorded. recorded.0
        ≡ lines_of W (length tape.now) (length image.now + length tape.now)
        (start W image.now tape.now aux.now) t) }
    ensures states { IfOk result (λ recorded. recorded.1
        ≡ states_of W (length tape.now) (length aux.now) (start W image.now tape.now aux.now) t) }
{
    let mut machine = Machine::<W>::start_on(alloc, image, tape, aux)?;
    let (n, m) = (tape.len() as u32, aux.len() as u32);
    record::<W>(alloc, &mut machine, n, m, image.len() as u32 + n, t)
}

/// Returns the trace of the run of at most `t` steps on an image and two tapes: the value that it
/// answers, three lines a step, whose times begin after those of the image's words and the primary
/// tape's, and `t + 1` states. An answering step comes again until step `t`. `NoRun` comes exactly
/// where the run answers nothing, with how it ends, and `Memory` only where memory runs out. Takes
/// the run's time twice.
///
/// Words have `W` bits, 16 or 32, and the image fits in memory. The primary tape has fewer than
/// 2^29 words, the auxiliary one fewer than 2^32, and boot lines and lines are fewer than 2^32.
pub fn trace<const W: u32>(
    alloc: Global,
    image: &[u32],
    tape: &[u32],
    aux: &[u32],
    t: u32,
) -> Result<Trace, TraceFault>
    requires width { IsWidth W }
    requires tape_words { All (λ v. v < 2 ^ W) tape.now }
    requires aux_words { All (λ v. v < 2 ^ W) aux.now }
    requires image { length image.now * (W / 8) ≤ 2 ^ W }
    requires tape { length tape.now < 2 ^ 29 }
    requires counts { max (length aux.now) (length image.now + length tape.now + 3 * t) < 2 ^ 32 }
    ensures trace { IfOk result (IsTrace W image.now tape.now aux.now t) }
    ensures fault { IfErr result (IsRefused W image.now tape.now aux.now t) }
{
    let end = end_of_run::<W>(alloc, image, tape, aux, t)?;
    let answer = match end {
        End::Answer { value, .. } => value,
        End::Undefined { .. } | End::Silent { .. } => return Err(TraceFault::NoRun { end }),
    };
    let (lines, states) = record_run::<W>(alloc, image, tape, aux, t)?;
    Ok(Trace {
        answer,
        lines,
        states,
    })
}
