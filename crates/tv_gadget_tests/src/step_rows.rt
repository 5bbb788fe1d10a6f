//! Each step of a run: its constraints all hold over the generator's values, and the state after
//! it is the machine's.
ghost use Rattle.std.specs.Prelude.{◌≤◌};
ghost use Rattle.tv_word.specs.Widths.{IsWidth};

use crate::step_program::{AUX, JUMPS, LATE_READ, LINES, TAPE};
use crate::step_trials::trial;
use std::alloc::Global;
use std::test::Fail;
use tv_asm::{assemble, width};
use tv_step::{Trace, TraceState, trace};

// The trace of a program at a width, of at most this many steps.
fn run_of<const W: u32>(alloc: Global, lines: &str, steps: u32) -> Result<Trace, Fail>
    requires width { IsWidth W }
    requires few { steps ≤ 64 }
{
    let text = format!(in alloc; "; TinyRAM W={W}\n{lines}")?;
    if width(text.as_bytes()) != W {
        return Err(Fail::from("another width"));
    }
    let image = assemble::<W>(alloc, text.as_bytes(), 1024)?;
    Ok(trace::<W>(alloc, image.as_slice(), &TAPE, &AUX, steps)?)
}

// The old words of a step's three lines.
#[derive(Clone, Copy)]
struct Olds {
    words: [u32; 3],
}

// The state before the step at a place of a run, the old words of the step's lines, and the state
// after it; `None` after the run's end.
fn step_at(trace: &Trace, place: usize) -> Option<(&TraceState, Olds, &TraceState)>
    requires few { place ≤ 64 }
{
    let states = trace.states.as_slice();
    let lines = trace.lines.as_slice();
    let before = states.get(place)?;
    let after = states.get(place + 1)?;
    let olds = Olds {
        words: [
            lines.get(3 * place)?.old,
            lines.get(3 * place + 1)?.old,
            lines.get(3 * place + 2)?.old,
        ],
    };
    Some((before, olds, after))
}

// The first step of a program's run whose constraints, counted and tested as many as said, don't
// all hold over its values, or after which the state is not the machine's.
fn unmet<const W: u32>(
    alloc: Global,
    lines: &str,
    steps: u32,
    constraints: u32,
) -> Result<Option<usize>, Fail>
    requires width { IsWidth W }
    requires few { steps ≤ 64 }
{
    let trace = run_of::<W>(alloc, lines, steps)?;
    for place in 0..steps as usize {
        let Some((before, olds, after)) = step_at(&trace, place) else {
            return Ok(Some(place));
        };
        let aux = (after.aux != before.aux).then_some(AUX[0]);
        let made = trial::<W>(alloc, before, &olds.words, aux, after)?;
        if made != (constraints, constraints, constraints, true) {
            return Ok(Some(place));
        }
    }
    Ok(None)
}

#[test]
fn each_instruction_and_jump_is_met_by_its_values(rt: HostRuntime) -> Result<(), Fail> {
    for (lines, steps) in [(LINES, 36), (JUMPS, 4)] {
        let wide = unmet::<32>(rt.alloc(), lines, steps, 328)?;
        let narrow = unmet::<16>(rt.alloc(), lines, steps, 229)?;
        assert_eq!(rt; (wide, narrow), (None, None));
    }
    Ok(())
}

// Whether a read of the auxiliary tape after its end, for which a word is passed, is refused.
fn late_word_is_refused<const W: u32>(alloc: Global) -> Result<bool, Fail>
    requires width { IsWidth W }
{
    let trace = run_of::<W>(alloc, LINES, 36)?;
    let Some((before, olds, after)) = step_at(&trace, LATE_READ) else {
        return Err(Fail::from("no such step"));
    };
    let (_, tested, held, _) = trial::<W>(alloc, before, &olds.words, Some(7), after)?;
    Ok(before.ended && held < tested)
}

#[test]
fn no_word_is_taken_after_the_end(rt: HostRuntime) -> Result<(), Fail> {
    assert!(rt; late_word_is_refused::<32>(rt.alloc())? && late_word_is_refused::<16>(rt.alloc())?);
    Ok(())
}
