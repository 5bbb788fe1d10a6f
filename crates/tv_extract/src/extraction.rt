//! The run that an assignment has, or what is wrong first.
ghost use Rattle.std.specs.Prelude.{◌≡◌, ◌*◌, ◌/◌, ◌<◌, ◌≤◌, ◌^◌, length};
ghost use Rattle.std.specs.Prelude.{slice_index, Ok, IfOk, IfErr};
ghost use Rattle.std.specs.List.{range_with_len};
ghost use Rattle.tv_block.specs.Block.{block_of};
ghost use Rattle.tv_layout.specs.Layout.{taken_wires};
ghost use Rattle.tv_layout.specs.Places.{WithinLimits, tape_at, runs_of};
ghost use Rattle.tv_word.specs.Widths.{IsWidth};
ghost use Rattle.tv_extract.specs.Extraction.{word_at, words_at, run_in, answering, IsFaultOf};

use crate::run::{ExtractFault, Run};
use std::alloc::Global;
use tv_core::{F, Wire};
use tv_layout::{ANSWER, spot, tape_wire, wires};
use tv_stages::Net;
use tv_step::{End, Machine, NotRun};
use tv_word::Words;

/// Returns the run that an assignment has of the system of an image, a tape of `n` words and `t`
/// steps. What is wrong is reported in this order: the number of values (`WireCount`); the first
/// public wire, or else the first word taken, in the order of steps, that is no word of `W` bits
/// (`WideWire`); how the run on these words ends where it doesn't answer the word at wire 1
/// (`NotARun`). A satisfying assignment has none of these faults. Takes the time of the run and
/// time linear in `n` and `t`, and memory for the words, twice, and for the machine.
///
/// The image fits in memory and has at most 131,072 words, `n` is at most 131,072, and `t` is from
/// 1 to 262,144.
#[tactic(auto, using(crate::proofs::ExtractLaws::extracted))]
pub fn extract<const W: u32>(
    alloc: Global,
    image: &[u32],
    n: u32,
    t: u32,
    net: Net,
    values: &[F],
) -> Result<Run, ExtractFault>
    requires fits { WithinLimits (runs_of W image.now n t) }
    requires image { length image.now * (W / 8) ≤ 2 ^ W }
    ensures run { IfOk result (λ run. run_in net (runs_of W image.now n t) values.now ≡ Ok run) }
    ensures fault { IfErr result (IsFaultOf (run_in net (runs_of W image.now n t) values.now)) }
{
    let wants = u64::from(wires::<W>(image, n, t, net));
    let has = values.len() as u64;
    if has != wants {
        return Err(ExtractFault::WireCount { has, wants });
    }
    let answer = word::<W>(values, ANSWER)?;
    let tape = tape_words::<W>(alloc, n, values)?;
    let aux = taken_words::<W>(alloc, image, n, t, net, values)?;
    let mut machine = Machine::<W>::start_on(alloc, image, tape.as_slice(), aux.as_slice())?;
    let end = machine.run(u64::from(t))?;
    Ok(answering(answer, tape, aux, end)?)
}

// The number at a wire, 0 where there is none.
fn number(values: &[F], wire: Wire) -> F
    ensures { result ≡ slice_index values.now wire }
{
    values.get(wire.0 as usize).copied().unwrap_or(F::ZERO)
}

// The word at a wire.
fn word<const W: u32>(values: &[F], wire: Wire) -> Result<u32, NotRun>
    requires width { IsWidth W }
    ensures is { result ≡ word_at W values.now wire }
{
    let number = number(values, wire).number();
    if number < 1 << W {
        Ok(number as u32)
    } else {
        Err(NotRun::WideWire {
            at: u64::from(wire.0),
        })
    }
}

// The words of the primary tape.
#[tactic(auto, using(crate::proofs::WordLaws::row_laws))]
fn tape_words<const W: u32>(alloc: Global, n: u32, values: &[F]) -> Result<Words, ExtractFault>
    requires width { IsWidth W }
    requires few { n < 2 ^ 29 }
    ensures words { IfOk result (λ words. words_at W values.now (range_with_len tape_at n)
        ≡ Ok words) }
    ensures fault { IfErr result (IsFaultOf (words_at W values.now (range_with_len tape_at n))) }
{
    let mut words = Words::new(alloc);
    for i in 0..n {
        words.push(word::<W>(values, tape_wire(i))?)?;
    }
    Ok(words)
}

// The words that the steps take.
#[tactic(auto, using(crate::proofs::TakenLaws::taken_laws))]
fn taken_words<const W: u32>(
    alloc: Global,
    image: &[u32],
    n: u32,
    t: u32,
    net: Net,
    values: &[F],
) -> Result<Words, ExtractFault>
    requires fits { WithinLimits (runs_of W image.now n t) }
    ensures words { IfOk result (λ words. words_at W values.now
        (taken_wires (block_of W) (runs_of W image.now n t) values.now) ≡ Ok words) }
    ensures fault { IfErr result (IsFaultOf
        (words_at W values.now (taken_wires (block_of W) (runs_of W image.now n t) values.now))) }
{
    let mut words = Words::new(alloc);
    for step in 0..t {
        let spot = spot::<W>(image, n, t, step, net);
        if number(values, spot.taken) == F::ONE {
            words.push(word::<W>(values, spot.word)?)?;
        }
    }
    Ok(words)
}

// The run that ends so, where it answers the word.
fn answering(answer: u32, tape: Words, aux: Words, end: End) -> Result<Run, NotRun>
    ensures { result ≡ answering answer tape aux end }
{
    match end {
        End::Answer { value, step } if value == answer => Ok(Run {
            answer,
            tape,
            aux,
            step,
        }),
        _ => Err(NotRun::NotARun { end }),
    }
}
