//! `run TEXT TAPE AUX T`: the machine's run on a program and two tapes.
ghost use Rattle.std.specs.Prelude.{◌≡◌, ◌*◌, ◌/◌, ◌≤◌, ◌^◌, length, IfOk, refl};
ghost use Rattle.tv_step.specs.Machine.{start, end_of};
ghost use Rattle.tv_step.specs.Range.{AreWords};
ghost use Rattle.tv_word.specs.Widths.{IsWidth};
ghost use Rattle.tv_plan.specs.Inputs.{AreInputs, run_end};
ghost use Rattle.tv_plan.specs.Run.{run_asks, run_form};

use crate::amount::Steps;
use crate::inputs::{Inputs, read_inputs};
use crate::job::Job;
use crate::place::Place;
use crate::programs::Width;
use crate::refusal::{Finish, Refusal, Stop, What};
use std::alloc::{AllocError, Global};
use tv_files::Files;
use tv_step::{End, Machine};
use tv_word::{Words, decimal_of};

/// The words of `run`.
#[derive(Drop)]
pub struct RunArgs<'a> {
    pub(crate) text: Place<'a>,
    pub(crate) tape: Place<'a>,
    pub(crate) aux: Place<'a>,
    /// The most steps.
    pub(crate) t: Steps,
}

impl<'a> Job<'a> for RunArgs<'a> {
    ghost form = { run_form };

    ghost asks = { run_asks };

    fn read(words: &'a [String]) -> Result<RunArgs<'a>, Refusal> {
        let [text, tape, aux, t] = words else {
            return Err(Refusal::Usage);
        };
        let t = decimal_of(t.as_bytes()).ok_or(Refusal::Usage)?;
        Ok(RunArgs {
            text: Place::at(1, text.as_str()),
            tape: Place::at(2, tape.as_str()),
            aux: Place::at(3, aux.as_str()),
            t: Steps::of(What::Steps, t)?,
        })
    }

    fn perform<D: Files>(self, alloc: Global, files: &mut D) -> Result<Finish, Stop> {
        let inputs = read_inputs(alloc, files, self.text, self.tape, self.aux)?;
        let end = end_of_run(alloc, inputs, &self.t)?;
        Ok(Finish::Run(end))
    }

    ghost apart = { λ _. refl };
}

/// The end of the machine's run on an image and two tapes, of at most `t` steps.
fn end_on<const W: u32>(
    alloc: Global,
    image: &[u32],
    tape: Words,
    aux: Words,
    steps: u64,
) -> Result<End, AllocError>
    requires width { IsWidth W }
    requires image { length image.now * (W / 8) ≤ 2 ^ W }
    requires tape { AreWords W tape }
    requires aux { AreWords W aux }
    ensures { IfOk result (λ end. end ≡ end_of W steps (start W image.now tape aux)) }
{
    let mut machine = Machine::<W>::start(alloc, image, tape, aux)?;
    machine.run(steps)
}

/// The end of the run of a program on its tapes.
fn end_of_run(alloc: Global, inputs: Inputs, steps: &Steps) -> Result<End, AllocError>
    requires { AreInputs inputs }
    ensures { IfOk result (λ end. end ≡ run_end steps.now inputs) }
{
    let Inputs { program, tape, aux } = inputs;
    let image = program.words.as_slice();
    let steps = u64::from(steps.number());
    match program.width {
        Width::Bits16 => end_on::<16>(alloc, image, tape, aux, steps),
        Width::Bits32 => end_on::<32>(alloc, image, tape, aux, steps),
    }
}
