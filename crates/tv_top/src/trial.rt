//! `trial SEED K`: the system of a program drawn from a number, tested on the values of its run.
ghost use Rattle.std.specs.Prelude.{◌≡◌, ◌^◌, ◌<◌, ◌≤◌, length, IfOk, refl};
ghost use Rattle.tv_stages.specs.declared.nets.Net.TheVariants.{Benes};
ghost use Rattle.tv_core.specs.declared.limits.TheConstants.{DRAWS};
ghost use Rattle.tv_layout.specs.Places.{WithinLimits, runs_of, runs_like};
ghost use Rattle.tv_layout.specs.RunInputs.{run_on};
ghost use Rattle.tv_layout.specs.Systems.{system_of, run_values};
ghost use Rattle.tv_step.specs.Machine.{Accepts};
ghost use Rattle.tv_step.specs.Range.{AreWords};
ghost use Rattle.tv_top.specs.Trial.{tested, trial_of, trial_asks, trial_form};

use crate::words::number;
use std::alloc::{AllocError, Global};
use tv_core::{F, ListValues, TestSink};
use tv_draw::draw;
use tv_files::Files;
use tv_fill::{FillFault, fill_system};
use tv_layout::{emit_system, public_wires, sizes};
use tv_plan::{Draws, Finish, Job, Refusal, Stop, Trial, What};
use tv_stages::Net;

/// The words of `trial`.
#[derive(Drop)]
pub(crate) struct TrialArgs {
    pub(crate) seed: u64,
    /// How many instructions are drawn.
    pub(crate) k: Draws,
}

impl<'a> Job<'a> for TrialArgs {
    ghost form = { trial_form };

    ghost asks = { trial_asks };

    fn read(words: &'a [String]) -> Result<TrialArgs, Refusal> {
        let [seed, k] = words else {
            return Err(Refusal::Usage);
        };
        let (Some(seed), Some(k)) = (number(seed), number(k)) else {
            return Err(Refusal::Usage);
        };
        Ok(TrialArgs {
            seed,
            k: Draws::of(What::Draws, k)?,
        })
    }

    fn perform<D: Files>(self, alloc: Global, files: &mut D) -> Result<Finish, Stop> {
        let trial = trial_of(alloc, self.seed, self.k.number())?;
        Ok(Finish::Trial(trial))
    }

    ghost apart = { λ _. refl };
}

/// The values of the system of a run that answers 0 at a step of at most `t`.
fn values_of(
    alloc: Global,
    image: &[u32],
    tape: &[u32],
    aux: &[u32],
    t: u32,
) -> Result<ListValues, AllocError>
    requires limits { WithinLimits (runs_like 32 image.now tape.now t) }
    requires tape { AreWords 32 tape.now }
    requires aux { AreWords 32 aux.now }
    requires aux_few { length aux.now < 2 ^ 32 }
    requires accepts { Accepts 32 image.now tape.now aux.now t 0 }
    ensures { IfOk result (λ values.
        values.list ≡ run_values Benes (run_on 32 image.now tape.now aux.now t) 0) }
{
    let mut values = ListValues::new(alloc);
    match fill_system::<32, ListValues>(alloc, image, tape, aux, t, Net::Benes, &mut values) {
        Ok(()) => Ok(values),
        Err(FillFault::NoRun { .. }) => unreachable!(),
        Err(FillFault::Failed) => unreachable!(),
        Err(FillFault::Memory) => Err(AllocError),
    }
}

/// The system of an image's runs of `t` steps on tapes of `n` words, tested on these values.
fn tested(image: &[u32], n: u32, t: u32, z: &[F]) -> Trial
    requires { WithinLimits (runs_of 32 image.now n t) }
    ensures { result ≡ tested t (system_of Benes (runs_of 32 image.now n t)) z.now }
{
    let counts = sizes::<32>(image, n, t, Net::Benes);
    let mut tests = TestSink::over(z, public_wires(n));
    match emit_system::<32, TestSink>(image, n, t, Net::Benes, &mut tests) {
        Ok(()) => Trial {
            steps: t,
            wires: counts.wires,
            constraints: counts.constraints,
            sum: tests.sum().number(),
            satisfied: tests.held(),
        },
        Err(_) => unreachable!(),
    }
}

/// Draws a program of `k` instructions and tests its system on the values of its run.
#[tactic(auto, unfolding(crate::specs::Trial::trial_of))]
fn trial_of(alloc: Global, seed: u64, k: u32) -> Result<Trial, AllocError>
    requires { k ≤ DRAWS }
    ensures { IfOk result (λ trial. trial ≡ trial_of seed k) }
{
    let drawn = draw(alloc, seed, k)?;
    let image = drawn.image.as_slice();
    let tape = drawn.tape.as_slice();
    let values = values_of(alloc, image, tape, drawn.aux.as_slice(), k + 1)?;
    Ok(tested(image, tape.len() as u32, k + 1, values.as_slice()))
}
