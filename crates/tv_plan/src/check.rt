//! `check SYSTEM WITNESS PUBLIC`: the three files, each read to its end and judged before the next,
//! and the verdict on them.
ghost use Rattle.std.specs.Prelude.{[], ◌∷◌, refl};
ghost use Rattle.tv_plan.specs.Check.{check_of, check_asks, check_flaws, check_form};
ghost use Rattle.tv_plan.specs.Finds.{Finds, reading};
ghost use Rattle.tv_plan.specs.Plan.{named};

use crate::containers::{judge_system, read_first_witness, survey_system};
use crate::job::Job;
use crate::place::Place;
use crate::refusal::{Finish, Refusal, Stop};
use crate::tapes::read_publics;
use std::alloc::Global;
use tv_check::Verdict;
use tv_files::Files;

/// The words of `check`.
#[derive(Clone, Copy)]
pub struct CheckArgs<'a> {
    pub(crate) system: Place<'a>,
    pub(crate) witness: Place<'a>,
    pub(crate) tape: Place<'a>,
}

impl<'a> Job<'a> for CheckArgs<'a> {
    ghost form = { check_form };

    ghost asks = { check_asks };

    fn read(words: &'a [String]) -> Result<CheckArgs<'a>, Refusal> {
        let [system, witness, tape] = words else {
            return Err(Refusal::Usage);
        };
        Ok(CheckArgs {
            system: Place::at(1, system.as_str()),
            witness: Place::at(2, witness.as_str()),
            tape: Place::at(3, tape.as_str()),
        })
    }

    fn perform<D: Files>(self, alloc: Global, files: &mut D) -> Result<Finish, Stop> {
        let verdict = verdict_on(alloc, files, self)?;
        Ok(Finish::Verdict(verdict))
    }

    ghost apart = { λ _. refl };
}

/// The verdict on the three files. The system is read twice, each time to its end, so that a fault
/// of it comes before any other file is read, and its constraints are tried without being kept. Of
/// the witness as many values are kept as the system has wires; where it has another number of
/// them, the system is read once more as for any other verdict.
fn verdict_on<D: Files>(alloc: Global, files: &mut D, args: CheckArgs<'_>) -> Result<Verdict, Stop>
    ensures { let args = args.entry in
        Finds (λ v. v) (reading (args.system.word ∷ args.witness.word ∷ args.tape.word ∷ [])
        (check_flaws args.tape.word)
        (check_of (named args.system) (named args.witness) (named args.tape)))
        (D.seen files.old) (D.seen files.new) result }
{
    let counts = survey_system(alloc, files, args.system)?;
    let first = read_first_witness(alloc, files, args.witness, counts.wires)?;
    let publics = read_publics(alloc, files, args.tape)?;
    if first.count == counts.wires {
        return judge_system(alloc, files, args.system, &first.values, &publics);
    }
    survey_system(alloc, files, args.system)?;
    Ok(Verdict::WireCount {
        has: u64::from(first.count),
        wants: u64::from(counts.wires),
    })
}
