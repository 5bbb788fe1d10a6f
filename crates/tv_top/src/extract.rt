//! `extract TEXT N T WITNESS TAPE AUX`, which may have one more word, `waksman`: the run that an
//! assignment of a program's system has.
ghost use Rattle.std.specs.Prelude.{[], ◌∷◌, refl};
ghost use Rattle.tv_plan.specs.Ends.{Completes};
ghost use Rattle.tv_plan.specs.Plan.{named};
ghost use Rattle.tv_top.specs.Extract.{run_written, extract_asks, extract_form};

use crate::assignment::{not_run, read_assigned, run_of};
use crate::words::{granted, net_word, number};
use std::alloc::Global;
use tv_extract::Run;
use tv_files::Files;
use tv_plan::{Finish, Job, Place, Refusal, Steps, Stop, TapeWords, write_bytes};
use tv_stages::Net;
use tv_step::End;
use tv_tape::tape_text;

/// The words of `extract`.
#[derive(Drop)]
pub(crate) struct ExtractArgs<'a> {
    pub(crate) text: Place<'a>,
    /// How many words the tape has.
    pub(crate) n: TapeWords,
    /// The most steps.
    pub(crate) t: Steps,
    pub(crate) witness: Place<'a>,
    pub(crate) tape: Place<'a>,
    pub(crate) aux: Place<'a>,
    pub(crate) net: Net,
}

impl<'a> Job<'a> for ExtractArgs<'a> {
    ghost form = { extract_form };

    ghost asks = { extract_asks };

    fn read(words: &'a [String]) -> Result<ExtractArgs<'a>, Refusal> {
        let [text, n, t, witness, tape, aux, last @ ..] = words else {
            return Err(Refusal::Usage);
        };
        let (Some(net), Some(n), Some(t)) = (net_word(last), number(n), number(t)) else {
            return Err(Refusal::Usage);
        };
        let (text, witness) = (Place::at(1, text.as_str()), Place::at(4, witness.as_str()));
        let (tape, aux) = (Place::at(5, tape.as_str()), Place::at(6, aux.as_str()));
        let (n, t) = granted(&[text, witness], &[tape, aux], n, t)?;
        Ok(ExtractArgs {
            text,
            n,
            t,
            witness,
            tape,
            aux,
            net,
        })
    }

    fn perform<D: Files>(self, alloc: Global, files: &mut D) -> Result<Finish, Stop> {
        let (n, t) = (&self.n, &self.t);
        let assigned = read_assigned(alloc, files, self.text, n, t, self.net, self.witness)?;
        match run_of(alloc, &assigned, n, t, self.net) {
            Ok(run) => write_run(alloc, files, &run, &self),
            Err(fault) => not_run(fault),
        }
    }

    ghost apart = { λ _. refl };
}

/// Writes the tapes of a run, and reports its answer.
fn write_run<D: Files>(
    alloc: Global,
    files: &mut D,
    run: &Run,
    args: &ExtractArgs<'_>,
) -> Result<Finish, Stop>
    ensures { Completes (named args.now.tape ∷ named args.now.aux ∷ [])
        (run_written run.now) (D.seen files.old) (D.seen files.new) result }
{
    let tape = tape_text(alloc, run.tape.as_slice())?;
    let aux = tape_text(alloc, run.aux.as_slice())?;
    write_bytes(files, args.tape, &tape)?;
    write_bytes(files, args.aux, &aux)?;
    let (value, step) = (run.answer, run.step);
    Ok(Finish::Run(End::Answer { value, step }))
}
