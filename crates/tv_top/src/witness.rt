//! `witness TEXT TAPE AUX T WITNESS`, which may have one more word, `waksman`: the values of the
//! wires of a program's system for a run that answers.
ghost use Rattle.std.specs.Prelude.{◌≡◌, [], ◌∷◌, refl};
ghost use Rattle.tv_plan.specs.Contents.{Content.{Values}};
ghost use Rattle.tv_plan.specs.Ends.{Completes, Writes, streamed};
ghost use Rattle.tv_plan.specs.Inputs.{AreInputs};
ghost use Rattle.tv_plan.specs.Plan.{named, one_write};
ghost use Rattle.tv_plan.specs.Programs.{bits};
ghost use Rattle.tv_top.specs.Witness.{witness_ends, witness_asks, witness_form};

use crate::words::{net_word, number};
use std::alloc::Global;
use tv_core::Put;
use tv_files::Files;
use tv_fill::{Filling, prepare};
use tv_plan::{
    Finish, Inputs, Job, Place, Refusal, Steps, Stop, What, Width, keep_apart, read_inputs,
    streamed,
};
use tv_stages::Net;
use tv_step::TraceFault;
use tv_wtns::FileValues;

/// The words of `witness`.
#[derive(Drop)]
pub(crate) struct WitnessArgs<'a> {
    pub(crate) text: Place<'a>,
    pub(crate) tape: Place<'a>,
    pub(crate) aux: Place<'a>,
    /// The most steps.
    pub(crate) t: Steps,
    pub(crate) witness: Place<'a>,
    pub(crate) net: Net,
}

impl<'a> Job<'a> for WitnessArgs<'a> {
    ghost form = { witness_form };

    ghost asks = { witness_asks };

    fn read(words: &'a [String]) -> Result<WitnessArgs<'a>, Refusal> {
        let [text, tape, aux, t, witness, last @ ..] = words else {
            return Err(Refusal::Usage);
        };
        let (Some(net), Some(t)) = (net_word(last), number(t)) else {
            return Err(Refusal::Usage);
        };
        let (text, tape) = (Place::at(1, text.as_str()), Place::at(2, tape.as_str()));
        let (aux, witness) = (Place::at(3, aux.as_str()), Place::at(5, witness.as_str()));
        keep_apart(&[text, tape, aux], &[witness])?;
        Ok(WitnessArgs {
            text,
            tape,
            aux,
            t: Steps::of(What::Steps, t)?,
            witness,
            net,
        })
    }

    fn perform<D: Files>(self, alloc: Global, files: &mut D) -> Result<Finish, Stop> {
        let inputs = read_inputs(alloc, files, self.text, self.tape, self.aux)?;
        match inputs.program.width {
            Width::Bits16 => write_witness::<16, D>(alloc, files, &inputs, &self),
            Width::Bits32 => write_witness::<32, D>(alloc, files, &inputs, &self),
        }
    }

    ghost apart = { λ _. refl };
}

/// Puts the values of a run into its file, one by one.
fn put_values<const W: u32, D: Files>(
    files: &mut D,
    place: Place<'_>,
    filling: Filling<'_, W>,
) -> Put<()>
    ensures { Writes (one_write (named place.entry) (Values filling.entry.values))
        (D.seen files.old) (D.seen files.new) (streamed place.entry.word result) }
{
    let mut taker = match FileValues::begin(files, place.name, filling.count()) {
        Ok(taker) => taker,
        Err(refused) => return Err(refused.why),
    };
    filling.give(&mut taker)?;
    taker.finish()
}

/// Runs the machine on what was read, words of `W` bits, and writes the values where it answers.
fn write_witness<const W: u32, D: Files>(
    alloc: Global,
    files: &mut D,
    inputs: &Inputs,
    args: &WitnessArgs<'_>,
) -> Result<Finish, Stop>
    requires width { W ≡ bits inputs.now.program.width }
    requires inputs { AreInputs inputs.now }
    ensures { Completes (named args.now.witness ∷ [])
        (witness_ends args.now.net args.now.t inputs.now)
        (D.seen files.old) (D.seen files.new) result }
{
    let image = inputs.program.words.as_slice();
    let tape = inputs.tape.as_slice();
    let aux = inputs.aux.as_slice();
    match prepare::<W>(alloc, image, tape, aux, args.t.number(), args.net) {
        Ok(filling) => {
            streamed(args.witness.word, put_values(files, args.witness, filling))?;
            Ok(Finish::Quiet)
        }
        Err(TraceFault::NoRun { end }) => Ok(Finish::NoRun(end)),
        Err(TraceFault::Memory) => Err(Stop::Memory),
    }
}
