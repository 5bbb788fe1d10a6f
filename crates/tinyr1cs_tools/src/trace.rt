//! `trace TEXT TAPE AUX T`: the steps of a run.
ghost use Rattle.std.specs.Prelude.{◌≡◌, IfOk};
ghost use Rattle.tv_plan.specs.Inputs.{AreInputs, run_end};
ghost use Rattle.tinyr1cs_tools.specs.Trace.{Traces, run_text};

use crate::print::print;
use std::alloc::{AllocError, Global};
use tv_files::Files;
use tv_plan::{Ending, Finish, Inputs, Place, Status, Steps, Width, conclude, read_inputs};
use tv_trace::{Shown, Traced, trace_text};

/// How many words the command has with its name.
const WORDS: usize = 5;

/// What `trace` is asked for.
#[derive(Drop)]
pub struct TraceArgs<'a> {
    /// The program text, at word 1.
    pub text: Place<'a>,
    /// The primary tape, at word 2.
    pub tape: Place<'a>,
    /// The auxiliary tape, at word 3.
    pub aux: Place<'a>,
    /// The most steps.
    pub t: Steps,
    /// The steps that are printed.
    pub shown: Shown,
}

/// Prints the steps of the run of a program on its tapes, and then how it ends.
pub fn trace<D: Files>(alloc: Global, files: &mut D, args: &TraceArgs<'_>) -> Status
    ensures { Traces args.now (D.seen files.old) (D.seen files.new) result }
{
    let inputs = match read_inputs(alloc, files, args.text, args.tape, args.aux) {
        Ok(inputs) => inputs,
        Err(stop) => return conclude(files, WORDS, Ending::Stopped(stop)),
    };
    match text_of_run(alloc, &inputs, args) {
        Ok(traced) => {
            let ending = Ending::Finished(Finish::Run(traced.end));
            print(files, WORDS, &traced.text, ending)
        }
        Err(_) => Status::Memory,
    }
}

/// Returns the text of a run, and how it ends.
fn text_of_run(alloc: Global, inputs: &Inputs, args: &TraceArgs<'_>) -> Result<Traced, AllocError>
    requires { AreInputs inputs.now }
    ensures text { IfOk result (λ traced. traced.text.items ≡
        run_text args.now.shown args.now.t inputs.now) }
    ensures end { IfOk result (λ traced. traced.end ≡ run_end args.now.t inputs.now) }
{
    let image = inputs.program.words.as_slice();
    let (tape, aux) = (inputs.tape.as_slice(), inputs.aux.as_slice());
    let t = u64::from(args.t.number());
    match inputs.program.width {
        Width::Bits16 => trace_text::<16>(alloc, image, tape, aux, t, args.shown),
        Width::Bits32 => trace_text::<32>(alloc, image, tape, aux, t, args.shown),
    }
}
