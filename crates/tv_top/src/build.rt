//! `build TEXT N T SYSTEM`, which may have one more word, `waksman`: the system of a program's
//! runs.
ghost use Rattle.std.specs.Prelude.{refl};
ghost use Rattle.tv_layout.specs.Places.{WithinLimits, runs_of};
ghost use Rattle.tv_layout.specs.Systems.{system_of};
ghost use Rattle.tv_plan.specs.Contents.{Content.{Constraints}};
ghost use Rattle.tv_plan.specs.Ends.{Writes, streamed};
ghost use Rattle.tv_plan.specs.Plan.{named, one_write};
ghost use Rattle.tv_plan.specs.Programs.{HasImage};
ghost use Rattle.tv_top.specs.Build.{program_system, build_asks, build_form};

use crate::words::{granted, net_word, number};
use std::alloc::Global;
use tv_core::Put;
use tv_files::Files;
use tv_layout::{emit_system, sizes};
use tv_plan::{
    Finish, Job, Place, Program, Refusal, Steps, Stop, TapeWords, Width, read_program, streamed,
};
use tv_r1cs_write::StreamSink;
use tv_stages::Net;

/// The words of `build`.
#[derive(Drop)]
pub(crate) struct BuildArgs<'a> {
    pub(crate) text: Place<'a>,
    /// How many words the tape has.
    pub(crate) n: TapeWords,
    /// The most steps.
    pub(crate) t: Steps,
    pub(crate) system: Place<'a>,
    pub(crate) net: Net,
}

impl<'a> Job<'a> for BuildArgs<'a> {
    ghost form = { build_form };

    ghost asks = { build_asks };

    fn read(words: &'a [String]) -> Result<BuildArgs<'a>, Refusal> {
        let [text, n, t, system, last @ ..] = words else {
            return Err(Refusal::Usage);
        };
        let (Some(net), Some(n), Some(t)) = (net_word(last), number(n), number(t)) else {
            return Err(Refusal::Usage);
        };
        let (text, system) = (Place::at(1, text.as_str()), Place::at(4, system.as_str()));
        let (n, t) = granted(&[text], &[system], n, t)?;
        Ok(BuildArgs {
            text,
            n,
            t,
            system,
            net,
        })
    }

    fn perform<D: Files>(self, alloc: Global, files: &mut D) -> Result<Finish, Stop> {
        let program = read_program(alloc, files, self.text)?;
        streamed(self.system.word, put_system(files, &self, &program))?;
        Ok(Finish::Quiet)
    }

    ghost apart = { λ _. refl };
}

/// Writes the system of the runs of an image to its file, constraint by constraint.
fn put_layout<const W: u32, D: Files>(
    files: &mut D,
    place: Place<'_>,
    image: &[u32],
    n: u32,
    t: u32,
    net: Net,
) -> Put<()>
    requires { WithinLimits (runs_of W image.now n t) }
    ensures { Writes (one_write (named place.entry)
        (Constraints (system_of net (runs_of W image.now n t))))
        (D.seen files.old) (D.seen files.new) (streamed place.entry.word result) }
{
    let counts = sizes::<W>(image, n, t, net);
    let mut sink = match StreamSink::begin(files, place.name, counts) {
        Ok(sink) => sink,
        Err(refused) => return Err(refused.why),
    };
    emit_system::<W, _>(image, n, t, net, &mut sink)?;
    sink.finish()
}

/// Puts the system of a program's runs into its file.
#[tactic(auto, unfolding(crate::specs::Build::program_system))]
fn put_system<D: Files>(files: &mut D, args: &BuildArgs<'_>, program: &Program) -> Put<()>
    requires { HasImage program.now }
    ensures { Writes (one_write (named args.now.system)
        (Constraints (program_system args.now.net args.now.n args.now.t program.now)))
        (D.seen files.old) (D.seen files.new) (streamed args.now.system.word result) }
{
    let image = program.words.as_slice();
    let (n, t) = (args.n.number(), args.t.number());
    match program.width {
        Width::Bits16 => put_layout::<16, D>(files, args.system, image, n, t, args.net),
        Width::Bits32 => put_layout::<32, D>(files, args.system, image, n, t, args.net),
    }
}
