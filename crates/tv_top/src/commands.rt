//! The top call: what the words ask for is done, and one line is said.
ghost use Rattle.std.specs.Prelude.{length, map, string_bytes};
ghost use Rattle.tv_plan.specs.Answers.{Answers};
ghost use Rattle.tv_plan.specs.Plan.{request_of};
ghost use Rattle.tv_top.specs.Commands.{Commands};
ghost use Rattle.tv_top.specs.Form.{form};

use crate::build::BuildArgs;
use crate::extract::ExtractArgs;
use crate::listing::ListingArgs;
use crate::shrink::ShrinkArgs;
use crate::trial::TrialArgs;
use crate::witness::WitnessArgs;
use std::alloc::Global;
use tv_files::Files;
use tv_plan::{
    AsmArgs, CheckArgs, DisasmArgs, Ending, Refusal, RunArgs, Status, carry_out, conclude,
};

/// Does what the words ask for and says the line of its end, by the general contract of all
/// commands.
fn answer<D: Files>(alloc: Global, words: &[String], files: &mut D) -> Status
    ensures { Answers (request_of (form (map string_bytes words.now))) (length words.now)
        (D.seen files.old) (D.seen files.new) result }
{
    let count = words.len();
    let [name, rest @ ..] = words else {
        return conclude(files, count, Ending::Refused(Refusal::Usage));
    };
    match name.as_str() {
        "asm" => carry_out::<AsmArgs<'_>, D>(alloc, rest, count, files),
        "disasm" => carry_out::<DisasmArgs<'_>, D>(alloc, rest, count, files),
        "run" => carry_out::<RunArgs<'_>, D>(alloc, rest, count, files),
        "build" => carry_out::<BuildArgs<'_>, D>(alloc, rest, count, files),
        "witness" => carry_out::<WitnessArgs<'_>, D>(alloc, rest, count, files),
        "check" => carry_out::<CheckArgs<'_>, D>(alloc, rest, count, files),
        "extract" => carry_out::<ExtractArgs<'_>, D>(alloc, rest, count, files),
        "trial" => carry_out::<TrialArgs, D>(alloc, rest, count, files),
        "shrink" => carry_out::<ShrinkArgs<'_>, D>(alloc, rest, count, files),
        "listing" => carry_out::<ListingArgs<'_>, D>(alloc, rest, count, files),
        _ => conclude(files, count, Ending::Refused(Refusal::Usage)),
    }
}

/// Does what the words after the program's name ask for, says the line of its end, and returns its
/// status. `docs/COMMANDS.md` specifies the files, limits, lines and statuses of each command:
///
/// - `asm TEXT IMAGE` writes the image of a program text.
/// - `disasm IMAGE TEXT` writes the program text of an image, with a last word `16` for words of 16
///   bits.
/// - `run TEXT TAPE AUX T` runs a program on two tapes for at most T steps.
/// - `build TEXT N T SYSTEM` writes the system of a program's runs of at most T steps on primary
///   tapes of N words.
/// - `witness TEXT TAPE AUX T WITNESS` writes the values of that system's wires for a run.
/// - `check SYSTEM WITNESS PUBLIC` says whether a witness satisfies a system and extends public
///   numbers.
/// - `extract TEXT N T WITNESS TAPE AUX` writes the tapes of the run that a witness has.
/// - `trial SEED K` tests the system of K drawn instructions on the values of its run.
/// - `shrink SYSTEM OUT` writes a system with fewer private wires and the same solutions.
/// - `listing TEXT N T WITNESS BY OUT` writes the lines of memory and tapes that a witness has.
///
/// `build`, `witness` and `extract` may have a last word `waksman`. All other words are `Usage`.
/// `SameName` and a `Limit` on N, T or K come before any file is looked at.
///
/// `FileFault` names the word of a file that was read or written where that failed, or the number
/// of words where saying the line failed. `Memory` comes where memory ran out. After either each
/// file that is to be written has all of its bytes, a prefix of them, or what it had, and no other
/// file has changed.
pub fn command<D: Files>(alloc: Global, words: &[String], files: &mut D) -> Status
    ensures { Commands (map string_bytes words.now) (length words.now)
        (record { before = D.seen files.old; after = D.seen files.new; status = result }) }
{
    answer(alloc, words, files)
}
