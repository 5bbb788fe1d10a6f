//! How the program ends.
ghost use Rattle.std.specs.Prelude.{◌≡◌, map, option_map, Some, string_bytes};
ghost use Rattle.tinyr1cs.specs.Complaint.{complaint_text, no_words_text, text_of};
ghost use Rattle.tinyr1cs.specs.Ends.{EndsOn, no_words_code};
ghost use Rattle.tv_plan.specs.Status.{code_of};

use crate::complaint::Complaint;
use crate::help::Help;
use crate::words::NoWords;
use std::alloc::Global;
use tv_files::Files;
use tv_top::{Status, command};

/// The exit code where the standard streams' numbers can't be kept from files, as for a file fault.
const NO_STREAMS: u8 = 8;

/// The exit code where memory for the words ran out, as in a command.
const NO_MEMORY: u8 = 9;

/// The exit code where a word isn't UTF-8. No status has it.
const NOT_UTF8: u8 = 14;

/// The program's exit code, and what it says on standard error.
#[derive(Clone, Copy)]
pub struct Ended<'a> {
    /// The exit code.
    pub code: u8,
    /// What a command could say nowhere, or why none was run.
    pub complaint: Option<Complaint<'a>>,
    /// What helps a person, of which no clause speaks.
    pub help: Option<Help>,
}

impl<'a> Ended<'a> {
    /// Returns how a command ends that returned this status.
    fn of(status: Status, words: &'a [String]) -> Ended<'a>
        ensures code { result.code ≡ code_of status }
        ensures complaint { option_map text_of result.complaint ≡
            complaint_text (map string_bytes words.now) status }
    {
        Ended {
            code: status.code(),
            complaint: Complaint::of(status, words),
            help: Help::of(status, words),
        }
    }

    /// Returns how the program ends where there are no words.
    fn without(why: NoWords) -> Ended<'a>
        ensures code { result.code ≡ no_words_code why }
        ensures complaint { option_map text_of result.complaint ≡ Some (no_words_text why) }
    {
        let (code, complaint) = match why {
            NoWords::NoStreams => (NO_STREAMS, Complaint::FileFault("/")),
            NoWords::NotUtf8 => (NOT_UTF8, Complaint::NotUtf8),
            NoWords::NoMemory => (NO_MEMORY, Complaint::NoMemory),
        };
        Ended {
            code,
            complaint: Some(complaint),
            help: None,
        }
    }
}

/// Does what the words ask for, by `command`, and returns how the program ends. Where there are no
/// words nothing is done.
pub fn run<'a, D: Files>(
    alloc: Global,
    words: &'a Result<Vec<String>, NoWords>,
    files: &mut D,
) -> Ended<'a>
    ensures { EndsOn words.now (D.seen files.old) (D.seen files.new)
        result.code (option_map text_of result.complaint) }
{
    match words {
        Ok(words) => Ended::of(command(alloc, words, files), words),
        Err(why) => Ended::without(*why),
    }
}
