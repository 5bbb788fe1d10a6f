//! What helps a person, on standard error after the lines of a status. No clause speaks of it;
//! `tests/commands.sh` has its texts.
use std::fmt;
use tv_asm::AsmWhy;
use tv_top::{NoWhy, NotRun, Status};

/// The program's version, which the file `VERSION` at the top has too.
const VERSION: &str = "0.2.0";

/// The number of the layout of systems: it is raised whenever `build` would write other bytes for
/// the same arguments.
const LAYOUT: u32 = 2;

/// The commands: the name, the other arguments, and what it does.
const COMMANDS: [(&str, &str, &str); 10] = [
    ("asm", "TEXT IMAGE", "assembles a program"),
    ("disasm", "IMAGE TEXT [16]", "writes a program of the image"),
    ("run", "TEXT TAPE AUX T", "runs it for at most T steps"),
    (
        "build",
        "TEXT N T SYSTEM [waksman]",
        "writes its constraints",
    ),
    (
        "witness",
        "TEXT TAPE AUX T WITNESS [waksman]",
        "writes values of a run",
    ),
    (
        "check",
        "SYSTEM WITNESS PUBLIC",
        "tests values and public ones",
    ),
    (
        "extract",
        "TEXT N T WITNESS TAPE AUX [waksman]",
        "writes the tapes of values",
    ),
    (
        "listing",
        "TEXT N T WITNESS BY OUT",
        "writes memory accesses",
    ),
    ("trial", "SEED K", "tests the system of a drawn program"),
    ("shrink", "SYSTEM OUT", "removes linear constraints"),
];

/// Lines that help.
#[derive(Clone, Copy)]
pub enum Help {
    /// The name and the arguments of the command that was meant.
    Synopsis(&'static str, &'static str),
    /// All commands.
    Commands,
    /// The versions.
    Version,
    /// What a status often comes from.
    Hint(&'static str),
}

impl Help {
    /// Returns what helps after a status: after `Usage` by the first word, else a hint.
    pub fn of(status: Status, words: &[String]) -> Option<Help> {
        match status {
            Status::Usage => Some(
                words
                    .first()
                    .map_or(Help::Commands, |name| usage(name.as_str())),
            ),
            status => hint(status).map(Help::Hint),
        }
    }

    /// Returns whether it is a hint, which only a person wants.
    pub fn is_hint(&self) -> bool {
        matches!(self, Help::Hint(_))
    }
}

/// Returns what helps whoever called the program by a name and arguments that it doesn't know.
fn usage(name: &str) -> Help {
    if name == "--version" {
        return Help::Version;
    }
    for (command, arguments, _) in COMMANDS {
        if name == command {
            return Help::Synopsis(command, arguments);
        }
    }
    Help::Commands
}

/// Returns what a status often comes from, where that is known.
fn hint(status: Status) -> Option<&'static str> {
    Some(match status {
        Status::BadProgram { why, .. } => return program_hint(why),
        Status::No { no } => return no_hint(no),
        Status::NotARun {
            why: NotRun::WireCount { .. },
        } => OTHER_SYSTEM,
        Status::BadTape { .. } =>
            "words and items are counted from 0; a tape is numbers and blanks",
        Status::NoRun { .. } => "run with a large T prints the step of the answer",
        _ => return None,
    })
}

/// Values of another system.
const OTHER_SYSTEM: &str =
    "the values are of another program, N, T or network; N is the number of words of TAPE";

/// Returns what a `no` often comes from.
fn no_hint(no: NoWhy) -> Option<&'static str> {
    Some(match no {
        NoWhy::Wires { .. } => OTHER_SYSTEM,
        NoWhy::Public { .. } => {
            "wire 0 is 1, wire 1 the answer, and the next are the tape; PUBLIC has the answer first"
        }
        NoWhy::End { .. } =>
            "T is the most steps; run with a large T prints the step of the answer",
        NoWhy::Constraint { .. } => return None,
    })
}

/// Returns what a line of a program is often refused for.
fn program_hint(why: AsmWhy) -> Option<&'static str> {
    Some(match why {
        AsmWhy::UnknownName | AsmWhy::BadLabel | AsmWhy::UnknownLabel => {
            "a label begins with _, and a line that begins with _name: defines it"
        }
        AsmWhy::BadRegister => "registers are r0 to r15",
        AsmWhy::BadNumber => "numbers are decimal, or 0x and hexadecimal, and fit a word",
        _ => return None,
    })
}

impl fmt::Display for Help {
    fn fmt<W: fmt::Write>(&self, f: &mut fmt::Formatter<W>) -> fmt::Result {
        match self {
            Help::Synopsis(name, arguments) => write!(f, "tinyr1cs {name} {arguments}"),
            Help::Commands => write_commands(f),
            Help::Version => write!(f, "tinyr1cs {}, layout of systems {}", VERSION, LAYOUT),
            Help::Hint(text) => write!(f, "hint: {text}"),
        }
    }
}

/// Writes a line for each command, and where the documents are.
fn write_commands<W: fmt::Write>(f: &mut fmt::Formatter<W>) -> fmt::Result {
    for (name, arguments, does) in COMMANDS {
        write!(f, "tinyr1cs {name} {arguments}: {does}\n")?;
    }
    f.write_str("`man tinyr1cs` and docs/COMMANDS.md of the sources describe them")
}
