//! What a command answers.
ghost use Rattle.std.specs.Prelude.{◌≡◌};
ghost use Rattle.tv_plan.specs.Status.{bad_status, code_of, ending_status, verdict_status};

use crate::refusal::{Bad, Ending, Finish, Refusal, Stop, What};
use tv_asm::AsmWhy;
use tv_check::Verdict;
use tv_container::ReadWhy;
use tv_step::{End, NotRun};

/// Why `check` or `run` says no.
#[derive(Clone, Copy)]
pub enum NoWhy {
    /// The public wire with this number, 0 for the constant 1, has another value than the tape has,
    /// or is missing on one side.
    Public { at: u64 },
    /// The constraint with this number, the first that fails, doesn't hold.
    Constraint { at: u64 },
    /// The witness has `has` values, the system `wants` wires.
    Wires { has: u64, wants: u64 },
    /// The run ends otherwise than by an answer.
    End { end: End },
}

/// How a command ended.
#[derive(Clone, Copy)]
pub enum Status {
    /// The command did what its words say.
    Done,
    /// `check`: the assignment doesn't satisfy the system, or doesn't extend the tape. `run`: the
    /// machine doesn't answer within the steps.
    No { no: NoWhy },
    /// The words are no command's.
    Usage,
    /// The program text has no image: its first line at fault, counted from 1, and the reason.
    BadProgram { line: u64, why: AsmWhy },
    /// On the tape at this word the item with this number, counted from 0, is none of its numbers.
    BadTape { word: u32, at: u64 },
    /// The file holds no system: its first fault, at this byte, and the reason.
    BadSystem { at: u64, why: ReadWhy },
    /// The file holds no assignment: its first fault, at this byte, and the reason.
    BadWitness { at: u64, why: ReadWhy },
    /// There are `has` of a quantity of which there may be `most`, or 0 of one that begins at 1.
    Limit { what: What, has: u64, most: u64 },
    /// A file call failed, on the name at this word, or, at the number of words, in saying the
    /// line.
    FileFault { word: u64 },
    /// Memory ran out.
    Memory,
    /// `witness`: the run doesn't answer, but ends so.
    NoRun { end: End },
    /// `extract`, `listing`: the witness is no run's.
    NotARun { why: NotRun },
    /// Two words name one file, which is to be written.
    SameName { first: u32, second: u32 },
    /// An image file of `len` bytes, which aren't whole instructions of two words.
    BadImage { len: u64 },
}

impl Status {
    /// The exit code of the program.
    pub fn code(&self) -> u8
        ensures { result ≡ code_of self.now }
    {
        match self {
            Status::Done => 0,
            Status::No { .. } => 1,
            Status::Usage => 2,
            Status::BadProgram { .. } => 3,
            Status::BadTape { .. } => 4,
            Status::BadSystem { .. } => 5,
            Status::BadWitness { .. } => 6,
            Status::Limit { .. } => 7,
            Status::FileFault { .. } => 8,
            Status::Memory => 9,
            Status::NoRun { .. } => 10,
            Status::NotARun { .. } => 11,
            Status::SameName { .. } => 12,
            Status::BadImage { .. } => 13,
        }
    }
}

/// What refused contents are answered.
fn bad_status(bad: Bad) -> Status
    ensures { result ≡ bad_status bad }
{
    match bad {
        Bad::Program { line, why } => Status::BadProgram { line, why },
        Bad::Tape { word, at } => Status::BadTape { word, at },
        Bad::System { at, why } => Status::BadSystem { at, why },
        Bad::Witness { at, why } => Status::BadWitness { at, why },
        Bad::Image { len } => Status::BadImage { len },
        Bad::Limit { what, has, most } => Status::Limit { what, has, most },
    }
}

/// What a verdict is answered.
fn verdict_status(verdict: Verdict) -> Status
    ensures { result ≡ verdict_status verdict }
{
    let no = match verdict {
        Verdict::Yes => return Status::Done,
        Verdict::WireCount { has, wants } => NoWhy::Wires { has, wants },
        Verdict::NoPublic { at } => NoWhy::Public { at },
        Verdict::NoConstraint { at } => NoWhy::Constraint { at },
    };
    Status::No { no }
}

/// What an end is answered, once its line was said.
pub(crate) fn status_of(ending: Ending) -> Status
    ensures { result ≡ ending_status ending }
{
    match ending {
        Ending::Refused(Refusal::Usage) => Status::Usage,
        Ending::Refused(Refusal::SameName { first, second }) => Status::SameName { first, second },
        Ending::Refused(Refusal::Limit { what, has, most }) => Status::Limit { what, has, most },
        Ending::Stopped(Stop::Fault { word }) => Status::FileFault {
            word: u64::from(word),
        },
        Ending::Stopped(Stop::Memory) => Status::Memory,
        Ending::Stopped(Stop::Contents(bad)) => bad_status(bad),
        Ending::Finished(Finish::Quiet | Finish::Trial(_) | Finish::Run(End::Answer { .. })) => {
            Status::Done
        }
        Ending::Finished(Finish::Run(end)) => Status::No {
            no: NoWhy::End { end },
        },
        Ending::Finished(Finish::NoRun(end)) => Status::NoRun { end },
        Ending::Finished(Finish::NotARun(why)) => Status::NotARun { why },
        Ending::Finished(Finish::Verdict(verdict)) => verdict_status(verdict),
    }
}
