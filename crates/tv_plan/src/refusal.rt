//! What refuses, stops and ends a command: refused words, refused contents, what keeps a command
//! from being done, and the good ends.
ghost use Rattle.std.specs.Prelude.{◌≡◌};
ghost use Rattle.tv_plan.specs.Answers.{ending_of};
ghost use Rattle.tv_plan.specs.Disasm.{dis_stop};
ghost use Rattle.tv_plan.specs.Programs.{asm_stop};
ghost use Rattle.tv_plan.specs.declared.refusal.Stop.TheVariants.{Memory};

use std::alloc::AllocError;
use tv_asm::{AsmFault, AsmWhy};
use tv_check::Verdict;
use tv_container::ReadWhy;
use tv_disasm::DisFault;
use tv_step::{End, NotRun};

/// The quantities that have a limit.
#[derive(Clone, Copy)]
pub enum What {
    /// The words of the image that a program text has.
    ImageWords,
    /// The bytes of an image file.
    ImageBytes,
    /// The numbers of a tape.
    TapeWords,
    /// The words of an auxiliary tape.
    AuxWords,
    /// The bytes of a program text or of a tape.
    TextBytes,
    /// The terms of a system.
    SystemTerms,
    /// The terms of one combination of a system, made normal.
    CombinationTerms,
    /// The steps of a run.
    Steps,
    /// The instructions that a trial draws.
    Draws,
}

/// What words are refused for, before any file is looked at. Definitions alone cite it.
#[derive(Clone, Copy)]
pub enum Refusal {
    /// The words are no command's.
    Usage,
    /// Two words name one file, which is to be written.
    SameName { first: u32, second: u32 },
    /// There are `has` of a quantity of which there may be `most`, or 0 of one that begins at 1.
    Limit { what: What, has: u64, most: u64 },
}

/// What the contents of a file are refused for.
#[derive(Clone, Copy)]
pub enum Bad {
    /// The program text has no image: its first line at fault, counted from 1, and the reason.
    Program { line: u64, why: AsmWhy },
    /// On the tape at this word the item with this number, counted from 0, is none of its numbers.
    Tape { word: u32, at: u64 },
    /// The file holds no system: its first fault, at this byte, and the reason.
    System { at: u64, why: ReadWhy },
    /// The file holds no assignment: its first fault, at this byte, and the reason.
    Witness { at: u64, why: ReadWhy },
    /// An image file of `len` bytes, which aren't whole instructions of two words.
    Image { len: u64 },
    /// There are `has` of a quantity of which there may be `most`.
    Limit { what: What, has: u64, most: u64 },
}

/// Why a command didn't find, make or write what it was to.
#[derive(Clone, Copy)]
pub enum Stop {
    /// The file at this word couldn't be read, or not be written.
    Fault { word: u32 },
    /// Memory ran out.
    Memory,
    /// The contents of a file are refused.
    Contents(Bad),
}

/// The result of a trial.
#[derive(Clone, Copy)]
pub struct Trial {
    /// How many steps the run has.
    pub steps: u32,
    /// How many wires its system has.
    pub wires: u32,
    /// How many constraints the system has.
    pub constraints: u32,
    /// The sum, over the constraints, of the products of the values of their first two
    /// combinations, modulo the prime.
    pub sum: u64,
    /// How many constraints hold.
    pub satisfied: u32,
}

/// How a command ends whose files were found and written.
#[derive(Clone, Copy)]
pub enum Finish {
    /// It is done and says nothing.
    Quiet,
    /// The run ends so.
    Run(End),
    /// There is no run that answers: it ends so, and nothing is written.
    NoRun(End),
    /// The assignment has no run, for this reason, and nothing is written.
    NotARun(NotRun),
    /// This is the verdict.
    Verdict(Verdict),
    /// The trial has this result.
    Trial(Trial),
}

/// How a call ends: what its status and its line are of.
#[derive(Clone, Copy)]
pub enum Ending {
    /// The words are refused, before any file was looked at.
    Refused(Refusal),
    /// What was to be found in the files wasn't, for this.
    Stopped(Stop),
    /// All was found, and the files are written.
    Finished(Finish),
}

impl From<AllocError> for Stop {
    ghost from_gives = { λ _ stop. stop ≡ Memory };

    fn from(_: AllocError) -> Stop {
        Stop::Memory
    }
}

impl From<AsmFault> for Stop {
    ghost from_gives = { λ fault stop. stop ≡ asm_stop fault };

    fn from(fault: AsmFault) -> Stop {
        match fault {
            AsmFault::Bad { line, why } => Stop::Contents(Bad::Program { line, why }),
            AsmFault::TooMany { most, .. } => Stop::Contents(Bad::Limit {
                what: What::ImageWords,
                has: u64::from(most) + 2,
                most: u64::from(most),
            }),
            AsmFault::Memory => Stop::Memory,
        }
    }
}

impl From<DisFault> for Stop {
    ghost from_gives = { λ fault stop. stop ≡ dis_stop fault };

    fn from(fault: DisFault) -> Stop {
        match fault {
            DisFault::Ragged { len } => Stop::Contents(Bad::Image { len }),
            DisFault::Memory => Stop::Memory,
        }
    }
}

impl From<Result<Finish, Stop>> for Ending {
    ghost from_gives = { λ done ending. ending ≡ ending_of done };

    fn from(done: Result<Finish, Stop>) -> Ending {
        match done {
            Ok(finish) => Ending::Finished(finish),
            Err(stop) => Ending::Stopped(stop),
        }
    }
}
