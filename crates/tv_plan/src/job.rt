//! What a command's words ask for: how they are read, and how it is done.
ghost use Rattle.std.specs.Prelude.{◌≡◌, ℕ, false, List, map, string_bytes, Option, Ok, Err};
ghost use Rattle.std.specs.Prelude.{MatchResult};
ghost use Rattle.tv_plan.specs.Answers.{Answers, Does, is_shared};
ghost use Rattle.tv_plan.specs.Plan.{Plan, request_of};

use crate::output::conclude;
use crate::refusal::{Ending, Finish, Refusal, Stop};
use crate::status::Status;
use std::alloc::Global;
use tv_files::Files;

/// What the words after a command's name ask for.
pub trait Job<'a> {
    ghost form: { List (List ℕ) → Option Plan };

    ghost asks: { Self → Plan };

    /// What the words ask for, else the refusal.
    fn read(words: &'a [String]) -> Result<Self, Refusal>
        ensures { let due = request_of (form (map string_bytes words.now)) in
            MatchResult result (λ job. due ≡ Ok (asks job)) (λ why. due ≡ Err why) };

    /// Reads the files, and writes the output.
    fn perform<D: Files>(self, alloc: Global, files: &mut D) -> Result<Finish, Stop>
        ensures { Does (asks self) (D.seen files.old) (D.seen files.new) result };

    ghost apart: { (job : Self) → is_shared (asks job).amounts (asks job).flaws ≡ false };
}

/// Does what the words after a command's name ask for, and says the line of its end. The call has
/// this many words.
pub fn carry_out<'a, J: Job<'a>, D: Files>(
    alloc: Global,
    words: &'a [String],
    count: usize,
    files: &mut D,
) -> Status
    ensures { Answers (request_of (J.form (map string_bytes words.now))) count
        (D.seen files.old) (D.seen files.new) result }
{
    let ending = match J::read(words) {
        Ok(job) => Ending::from(job.perform(alloc, files)),
        Err(why) => Ending::Refused(why),
    };
    conclude(files, count, ending)
}
