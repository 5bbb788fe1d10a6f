//! A text on standard output, and the line of an end.
ghost use Rattle.tinyr1cs_tools.specs.Print.{Prints};

use tv_files::{FileRefusal, Files};
use tv_plan::{Ending, Status, conclude};

/// Prints a text, and then the line of an end. Where printing fails, the fault names the number of
/// words.
pub fn print<D: Files>(files: &mut D, word_count: usize, text: &[u8], ending: Ending) -> Status
    ensures { Prints text.now ending word_count (D.seen files.old) (D.seen files.new) result }
{
    match files.say(text) {
        Ok(()) => conclude(files, word_count, ending),
        Err(FileRefusal::Failed) => Status::FileFault {
            word: word_count as u64,
        },
        Err(FileRefusal::Memory) => Status::Memory,
    }
}
