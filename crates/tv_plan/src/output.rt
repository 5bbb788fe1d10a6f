//! Files written, and the line of an end said.
ghost use Rattle.std.specs.Prelude.{◌≡◌};
ghost use Rattle.tv_plan.specs.Contents.{Content.{Bytes}};
ghost use Rattle.tv_plan.specs.Ends.{Concludes, Writes, streamed};
ghost use Rattle.tv_plan.specs.Plan.{named, one_write};

use crate::line::printed_line;
use crate::place::Place;
use crate::refusal::{Ending, Stop};
use crate::status::{Status, status_of};
use tv_core::{Put, SinkFault};
use tv_files::{FileRefusal, Files, write_file};

/// Prints the line of an end, where it has one, by one `say`, and returns its status. Where that is
/// refused, the refusal is returned, and a fault names the number of words.
pub fn conclude<D: Files>(files: &mut D, word_count: usize, ending: Ending) -> Status
    ensures { Concludes ending word_count (D.seen files.old) (D.seen files.new) result }
{
    let Some(line) = printed_line(ending) else {
        return status_of(ending);
    };
    match files.say(line.as_str().as_bytes()) {
        Ok(()) => status_of(ending),
        Err(FileRefusal::Failed) => Status::FileFault {
            word: word_count as u64,
        },
        Err(FileRefusal::Memory) => Status::Memory,
    }
}

/// Writes a file of these bytes.
pub fn write_bytes<D: Files>(files: &mut D, place: Place<'_>, bytes: &[u8]) -> Result<(), Stop>
    ensures { Writes (one_write (named place.entry) (Bytes bytes.now))
        (D.seen files.old) (D.seen files.new) result }
{
    write_file(files, place.name, bytes).map_err(|why| match why {
        FileRefusal::Failed => Stop::Fault { word: place.word },
        FileRefusal::Memory => Stop::Memory,
    })
}

/// How the writing ended of the file at a word, whose contents came one after another.
pub fn streamed(word: u32, outcome: Put<()>) -> Result<(), Stop>
    ensures { result ≡ streamed word outcome }
{
    outcome.map_err(|fault| match fault {
        SinkFault::Failed => Stop::Fault { word },
        SinkFault::Memory => Stop::Memory,
    })
}
