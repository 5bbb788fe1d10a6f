//! How often calls on the system's files were refused, by cause.
ghost use Rattle.std.specs.Prelude.{◌≡◌, ◌≤◌};
ghost use Rattle.std.specs.Result.{result_ok};
ghost use Rattle.tv_files.specs.MemFiles.{one_more};
ghost use Rattle.tv_files.specs.Outside.{NoneFell};
ghost use Rattle.tv_disk.specs.Counts.{outside_of, after, after_refusal, zeros};

use std::io;
use std::io::ErrorKind;
use tv_files::FileRefusal;

/// How many calls were refused, by cause. Each count stays at its last value.
#[derive(Clone, Copy, Debug, PartialEq, Eq)]
pub struct RefusalCounts {
    /// Faults of `read`.
    pub read_faults: u64,
    /// Faults of `create` and `append`.
    pub write_faults: u64,
    /// Faults of `say`.
    pub say_faults: u64,
    /// Allocation failures, in any call.
    pub wants: u64,
}

/// The kinds of calls, each with a count of its faults.
#[derive(Clone, Copy)]
pub enum Call {
    /// `read`.
    Reading,
    /// `create` and `append`.
    Writing,
    /// `say`.
    Saying,
}

impl RefusalCounts {
    /// Nothing has gone wrong yet.
    pub fn new() -> RefusalCounts
        ensures { result ≡ zeros }
    {
        RefusalCounts {
            read_faults: 0,
            write_faults: 0,
            say_faults: 0,
            wants: 0,
        }
    }

    /// Counts what a call ended with, and turns an error into a refusal, which `last` keeps: an
    /// allocation failure raises `wants`, any other error the count of faults of this kind of call.
    pub fn settle<T>(
        &mut self,
        call: Call,
        outcome: io::Result<T>,
        last: &mut Option<io::Error>,
    ) -> Result<T, FileRefusal>
        ensures value { result_ok result ≡ result_ok outcome }
        ensures counts { self.new ≡ after call result self.old }
        ensures later { NoneFell (outside_of self.old) (outside_of self.new) }
    {
        match outcome {
            Ok(value) => Ok(value),
            Err(error) => {
                *last = Some(error);
                Err(self.count(call, error.kind()))
            }
        }
    }

    /// Counts an error of this kind.
    fn count(&mut self, call: Call, kind: ErrorKind) -> FileRefusal
        ensures counts { self.new ≡ after_refusal call result self.old }
        ensures later { NoneFell (outside_of self.old) (outside_of self.new) }
    {
        if kind == ErrorKind::OutOfMemory {
            raise(&mut self.wants);
            return FileRefusal::Memory;
        }
        match call {
            Call::Reading => raise(&mut self.read_faults),
            Call::Writing => raise(&mut self.write_faults),
            Call::Saying => raise(&mut self.say_faults),
        }
        FileRefusal::Failed
    }
}

/// Adds one to a count that isn't at its last value.
fn raise(count: &mut u64)
    ensures value { count.new ≡ one_more count.old }
    ensures later { count.old ≤ count.new }
{
    *count = count.saturating_add(1);
}
