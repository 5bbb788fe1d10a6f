//! Files that are kept in memory, and can fail on demand.
ghost use Rattle.std.specs.Prelude.{◌≡◌, ◌⊎◌, ◌||◌, ◌++◌, [], ◌∷◌, IsTrue, length, drop};
ghost use Rattle.std.specs.Prelude.{Some, OnOk, OnErr, MatchResult, is_err, is_none, option_copied};
ghost use Rattle.tv_files.specs.Calls.{Reads, Creates, Appends, Says};
ghost use Rattle.tv_files.specs.Outside.{with_bytes, with_more};
ghost use Rattle.tv_files.specs.MemFiles.{names_of, said_of, calls_of, failing_of, outside_of};
ghost use Rattle.tv_files.specs.MemFiles.{nothing};
ghost use Rattle.tv_files.specs.MemFiles.{Counted, is_due, is_failed, is_out_of_memory, no_event};
ghost use Rattle.tv_files.specs.MemFiles.{read_answer};
ghost use Rattle.tv_files.specs.MemFiles.{first_half};

use crate::calls::{FileRefusal, Files};
use crate::parts::{add, copy_from, next_is_due, put, raise};
use std::alloc::{AllocError, Global};
use std::collections::BTreeMap;

/// Files kept in memory, whose contents are known, and which can fail on demand.
///
/// The four calls of `Files` are counted, from 1 on. A call fails exactly where its number was
/// passed to `fail_at`, or where a name to be read or appended to isn't there. A call that was
/// passed to `fail_at` and appends to a name that is there, or prints something, adds the first
/// half of the bytes, rounded down, or nothing where memory for them is refused; any other call
/// that fails changes nothing. All counters stay at their last value.
#[derive(Drop)]
pub struct MemFiles {
    alloc: Global,
    names: BTreeMap<String, Vec<u8>>,
    said: Vec<u8>,
    failing: Vec<u64>,
    calls: u64,
    read_faults: u64,
    write_faults: u64,
    say_faults: u64,
    wants: u64,
    absent: u64,
}

impl MemFiles {
    /// No names, nothing printed, no call that is to fail, and counts of 0.
    pub fn new(alloc: Global) -> MemFiles
        ensures known { outside_of result ≡ nothing }
        ensures calls { calls_of result ≡ 0 }
        ensures failing { failing_of result ≡ [] }
    {
        MemFiles {
            alloc,
            names: BTreeMap::new(alloc),
            said: Vec::new(alloc),
            failing: Vec::new(alloc),
            calls: 0,
            read_faults: 0,
            write_faults: 0,
            say_faults: 0,
            wants: 0,
            absent: 0,
        }
    }

    /// Sets the contents of the file of this name. Nothing changes where memory runs out.
    pub fn set(&mut self, name: &str, bytes: &[u8]) -> Result<(), AllocError>
        ensures ok { OnOk result (outside_of self.new ≡ record (outside_of self.old) {
          contents = Some (with_bytes name.now bytes.now (names_of self.old));
        }) }
        ensures err { OnErr result (outside_of self.new ≡ outside_of self.old) }
        ensures calls { calls_of self.new ≡ calls_of self.old }
        ensures failing { failing_of self.new ≡ failing_of self.old }
    {
        put(self.alloc, &mut self.names, name, bytes)
    }

    /// Lets the call with this number fail. Nothing changes where memory runs out.
    pub fn fail_at(&mut self, number: u64) -> Result<(), AllocError>
        ensures ok { OnOk result (failing_of self.new ≡ failing_of self.old ++ number ∷ []) }
        ensures err { OnErr result (failing_of self.new ≡ failing_of self.old) }
        ensures known { outside_of self.new ≡ outside_of self.old }
        ensures calls { calls_of self.new ≡ calls_of self.old }
    {
        self.failing.push(number)?;
        Ok(())
    }

    /// The bytes of the name, or nothing where it isn't there.
    pub fn bytes_of(&self, name: &str) -> Option<&[u8]>
        ensures { option_copied result ≡ names_of self.now name.now }
    {
        self.names.get(name).map(|bytes| bytes.as_slice())
    }

    /// The printed bytes.
    pub fn said_bytes(&self) -> &[u8]
        ensures { result.now ≡ said_of self.now }
    {
        &self.said
    }

    /// How many calls of `Files` were made.
    pub fn calls(&self) -> u64
        ensures { result ≡ calls_of self.now }
    {
        self.calls
    }
}

impl Files for MemFiles {
    ghost seen = { outside_of };

    fn read(&mut self, name: &str, at: u64, into: &mut [u8]) -> Result<usize, FileRefusal>
        ensures reads { Reads (outside_of self.old)
            (outside_of self.new) name.now at into.new result }
        ensures answer { result ≡ read_answer (is_due self.old) (names_of self.old name.now) at
            (length into.old) }
        ensures rest { MatchResult result
            (λ count. drop count into.new ≡ drop count into.old)
            (λ _. into.new ≡ into.old) }
        ensures counted { Counted self.old self.new (record no_event {
          read_fault = is_err result;
          miss = is_none (names_of self.old name.now);
        }) }
    {
        let due = next_is_due(&mut self.calls, &self.failing);
        match self.names.get(name) {
            Some(bytes) if !due => Ok(copy_from(bytes, at, into)),
            Some(_) => {
                raise(&mut self.read_faults);
                Err(FileRefusal::Failed)
            }
            None => {
                raise(&mut self.read_faults);
                raise(&mut self.absent);
                Err(FileRefusal::Failed)
            }
        }
    }

    fn create(&mut self, name: &str) -> Result<(), FileRefusal>
        ensures creates { Creates (outside_of self.old) (outside_of self.new) name.now result }
        ensures failed { is_failed result ≡ is_due self.old }
        ensures refused { OnErr result (names_of self.new ≡ names_of self.old) }
        ensures counted { Counted self.old self.new (record no_event {
          write_fault = is_failed result;
          want = is_out_of_memory result;
        }) }
    {
        if next_is_due(&mut self.calls, &self.failing) {
            raise(&mut self.write_faults);
            return Err(FileRefusal::Failed);
        }
        if put(self.alloc, &mut self.names, name, &[]).is_err() {
            raise(&mut self.wants);
            return Err(FileRefusal::Memory);
        }
        Ok(())
    }

    fn append(&mut self, name: &str, bytes: &[u8]) -> Result<(), FileRefusal>
        ensures appends { Appends (outside_of self.old)
            (outside_of self.new) name.now bytes.now result }
        ensures failed { is_failed result ≡ (is_due self.old
            || is_none (names_of self.old name.now)) }
        ensures refused { OnErr result ((names_of self.new ≡ names_of self.old)
            ⊎ (IsTrue (is_due self.old)
            × (names_of self.new ≡ with_more name.now (first_half bytes.now)
            (names_of self.old)))) }
        ensures counted { Counted self.old self.new (record no_event {
          write_fault = is_failed result;
          want = is_out_of_memory result;
          miss = is_none (names_of self.old name.now);
        }) }
    {
        let due = next_is_due(&mut self.calls, &self.failing);
        match self.names.get_mut(name) {
            Some(held) => add(held, bytes, due, &mut self.write_faults, &mut self.wants),
            None => {
                raise(&mut self.write_faults);
                raise(&mut self.absent);
                Err(FileRefusal::Failed)
            }
        }
    }

    fn say(&mut self, bytes: &[u8]) -> Result<(), FileRefusal>
        ensures says { Says (outside_of self.old) (outside_of self.new) bytes.now result }
        ensures failed { is_failed result ≡ is_due self.old }
        ensures refused { OnErr result ((said_of self.new ≡ said_of self.old)
            ⊎ (IsTrue (is_due self.old)
            × (said_of self.new ≡ said_of self.old ++ first_half bytes.now))) }
        ensures counted { Counted self.old self.new (record no_event {
          say_fault = is_failed result;
          want = is_out_of_memory result;
        }) }
    {
        let due = next_is_due(&mut self.calls, &self.failing);
        add(
            &mut self.said,
            bytes,
            due,
            &mut self.say_faults,
            &mut self.wants,
        )
    }
}
