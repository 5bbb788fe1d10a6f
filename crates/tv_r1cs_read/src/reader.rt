//! A reader that borrows the files and yields a system's constraints in order.
ghost use Rattle.std.specs.Prelude.{◌≡◌, ◌+◌, true, false, [], None, Err, IfOk, IfErr};
ghost use Rattle.std.specs.Prelude.{IfSome, MatchResult};
ghost use Rattle.tv_container.specs.Reading.{Looks, Stopped, ReadsAs, Refuses, IsMissing, Known};
ghost use Rattle.tv_container.specs.declared.why.ReadRefusal.{ReadRefusal};
ghost use Rattle.tv_r1cs_read.specs.Places.{IsAt};
ghost use Rattle.tv_r1cs_read.specs.Progress.{counts_of, IsBegun};
ghost use Rattle.tv_r1cs_read.specs.R1cs.{header_of, r1cs_system};
ghost use Rattle.tv_r1cs_read.specs.Steps.{Failed, Yields, YieldsOwned, Passed, Stays, Steps};
ghost use Rattle.tv_r1cs_read.specs.Steps.{ReportsStop, WentOn, WentOnBy};
ghost use Rattle.tv_r1cs_read.specs.Survey.{survey_of};

use crate::progress::Progress;
use crate::rows::Row;
use std::alloc::Global;
use tv_container::ReadRefusal;
use tv_core::{Counts, F};
use tv_files::Files;

/// Reads a system's constraints one after another from a file, which it borrows.
#[derive(Drop)]
pub struct SystemReader<'a, D: Files> {
    pub(crate) files: &'a mut D,
    pub(crate) name: &'a str,
    pub(crate) alloc: Global,
    pub(crate) progress: Progress,
}

/// A system that was refused at its header: why, and the files again.
#[derive(Drop)]
pub struct Unread<'a, D: Files> {
    /// The files, as the refused call left them.
    pub files: &'a mut D,
    /// Why.
    pub why: ReadRefusal,
}

impl<'a, D: Files> SystemReader<'a, D> {
    /// Reads all of a system's file but its constraints.
    ///
    /// A refusal returns the files: `Bad` is the file's first fault before its constraints, and
    /// `Fault` comes only where a read failed, as of a missing name. Takes no memory: `Memory` comes
    /// only where the files ran out of it.
    pub fn begin(
        alloc: Global,
        files: &'a mut D,
        name: &'a str,
    ) -> Result<SystemReader<'a, D>, Unread<'a, D>>
        ensures ok_same { IfOk result (λ reader. reader.files.ghost_name ≡ files.entry.ghost_name) }
        ensures ok_looks { IfOk result (λ reader. D.seen reader.files.now ≡ D.seen files.old) }
        ensures name { IfOk result (λ reader. reader.name.now ≡ name.now) }
        ensures begun { IfOk result (λ reader. IsBegun reader.progress) }
        ensures gives { Known (D.seen files.old) name.now (λ file. MatchResult result
            (λ reader. IsAt reader.progress file [])
            (λ unread. Refuses unread.why (header_of file) × Refuses unread.why
            (r1cs_system file))) }
        ensures err_same { IfErr result (λ unread. unread.files.ghost_name
            ≡ files.entry.ghost_name) }
        ensures err_stopped { IfErr result (λ unread. Stopped (D.seen files.old)
            (D.seen unread.files.now) name.now unread.why) }
        ensures missing { IsMissing (D.seen files.old) name.now
            → MatchResult result (λ _. ⊥) (λ unread. unread.why ≡ ReadRefusal.Fault) }
    {
        match Progress::begin(files, name) {
            Ok(progress) => Ok(SystemReader {
                files,
                name,
                alloc,
                progress,
            }),
            Err(why) => Err(Unread { files, why }),
        }
    }

    /// Returns what the system counts, and the terms of the rows returned so far: a refused row
    /// adds none.
    pub fn counts(&self) -> Counts
        ensures { result ≡ counts_of self.now.progress }
    {
        self.progress.counts()
    }

    /// Reads the next constraint, each wire of which is below the system's `wires`, into `row`,
    /// whose memory is reused, and returns whether there was one; there is none after the last.
    ///
    /// `Bad` reports the first fault ahead, `Fault` comes only where a read failed, and each later
    /// call repeats a refusal and reads nothing.
    #[inline(always)]
    pub fn next_into(&mut self, row: &mut Row) -> Result<bool, ReadRefusal>
        ensures same { self.new.files.ghost_name ≡ self.old.files.ghost_name }
        ensures name { self.new.name.now ≡ self.old.name.now }
        ensures steps { Steps true (D.seen self.old.files.now) (D.seen self.new.files.now)
            self.old.name.now self.old.progress self.new.progress
            (λ file rows. IfOk result (λ more. Yields more row.new self.new.progress file rows)) }
        ensures reports { ReportsStop result self.new.progress.stopped }
        ensures counts { MatchResult result
            (λ more. WentOn more row.new self.old.progress self.new.progress)
            (λ _. Stays self.old.progress self.new.progress) }
    {
        self.progress.next(self.files, self.name, row)
    }

    /// Tests the constraints ahead under an assignment, straight from the file's bytes, up to the
    /// first that doesn't hold; a wire past the assignment's end counts as 0. Returns how many hold
    /// before that one, or `None` where all hold or reading stopped; `stopped` says which. Takes no
    /// memory; each term is one product.
    pub fn first_failure(&mut self, values: &[F]) -> Option<u64>
        ensures same { self.new.files.ghost_name ≡ self.old.files.ghost_name }
        ensures name { self.new.name.now ≡ self.old.name.now }
        ensures steps { Steps false (D.seen self.old.files.now) (D.seen self.new.files.now)
            self.old.name.now self.old.progress self.new.progress
            (λ file rows. Failed result values.now self.new.progress file rows) }
        ensures goes { IfSome result (λ _. self.new.progress.stopped ≡ None) }
        ensures left { IfSome result
            (λ before. self.new.progress.left + before + 1 ≡ self.old.progress.left) }
    {
        self.progress.first_failure(self.files, self.name, values)
    }

    /// Reads on to the end of the system and returns no constraint: those ahead are checked for
    /// their form alone. `stopped` then has the first fault ahead, or a read that failed. Takes no
    /// memory.
    pub fn pass_rest(&mut self)
        ensures same { self.new.files.ghost_name ≡ self.old.files.ghost_name }
        ensures name { self.new.name.now ≡ self.old.name.now }
        ensures steps { Steps false (D.seen self.old.files.now) (D.seen self.new.files.now)
            self.old.name.now self.old.progress self.new.progress
            (λ file rows. Passed self.new.progress file rows) }
    {
        let None = self.stopped() else {
            return;
        };
        while let Some(_) = self.first_failure(&[]) {}
    }

    /// Why reading stopped, where it did: `Bad` is the first fault ahead, and `Fault` comes only
    /// where a read failed.
    pub fn stopped(&self) -> Option<ReadRefusal>
        ensures { result ≡ self.now.progress.stopped }
    {
        self.progress.stopped()
    }

    /// Returns the next constraint, as a row of its own; `None` after the last. It refuses as
    /// `next_into` does.
    pub fn next(&mut self) -> Result<Option<Row>, ReadRefusal>
        ensures same { self.new.files.ghost_name ≡ self.old.files.ghost_name }
        ensures name { self.new.name.now ≡ self.old.name.now }
        ensures steps { Steps true (D.seen self.old.files.now) (D.seen self.new.files.now)
            self.old.name.now self.old.progress self.new.progress
            (λ file rows. IfOk result (λ row. YieldsOwned row self.new.progress file rows)) }
        ensures reports { ReportsStop result self.new.progress.stopped }
        ensures counts { MatchResult result
            (λ row. WentOnBy row self.old.progress self.new.progress)
            (λ _. Stays self.old.progress self.new.progress) }
    {
        let mut row = Row::new(self.alloc);
        if self.next_into(&mut row)? {
            return Ok(Some(row));
        }
        Ok(None)
    }
}

/// Reads a system's file to its end, and returns what the system counts.
///
/// `Ok` comes exactly for a file that holds a system, and `Bad` reports the first fault of another
/// one. `Fault` comes only where a read failed, and a missing name is such a fault. Takes one pass
/// and no memory: `Memory` comes only where the files ran out of it.
#[tactic(auto, unfolding(crate::specs::Survey::survey_of))]
pub fn survey<D: Files>(alloc: Global, files: &mut D, name: &str) -> Result<Counts, ReadRefusal>
    ensures gives { Known (D.seen files.old) name.now (λ file. ReadsAs result (survey_of file)) }
    ensures looks { Looks (D.seen files.old) (D.seen files.new) name.now result }
    ensures missing { IsMissing (D.seen files.old) name.now → result ≡ Err ReadRefusal.Fault }
{
    let mut reader = match SystemReader::begin(alloc, files, name) {
        Ok(reader) => reader,
        Err(unread) => return Err(unread.why),
    };
    reader.pass_rest();
    match reader.stopped() {
        Some(why) => Err(why),
        None => Ok(reader.counts()),
    }
}
