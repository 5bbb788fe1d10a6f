//! The system's files and standard output as `Files`.
ghost use Rattle.std.specs.Prelude.{◌≡◌};
ghost use Rattle.tv_files.specs.Calls.{Reads, Creates, Appends, Says};
ghost use Rattle.tv_disk.specs.Counts.{outside_of, zeros, after};
ghost use Rattle.tv_disk.specs.declared.counts.Call.TheVariants.{Reading, Writing, Saying};

use crate::counts::{Call, RefusalCounts};
use crate::open::OpenFiles;
use crate::progress::Progress;
use std::alloc::Global;
use std::io::Write;
use std::marker::Model;
use std::{io, rt};
use tv_files::{FileRefusal, Files};

/// The files of the system, by name, and its standard output.
///
/// Contracts see its counts alone, and nothing of files or of what was printed: each refusal raises
/// one of them by 1, and nothing else does.
#[derive(Drop)]
pub struct DiskFiles<R: rt::Files + Drop> {
    rt: R,
    open: OpenFiles<R>,
    counts: RefusalCounts,
    last: Option<io::Error>,
    progress: Progress,
}

impl<R: rt::Files + Drop> Model for DiskFiles<R> {
    ghost use Rattle.tv_disk.specs.declared.counts.RefusalCounts.{RefusalCounts};

    ghost Value = { RefusalCounts };

    ghost view = { λ files. files.counts };
}

impl<R: rt::Files + Drop> DiskFiles<R> {
    /// Opens nothing yet, with all counts 0. Where `has_terminal`, standard error is a terminal,
    /// and shows how much of a file is read or written.
    pub fn new(alloc: Global, rt: R, has_terminal: bool) -> DiskFiles<R>
        ensures { result ≡ zeros }
    {
        DiskFiles {
            rt,
            open: OpenFiles::new(alloc),
            counts: RefusalCounts::new(),
            last: None,
            progress: Progress::new(has_terminal),
        }
    }

    /// Returns how many calls were refused so far, by cause.
    pub fn counts(&self) -> RefusalCounts
        ensures { result ≡ self.now }
    {
        self.counts
    }

    /// Returns why the last call that was refused was so, as the system says it. No clause speaks
    /// of it.
    pub fn reason(&self) -> Option<io::Error> {
        self.last
    }
}

impl<R: rt::Files + Eprint + Drop> DiskFiles<R> {
    /// Clears the line that shows how much is read or written, where one stands.
    pub fn clear(&mut self)
        ensures { self.new ≡ self.old }
    {
        self.progress.clear(&self.rt);
    }
}

impl<R: rt::Files + Print + Eprint + Drop> Files for DiskFiles<R> {
    ghost seen = { λ files. outside_of files };

    #[tactic(auto, using(crate::proofs::Known::reads))]
    fn read(&mut self, name: &str, at: u64, into: &mut [u8]) -> Result<usize, FileRefusal>
        ensures known { Reads (outside_of self.old) (outside_of self.new)
            name.now at into.new result }
        ensures counts { self.new ≡ after Reading result self.old }
    {
        if at == 0 {
            self.progress.begin();
        }
        let outcome = self.open.read(&self.rt, name, at, into);
        if let Ok(count) = &outcome {
            self.progress.add(&self.rt, name, *count);
        }
        self.counts.settle(Call::Reading, outcome, &mut self.last)
    }

    #[tactic(auto, using(crate::proofs::Known::creates))]
    fn create(&mut self, name: &str) -> Result<(), FileRefusal>
        ensures known { Creates (outside_of self.old) (outside_of self.new) name.now result }
        ensures counts { self.new ≡ after Writing result self.old }
    {
        self.progress.begin();
        let outcome = self.open.create(&self.rt, name);
        self.counts.settle(Call::Writing, outcome, &mut self.last)
    }

    #[tactic(auto, using(crate::proofs::Known::appends))]
    fn append(&mut self, name: &str, bytes: &[u8]) -> Result<(), FileRefusal>
        ensures known { Appends (outside_of self.old) (outside_of self.new)
            name.now bytes.now result }
        ensures counts { self.new ≡ after Writing result self.old }
    {
        let outcome = self.open.append(&self.rt, name, bytes);
        if outcome.is_ok() {
            self.progress.add(&self.rt, name, bytes.len());
        }
        self.counts.settle(Call::Writing, outcome, &mut self.last)
    }

    #[tactic(auto, using(crate::proofs::Known::says))]
    fn say(&mut self, bytes: &[u8]) -> Result<(), FileRefusal>
        ensures known { Says (outside_of self.old) (outside_of self.new) bytes.now result }
        ensures counts { self.new ≡ after Saying result self.old }
    {
        self.progress.clear(&self.rt);
        let outcome = print(&self.rt, bytes);
        self.counts.settle(Call::Saying, outcome, &mut self.last)
    }
}

/// Writes all the bytes to standard output.
fn print(rt: &impl Print, bytes: &[u8]) -> io::Result<()> {
    let mut output = io::writer(rt);
    output.write_all(bytes)?;
    output.flush()
}
