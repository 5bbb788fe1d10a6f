//! A file that stays open for reading between calls.
ghost use Rattle.std.specs.Prelude.{◌≤◌, length, IfOk};

use std::io;
use std::io::{ErrorKind, Read, Seek, SeekFrom};

/// A file that is open for reading, and the place that its next read begins at.
#[derive(Drop)]
pub struct Reader<F> {
    file: F,
    place: u64,
}

impl<F: Read + Seek> Reader<F> {
    /// Takes a file that has just been opened.
    pub fn new(file: F) -> Reader<F> {
        Reader { file, place: 0 }
    }

    /// Reads from place `at` on what the system returns in one call: no bytes only at the file's
    /// end or after it, or where `into` is empty. It seeks only where the last read didn't end at
    /// the place, so a pipe can be read from front to back.
    pub fn read_at(&mut self, at: u64, into: &mut [u8]) -> io::Result<usize>
        ensures { IfOk result (λ count. count ≤ length into.new) }
    {
        if self.place != at && !self.go(at)? {
            return Ok(0);
        }
        let count = read_once(&mut self.file, into)?;
        self.place = at.saturating_add(count as u64);
        Ok(count)
    }

    /// Goes to a place, or returns `false` for one after the file's end that the system refuses: it
    /// does so where no file of that file system can reach as far. A refusal of any other place is
    /// an error.
    fn go(&mut self, at: u64) -> io::Result<bool> {
        match self.file.seek(SeekFrom::Start(at)) {
            Ok(place) => {
                self.place = place;
                Ok(true)
            }
            Err(error) if error.kind() == ErrorKind::InvalidInput => {
                self.place = self.file.seek(SeekFrom::End(0))?;
                if at < self.place {
                    Err(error)
                } else {
                    Ok(false)
                }
            }
            Err(error) => Err(error),
        }
    }
}

/// One read, made again where a signal interrupts it.
fn read_once<F: Read>(file: &mut F, into: &mut [u8]) -> io::Result<usize>
    ensures { IfOk result (λ count. count ≤ length into.new) }
{
    for _ in 0..u64::MAX {
        match file.read(into) {
            Err(error) if error.kind() == ErrorKind::Interrupted => {}
            outcome => return outcome,
        }
    }
    Err(io::Error::from(ErrorKind::TimedOut))
}
