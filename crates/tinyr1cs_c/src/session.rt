//! A session: files in memory, the words of the next command, and where the last line begins.
ghost use Rattle.tinyr1cs_c.specs.Answer.{code_of};
ghost use Rattle.tinyr1cs_c.specs.Command.{Ran};
ghost use Rattle.tinyr1cs_c.specs.Session.{IsNew, Sets, AddsWord, CopiesFile, CopiesLine, Copies};

use crate::answer::Answer;
use std::alloc::Global;
use tv_files::MemFiles;
use tv_top::{Status, command};

/// Files in memory, the words of the next command, and where in all that was printed the last line
/// begins.
#[derive(Drop)]
pub struct Session {
    files: MemFiles,
    words: Vec<String>,
    line_at: usize,
}

impl Session {
    /// Returns a session without files or words, which has printed nothing.
    pub fn new(alloc: Global) -> Session
        ensures { IsNew result }
    {
        Session {
            files: MemFiles::new(alloc),
            words: Vec::new(alloc),
            line_at: 0,
        }
    }

    /// Makes the name stand for a copy of the contents.
    pub fn set(&mut self, name: &[u8], contents: &[u8]) -> Answer
        ensures { Sets name.now contents.now self.old self.new (code_of result) }
    {
        let Ok(name) = str::from_utf8(name) else {
            return Answer::NotUtf8;
        };
        match self.files.set(name, contents) {
            Ok(()) => Answer::Done,
            Err(_) => Answer::Memory,
        }
    }

    /// Adds a word to those of the next command.
    pub fn add_word(&mut self, alloc: Global, word: &[u8]) -> Answer
        ensures { AddsWord word.now self.old self.new (code_of result) }
    {
        let Ok(word) = str::from_utf8(word) else {
            return Answer::NotUtf8;
        };
        let Ok(word) = String::from_str(alloc, word) else {
            return Answer::Memory;
        };
        match self.words.push(word) {
            Ok(()) => Answer::Done,
            Err(_) => Answer::Memory,
        }
    }

    /// Runs the command of the words on the files, and forgets the words.
    pub fn run(&mut self, alloc: Global) -> Status
        ensures { Ran self.old self.new result }
    {
        self.line_at = self.files.said_bytes().len();
        let status = command(alloc, &self.words, &mut self.files);
        self.words.clear();
        status
    }

    /// Copies the file's bytes from a place on, as many as there is room for.
    pub fn copy(&self, name: &[u8], from: u64, into: &mut [u8], has: &mut u64) -> Answer
        ensures { CopiesFile name.now from
            (record { before = into.old; after = into.new; has = has.new })
            self.now self.now (code_of result) }
    {
        *has = 0;
        let Ok(name) = str::from_utf8(name) else {
            return Answer::NotUtf8;
        };
        match self.files.bytes_of(name) {
            Some(bytes) => copy_out(bytes, from, into, has),
            None => Answer::Absent,
        }
    }

    /// Copies the last line, as much of it as there is room for.
    pub fn copy_line(&self, into: &mut [u8], has: &mut u64) -> Answer
        ensures { CopiesLine (record { before = into.old; after = into.new; has = has.new })
            self.now self.now (code_of result) }
    {
        copy_out(self.files.said_bytes(), self.line_at as u64, into, has)
    }
}

/// Copies what the bytes have from a place on, as much as there is room for, and counts it.
fn copy_out(bytes: &[u8], from: u64, into: &mut [u8], has: &mut u64) -> Answer
    ensures { Copies bytes.now from
        (record { before = into.old; after = into.new; has = has.new }) (code_of result) }
{
    if from >= bytes.len() as u64 {
        *has = 0;
        return Answer::Done;
    }
    let rest = &bytes[from as usize..];
    *has = rest.len() as u64;
    let count = rest.len().min(into.len());
    into[..count].copy_from_slice(&rest[..count]);
    if rest.len() > into.len() {
        Answer::Short
    } else {
        Answer::Done
    }
}
