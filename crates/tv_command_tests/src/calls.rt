//! Files in memory, and what commands return over them.

use std::alloc::{AllocError, Global};
use std::test::*;
use tv_files::MemFiles;
use tv_top::{Status, command};

/// A program that answers by its two reads of the auxiliary tape.
pub(crate) const TWO_READS: &str = "read r1, 1\nread r2, 1\nsub r3, r1, r2\nanswer r3";

/// What the names that are written hold before.
pub(crate) const BEFORE: &[u8] = b"before";

/// The names that are written.
pub(crate) const WRITTEN: [&str; 6] = ["out", "system", "witness", "tape.out", "aux.out", "lines"];

/// Makes each name stand for its contents.
pub(crate) fn set_all(files: &mut MemFiles, all: &[(&str, &[u8]); 3]) -> Result<(), AllocError> {
    for (name, bytes) in all {
        files.set(name, bytes)?;
    }
    Ok(())
}

/// Files of a program and its tapes, of which the first is empty, beside names that are to be
/// written.
pub(crate) fn files_of<'x>(alloc: Global, text: &'x str, aux: &'x str) -> Result<MemFiles, Fail> {
    let mut files = MemFiles::new(alloc);
    let (text, aux) = (text.as_bytes(), aux.as_bytes());
    set_all(&mut files, &[("text", text), ("tape", b""), ("aux", aux)])?;
    for name in WRITTEN {
        files.set(name, BEFORE)?;
    }
    Ok(files)
}

/// What the command of these words, which have spaces between them, answers.
pub(crate) fn call(alloc: Global, files: &mut MemFiles, words: &str) -> Result<Status, Fail> {
    let mut all = Vec::new(alloc);
    for word in words.split_whitespace() {
        all.push(String::from_str(alloc, word)?)?;
    }
    Ok(command(alloc, &all, files))
}
