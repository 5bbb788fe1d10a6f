//! The files that are open, by name.
ghost use Rattle.std.specs.Prelude.{◌≤◌, length, IfOk};

use crate::reader::Reader;
use std::alloc::{AllocError, Global};
use std::collections::BTreeMap;
use std::fs::OpenOptions;
use std::io::Write;
use std::rt::Files;
use std::{fs, io};

/// The handles that are open on one name.
#[derive(Drop)]
struct Handles<F> {
    reader: Option<Reader<F>>,
    /// A handle that writes at the file's end.
    writer: Option<F>,
}

/// The files that are open, by name. A handle is opened at its first use, and stays open.
#[derive(Drop)]
pub struct OpenFiles<R: Files> {
    handles: BTreeMap<String, Handles<R::File>>,
    alloc: Global,
}

impl<R: Files> OpenFiles<R> {
    /// None is open yet.
    pub fn new(alloc: Global) -> OpenFiles<R> {
        OpenFiles {
            handles: BTreeMap::new(alloc),
            alloc,
        }
    }

    /// Returns the handles of a name, both closed where it is a new one.
    fn handles_of(&mut self, name: &str) -> Result<&mut Handles<R::File>, AllocError> {
        if let Some(handles) = self.handles.get_mut(name) {
            return Ok(handles);
        }
        let name = String::from_str(self.alloc, name)?;
        let closed = Handles {
            reader: None,
            writer: None,
        };
        Ok(self.handles.entry(name)?.or_insert(closed))
    }

    /// Reads from place `at` on what the system returns in one call.
    pub fn read(&mut self, rt: &R, name: &str, at: u64, into: &mut [u8]) -> io::Result<usize>
        ensures { IfOk result (λ count. count ≤ length into.new) }
    {
        let reader = self
            .handles_of(name)?
            .reader
            .get_or_try_insert_with(|| fs::open(rt, name).map(Reader::new))?;
        reader.read_at(at, into)
    }

    /// Makes the name stand for no bytes. Handles that were open on it may be of another file by
    /// now, and are closed first.
    pub fn create(&mut self, rt: &R, name: &str) -> io::Result<()> {
        let handles = self.handles_of(name)?;
        handles.reader = None;
        handles.writer = None;
        handles.writer = Some(fs::create(rt, name)?);
        Ok(())
    }

    /// Writes the bytes at the file's end.
    pub fn append(&mut self, rt: &R, name: &str, bytes: &[u8]) -> io::Result<()> {
        let handles = self.handles_of(name)?;
        let writer = handles
            .writer
            .get_or_try_insert_with(|| OpenOptions::new().append(true).open(rt, name))?;
        writer.write_all(bytes)
    }
}
