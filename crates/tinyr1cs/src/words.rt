//! The words after the program's name.
use std::alloc::Global;
use std::env;
use std::env::{Env, FillError};
use std::io::ErrorKind;

/// Why there are no words of a command.
#[derive(Clone, Copy)]
pub enum NoWords {
    /// The standard streams' numbers can't be kept from files.
    NoStreams,
    /// One isn't UTF-8.
    NotUtf8,
    /// Memory ran out.
    NoMemory,
}

/// The arguments of a runtime but the first, the program's name, which need not be UTF-8.
#[derive(Drop)]
struct AfterName<'a, R>(&'a R);

impl<R: Env> Env for AfterName<'_, R> {
    fn arg(&self, i: usize, buf: &mut [u8]) -> Result<usize, FillError> {
        self.0.arg(i.saturating_add(1), buf)
    }

    fn var(&self, name: &str, buf: &mut [u8]) -> Result<usize, FillError> {
        self.0.var(name, buf)
    }

    fn var_at(&self, i: usize, buf: &mut [u8]) -> Result<usize, FillError> {
        self.0.var_at(i, buf)
    }
}

impl<R: AllocGlobal> Alloc for AfterName<'_, R> {
    type A = Global;

    fn alloc(&self) -> Global {
        self.0.alloc()
    }
}

/// Copies the words.
pub fn collect<R: Env + AllocGlobal>(rt: &R) -> Result<Vec<String>, NoWords> {
    let after_name = AfterName(rt);
    let words = env::args(&after_name).map_err(|error| why(error.kind()))?;
    words.collect(rt.alloc()).map_err(|_| NoWords::NoMemory)
}

fn why(kind: ErrorKind) -> NoWords {
    match kind {
        ErrorKind::OutOfMemory => NoWords::NoMemory,
        _ => NoWords::NotUtf8,
    }
}
