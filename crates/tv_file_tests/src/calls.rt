//! What each call answers and leaves, listed or not, and in how many calls a whole file is written
//! and read where memory is ample.

use std::alloc::{AllocError, Global};
use std::test::Fail;
use tv_files::{FileRefusal, Files, MemFiles, Slurp, slurp, write_file};

/// Files of which one, `file`, has these bytes.
pub fn files_of(alloc: Global, bytes: &[u8]) -> Result<MemFiles, AllocError> {
    let mut files = MemFiles::new(alloc);
    files.set("file", bytes)?;
    Ok(files)
}

#[derive(Clone, Copy, Debug)]
enum Call {
    Read,
    Create,
    Append,
    Say,
}

// What a call on a name answers: a read from place 1 on, how many bytes it copied, and else 0.
fn answer(files: &mut MemFiles, call: Call, name: &str) -> Result<usize, FileRefusal> {
    match call {
        Call::Read => return files.read(name, 1, &mut [0; 4]),
        Call::Create => files.create(name)?,
        Call::Append => files.append(name, b"abcde")?,
        Call::Say => files.say(b"hello")?,
    }
    Ok(0)
}

const FAILED: Result<usize, FileRefusal> = Err(FileRefusal::Failed);

// A call on a name, whether its number is listed, what it answers, and what the name then has and
// what was said. Only `file` is there, and has `old`.
type Row = (
    Call,
    &'static str,
    bool,
    Result<usize, FileRefusal>,
    Option<&'static [u8]>,
    &'static [u8],
);

const ROWS: [Row; 14] = [
    (Call::Read, "file", false, Ok(2), Some(b"old"), b""),
    (Call::Read, "file", true, FAILED, Some(b"old"), b""),
    (Call::Read, "none", false, FAILED, None, b""),
    (Call::Read, "none", true, FAILED, None, b""),
    (Call::Create, "file", false, Ok(0), Some(b""), b""),
    (Call::Create, "file", true, FAILED, Some(b"old"), b""),
    (Call::Create, "none", false, Ok(0), Some(b""), b""),
    (Call::Create, "none", true, FAILED, None, b""),
    (Call::Append, "file", false, Ok(0), Some(b"oldabcde"), b""),
    (Call::Append, "file", true, FAILED, Some(b"oldab"), b""),
    (Call::Append, "none", false, FAILED, None, b""),
    (Call::Append, "none", true, FAILED, None, b""),
    (Call::Say, "file", false, Ok(0), Some(b"old"), b"hello"),
    (Call::Say, "file", true, FAILED, Some(b"old"), b"he"),
];

#[test]
fn each_call_answers_for_itself(rt: HostRuntime) -> Result<(), Fail> {
    for (call, name, listed, answered, bytes, said) in ROWS {
        let mut files = files_of(rt.alloc(), b"old")?;
        files.fail_at(if listed { 1 } else { 2 })?;
        let found = answer(&mut files, call, name);
        let left = files.bytes_of(name) == bytes && files.said_bytes() == said;
        assert!(rt; found == answered && left, "{call:?} {name} {listed}");
    }
    Ok(())
}

const BYTES: [u8; 8192] = [7; 8192];

// A length, in how many calls bytes are written, and in how many they are written and read.
const LENGTHS: [(usize, u64, u64); 5] = [
    (0, 1, 2),
    (1, 2, 4),
    (4096, 2, 4),
    (4097, 3, 6),
    (8192, 3, 6),
];

#[test]
fn whole_files_come_and_go(rt: HostRuntime) -> Result<(), Fail> {
    for (len, writes, calls) in LENGTHS {
        let bytes = &BYTES[..len.min(8192)];
        let mut files = MemFiles::new(rt.alloc());
        write_file(&mut files, "file", bytes)?;
        let written = files.calls();
        let read = slurp(rt.alloc(), &mut files, "file", 8192)?;
        let made = written == writes && files.calls() == calls;
        assert!(rt; made && read.as_slice() == bytes, "{len}");
    }
    Ok(())
}

#[test]
fn longer_and_missing_files_are_refused(rt: HostRuntime) -> Result<(), Fail> {
    let mut files = files_of(rt.alloc(), &BYTES)?;
    let longer = slurp(rt.alloc(), &mut files, "file", 8191);
    assert!(rt; matches!(longer, Err(Slurp::TooLong { most: 8191 })));
    let missing = slurp(rt.alloc(), &mut files, "none", 8191);
    assert!(rt; matches!(missing, Err(Slurp::Fault)));
    Ok(())
}
