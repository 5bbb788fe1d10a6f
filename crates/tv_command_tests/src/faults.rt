//! A fault of each file call in turn: what the commands return, and what the names hold then.

use crate::calls::{BEFORE, TWO_READS, WRITTEN, call, files_of, set_all};
use std::alloc::Global;
use std::test::*;
use tv_files::MemFiles;
use tv_top::Status;

// The image of `store.w 65536, r3`.
const IMAGE: [u8; 8] = [0, 0, 0xc0, 0xe4, 0, 0, 1, 0];

const READ: [&str; 9] = [
    "text", "tape", "aux", "filled", "answer", "image", "s", "w", "public",
];

// Each command, and the words whose faults are reported as one call after another fails.
const CALLS: [(&str, &[u64]); 10] = [
    ("asm answer out", &[1, 2]),
    ("disasm image out", &[1, 2]),
    ("run text tape aux 4", &[1, 2, 3, 5]),
    ("build text 0 4 system", &[1, 4]),
    ("witness text tape aux 4 witness", &[1, 2, 3, 5]),
    ("check s w public", &[1, 2, 3, 1, 4]),
    ("extract text 0 4 filled tape.out aux.out", &[1, 4, 5, 6, 7]),
    ("trial 0 1", &[3]),
    ("shrink s out", &[1, 2]),
    ("listing text 0 4 filled time lines", &[1, 4, 6]),
];

// Files that each command can read: those of a run, and what `made` has of those that commands
// make.
fn files(alloc: Global, made: &MemFiles) -> Result<MemFiles, Fail> {
    let mut files = files_of(alloc, TWO_READS, "9 9 7")?;
    for name in ["filled", "s", "w"] {
        files.set(name, made.bytes_of(name).unwrap_or(&[]))?;
    }
    set_all(
        &mut files,
        &[("answer", b"answer 0"), ("image", &IMAGE), ("public", b"0")],
    )?;
    Ok(files)
}

// Whether each name that is read holds what it holds where no call fails.
fn are_kept(files: &MemFiles, whole: &MemFiles) -> bool {
    for name in READ {
        if files.bytes_of(name) != whole.bytes_of(name) {
            return false;
        }
    }
    true
}

// The word of the fault where the call with this number fails; `None` unless that call is the last,
// and each name that is written then holds what it held before or a prefix of what these words
// leave where no call fails.
fn fails(alloc: Global, whole: &MemFiles, words: &str, number: u64) -> Result<Option<u64>, Fail> {
    let mut files = files(alloc, whole)?;
    files.fail_at(number)?;
    let Status::FileFault { word } = call(alloc, &mut files, words)? else {
        return Err(Fail::from("no fault"));
    };
    let said = whole.said_bytes().starts_with(files.said_bytes());
    let mut left = said && are_kept(&files, whole);
    for name in WRITTEN {
        let held = files.bytes_of(name).unwrap_or(&[]);
        let begins = whole.bytes_of(name).unwrap_or(&[]).starts_with(held);
        left = left && (held == BEFORE || begins);
    }
    Ok((left && files.calls() == number).then_some(word))
}

// Whether each call in turn fails for these words, and these words are reported.
fn all_fail(alloc: Global, made: &MemFiles, words: &str, faults: &[u64]) -> Result<bool, Fail> {
    let mut whole = files(alloc, made)?;
    let succeeds = call(alloc, &mut whole, words)?.code() == 0;
    let mut reported: Vec<u64> = Vec::new(alloc);
    for done in 0..whole.calls() {
        let Some(word) = fails(alloc, &whole, words, done + 1)? else {
            return Ok(false);
        };
        if reported.last() != Some(&word) {
            reported.push(word)?;
        }
    }
    Ok(succeeds && reported.as_slice() == faults)
}

// The values of a run, and the system and values of `answer 0`.
const MAKE: [&str; 3] = [
    "witness text tape aux 4 filled",
    "build answer 0 1 s",
    "witness answer tape tape 1 w",
];

#[test]
fn each_call_fails(rt: HostRuntime) -> Result<(), Fail> {
    let alloc = rt.alloc();
    let mut made = files(alloc, &MemFiles::new(alloc))?;
    for words in MAKE {
        assert!(rt; call(alloc, &mut made, words)?.code() == 0, "{words}");
    }
    for (words, faults) in CALLS {
        assert!(rt; all_fail(alloc, &made, words, faults)?, "{words}");
    }
    for cut in CUTS {
        assert!(rt; leaves(alloc, &made, cut)?, "{} {}", cut.0, cut.3);
    }
    let absent = call(alloc, &mut made, "check s w absent")?;
    assert!(rt; matches!(absent, Status::FileFault { word: 3 }));
    Ok(())
}

// A command, how many calls would come after the one that fails, the word of the fault, a name with
// what it then holds, and what was printed.
type Cut = (
    &'static str,
    u64,
    u64,
    &'static str,
    &'static [u8],
    &'static [u8],
);

const EXTRACT: &str = "extract answer 0 1 w tape.out aux.out";

// An append or a print that fails takes the first half of its bytes.
const CUTS: [Cut; 6] = [
    ("asm answer out", 0, 2, "out", &[0, 0, 0, 0xfc], b""),
    ("asm answer out", 1, 2, "out", BEFORE, b""),
    ("check s w public", 0, 4, "out", BEFORE, b"ye"),
    (EXTRACT, 0, 7, "aux.out", b"", b"answer 0 "),
    (EXTRACT, 1, 6, "tape.out", b"", b""),
    (EXTRACT, 1, 6, "aux.out", BEFORE, b""),
];

// Whether a call that fails leaves this.
fn leaves(alloc: Global, made: &MemFiles, cut: Cut) -> Result<bool, Fail> {
    let (words, after, wanted, name, held, said) = cut;
    let mut whole = files(alloc, made)?;
    let status = call(alloc, &mut whole, words)?;
    let mut files = files(alloc, made)?;
    files.fail_at(whole.calls().saturating_sub(after))?;
    let Status::FileFault { word } = call(alloc, &mut files, words)? else {
        return Ok(false);
    };
    let left = files.bytes_of(name) == Some(held) && files.said_bytes() == said;
    Ok(status.code() == 0 && word == wanted && left)
}

// A command, its exit code, and how many calls it makes: a file is read until a read returns
// nothing, and a line is said by one call. The 1,025 instructions of 9 bytes each in `long` are
// read in three pieces of 4,096 bytes at most and one of none, and their image of 8,200 bytes is
// created and written in three. Words are refused before any file is read, a text and a tape before
// what comes after them, and a run that doesn't answer before anything is written.
const COUNTS: [(&str, u8, u64); 12] = [
    ("asm answer out", 0, 4),
    ("asm long out", 0, 4 + 1 + 3),
    ("disasm image out", 0, 4),
    ("run answer tape aux 1", 0, 6),
    ("", 2, 1),
    ("build text 0 1 text", 12, 1),
    ("build text 131073 0 system", 7, 1),
    ("trial 0 0", 7, 1),
    ("witness aux text tape 1 witness", 3, 2 + 1),
    ("witness text text tape 1 witness", 4, 2 + 2 + 1),
    ("run text tape aux 3", 1, 2 + 1 + 2 + 1),
    ("witness text tape aux 3 witness", 10, 2 + 1 + 2 + 1),
];

#[test]
fn each_command_makes_this_many_calls(rt: HostRuntime) -> Result<(), Fail> {
    for (words, code, calls) in COUNTS {
        let mut files = files(rt.alloc(), &MemFiles::new(rt.alloc()))?;
        files.set("long", "answer 0\n".repeat(rt.alloc(), 1_025)?.as_bytes())?;
        let found = call(rt.alloc(), &mut files, words)?.code();
        assert!(rt; found == code && files.calls() == calls, "{words}");
    }
    Ok(())
}
