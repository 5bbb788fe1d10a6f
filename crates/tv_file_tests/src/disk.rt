//! Calls of `DiskFiles` on files of a folder, and of another program on the same files.

use std::test::Fail;
use std::{fs, process};
use tv_disk::{DiskFiles, RefusalCounts};
use tv_files::{FileRefusal, Files};

#[derive(Clone, Copy, Debug)]
enum Step {
    Create,
    Append(&'static [u8]),
    // from this place on, into this many bytes, of at most 32
    Read(u64, usize),
    Say,
    // removes the file, not as one of the calls
    Remove,
}

// What a step on a name returns: how many bytes were read, and else 0.
fn answer(
    rt: HostRuntime,
    files: &mut DiskFiles<HostRuntime>,
    step: Step,
    name: &str,
    into: &mut [u8; 32],
) -> Result<usize, FileRefusal> {
    match step {
        Step::Create => files.create(name)?,
        Step::Append(bytes) => files.append(name, bytes)?,
        Step::Read(at, most) => return files.read(name, at, &mut into[..most.min(32)]),
        Step::Say => files.say(b"")?,
        Step::Remove => {
            if fs::remove_file(&rt, name).is_err() {
                return Err(FileRefusal::Failed);
            }
        }
    }
    Ok(0)
}

const FAILED: Result<&[u8], FileRefusal> = Err(FileRefusal::Failed);

const DONE: Result<&[u8], FileRefusal> = Ok(b"");

// Whether another program does it; what is done to which name in a folder, of which `` is the
// folder's own; and what is read.
static STEPS: [(bool, Step, &str, Result<&[u8], FileRefusal>); 32] = [
    // What was appended is read back from any place, also between two appends.
    (false, Step::Create, "file", DONE),
    (false, Step::Append(b"six of "), "file", DONE),
    (false, Step::Read(0, 32), "file", Ok(b"six of ")),
    (false, Step::Append(b"one"), "file", DONE),
    (true, Step::Read(0, 32), "file", Ok(b"six of one")),
    (false, Step::Read(7, 32), "file", Ok(b"one")),
    (false, Step::Read(0, 32), "file", Ok(b"six of one")),
    (false, Step::Read(10, 32), "file", DONE),
    (false, Step::Read(u64::MAX, 32), "file", DONE),
    // A reading goes on with what the file has by now, where it was written to since, by another
    // of its names too, and returns what is there where it begins anew.
    (false, Step::Read(0, 3), "./file", Ok(b"six")),
    (false, Step::Append(b" or more"), "file", DONE),
    (false, Step::Read(3, 32), "./file", Ok(b" of one or more")),
    (false, Step::Read(14, 32), "./file", Ok(b"more")),
    (false, Step::Read(4, 32), "./file", Ok(b"of one or more")),
    (true, Step::Create, "file", DONE),
    (true, Step::Append(b"half a dozen"), "file", DONE),
    (false, Step::Read(0, 32), "./file", Ok(b"half a dozen")),
    // A file that was put in another's place is the one that is read once it was created.
    (false, Step::Create, "file", DONE),
    (false, Step::Append(b"six of one"), "file", DONE),
    (false, Step::Read(0, 32), "file", Ok(b"six of one")),
    (false, Step::Read(10, 32), "file", DONE),
    (false, Step::Remove, "file", DONE),
    (false, Step::Create, "file", DONE),
    (false, Step::Read(0, 32), "file", DONE),
    (false, Step::Say, "", DONE),
    // A name that isn't there, and a folder's.
    (false, Step::Read(0, 32), "absent", FAILED),
    (false, Step::Append(b"one"), "absent", FAILED),
    (false, Step::Remove, "absent", FAILED),
    (false, Step::Read(0, 32), "", FAILED),
    (false, Step::Append(b"one"), "", FAILED),
    (false, Step::Create, "", FAILED),
    (false, Step::Read(0, 32), "file", DONE),
];

// A folder of this process alone.
fn new_folder(rt: HostRuntime) -> Result<String, Fail> {
    let folder = format!(in rt.alloc(); "/tmp/tv_disk-{}", process::id(rt.process()))?;
    fs::create_dir(&rt, folder.as_str())?;
    Ok(folder)
}

#[test]
fn calls_see_what_the_system_has(rt: HostRuntime) -> Result<(), Fail> {
    let folder = new_folder(rt)?;
    let mut own = DiskFiles::new(rt.alloc(), rt, false);
    let mut others = DiskFiles::new(rt.alloc(), rt, false);
    for (is_other, step, name, wanted) in &STEPS {
        let file = format!(in rt.alloc(); "{folder}/{name}")?;
        let mut into = [0; 32];
        let count = if *is_other {
            answer(rt, &mut others, *step, file.as_str(), &mut into)
        } else {
            answer(rt, &mut own, *step, file.as_str(), &mut into)
        };
        let read = count.map(|count| &into[..count.min(32)]);
        assert_eq!(rt; read, *wanted, "{step:?} {name}");
    }
    let none = RefusalCounts::new();
    let mut counts = none;
    (counts.read_faults, counts.write_faults) = (2, 3);
    assert_eq!(rt; (own.counts(), others.counts()), (counts, none));
    Ok(fs::remove_dir_all(&rt, folder.as_str())?)
}
