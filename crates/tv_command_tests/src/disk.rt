//! The commands on the operating system's files, compared with files in memory: the statuses, and
//! the bytes that the files hold.

use crate::calls::TWO_READS;
use std::alloc::Global;
use std::test::*;
use std::{fs, process};
use tv_disk::DiskFiles;
use tv_files::{Files, MemFiles, slurp, write_file};
use tv_top::{Status, command};

// The files that there are before, by their names in a folder.
const BEFORE: [(&str, &str); 4] = [
    ("text", TWO_READS),
    ("tape", ""),
    ("aux", "9 9 7"),
    ("public", "0"),
];

// The names that are written.
const AFTER: [&str; 4] = ["system", "witness", "tape.out", "aux.out"];

// The commands, in whose words `@` stands for the folder.
const COMMANDS: [&str; 4] = [
    "build @text 0 4 @system",
    "witness @text @tape @aux 4 @witness",
    "check @system @witness @public",
    "extract @text 0 4 @witness @tape.out @aux.out",
];

// A name in a folder.
fn name_in(alloc: Global, folder: &str, name: &str) -> Result<String, Fail> {
    Ok(format!(in alloc; "{folder}/{name}")?)
}

// What the command of these words answers over files of this folder.
fn answer<D: Files>(
    alloc: Global,
    files: &mut D,
    folder: &str,
    words: &str,
) -> Result<Status, Fail> {
    let mut all = Vec::new(alloc);
    for word in words.split_whitespace() {
        match word.strip_prefix("@") {
            Some(name) => all.push(name_in(alloc, folder, name)?)?,
            None => all.push(String::from_str(alloc, word)?)?,
        }
    }
    Ok(command(alloc, &all, files))
}

#[test]
fn files_on_disk_are_those_in_memory(rt: HostRuntime) -> Result<(), Fail> {
    let alloc = rt.alloc();
    let folder = format!(in alloc; "/tmp/tv_command-{}", process::id(rt.process()))?;
    fs::create_dir(&rt, folder.as_str())?;
    let mut disk = DiskFiles::new(alloc, rt, false);
    let mut memory = MemFiles::new(alloc);
    for (name, held) in BEFORE {
        let name = name_in(alloc, &folder, name)?;
        write_file(&mut disk, &name, held.as_bytes())?;
        write_file(&mut memory, &name, held.as_bytes())?;
    }
    for words in COMMANDS {
        let found = answer(alloc, &mut disk, &folder, words)?.code();
        let wanted = answer(alloc, &mut memory, &folder, words)?.code();
        assert!(rt; found == 0 && wanted == 0, "{words}: {found}, {wanted}");
    }
    for name in AFTER {
        let name = name_in(alloc, &folder, name)?;
        let held = slurp(alloc, &mut disk, &name, 1 << 24)?;
        assert!(rt; memory.bytes_of(&name) == Some(held.as_slice()), "{name}");
    }
    Ok(fs::remove_dir_all(&rt, folder.as_str())?)
}
