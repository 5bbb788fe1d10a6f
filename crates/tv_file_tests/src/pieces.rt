//! In which pieces both writers append, what each failing call of theirs leaves, and that each
//! failing read of such a file is reported.

use crate::calls::files_of;
use crate::systems::{write_multiples, write_values};
use std::alloc::Global;
use std::test::Fail;
use tv_container::ReadRefusal;
use tv_core::{F, Put, SinkFault};
use tv_files::MemFiles;
use tv_r1cs_read::survey;
use tv_wtns::read_values;

#[derive(Clone, Copy, Debug)]
enum Form {
    System,
    Assignment,
}

// Writes a file of this many constraints or values, of these at most 1018.
fn write(files: &mut MemFiles, form: Form, count: u16) -> Put<()> {
    match form {
        Form::System => write_multiples(files, count),
        Form::Assignment => {
            let values = [F::ONE; 1018];
            write_values(files, &values[..usize::from(count).min(1018)])
        }
    }
}

// Why such a file is refused.
fn refused(alloc: Global, files: &mut MemFiles, form: Form) -> Option<ReadRefusal> {
    match form {
        Form::System => survey(alloc, files, "file").err(),
        Form::Assignment => read_values(alloc, files, "file").err(),
    }
}

// A form of files, how many constraints or values, and with how many bytes in how many calls.
type File = (Form, u16, usize, u64);

const FILES: [File; 8] = [
    (Form::System, 0, 112, 2),
    (Form::System, 83, 4096, 2),
    (Form::System, 84, 4144, 3),
    (Form::System, 169, 8224, 4),
    (Form::Assignment, 0, 52, 2),
    (Form::Assignment, 505, 4092, 2),
    (Form::Assignment, 506, 4100, 3),
    (Form::Assignment, 1018, 8196, 4),
];

// Whether each of the calls that write these bytes, where it fails, is the last, and leaves a first
// part of them, or of what there was.
fn writes_may_fail(alloc: Global, file: &File, bytes: &[u8]) -> Result<bool, Fail> {
    let (form, count, _, calls) = *file;
    for number in 1..=calls {
        let mut files = files_of(alloc, b"old")?;
        files.fail_at(number)?;
        let failed = write(&mut files, form, count) == Err(SinkFault::Failed);
        let left = files.bytes_of("file").unwrap_or(&[]);
        let first_part = bytes.starts_with(left) || number == 1 && left == b"old".as_slice();
        if !failed || !first_part || files.calls() != number {
            return Ok(false);
        }
    }
    Ok(true)
}

// Whether each of the calls that read these bytes, where it fails, is reported, and is the last.
fn reads_may_fail(alloc: Global, form: Form, bytes: &[u8]) -> Result<bool, Fail> {
    let mut whole = files_of(alloc, bytes)?;
    if refused(alloc, &mut whole, form).is_some() {
        return Ok(false);
    }
    for number in 1..=whole.calls() {
        let mut files = files_of(alloc, bytes)?;
        files.fail_at(number)?;
        let reported = refused(alloc, &mut files, form) == Some(ReadRefusal::Fault);
        if !reported || files.calls() != number {
            return Ok(false);
        }
    }
    Ok(true)
}

#[test]
fn files_are_written_in_pieces_and_failing_calls_are_reported(rt: HostRuntime) -> Result<(), Fail> {
    let alloc = rt.alloc();
    for file in FILES {
        let (form, count, size, calls) = file;
        let mut files = MemFiles::new(alloc);
        write(&mut files, form, count)?;
        let bytes = files.bytes_of("file").unwrap_or(&[]);
        let sized = files.calls() == calls && bytes.len() == size;
        let may_fail = writes_may_fail(alloc, &file, bytes)? && reads_may_fail(alloc, form, bytes)?;
        assert!(rt; sized && may_fail, "{form:?} {count}");
    }
    Ok(())
}
