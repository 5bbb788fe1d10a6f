//! The program `tinyr1cs-tools`: commands beside those of `tinyr1cs`, which write to standard
//! output alone. `trace` prints the steps of a run, and `sizes` how large a system is. What a
//! command promises is the contract of `run`, over any files, and `conduct` ends by the exit code
//! of the status that it returned. What the command line means is tested by `tests/tools.sh`.
#![tactic(auto)]

ghost use Rattle.std.specs.Process.{exit_status};
ghost use Rattle.tinyr1cs_tools.specs.Tools.{EndsBy};

mod arguments;
mod print;
mod request;
mod sizes;
mod trace;

use arguments::request_of;
use clap::Error;
use clap::error::ErrorKind;
use request::{Request, run};
use std::alloc::Global;
use std::process::ExitCode;
use std::rt::Files;
use std::{env, io};
use tv_disk::{DiskFiles, Escaped, occupy};
use tv_plan::Status;

/// The exit code where a file or a stream fails.
const FAULT: u8 = 8;

/// The exit code where memory ran out.
const NO_MEMORY: u8 = 9;

/// The exit code where a word isn't UTF-8. No status has it.
const NOT_UTF8: u8 = 14;

fn main(rt: HostRuntime) -> ExitCode {
    let held = occupy(&rt);
    if held.is_err() {
        return refuse(&rt, FAULT, "file fault: /");
    }
    let Ok(words) = env::args(&rt) else {
        return refuse(&rt, NOT_UTF8, "not UTF-8");
    };
    let alloc = rt.alloc();
    let Ok(words) = words.collect::<Vec<String>>(alloc) else {
        return refuse(&rt, NO_MEMORY, "no memory");
    };
    match request_of(alloc, words.as_slice()) {
        Ok(request) => conduct(alloc, rt, &request),
        Err(error) => show(&rt, &error),
    }
}

/// Does what is asked for over the system's files, and ends the program.
fn conduct<R: Files + Print + Eprint + Copy + Drop>(
    alloc: Global,
    rt: R,
    request: &Request<'_>,
) -> ExitCode
    ensures { EndsBy request.now (exit_status result) }
{
    let mut files = DiskFiles::new(alloc, rt, false);
    let status = run(alloc, request, &mut files);
    complain(&rt, request, status, files.reason());
    ExitCode::from(status.code())
}

/// Says on standard error what a status has no line for: the name of the file that failed and why
/// it did, or that memory ran out.
fn complain(rt: &impl Eprint, request: &Request<'_>, status: Status, reason: Option<io::Error>) {
    match status {
        Status::Memory => {
            let _ = rt.eprintln("no memory");
        }
        Status::FileFault { word } => {
            let _ = rt.eprint("file fault: ");
            let _ = rt.eprintln(Escaped(request.name_at(word)));
            if let Some(reason) = reason {
                let _ = rt.eprintln(reason);
            }
        }
        _ => {}
    }
}

/// Shows the help or the version that is asked for, or what is wrong with the words.
fn show<R: Print + Eprint>(rt: &R, error: &Error) -> ExitCode {
    if error.kind() == ErrorKind::OutOfMemory {
        return refuse(rt, NO_MEMORY, "no memory");
    }
    if error.print(rt).is_err() {
        return refuse(rt, FAULT, "file fault: output");
    }
    ExitCode::from(if error.use_stderr() { 2 } else { 0 })
}

/// Says why nothing is done, and ends the program.
fn refuse(rt: &impl Eprint, code: u8, why: &str) -> ExitCode {
    let _ = rt.eprintln(why);
    ExitCode::from(code)
}
