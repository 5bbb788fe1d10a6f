//! The program `tinyr1cs`: `tv_top::command` on the words of the command line and the system's
//! files, `DiskFiles` of `tv_disk`. What a command promises is `command`'s contract, over any
//! files, and `conduct` ends by the exit code of the status that it returned. `ended.rt` has the
//! ends that come before a command. What is printed is tested by `tests/commands.sh`.
#![tactic(auto)]

ghost use Rattle.std.specs.Prelude.{◌≡◌};
ghost use Rattle.std.specs.Process.{exit_status};
ghost use Rattle.tinyr1cs.specs.Ends.{EndsBy};

mod complaint;
mod ended;
mod help;
mod screen;
mod words;

use complaint::Complaint;
use ended::{Ended, run};
use screen::Screen;
use std::alloc::Global;
use std::io;
use std::io::IsTerminal;
use std::process::ExitCode;
use std::rt::Files;
use tv_disk::{DiskFiles, occupy};
use words::{NoWords, collect};

fn main(rt: HostRuntime) -> ExitCode {
    let held = occupy(&rt);
    let words = match held {
        Ok(_) => collect(&rt),
        Err(_) => Err(NoWords::NoStreams),
    };
    let screen = Screen::of(&rt, rt.stderr().is_terminal());
    conduct(rt.alloc(), rt, screen, &words)
}

/// Does what the words ask for over the system's files, and ends the program.
fn conduct<R: Files + Print + Eprint + Copy + Drop>(
    alloc: Global,
    rt: R,
    screen: Screen,
    words: &Result<Vec<String>, NoWords>,
) -> ExitCode
    ensures { EndsBy words.now (exit_status result) }
{
    let mut files = DiskFiles::new(alloc, rt, screen.is_wide);
    let ended = run(alloc, words, &mut files);
    files.clear();
    end(&rt, screen, ended, files.reason())
}

/// Ends the program by its exit code, and says on standard error what is left to say. Where
/// standard error fails too, only the code is left.
fn end(rt: &impl Eprint, screen: Screen, ended: Ended<'_>, reason: Option<io::Error>) -> ExitCode
    ensures { exit_status result ≡ ended.entry.code }
{
    if let Some(complaint) = ended.complaint {
        complain(rt, complaint, reason);
    }
    if let Some(help) = ended.help
        && (screen.is_terminal || !help.is_hint())
    {
        let _ = rt.eprintln(help);
    }
    ExitCode::from(ended.code)
}

/// Says a complaint, and why the file failed that it names.
fn complain(rt: &impl Eprint, complaint: Complaint<'_>, reason: Option<io::Error>) {
    let _ = rt.eprintln(complaint);
    if let (Complaint::FileFault(_), Some(reason)) = (complaint, reason) {
        let _ = rt.eprintln(reason);
    }
}
