//! The command line. No clause speaks of its texts; `tests/tools.sh` has what they mean.

use crate::request::Request;
use crate::sizes::SizesArgs;
use crate::trace::TraceArgs;
use clap::{Arg, ArgMatches, Command, Error, value_parser};
use std::alloc::{AllocError, Global};
use tv_plan::{Place, Refusal, Steps, TapeWords, What};
use tv_stages::Net;
use tv_trace::Shown;

/// The program's version, and the number of the layout of systems.
const VERSION: &str = "0.2.0, layout of systems 2";

/// The words that name a network.
const NETWORKS: [&str; 1] = ["waksman"];

/// The examples of the program's help.
const EXAMPLES: &str = "Examples:
  tinyr1cs-tools trace examples/search.asm examples/search.tape examples/search.aux 8
  tinyr1cs-tools sizes examples/search.asm 1 8
  tinyr1cs-tools trace --help";

/// The examples of `trace`.
const TRACE_EXAMPLES: &str = "A line has the step, the address and the instruction; the register \
and the cell of memory
that it changes, with the old word and the new one; the flag; and how many words
are taken of TAPE and of AUX. The last line says how the run ends. The step of an
opcode that isn't used is always printed.

Examples:
  tinyr1cs-tools trace prog.asm prog.tape prog.aux 1000
  tinyr1cs-tools trace prog.asm prog.tape prog.aux 262144 --from 90000 --count 20";

/// The examples of `sizes`.
const SIZES_EXAMPLES: &str =
    "The lines are the wires, the constraints and the terms of the system that `tinyr1cs
build TEXT N T SYSTEM` writes, and the bytes of SYSTEM. Nothing is written.

Examples:
  tinyr1cs-tools sizes prog.asm 2 1000
  tinyr1cs-tools sizes prog.asm 2 1000 waksman";

/// Returns what the words ask for, the first being the program's name; else the help or the version
/// that they ask for, or what is wrong with them.
pub fn request_of<'a>(alloc: Global, words: &'a [String]) -> Result<Request<'a>, Error> {
    let matches = command(alloc)?.try_get_matches_from(words)?;
    let request = match matches.subcommand() {
        Some(("trace", given)) => trace_request(given),
        Some(("sizes", given)) => sizes_request(given),
        _ => Err(Refusal::Usage),
    };
    match request {
        Ok(request) => Ok(request),
        Err(why) => Ok(Request::Refused(why)),
    }
}

/// The whole command line.
fn command<'a>(alloc: Global) -> Result<Command<'a>, AllocError> {
    Command::new(alloc, "tinyr1cs-tools")
        .bin_name("tinyr1cs-tools")?
        .version(VERSION)
        .about("Shows what programs of vnTinyRAM do")
        .after_help(EXAMPLES)
        .subcommand_required(true)
        .arg_required_else_help(true)
        .subcommand(trace_command(alloc)?)?
        .subcommand(sizes_command(alloc)?)
}

/// The arguments of `trace`.
fn trace_command<'a>(alloc: Global) -> Result<Command<'a>, AllocError> {
    Command::new(alloc, "trace")
        .about("Prints the steps of a run, a line each")
        .after_help(TRACE_EXAMPLES)
        .arg(file(alloc, "TEXT", "The program"))?
        .arg(file(alloc, "TAPE", "The primary tape"))?
        .arg(file(alloc, "AUX", "The auxiliary tape"))?
        .arg(number(alloc, "T", "The most steps, from 1 to 262144").required(true))?
        .arg(
            number(alloc, "from", "The first step that is printed")
                .long("from")
                .value_name("S")
                .default_value("1"),
        )?
        .arg(
            number(alloc, "count", "How many steps are printed, at most")
                .long("count")
                .value_name("C"),
        )
}

/// The arguments of `sizes`.
fn sizes_command<'a>(alloc: Global) -> Result<Command<'a>, AllocError> {
    Command::new(alloc, "sizes")
        .about("Prints how large the system of a program's runs is")
        .after_help(SIZES_EXAMPLES)
        .arg(file(alloc, "TEXT", "The program"))?
        .arg(number(alloc, "N", "The words of the primary tape, up to 131072").required(true))?
        .arg(number(alloc, "T", "The most steps, from 1 to 262144").required(true))?
        .arg(
            Arg::new(alloc, "NETWORK")
                .value_parser(NETWORKS.as_slice())
                .help("Waksman's permutation network in place of Benes'"),
        )
}

/// An argument that is a file's name.
fn file<'a>(alloc: Global, id: &'a str, help: &'a str) -> Arg<'a> {
    Arg::new(alloc, id).required(true).help(help)
}

/// An argument that is a number.
fn number<'a>(alloc: Global, id: &'a str, help: &'a str) -> Arg<'a> {
    Arg::new(alloc, id)
        .value_parser(value_parser!(u64))
        .help(help)
}

/// Returns the name at a word, which is the argument of this id.
fn place<'a>(given: &ArgMatches<'a>, word: u32, id: &str) -> Result<Place<'a>, Refusal> {
    given
        .get_str(id)
        .map(|name| Place::at(word, name))
        .ok_or(Refusal::Usage)
}

/// Returns what `trace` is asked for, unless T passes its limit.
fn trace_request<'a>(given: &ArgMatches<'a>) -> Result<Request<'a>, Refusal> {
    let t = given.get_one::<u64>("T").ok_or(Refusal::Usage)?;
    Ok(Request::Trace(TraceArgs {
        text: place(given, 1, "TEXT")?,
        tape: place(given, 2, "TAPE")?,
        aux: place(given, 3, "AUX")?,
        t: Steps::of(What::Steps, t)?,
        shown: Shown {
            from: given.get_one::<u64>("from").unwrap_or(1),
            count: given.get_one::<u64>("count").unwrap_or(u64::MAX),
        },
    }))
}

/// Returns what `sizes` is asked for, unless N or T passes its limit.
fn sizes_request<'a>(given: &ArgMatches<'a>) -> Result<Request<'a>, Refusal> {
    let n = given.get_one::<u64>("N").ok_or(Refusal::Usage)?;
    let t = given.get_one::<u64>("T").ok_or(Refusal::Usage)?;
    Ok(Request::Sizes(SizesArgs {
        text: place(given, 1, "TEXT")?,
        n: TapeWords::of(What::TapeWords, n)?,
        t: Steps::of(What::Steps, t)?,
        net: if given.contains_id("NETWORK") {
            Net::Waksman
        } else {
            Net::Benes
        },
    }))
}
