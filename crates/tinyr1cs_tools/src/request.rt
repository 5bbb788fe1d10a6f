//! What the command line asks for.
ghost use Rattle.tinyr1cs_tools.specs.Tools.{Does};

use crate::sizes::{SizesArgs, print_sizes};
use crate::trace::{TraceArgs, trace};
use std::alloc::Global;
use tv_files::Files;
use tv_plan::{Ending, Refusal, Status, conclude};

/// What the command line asks for.
#[derive(Drop)]
pub enum Request<'a> {
    /// The steps of a run.
    Trace(TraceArgs<'a>),
    /// The sizes of a system.
    Sizes(SizesArgs<'a>),
    /// Nothing, since a number passes its limit.
    Refused(Refusal),
}

impl Request<'_> {
    /// Returns the name at a word, the command being word 0; past the names, that of the output.
    pub fn name_at(&self, word: u64) -> &str {
        match (self, word) {
            (Request::Trace(args), 1) => args.text.name,
            (Request::Sizes(args), 1) => args.text.name,
            (Request::Trace(args), 2) => args.tape.name,
            (Request::Trace(args), 3) => args.aux.name,
            _ => "output",
        }
    }
}

/// Does what is asked for.
pub fn run<D: Files>(alloc: Global, request: &Request<'_>, files: &mut D) -> Status
    ensures { Does request.now (D.seen files.old) (D.seen files.new) result }
{
    match request {
        Request::Trace(args) => trace(alloc, files, args),
        Request::Sizes(args) => print_sizes(alloc, files, args),
        Request::Refused(why) => conclude(files, 1, Ending::Refused(*why)),
    }
}
