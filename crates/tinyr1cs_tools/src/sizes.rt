//! `sizes TEXT N T`: how large the system of a program's runs is.
ghost use Rattle.std.specs.Prelude.{◌≡◌, ◌++◌, ◌<◌, ◌^◌, IfOk, OnOk};
ghost use Rattle.tv_core.specs.Meanings.{system_counts};
ghost use Rattle.tv_plan.specs.Programs.{HasImage};
ghost use Rattle.tinyr1cs_tools.specs.Sizes.{Sizes, counts_text, file_size, item, program_system};

use crate::print::print;
use itoa::Buffer;
use std::alloc::{AllocError, Global};
use tv_core::Counts;
use tv_files::Files;
use tv_layout::sizes;
use tv_plan::{
    Ending, Finish, Place, Program, Status, Steps, TapeWords, Width, conclude, read_program,
};
use tv_stages::Net;

/// How many words the command has with its name, but the network.
const WORDS: usize = 4;

/// What `sizes` is asked for.
#[derive(Drop)]
pub struct SizesArgs<'a> {
    /// The program text, at word 1.
    pub text: Place<'a>,
    /// How many words the primary tape has.
    pub n: TapeWords,
    /// The most steps.
    pub t: Steps,
    /// The network.
    pub net: Net,
}

/// Prints how large the system of a program's runs is.
pub fn print_sizes<D: Files>(alloc: Global, files: &mut D, args: &SizesArgs<'_>) -> Status
    ensures { Sizes args.now (D.seen files.old) (D.seen files.new) result }
{
    let program = match read_program(alloc, files, args.text) {
        Ok(program) => program,
        Err(stop) => return conclude(files, WORDS, Ending::Stopped(stop)),
    };
    match text_of(alloc, &counts_of(&program, args)) {
        Ok(text) => print(files, WORDS, &text, Ending::Finished(Finish::Quiet)),
        Err(_) => Status::Memory,
    }
}

/// Returns the sizes of the system of a program's runs.
fn counts_of(program: &Program, args: &SizesArgs<'_>) -> Counts
    requires { HasImage program.now }
    ensures counts { result ≡ system_counts
        (program_system args.now.net args.now.n args.now.t program.now) }
    ensures terms { result.terms < 2 ^ 60 }
{
    let image = program.words.as_slice();
    let (n, t) = (args.n.number(), args.t.number());
    match program.width {
        Width::Bits16 => sizes::<16>(image, n, t, args.net),
        Width::Bits32 => sizes::<32>(image, n, t, args.net),
    }
}

/// Returns the text of sizes.
fn text_of(alloc: Global, counts: &Counts) -> Result<Vec<u8>, AllocError>
    requires { counts.now.terms < 2 ^ 60 }
    ensures { IfOk result (λ text. text.items ≡ counts_text counts.now) }
{
    let mut text = Vec::new(alloc);
    push_item(&mut text, "wires ", u64::from(counts.wires))?;
    push_item(&mut text, "constraints ", u64::from(counts.constraints))?;
    push_item(&mut text, "terms ", counts.terms)?;
    push_item(&mut text, "bytes ", file_size(counts))?;
    Ok(text)
}

/// Adds a line of a name and a number.
fn push_item(text: &mut Vec<u8>, name: &str, number: u64) -> Result<(), AllocError>
    ensures { OnOk result (text.new.items ≡ text.old.items ++ item name.now number) }
{
    let mut digits = Buffer::new();
    text.extend_from_slice(name.as_bytes())?;
    text.extend_from_slice(digits.format(number).as_bytes())?;
    text.push(b'\n')?;
    Ok(())
}

/// Returns how many bytes the file has of a system of these sizes.
fn file_size(counts: &Counts) -> u64
    requires { counts.now.terms < 2 ^ 60 }
    ensures { result ≡ file_size counts.now }
{
    88 + 12 * (u64::from(counts.constraints) + counts.terms) + 8 * u64::from(counts.wires)
}
