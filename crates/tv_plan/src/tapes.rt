//! The public numbers of a tape, and the words of a tape that the machine reads.
ghost use Rattle.std.specs.Prelude.{◌≡◌, ◌%◌, ◌^◌, ◌<◌, ◌≤◌, All, length, map, IfOk};
ghost use Rattle.tv_core.specs.declared.field.TheConstants.{P};
ghost use Rattle.tv_plan.specs.declared.refusal.What.TheVariants as size;
ghost use Rattle.tv_plan.specs.Finds.{Finds, reading_of};
ghost use Rattle.tv_plan.specs.Plan.{input, named};
ghost use Rattle.tv_plan.specs.Tapes.{AreTold, tape_stop, numbers_in, publics_in, tape_flaws};

use crate::bytes::limited_bytes;
use crate::place::Place;
use crate::refusal::{Bad, Stop, What};
use std::alloc::{AllocError, Global};
use tv_core::limits::{CHECK_WORDS, TEXT_BYTES};
use tv_core::{F, P};
use tv_files::Files;
use tv_tape::{TapeFault, read_tape};
use tv_word::Words;

/// What a refused tape is, whose name stands at this word, and whose items are this quantity.
fn tape_stop(word: u32, what: What, fault: TapeFault) -> Stop
    ensures { result ≡ tape_stop word what fault }
{
    match fault {
        TapeFault::BadItem { at } | TapeFault::TooBig { at } => {
            Stop::Contents(Bad::Tape { word, at })
        }
        TapeFault::TooMany { most } => Stop::Contents(Bad::Limit {
            what,
            has: u64::from(most) + 1,
            most: u64::from(most),
        }),
        TapeFault::Memory => Stop::Memory,
    }
}

/// The numbers of the tape of this name: below a bound each, and at most this many of this
/// quantity.
#[tactic(auto, unfolding(crate::specs::Plan::input))]
fn read_numbers<D: Files>(
    alloc: Global,
    files: &mut D,
    place: Place<'_>,
    what: What,
    below: u64,
    most: u32,
) -> Result<Vec<u64>, Stop>
    ensures found { Finds (λ v. v.items)
        (reading_of (named place.entry) (tape_flaws place.entry.word what)
        (numbers_in place.entry.word what below most))
        (D.seen files.old) (D.seen files.new) result }
    ensures known { IfOk result (λ v. AreTold below most v.items) }
{
    let text = limited_bytes(alloc, files, place, What::TextBytes, TEXT_BYTES)?;
    read_tape(alloc, &text, below, most).map_err(|fault| tape_stop(place.word, what, fault))
}

/// Numbers in the field.
fn residues(alloc: Global, numbers: &[u64]) -> Result<Vec<F>, AllocError>
    ensures { IfOk result (λ v. v.items ≡ map (λ n. n % P) numbers.now) }
{
    let mut residues = Vec::with_capacity(alloc, numbers.len())?;
    for number in numbers {
        residues.push(F::of(*number))?;
    }
    Ok(residues)
}

/// The public numbers of the tape of this name.
pub(crate) fn read_publics<D: Files>(
    alloc: Global,
    files: &mut D,
    place: Place<'_>,
) -> Result<Vec<F>, Stop>
    ensures { Finds (λ v. v.items)
        (reading_of (named place.entry) (tape_flaws place.entry.word size.TapeWords)
        (publics_in place.entry.word))
        (D.seen files.old) (D.seen files.new) result }
{
    let numbers = read_numbers(alloc, files, place, What::TapeWords, P, CHECK_WORDS)?;
    Ok(residues(alloc, &numbers)?)
}

/// Numbers as words.
fn words_from(alloc: Global, numbers: &[u64]) -> Result<Words, AllocError>
    ensures { IfOk result (λ words. words ≡ map (λ n. n % 2 ^ 32) numbers.now) }
{
    let mut words = Words::new(alloc);
    for number in numbers {
        words.push((*number % (1 << 32)) as u32)?;
    }
    Ok(words)
}

/// The words of the tape of this name: below a bound each, and at most this many of this quantity.
pub(crate) fn read_words<D: Files>(
    alloc: Global,
    files: &mut D,
    place: Place<'_>,
    what: What,
    below: u64,
    most: u32,
) -> Result<Words, Stop>
    requires { below ≤ 2 ^ 32 }
    ensures found { Finds (λ words. words)
        (reading_of (named place.entry) (tape_flaws place.entry.word what)
        (numbers_in place.entry.word what below most))
        (D.seen files.old) (D.seen files.new) result }
    ensures below { IfOk result (λ words. All (λ v. v < below) words) }
    ensures few { IfOk result (λ words. length words ≤ most) }
{
    let numbers = read_numbers(alloc, files, place, what, below, most)?;
    Ok(words_from(alloc, &numbers)?)
}
