//! The images of program texts, for words of the width that a text sets.
ghost use Rattle.std.specs.Prelude.{◌≡◌, ◌≤◌, ◌/◌, ◌^◌, IfOk};
ghost use Rattle.tv_plan.specs.Finds.{Finds, Makes, reading_of};
ghost use Rattle.tv_plan.specs.Plan.{input, named};
ghost use Rattle.tv_plan.specs.Programs.{HasImage, bits, image_bytes_most};
ghost use Rattle.tv_plan.specs.Programs.{program_of, program_in, program_flaws};

use crate::bytes::limited_bytes;
use crate::place::Place;
use crate::refusal::{Stop, What};
use std::alloc::Global;
use tv_asm::{assemble, width};
use tv_core::limits::{IMAGE_WORDS, IMAGE_WORDS_16, TEXT_BYTES};
use tv_files::Files;
use tv_word::Words;

/// How many bits a word has.
#[derive(Clone, Copy)]
pub enum Width {
    /// 16 bits, which are two bytes.
    Bits16,
    /// 32 bits, which are four bytes.
    Bits32,
}

impl Width {
    /// How many bytes a word has.
    pub(crate) fn word_size(self) -> usize
        ensures size { result ≡ bits self / 8 }
        ensures short { result ≤ 4 }
    {
        match self {
            Width::Bits16 => 2,
            Width::Bits32 => 4,
        }
    }

    /// How many numbers a word has.
    pub(crate) fn word_bound(self) -> u64
        ensures { result ≡ 2 ^ bits self }
    {
        match self {
            Width::Bits16 => 1 << 16,
            Width::Bits32 => 1 << 32,
        }
    }

    /// The most bytes of an image file.
    pub(crate) fn image_bytes_most(self) -> u64
        ensures { result ≡ image_bytes_most self }
    {
        match self {
            Width::Bits16 => 2 * u64::from(IMAGE_WORDS_16),
            Width::Bits32 => 4 * u64::from(IMAGE_WORDS),
        }
    }
}

/// A program: the width of its words, and the words of its image.
#[derive(Drop)]
pub struct Program {
    pub width: Width,
    pub words: Words,
}

/// The program of a text.
#[tactic(auto, unfolding(crate::specs::Programs::program_by))]
pub(crate) fn program_of(alloc: Global, text: &[u8]) -> Result<Program, Stop>
    ensures made { Makes (λ program. program) (program_of text.now) result }
    ensures fits { IfOk result (λ program. HasImage program) }
{
    if width(text) == 16 {
        Ok(Program {
            width: Width::Bits16,
            words: assemble::<16>(alloc, text, IMAGE_WORDS_16)?,
        })
    } else {
        Ok(Program {
            width: Width::Bits32,
            words: assemble::<32>(alloc, text, IMAGE_WORDS)?,
        })
    }
}

/// The program of the text of this name.
#[tactic(auto, unfolding(crate::specs::Plan::input))]
pub fn read_program<D: Files>(
    alloc: Global,
    files: &mut D,
    place: Place<'_>,
) -> Result<Program, Stop>
    ensures found { Finds (λ program. program)
        (reading_of (named place.entry) program_flaws program_in)
        (D.seen files.old) (D.seen files.new) result }
    ensures fits { IfOk result (λ program. HasImage program) }
{
    let text = limited_bytes(alloc, files, place, What::TextBytes, TEXT_BYTES)?;
    program_of(alloc, &text)
}
