//! `asm TEXT IMAGE`: the image of a program text.
ghost use Rattle.std.specs.Prelude.{◌≡◌, IfOk, refl};
ghost use Rattle.tv_plan.specs.Asm.{image_in, asm_asks, asm_form};
ghost use Rattle.tv_plan.specs.Finds.{Finds, Makes, reading_of};
ghost use Rattle.tv_plan.specs.Plan.{input, named};
ghost use Rattle.tv_plan.specs.Programs.{image_bytes, image_of, program_flaws};

use crate::bytes::limited_bytes;
use crate::job::Job;
use crate::output::write_bytes;
use crate::place::{Place, keep_apart};
use crate::programs::{Program, program_of};
use crate::refusal::{Finish, Refusal, Stop, What};
use std::alloc::{AllocError, Global};
use tv_core::limits::TEXT_BYTES;
use tv_files::Files;
use tv_word::word_bytes;

/// The words of `asm`.
#[derive(Clone, Copy)]
pub struct AsmArgs<'a> {
    pub(crate) text: Place<'a>,
    pub(crate) image: Place<'a>,
}

impl<'a> Job<'a> for AsmArgs<'a> {
    ghost form = { asm_form };

    ghost asks = { asm_asks };

    fn read(words: &'a [String]) -> Result<AsmArgs<'a>, Refusal> {
        let [text, image] = words else {
            return Err(Refusal::Usage);
        };
        let (text, image) = (Place::at(1, text.as_str()), Place::at(2, image.as_str()));
        keep_apart(&[text], &[image])?;
        Ok(AsmArgs { text, image })
    }

    fn perform<D: Files>(self, alloc: Global, files: &mut D) -> Result<Finish, Stop> {
        let bytes = read_image(alloc, files, self.text)?;
        write_bytes(files, self.image, &bytes)?;
        Ok(Finish::Quiet)
    }

    ghost apart = { λ _. refl };
}

/// The bytes of a program's image: those of each word, the lowest first.
#[tactic(auto, using(crate::proofs::WordBytes::word_bytes_narrow))]
fn image_bytes(alloc: Global, program: &Program) -> Result<Vec<u8>, AllocError>
    ensures { IfOk result (λ v. v.items ≡ image_bytes program.now) }
{
    let words = program.words.as_slice();
    let size = program.width.word_size();
    let mut bytes = Vec::with_capacity(alloc, size * words.len())?;
    for word in words {
        bytes.extend_from_slice(&word_bytes(*word)[..size])?;
    }
    Ok(bytes)
}

/// The image of a program text, in bytes.
#[tactic(auto, unfolding(crate::specs::Programs::image_of))]
fn image_of(alloc: Global, text: &[u8]) -> Result<Vec<u8>, Stop>
    ensures { Makes (λ v. v.items) (image_of text.now) result }
{
    let program = program_of(alloc, text)?;
    Ok(image_bytes(alloc, &program)?)
}

/// The image of the program text of this name.
#[tactic(auto, unfolding(crate::specs::Plan::input))]
fn read_image<D: Files>(alloc: Global, files: &mut D, place: Place<'_>) -> Result<Vec<u8>, Stop>
    ensures { Finds (λ v. v.items) (reading_of (named place.entry) program_flaws image_in)
        (D.seen files.old) (D.seen files.new) result }
{
    let text = limited_bytes(alloc, files, place, What::TextBytes, TEXT_BYTES)?;
    image_of(alloc, &text)
}
