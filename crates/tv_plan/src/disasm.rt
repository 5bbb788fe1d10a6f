//! `disasm IMAGE TEXT` and `disasm IMAGE TEXT 16`: the program text of an image.
ghost use Rattle.std.specs.Prelude.{◌≡◌, map, string_bytes, refl};
ghost use Rattle.tv_plan.specs.Disasm.{text_of, text_in, width_word, disasm_asks, disasm_form};
ghost use Rattle.tv_plan.specs.Disasm.{image_flaws};
ghost use Rattle.tv_plan.specs.Finds.{Finds, Makes, reading_of};
ghost use Rattle.tv_plan.specs.Plan.{input, named};
ghost use Rattle.tv_plan.specs.Programs.{bits};

use crate::bytes::limited_bytes;
use crate::job::Job;
use crate::output::write_bytes;
use crate::place::{Place, keep_apart};
use crate::programs::Width;
use crate::refusal::{Finish, Refusal, Stop, What};
use std::alloc::Global;
use tv_disasm::disassemble;
use tv_files::Files;

/// The words of `disasm`.
#[derive(Clone, Copy)]
pub struct DisasmArgs<'a> {
    pub(crate) image: Place<'a>,
    pub(crate) text: Place<'a>,
    pub(crate) width: Width,
}

impl<'a> Job<'a> for DisasmArgs<'a> {
    ghost form = { disasm_form };

    ghost asks = { disasm_asks };

    fn read(words: &'a [String]) -> Result<DisasmArgs<'a>, Refusal> {
        let [image, text, last @ ..] = words else {
            return Err(Refusal::Usage);
        };
        let width = width_word(last).ok_or(Refusal::Usage)?;
        let (image, text) = (Place::at(1, image.as_str()), Place::at(2, text.as_str()));
        keep_apart(&[image], &[text])?;
        Ok(DisasmArgs { image, text, width })
    }

    fn perform<D: Files>(self, alloc: Global, files: &mut D) -> Result<Finish, Stop> {
        let bytes = read_text(alloc, files, self.width, self.image)?;
        write_bytes(files, self.text, &bytes)?;
        Ok(Finish::Quiet)
    }

    ghost apart = { λ _. refl };
}

/// The program text of an image.
#[tactic(auto, unfolding(crate::specs::Disasm::text_of))]
fn text_of(alloc: Global, width: Width, image: &[u8]) -> Result<Vec<u8>, Stop>
    ensures { Makes (λ v. v.items) (text_of (bits width) image.now) result }
{
    match width {
        Width::Bits16 => Ok(disassemble::<16>(alloc, image)?),
        Width::Bits32 => Ok(disassemble::<32>(alloc, image)?),
    }
}

/// The program text of the image of this name.
#[tactic(auto, unfolding(crate::specs::Plan::input))]
fn read_text<D: Files>(
    alloc: Global,
    files: &mut D,
    width: Width,
    place: Place<'_>,
) -> Result<Vec<u8>, Stop>
    ensures { Finds (λ v. v.items)
        (reading_of (named place.entry) image_flaws (text_in width))
        (D.seen files.old) (D.seen files.new) result }
{
    let most = width.image_bytes_most();
    let image = limited_bytes(alloc, files, place, What::ImageBytes, most)?;
    text_of(alloc, width, &image)
}

/// The width that the words after the two names name, which may be none or `16`.
fn width_word(last: &[String]) -> Option<Width>
    ensures { result ≡ width_word (map string_bytes last.now) }
{
    match last {
        [] => Some(Width::Bits32),
        [word] if word.as_str() == "16" => Some(Width::Bits16),
        _ => None,
    }
}
