//! The program text of an image, an instruction at a time.
ghost use Rattle.std.specs.Prelude.{◌≡◌, ◌+◌, ◌/◌, ◌%◌, ◌≤◌, ◌⊎◌, length, IfOk, IfErr};
ghost use Rattle.tv_disasm.specs.Disassembly.{disassembly_of};
ghost use Rattle.tv_word.specs.Widths.{IsWidth};
ghost use Rattle.tv_word.specs.Word.{word_at};

use crate::fault::DisFault;
use crate::line::push_line;
use std::alloc::{AllocError, Global};
use tv_word::{word_at, word16_at};

/// The line that a text for words of 16 bits begins with.
const HEADER_OF_16: &[u8; 20] = b"; TinyRAM W=16 K=16\n";

/// Returns the program text of an image of words of `W` bits, 16 or 32: for each two words, which
/// are `W / 4` bytes, a line and a line feed. The line has the instruction's name and operands, or
/// `.raw` and the two words where these wouldn't determine all of them. With 16 a line with the
/// header stands in front, so that the assembler takes the text for one of that width.
///
/// `Ragged` comes exactly where the length isn't a multiple of `W / 4`, and no memory is taken
/// then. The text is at most four times as long as the image with 32, and six times and 20 bytes
/// with 16. It is made in one vector, in time linear in the image.
pub fn disassemble<const W: u32>(alloc: Global, image: &[u8]) -> Result<Vec<u8>, DisFault>
    requires { IsWidth W }
    ensures ok { IfOk result (λ text.
        (length image.now % (W / 4) ≡ 0) × (text.items ≡ disassembly_of W image.now)) }
    ensures err { IfErr result (λ fault.
        ((length image.now % (W / 4) ≡ 0) × (fault ≡ DisFault.Memory))
        ⊎ (¬ (length image.now % (W / 4) ≡ 0) × (fault ≡ DisFault.Ragged (length image.now)))) }
{
    if image.len() % (W / 4) as usize != 0 {
        return Err(DisFault::Ragged {
            len: image.len() as u64,
        });
    }
    let text = if W == 16 {
        text_of::<16, 4>(alloc, image)
    } else {
        text_of::<32, 8>(alloc, image)
    };
    Ok(text?)
}

/// Returns the text of an image, whose instructions have `N` bytes.
#[tactic(auto, unfolding(crate::specs::Disassembly::disassembly_of))]
fn text_of<const W: u32, const N: usize>(alloc: Global, image: &[u8]) -> Result<Vec<u8>, AllocError>
    requires width { IsWidth W }
    requires size { N ≡ W / 4 }
    ensures { IfOk result (λ text. text.items ≡ disassembly_of W image.now) }
{
    let mut text = Vec::new(alloc);
    if W == 16 {
        text.extend_from_slice(HEADER_OF_16)?;
    }
    let (pairs, _) = image.as_chunks::<N>();
    for pair in pairs {
        push_line::<W>(&mut text, word::<W>(pair, 0), word::<W>(pair, N / 2))?;
        text.push(b'\n')?;
    }
    Ok(text)
}

/// Returns the word of `W` bits in the bytes from a place on, the lowest first.
fn word<const W: u32>(bytes: &[u8], at: usize) -> u32
    requires width { IsWidth W }
    requires within { at + W / 8 ≤ length bytes.now }
    ensures { result ≡ word_at W bytes.now at }
{
    if W == 16 {
        word16_at(bytes, at)
    } else {
        word_at(bytes, at)
    }
}
