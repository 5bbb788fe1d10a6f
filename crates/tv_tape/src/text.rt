//! The text of a tape.
ghost use Rattle.std.specs.Prelude.{◌≡◌, ◌++◌, IfOk, OnOk, codes, decimal};
ghost use Rattle.tv_tape.specs.Tape.{text_of};

use itoa::Buffer;
use std::alloc::{AllocError, Global};

/// Returns the text of a tape: each word in decimal, without leading zeros, and a line feed.
/// `read_tape` reads the words back. It is made in one vector, in time linear in the text.
pub fn tape_text(alloc: Global, words: &[u32]) -> Result<Vec<u8>, AllocError>
    ensures { IfOk result (λ text. text.items ≡ text_of words.now) }
{
    let mut text = Vec::new(alloc);
    for word in words {
        push_line(&mut text, *word)?;
    }
    Ok(text)
}

/// Adds a word's line.
fn push_line(text: &mut Vec<u8>, word: u32) -> Result<(), AllocError>
    ensures { OnOk result (text.new.items ≡ text.old.items ++ (decimal word ++ codes "\n")) }
{
    let mut digits = Buffer::new();
    text.extend_from_slice(digits.format(word).as_bytes())?;
    text.push(b'\n')?;
    Ok(())
}
