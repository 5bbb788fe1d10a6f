//! The assembler: program text to the words of an image.
//!
//! Words have 16 or 32 bits; `width` returns for which of them a text is written. `assemble::<W>`
//! returns exactly the image that its definition has for the whole text, or the definition's first
//! fault, by line and reason; only an allocation failure is free. Layers above use that one clause,
//! the answer is `assembled W most text` or `Memory`, and that an image has at most `most` words of
//! `W` bits.
#![tactic(auto)]

mod assembler;
mod fault;
mod header;
mod instruction;
mod labels;
mod laws;
mod line;
mod operand;
mod text;

pub use assembler::assemble;
pub use fault::{AsmFault, AsmWhy};
pub use header::width;
pub use laws::{
    images_are_short, images_are_words, texts_mean_their_lines, texts_of_16_are_refused,
};
