//! Machine words and numbers in text: the arithmetic of the machine's instructions on words of 16
//! or 32 bits, words as bytes, and decimal numbers. The crates above use `arithmetic` for the
//! machine and for the values of its circuit, `decimal_of` and `numeral_of` for the numbers that a
//! user writes, `word_at` for the words of files, and `Words` for lists of words that grow.
#![tactic(auto)]

pub mod arithmetic;
mod numeral;
mod word;
mod words;

pub use numeral::{decimal_of, numeral_of};
pub use word::{signed, signed16, word_at, word_bytes, word16_at, word16_bytes};
pub use words::Words;
