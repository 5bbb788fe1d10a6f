//! The machine's memory: 2^32 bytes, of which the pages that were written are kept; a machine with
//! words of 16 bits uses the first 2^16. Contracts see it as a function from a byte's address to
//! the byte, `bytes_in`; words, of 16 or 32 bits, are aligned, the lowest byte first.
#![tactic(auto)]

mod laws;
mod memory;
mod pages;

pub use laws::{words_after_a_byte, words_after_a_word, words_are_of_bytes};
pub use memory::Memory;
