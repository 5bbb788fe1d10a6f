//! The disassembler: the bytes of an image to program text, a line for each instruction.
//!
//! `disassemble` returns exactly the text that its definition has for an image of words of 16 or 32
//! bits, and `Ragged` exactly where the bytes aren't whole instructions. The law that layers above
//! use is that of `disassembly_assembles`: the assembler turns that text into the words of the
//! image again.
#![tactic(auto)]

mod disassembler;
mod fault;
mod laws;
mod line;
mod operands;

pub use disassembler::disassemble;
pub use fault::DisFault;
pub use laws::{
    disassembly_assembles, disassembly_fixes_its_width, disassembly_is_short,
    words_are_of_the_image,
};
pub use line::push_line;
