//! The instructions of the machine: the two words of an instruction, of 16 or 32 bits, and its
//! fields, and one table of the 29 instructions with opcodes, names and operands. The assembler
//! looks names up in it and the disassembler opcodes; both rest on `decode` of `encode` being the
//! instruction.
#![tactic(auto)]

mod instr;
mod lookup;
pub mod opcode;
mod operation;

pub use instr::{Instr, decode, encode};
pub use lookup::{operation_named, operation_of, operations, shape};
pub use operation::{Operation, Shape};
