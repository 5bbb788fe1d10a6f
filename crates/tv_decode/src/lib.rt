//! The gadget that decodes an instruction of two words of `W` bits, 16 or 32: one-hot rows for its
//! opcode and its registers, and its immediate bit. Contracts above cite `AreFields`; what it
//! returns and how many wires it makes stand in `FieldsSizes`.
#![tactic(auto)]

mod decoder;
mod instructions;
mod records;

pub use decoder::{fields, fields_laws, fill_fields};
pub use instructions::{fill_instruction, instruction, instruction_laws, opcode_wire_is_right};
pub use records::{Fields, InstructionWires};
