//! Instructions found in the table.
ghost use Rattle.std.specs.Prelude.{◌≡◌, ◌<◌, IfSome, map};
ghost use Rattle.std.specs.Option.{option_map};
ghost use Rattle.tv_isa.specs.Table.{row_of, with_opcode, with_name, shape_of, instructions};

use crate::operation::{OPERATIONS, Operation, Shape};

/// Returns the 29 instructions, by opcode.
pub fn operations() -> &'static [Operation]
    ensures { map row_of result.now ≡ instructions }
{
    &OPERATIONS
}

/// Returns the instruction with an opcode; `None` for an opcode that is not used.
pub fn operation_of(op: u8) -> Option<Operation>
    ensures { option_map row_of result ≡ with_opcode op }
{
    operations()
        .iter()
        .find(|operation| operation.op == op)
        .copied()
}

/// Returns the instruction with a name in program text.
pub fn operation_named(name: &[u8]) -> Option<Operation>
    ensures row { option_map row_of result ≡ with_name name.now }
    ensures used { IfSome result (λ operation. operation.op < 32) }
{
    operations()
        .iter()
        .find(|operation| operation.name.as_bytes() == name)
        .copied()
}

/// Returns the operands of the instruction with an opcode below 32; `Unused` where none has it.
pub fn shape(op: u8) -> Shape
    requires { op < 32 }
    ensures { result ≡ shape_of op }
{
    match operation_of(op) {
        Some(operation) => operation.shape,
        None => Shape::Unused,
    }
}
