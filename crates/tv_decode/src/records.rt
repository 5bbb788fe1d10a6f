//! What the gadget returns.
use tv_bits::Bits;
use tv_core::Wire;

/// The fields of an instruction: a bit, and the first wires of rows of which one wire is 1.
#[derive(Clone, Copy)]
pub struct Fields {
    /// The opcode's row, of 32 wires.
    pub op: Wire,
    /// 1 where the operand is the second word itself, 0 where it is a register.
    pub imm: Wire,
    /// The destination register's row, of 16 wires.
    pub dest: Wire,
    /// The source register's row, of 16 wires.
    pub source: Wire,
    /// The row of the register that the second word's lowest four bits name, of 16 wires.
    pub reg: Wire,
}

/// The wires of an instruction of two words of `W` bits.
#[derive(Clone, Copy)]
pub struct InstructionWires {
    /// The bits of the first word below its opcode, `W - 5`.
    pub low: Bits,
    /// The first wire of the one-hot row of the 29 used opcodes, in their order.
    pub op: Wire,
    /// The `W` bits of the second word.
    pub second: Bits,
    /// The first word.
    pub head: Wire,
    /// The second word.
    pub tail: Wire,
}
