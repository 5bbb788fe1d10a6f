//! The table of the instructions.
use crate::opcode;

/// The operands that an instruction names, in the order of its text.
#[derive(Clone, Copy)]
pub enum Shape {
    /// A destination register, a source register, and the operand A.
    DestSourceA,
    /// A destination register and A.
    DestA,
    /// A source register and A.
    SourceA,
    /// A alone.
    OnlyA,
    /// A and a destination register, as a store has them.
    ADest,
    /// None: the opcode is not used.
    Unused,
}

/// One of the machine's instructions: its opcode, its name in program text, and its operands.
#[derive(Clone, Copy)]
pub struct Operation {
    /// The opcode.
    pub op: u8,
    /// The name, in lower case.
    pub name: &'static str,
    /// The operands that it names.
    pub shape: Shape,
}

macro_rules! table {
    ($($op:ident $name:literal $shape:ident),* $(,)?) => {
        [$(Operation { op: opcode::$op, name: $name, shape: Shape::$shape }),*]
    };
}

/// The table of the 29 instructions. Opcodes 23, 24 and 25 are not used.
pub(crate) const OPERATIONS: [Operation; 29] = table![
    AND "and" DestSourceA,
    OR "or" DestSourceA,
    XOR "xor" DestSourceA,
    NOT "not" DestA,
    ADD "add" DestSourceA,
    SUB "sub" DestSourceA,
    MULL "mull" DestSourceA,
    UMULH "umulh" DestSourceA,
    SMULH "smulh" DestSourceA,
    UDIV "udiv" DestSourceA,
    UMOD "umod" DestSourceA,
    SHL "shl" DestSourceA,
    SHR "shr" DestSourceA,
    CMPE "cmpe" SourceA,
    CMPA "cmpa" SourceA,
    CMPAE "cmpae" SourceA,
    CMPG "cmpg" SourceA,
    CMPGE "cmpge" SourceA,
    MOV "mov" DestA,
    CMOV "cmov" DestA,
    JMP "jmp" OnlyA,
    CJMP "cjmp" OnlyA,
    CNJMP "cnjmp" OnlyA,
    STORE_B "store.b" ADest,
    LOAD_B "load.b" DestA,
    STORE_W "store.w" ADest,
    LOAD_W "load.w" DestA,
    READ "read" DestA,
    ANSWER "answer" OnlyA,
];
