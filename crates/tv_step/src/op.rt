//! What each opcode does.
ghost use Rattle.std.specs.Prelude.{◌≡◌};
ghost use Rattle.tv_step.specs.Ops.{op_of};

use tv_isa::opcode;

/// What an instruction does, by its opcode.
#[derive(Clone, Copy)]
pub enum Op {
    And,
    Or,
    Xor,
    Not,
    Add,
    Sub,
    Mull,
    Umulh,
    Smulh,
    Udiv,
    Umod,
    Shl,
    Shr,
    Cmpe,
    Cmpa,
    Cmpae,
    Cmpg,
    Cmpge,
    Mov,
    Cmov,
    Jmp,
    Cjmp,
    Cnjmp,
    StoreB,
    LoadB,
    StoreW,
    LoadW,
    Read,
    Answer,
    /// Nothing: the opcode isn't used, and the machine stops at it.
    Unused(u8),
}

/// Returns the instruction with an opcode.
pub(crate) fn op_of(op: u8) -> Op
    ensures { result ≡ op_of op }
{
    match op {
        opcode::AND => Op::And,
        opcode::OR => Op::Or,
        opcode::XOR => Op::Xor,
        opcode::NOT => Op::Not,
        opcode::ADD => Op::Add,
        opcode::SUB => Op::Sub,
        opcode::MULL => Op::Mull,
        opcode::UMULH => Op::Umulh,
        opcode::SMULH => Op::Smulh,
        opcode::UDIV => Op::Udiv,
        opcode::UMOD => Op::Umod,
        opcode::SHL => Op::Shl,
        opcode::SHR => Op::Shr,
        opcode::CMPE => Op::Cmpe,
        opcode::CMPA => Op::Cmpa,
        opcode::CMPAE => Op::Cmpae,
        opcode::CMPG => Op::Cmpg,
        opcode::CMPGE => Op::Cmpge,
        opcode::MOV => Op::Mov,
        opcode::CMOV => Op::Cmov,
        opcode::JMP => Op::Jmp,
        opcode::CJMP => Op::Cjmp,
        opcode::CNJMP => Op::Cnjmp,
        opcode::STORE_B => Op::StoreB,
        opcode::LOAD_B => Op::LoadB,
        opcode::STORE_W => Op::StoreW,
        opcode::LOAD_W => Op::LoadW,
        opcode::READ => Op::Read,
        opcode::ANSWER => Op::Answer,
        _ => Op::Unused(op),
    }
}
