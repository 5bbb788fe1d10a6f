//! The instruction of a drawn word.
ghost use Rattle.std.specs.Prelude.{◌≡◌, ◌<◌};
ghost use Rattle.tv_draw.specs.Program.{op_in, imm_in, whole_a, instr_in, dest_if, source_if};
ghost use Rattle.tv_isa.specs.Instruction.{IsInstruction};

use tv_isa::opcode::{JMP, READ, STORE_B, STORE_W};
use tv_isa::{Instr, Shape, shape};

// The opcode of a drawn word: no jump, no answer, and none that isn't used.
fn opcode(g: u64) -> u8
    ensures is { result ≡ op_in g }
    ensures used { result < 31 }
{
    let i = (g % 25) as u8;
    if i < JMP { i } else { i + (STORE_B - JMP) }
}

// Whether the operand is the second word itself.
fn immediate(g: u64) -> bool
    ensures { result ≡ imm_in g }
{
    let op = opcode(g);
    matches!(op, STORE_B | STORE_W | READ) || (g >> 8) % 2 == 1
}

// The second word, where it is no register.
fn operand(g: u64) -> u32
    ensures { result ≡ whole_a g }
{
    let high = (g >> 32) as u32;
    match opcode(g) {
        STORE_B | STORE_W => 65_536 + high % 65_536,
        READ => high % 3,
        _ => high,
    }
}

// The destination, where the form names one.
fn dest_if(shape: Shape, dest: u8) -> u8
    ensures { result ≡ dest_if shape dest }
{
    match shape {
        Shape::DestSourceA | Shape::DestA | Shape::ADest => dest,
        Shape::SourceA | Shape::OnlyA | Shape::Unused => 0,
    }
}

// The source, where the form names one.
fn source_if(shape: Shape, source: u8) -> u8
    ensures { result ≡ source_if shape source }
{
    match shape {
        Shape::DestSourceA | Shape::SourceA => source,
        Shape::DestA | Shape::ADest | Shape::OnlyA | Shape::Unused => 0,
    }
}

/// Returns the instruction of a drawn word.
pub(crate) fn instruction(g: u64) -> Instr
    ensures is { result ≡ instr_in g }
    ensures range { IsInstruction result }
{
    let op = opcode(g);
    let shape = shape(op);
    let imm = immediate(g);
    let whole = operand(g);
    Instr {
        op,
        imm,
        dest: dest_if(shape, ((g >> 9) % 16) as u8),
        source: source_if(shape, ((g >> 13) % 16) as u8),
        a: if imm { whole } else { whole % 16 },
    }
}
