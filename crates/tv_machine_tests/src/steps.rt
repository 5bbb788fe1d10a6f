//! Single steps: what the instruction with each opcode does.

use crate::steps::Does::{Answers, Gives, Jumps, Stores, Tests, Undefined};
use std::alloc::{AllocError, Global};
use std::test::Fail;
use tv_isa::{Instr, encode};
use tv_step::{Machine, Outcome};

/// The word in register 2 before the step.
const BEFORE: u32 = 0x1122_33ab;

/// The word at the address 65,536 before the step.
const CELL: u32 = 0x8899_aabb;

/// What a step does; all else is as it was.
#[derive(Clone, Copy)]
enum Does {
    /// Register 2 gets a word, the flag is this, and the next instruction in memory comes.
    Gives(u32, bool),
    /// The flag is this, and the next instruction in memory comes.
    Tests(bool),
    /// The instruction at an address comes.
    Jumps(u32),
    /// The word at the address 65,536 is this, and the next instruction in memory comes.
    Stores(u32),
    /// The machine answers a word.
    Answers(u32),
    /// The machine stops at an opcode without an instruction.
    Undefined,
}

/// An instruction's name and opcode, the flag, the words in register 1 and in the operand, and what
/// comes of them. Three opcodes have no instruction.
type Row = (&'static str, u8, bool, u32, u32, Does);

static ROWS: [Row; 62] = [
    ("and", 0, false, 12, 10, Gives(8, false)),
    ("and", 0, false, 1, 2, Gives(0, true)),
    ("or", 1, true, 12, 10, Gives(14, false)),
    ("or", 1, false, 0, 0, Gives(0, true)),
    ("xor", 2, true, 12, 10, Gives(6, false)),
    ("xor", 2, false, 7, 7, Gives(0, true)),
    ("not", 3, true, 5, 10, Gives(0xffff_fff5, false)),
    ("not", 3, false, 5, 0xffff_ffff, Gives(0, true)),
    ("add", 4, false, 0xffff_ffff, 1, Gives(0, true)),
    ("add", 4, true, 7, 8, Gives(15, false)),
    ("sub", 5, false, 0, 1, Gives(0xffff_ffff, true)),
    ("sub", 5, true, 9, 7, Gives(2, false)),
    ("mull", 6, false, 65_536, 65_536, Gives(0, true)),
    ("mull", 6, true, 7, 6, Gives(42, false)),
    ("umulh", 7, false, 65_536, 65_536, Gives(1, true)),
    ("umulh", 7, true, 7, 6, Gives(0, false)),
    ("smulh", 8, false, 1 << 31, 1 << 31, Gives(1 << 30, true)),
    ("smulh", 8, true, 0xffff_ffff, 1, Gives(0xffff_ffff, false)),
    ("smulh", 8, true, 0x8000_0000, 1, Gives(0xffff_ffff, false)),
    ("udiv", 9, false, 7, 0, Gives(0, true)),
    ("udiv", 9, true, 29, 4, Gives(7, false)),
    ("umod", 10, false, 7, 0, Gives(0, true)),
    ("umod", 10, true, 29, 9, Gives(2, false)),
    ("shl", 11, false, 0x8000_0001, 1, Gives(2, true)),
    ("shl", 11, false, 0x8000_0001, 32, Gives(0, true)),
    ("shl", 11, true, 3, 4, Gives(48, false)),
    ("shr", 12, false, 0x8000_0001, 0xffff_ffff, Gives(0, true)),
    ("shr", 12, true, 50, 2, Gives(12, false)),
    ("cmpe", 13, false, 5, 5, Tests(true)),
    ("cmpe", 13, true, 6, 5, Tests(false)),
    ("cmpa", 14, false, 0xffff_ffff, 0, Tests(true)),
    ("cmpa", 14, true, 5, 5, Tests(false)),
    ("cmpae", 15, false, 0xffff_ffff, 0, Tests(true)),
    ("cmpae", 15, false, 5, 5, Tests(true)),
    ("cmpae", 15, true, 5, 6, Tests(false)),
    ("cmpg", 16, true, 0xffff_ffff, 0, Tests(false)),
    ("cmpg", 16, true, 5, 5, Tests(false)),
    ("cmpg", 16, false, 6, 5, Tests(true)),
    ("cmpge", 17, true, 0xffff_ffff, 0, Tests(false)),
    ("cmpge", 17, false, 5, 5, Tests(true)),
    ("mov", 18, false, 7, 9, Gives(9, false)),
    ("mov", 18, true, 7, 9, Gives(9, true)),
    ("cmov", 19, false, 7, 9, Tests(false)),
    ("cmov", 19, true, 7, 9, Gives(9, true)),
    ("jmp", 20, false, 7, 23, Jumps(16)),
    ("cjmp", 21, false, 7, 23, Tests(false)),
    ("cjmp", 21, true, 7, 23, Jumps(16)),
    ("cnjmp", 22, false, 7, 23, Jumps(16)),
    ("cnjmp", 22, true, 7, 23, Tests(true)),
    ("", 23, true, 7, 9, Undefined),
    ("", 24, true, 7, 9, Undefined),
    ("", 25, true, 7, 9, Undefined),
    ("store.b", 26, false, 7, 65_537, Stores(0x8899_abbb)),
    ("store.b", 26, true, 7, 65_539, Stores(0xab99_aabb)),
    ("load.b", 27, false, 7, 65_537, Gives(170, false)),
    ("load.b", 27, true, 7, 65_539, Gives(136, true)),
    ("store.w", 28, true, 7, 65_537, Stores(0x1122_33ab)),
    ("load.w", 29, true, 7, 65_539, Gives(0x8899_aabb, true)),
    ("read", 30, true, 7, 0, Gives(77, false)),
    ("read", 30, true, 7, 1, Gives(88, false)),
    ("read", 30, false, 7, 2, Gives(0, true)),
    ("answer", 31, true, 7, 5, Answers(5)),
];

/// What can be seen of a step and of the machine after it: the outcome, the program counter, the
/// word in register 2, the flag, and the word at the address 65,536.
type Seen = (Outcome, u32, u32, bool, u32);

/// What is seen where a row's instruction does what it should.
fn wanted(row: &Row) -> Seen {
    let (_, op, flag, _, _, does) = *row;
    match does {
        Gives(word, flag) => (Outcome::Gone, 48, word, flag, CELL),
        Tests(flag) => (Outcome::Gone, 48, BEFORE, flag, CELL),
        Jumps(pc) => (Outcome::Gone, pc, BEFORE, flag, CELL),
        Stores(cell) => (Outcome::Gone, 48, BEFORE, flag, cell),
        Answers(value) => (Outcome::Answered { value }, 40, BEFORE, flag, CELL),
        Undefined => (Outcome::Undefined { op }, 40, BEFORE, flag, CELL),
    }
}

/// The words of an instruction with the source 1 and an immediate operand.
fn instruction(op: u8, dest: u8, a: u32) -> [u32; 2] {
    encode::<32>(&Instr {
        op: op % 32,
        imm: true,
        dest: dest % 16,
        source: 1,
        a,
    })
}

/// One step of a row's instruction, after those that bring its words and its flag about.
fn step_of(alloc: Global, row: &Row) -> Result<Seen, AllocError> {
    let (_, op, flag, s, a, _) = *row;
    let program = [
        instruction(18, 1, s),
        instruction(18, 2, CELL),
        instruction(28, 2, 65_536),
        instruction(18, 2, BEFORE),
        instruction(13, 0, if flag { s } else { !s }),
        instruction(op, 2, a),
    ];
    let mut machine = Machine::<32>::start_on(alloc, program.as_flattened(), &[77], &[88])?;
    machine.run(5)?;
    let outcome = machine.step()?;
    let (word, cell) = (machine.reg(2), machine.word_at(65_536));
    Ok((outcome, machine.pc(), word, machine.flag(), cell))
}

#[test]
fn each_instruction_does_what_it_should(rt: HostRuntime) -> Result<(), Fail> {
    for row in &ROWS {
        let seen = step_of(rt.alloc(), row)?;
        assert!(rt; seen == wanted(row), "{}", row.0);
    }
    Ok(())
}

// read r1, 0; read r1, 0; read r1, 2
#[test]
fn a_read_past_the_end_gives_0_and_sets_the_flag(rt: HostRuntime) -> Result<(), Fail> {
    let image = [0xf440_0000, 0, 0xf440_0000, 0, 0xf440_0000, 2];
    let mut machine = Machine::<32>::start_on(rt.alloc(), &image, &[u32::MAX], &[])?;
    for (word, flag) in [(u32::MAX, false), (0, true), (0, true)] {
        let outcome = machine.step()?;
        let seen = (machine.reg(1), machine.flag());
        assert!(rt; outcome == Outcome::Gone && seen == (word, flag));
    }
    Ok(())
}
