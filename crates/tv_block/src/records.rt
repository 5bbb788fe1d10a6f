//! Records of a step's numbers.
use tv_core::{LineLc, Wire};
use tv_decode::InstructionWires;
use tv_inputs::{ArithmeticWires, OperandWires, Spot, StateWires, StoreWires, TapeWires};
use tv_regs::Triple;

/// The numbers of a state: all of it but memory and the auxiliary tape.
#[derive(Clone, Copy)]
pub struct StateNum {
    /// The program counter.
    pub pc: u32,
    /// The words in the sixteen registers.
    pub regs: [u32; 16],
    /// The flag.
    pub flag: bool,
    /// How many words of the primary tape are taken.
    pub taken_of_primary: u32,
    /// Whether a read of the auxiliary tape has found its end.
    pub aux_ended: bool,
}

/// What a step computes before it changes anything.
#[derive(Clone, Copy)]
pub struct Computed {
    /// Its instruction.
    pub instruction: InstructionWires,
    /// The registers that it reads.
    pub regs: Triple,
    /// Its operand.
    pub operand: OperandWires,
    /// The test of its flag.
    pub test: Wire,
    /// The row that holds what its operation makes.
    pub made: ArithmeticWires,
}

/// What a step does.
#[derive(Clone, Copy)]
pub struct Effects {
    /// To the tapes.
    pub tapes: TapeWires,
    /// To memory.
    pub memory: StoreWires,
    /// The registers after it.
    pub regs: [Wire; 16],
    /// The flag after it.
    pub flag: Wire,
    /// The program counter after it.
    pub pc: Wire,
}

/// What a step leads to.
#[derive(Clone, Copy)]
pub struct Reached {
    /// The state after it.
    pub next: StateWires,
    /// 1 where it answers, else 0.
    pub answers: Wire,
    /// The answer, where it answers.
    pub value: Wire,
}

/// One step.
#[derive(Drop)]
pub struct Block {
    /// The state after it.
    pub next: StateWires,
    /// Its lines of memory: those of the two words of its instruction, and that of its data word.
    pub lines: [LineLc; 3],
    /// Where it takes a word of the auxiliary tape.
    pub spot: Spot,
    /// 1 where it answers, else 0.
    pub answers: Wire,
    /// The answer, where it answers.
    pub value: Wire,
}
