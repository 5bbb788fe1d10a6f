//! What a line shows of the state before its step, and what the step takes of the tapes.
ghost use Rattle.std.specs.Prelude.{◌≡◌, ◌-◌};
ghost use Rattle.tv_isa.specs.Instruction.{IsInstruction};
ghost use Rattle.tv_step.specs.Machine.{operand};
ghost use Rattle.tv_step.specs.Range.{StateInRange};
ghost use Rattle.tv_step.specs.Views.{state_of};
ghost use Rattle.tv_word.specs.Widths.{IsWidth};
ghost use Rattle.tv_trace.specs.Before.{before_of, taken_of};

use tv_isa::{Instr, decode, opcode};
use tv_step::Machine;

/// What a line shows of the state before its step.
#[derive(Clone, Copy)]
pub(crate) struct Before {
    /// The program counter.
    pub(crate) pc: u32,
    /// The two words of the instruction.
    pub(crate) first: u32,
    pub(crate) second: u32,
    /// The instruction.
    pub(crate) instr: Instr,
    /// The word in its destination register.
    pub(crate) held: u32,
    /// Its operand.
    pub(crate) operand: u32,
    /// The word of memory in which the operand lies as an address.
    pub(crate) word: u32,
}

impl Before {
    /// Returns what a line shows of the state that a machine is in.
    pub(crate) fn of<const W: u32>(machine: &Machine<W>) -> Before
        requires width { IsWidth W }
        requires range { StateInRange W (state_of machine.now) }
        ensures before { result ≡ before_of W (state_of machine.now) }
        ensures range { IsInstruction result.instr }
    {
        let pc = machine.pc();
        let first = machine.word_at(pc);
        let second = machine.word_at(pc + W / 8);
        let instr = decode::<W>(first, second);
        let operand = operand(machine, &instr);
        Before {
            pc,
            first,
            second,
            instr,
            held: machine.reg(u32::from(instr.dest)),
            operand,
            word: machine.word_at(operand),
        }
    }

    /// Returns how many words the step takes of the tape with this number, if that has any.
    fn takes(&self, tape: u32) -> usize
        ensures { result ≡ taken_of self.now tape }
    {
        if self.instr.op == opcode::READ && self.operand == tape {
            1
        } else {
            0
        }
    }
}

/// Returns an instruction's operand.
fn operand<const W: u32>(machine: &Machine<W>, instr: &Instr) -> u32
    ensures { result ≡ operand (state_of machine.now) instr.now }
{
    if instr.imm {
        instr.a
    } else {
        machine.reg(instr.a % 16)
    }
}

/// How many words are left of the two tapes.
#[derive(Clone, Copy)]
pub(crate) struct Left {
    pub(crate) primary: usize,
    pub(crate) aux: usize,
}

impl Left {
    /// Returns how many words are left after the step.
    pub(crate) fn after(self, before: &Before) -> Left
        ensures { result ≡ record {
          primary = self.primary - taken_of before.now 0;
          aux = self.aux - taken_of before.now 1;
        } }
    {
        Left {
            primary: self.primary.saturating_sub(before.takes(0)),
            aux: self.aux.saturating_sub(before.takes(1)),
        }
    }
}
