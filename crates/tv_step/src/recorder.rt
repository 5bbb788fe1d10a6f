//! Steps that return their lines of memory.
ghost use Rattle.std.specs.Prelude.{◌≡◌, ◌+◌, ◌-◌, ◌<◌, ◌^◌, ◌==◌, ◌&&◌, ◌||◌, not};
ghost use Rattle.std.specs.Prelude.{is_some, nat_lt, if◌then◌else◌, slice_get, length, IfOk, OnOk};
ghost use Rattle.tv_core.specs.declared.limits.TheConstants.{TAPE_CELLS};
ghost use Rattle.tv_isa.specs.Instruction.{IsInstruction};
ghost use Rattle.tv_mem.specs.Bytes.{word_in};
ghost use Rattle.tv_word.specs.Widths.{IsWidth};
ghost use Rattle.tv_step.specs.Machine.{fetched, operand, state_after};
ghost use Rattle.tv_step.specs.Ops.{op_of};
ghost use Rattle.tv_step.specs.Reads.{is_read, finds_end};
ghost use Rattle.tv_step.specs.Trace.{looked_at, touched_line, data_line, step_lines, traced_state};
ghost use Rattle.tv_step.specs.Views.{state_of};

use crate::lines::TraceState;
use crate::op::{Op, op_of};
use crate::state::Machine;
use std::alloc::AllocError;
use tv_core::Line;
use tv_core::limits::{NULL_CELL, TAPE_CELLS};
use tv_isa::{Instr, decode};
use tv_tape::Tape;

/// What a trace records of a step: its three lines, and the ended bit after it.
#[derive(Clone, Copy)]
pub(crate) struct Recorded {
    pub(crate) lines: [Line; 3],
    pub(crate) ended: bool,
}

// The line of a cell that only is looked at.
fn looked_at(cell: u32, time: u32, word: u32) -> Line
    ensures { result ≡ looked_at cell time word }
{
    Line {
        cell,
        time,
        old: word,
        new: word,
    }
}

// How many words of a tape that had `n` are taken.
fn taken(n: u32, tape: &Tape) -> u32
    ensures { result ≡ n - length tape.now }
{
    n - tape.left().min(n as usize) as u32
}

impl<const W: u32> Machine<W> {
    // The data line of an instruction with the operand `a`, as it stands before the step: nothing
    // is stored yet. The primary tape has had `n` words.
    fn line_before(&self, op: Op, a: u32, n: u32, time: u32) -> Line
        requires width { IsWidth W }
        requires word { a < 2 ^ W }
        requires short { n < 2 ^ 29 }
        ensures { let line = touched_line W n op (state_of self.now) a time in result
            ≡ looked_at line.cell time line.old }
    {
        match op {
            Op::StoreB | Op::LoadB | Op::StoreW | Op::LoadW => {
                looked_at(a / (W / 8), time, self.word_at(a))
            }
            Op::Read if a == 0 => match self.primary.first() {
                Some(word) => looked_at(TAPE_CELLS + taken(n, &self.primary), time, word),
                None => looked_at(NULL_CELL, time, 0),
            },
            _ => looked_at(NULL_CELL, time, 0),
        }
    }

    // The data line once the step is taken: where it is of a word of memory, its new word is there.
    fn line_after(&self, before: Line) -> Line
        requires { IsWidth W }
        ensures { result ≡ record before {
          new = if nat_lt before.cell TAPE_CELLS
              then word_in W (state_of self.now).memory before.cell else before.new;
        } }
    {
        if before.cell < TAPE_CELLS {
            Line {
                new: self.word_at(before.cell * (W / 8)),
                ..before
            }
        } else {
            before
        }
    }

    // Does what the instruction at the program counter says, and returns its data line at a time.
    fn data_line(&mut self, instr: &Instr, n: u32, time: u32) -> Result<Line, AllocError>
        requires width { IsWidth W }
        requires word { instr.now.a < 2 ^ W }
        requires range { IsInstruction instr.now }
        requires short { n < 2 ^ 29 }
        requires fetched { instr.now ≡ fetched W (state_of self.old) }
        ensures line { IfOk result (λ line. line ≡ data_line W n (state_of self.old) time) }
        ensures state { OnOk result (state_of self.new ≡ state_after W 1 (state_of self.old)) }
    {
        let a = self.operand(instr);
        let before = self.line_before(op_of(instr.op), a, n, time);
        self.executes(instr)?;
        Ok(self.line_after(before))
    }

    // The ended bit after an instruction's step: it was set before, or the step reads the
    // auxiliary tape and finds nothing.
    fn ended_after(&self, instr: &Instr, ended: bool) -> bool
        requires { instr.now.a < 2 ^ W }
        ensures { let st = state_of self.now in
            result ≡ (ended || ((is_read (op_of instr.now.op) && (operand st instr.now == 1))
            && not (is_some (slice_get st.aux 0)))) }
    {
        ended
            || (matches!(op_of(instr.op), Op::Read)
                && self.operand(instr) == 1
                && self.aux.first().is_none())
    }

    /// Takes a step, and returns its three lines, the first at a time, and the ended bit after it.
    /// The primary tape has had `n` words. Where the machine answers or stops, the state stays.
    pub(crate) fn record_step(
        &mut self,
        n: u32,
        time: u32,
        ended: bool,
    ) -> Result<Recorded, AllocError>
        requires width { IsWidth W }
        requires short { n < 2 ^ 29 }
        requires times { time + 2 < 2 ^ 32 }
        ensures lines { IfOk result (λ recorded. recorded.lines
            ≡ step_lines W n (state_of self.old) time) }
        ensures ended { IfOk result (λ recorded. recorded.ended
            ≡ (ended || finds_end W (state_of self.old))) }
        ensures state { OnOk result (state_of self.new ≡ state_after W 1 (state_of self.old)) }
    {
        let place = self.pc.address() / (W / 8);
        let (first, second) = self.fetched_words();
        let instr = decode::<W>(first, second);
        let ended = self.ended_after(&instr, ended);
        let line = self.data_line(&instr, n, time + 2)?;
        Ok(Recorded {
            lines: [
                looked_at(place, time, first),
                looked_at(place + 1, time + 1, second),
                line,
            ],
            ended,
        })
    }

    /// Returns what the trace has of the state, the tapes having had `n` and `m` words, and a read
    /// of the auxiliary one having found nothing before or not.
    pub(crate) fn recorded(&self, n: u32, m: u32, ended: bool) -> TraceState
        ensures { result ≡ traced_state n m (state_of self.now) ended }
    {
        TraceState {
            pc: self.pc.address(),
            regs: self.regs.words(),
            flag: self.flag,
            primary: taken(n, &self.primary),
            aux: taken(m, &self.aux),
            ended,
        }
    }
}
