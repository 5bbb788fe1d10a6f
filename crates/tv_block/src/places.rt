//! The wires of a step, computed from the number of its first wire.
ghost use Rattle.std.specs.Prelude.{◌≡◌, ◌+◌, ◌<◌, ◌^◌, ℕ};
ghost use Rattle.tv_block.specs.Block.{word_inverse};
ghost use Rattle.tv_block.specs.Complete.{block_made};
ghost use Rattle.tv_block.specs.Places.{tapes_at, memory_at, written_at, next_state, block_wires};
ghost use Rattle.tv_block.specs.Places.{first_line, second_line, third_line, IsShortLine};
ghost use Rattle.tv_block.specs.Under.{LineUnder, SpotUnder};
ghost use Rattle.tv_lines.specs.Placed.{line_in};
ghost use Rattle.tv_lines.specs.Compact.{line_lc};
ghost use Rattle.tv_inputs.specs.States.{StateUnder};
ghost use Rattle.tv_inputs.specs.declared.records.StateWires.{StateWires};
ghost use Rattle.tv_word.specs.Widths.{IsWidth};

use crate::records::Block;
use tv_core::{F, P, Wire};
use tv_inputs::{Spot, StateWires, opcode_wire};
use tv_isa::opcode::ANSWER;
use tv_lines::{Cell, CompactLine, Word};
use tv_regs::wires_from;

// Counted from a step's first wire, 2 W or 6 W less: the two words of its instruction and its
// operand; the low half of the row of its operation.
const HEAD: u32 = 24;

const TAIL: u32 = 25;

const OPERAND: u32 = 57;

const LOW: u32 = 59;

// Counted from the first wire of the tapes: how many words of the primary tape are taken, whether
// one of the auxiliary tape is, whether that has ended, and how many wires these are.
const TAKEN: u32 = 3;

const TAKES: u32 = 5;

const ENDED: u32 = 6;

const TAPES: u32 = 7;

// Counted from the first wire of memory, W / 8 less: how many wires it and the result have.
const MEMORY_AND_RESULT: u32 = 11;

// Counted from the first wire of the registers written: the registers, the flag and the program
// counter.
const REGISTERS: u32 = 1;

const FLAG: u32 = 19;

const PC: u32 = 23;

/// Returns the state after a step whose first wire is `first`.
pub fn next_state<const W: u32>(first: Wire) -> StateWires
    requires width { IsWidth W }
    requires within { first + block_made W < 2 ^ 32 }
    ensures is { result ≡ next_state W first }
    ensures below { StateUnder (first + block_made W) result }
{
    let tapes = first.offset(tapes_at::<W>());
    let written = first.offset(written_at::<W>());
    StateWires {
        pc: written.offset(PC),
        regs: wires_from(written.offset(REGISTERS)),
        flag: written.offset(FLAG),
        taken_of_primary: tapes.offset(TAKEN),
        aux_ended: tapes.offset(ENDED),
    }
}

/// Returns line 0, 1 or 2 of a step from a state, the step's first wire being `first`: those of the
/// two words of its instruction, and that of its data word, at `time` and the two times after it. A
/// combination has at most 14 terms, and the time has one.
pub fn block_line<const W: u32>(
    first: Wire,
    state: &StateWires,
    time: u32,
    which: u32,
) -> CompactLine
    requires width { IsWidth W }
    requires within { first + block_made W < 2 ^ 32 }
    requires times { time + 2 < 2 ^ 32 }
    requires which { which < 3 }
    ensures is { line_lc result ≡ line_in (block_wires W state.now time first).lines which }
    ensures short { IsShortLine (line_lc result) }
    ensures below { state.now.pc < first + block_made W →
        LineUnder (first + block_made W) (line_lc result) }
{
    match which {
        0 => first_line::<W>(first, state, time),
        1 => second_line::<W>(first, state, time),
        _ => third_line::<W>(first, time),
    }
}

/// Returns where a step whose first wire is `first` takes a word of the auxiliary tape.
pub fn block_spot<const W: u32>(first: Wire) -> Spot
    requires width { IsWidth W }
    requires within { first + block_made W < 2 ^ 32 }
    ensures is { (state : StateWires) (time : ℕ) → result ≡ (block_wires W state time first).spot }
    ensures below { SpotUnder (first + block_made W) result }
{
    let tapes = first.offset(tapes_at::<W>());
    Spot {
        taken: tapes.offset(TAKES),
        word: first.offset(6 * W + LOW),
    }
}

/// Returns all that `block` returns for a step from a state, the step's first wire being `first`.
/// It is the same however many words the primary tape has.
pub fn block_wires<const W: u32>(first: Wire, state: &StateWires, _n: u32, time: u32) -> Block
    requires width { IsWidth W }
    requires within { first + block_made W < 2 ^ 32 }
    requires times { time + 2 < 2 ^ 32 }
    ensures { result ≡ block_wires W state.now time first }
{
    Block {
        next: next_state::<W>(first),
        lines: [
            block_line::<W>(first, state, time, 0).lc(),
            block_line::<W>(first, state, time, 1).lc(),
            block_line::<W>(first, state, time, 2).lc(),
        ],
        spot: block_spot::<W>(first),
        answers: opcode_wire(first.offset(W - 5), ANSWER),
        value: first.offset(2 * W + OPERAND),
    }
}

// The line of an instruction's first word, which stays.
fn first_line<const W: u32>(first: Wire, state: &StateWires, time: u32) -> CompactLine
    requires width { IsWidth W }
    requires within { first + block_made W < 2 ^ 32 }
    ensures is { line_lc result ≡ first_line W state.now time first }
{
    let head = first.offset(2 * W + HEAD);
    CompactLine {
        cell: Cell::Multiple(word_inverse::<W>(), state.pc),
        time,
        old: Word::Wired(head),
        new: Word::Wired(head),
    }
}

// The line of its second word, which is in the next cell and stays too.
fn second_line<const W: u32>(first: Wire, state: &StateWires, time: u32) -> CompactLine
    requires width { IsWidth W }
    requires within { first + block_made W < 2 ^ 32 }
    requires times { time + 1 < 2 ^ 32 }
    ensures is { line_lc result ≡ second_line W state.now time first }
{
    let tail = first.offset(2 * W + TAIL);
    CompactLine {
        cell: Cell::After(word_inverse::<W>(), state.pc),
        time: time + 1,
        old: Word::Wired(tail),
        new: Word::Wired(tail),
    }
}

// The line of a step's data word.
fn third_line<const W: u32>(first: Wire, time: u32) -> CompactLine
    requires width { IsWidth W }
    requires within { first + block_made W < 2 ^ 32 }
    requires times { time + 2 < 2 ^ 32 }
    ensures is { line_lc result ≡ third_line W time first }
{
    let memory = first.offset(memory_at::<W>());
    CompactLine {
        cell: Cell::Multiple(F::ONE, memory.offset(1)),
        time: time + 2,
        old: Word::Wired(memory.offset(2)),
        new: Word::Wired(memory.offset(W / 8 + 4)),
    }
}

// The inverse modulo P of how many bytes a word has, which divides P - 1.
fn word_inverse<const W: u32>() -> F
    requires width { IsWidth W }
    ensures { result ≡ word_inverse W }
{
    F::of(P - (P - 1) / u64::from(W / 8))
}

// Where the wires of the tapes begin, counted from a step's first wire: after what a step computes.
fn tapes_at<const W: u32>() -> u32
    requires width { IsWidth W }
    ensures { result ≡ tapes_at W }
{
    6 * W + W / 16 + 71
}

// Where those of memory begin.
fn memory_at<const W: u32>() -> u32
    requires width { IsWidth W }
    ensures { result ≡ memory_at W }
{
    tapes_at::<W>() + TAPES
}

// Where those of the registers written begin.
fn written_at<const W: u32>() -> u32
    requires width { IsWidth W }
    ensures { result ≡ written_at W }
{
    memory_at::<W>() + W / 8 + MEMORY_AND_RESULT
}
