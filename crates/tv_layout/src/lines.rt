//! A system's lines, by their indexes.
ghost use Rattle.std.specs.Prelude.{◌≡◌, ◌+◌, ◌*◌, ◌/◌, ◌%◌, ◌^◌, ◌≤◌, ◌<◌};
ghost use Rattle.tv_stages.specs.declared.nets.Net.{Net};
ghost use Rattle.tv_block.specs.Block.{block_of};
ghost use Rattle.tv_block.specs.Complete.{block_made};
ghost use Rattle.tv_block.specs.Places.{block_wires, IsShortLine};
ghost use Rattle.tv_block.specs.Under.{LineUnder};
ghost use Rattle.tv_layout.specs.Checks.{checks_of};
ghost use Rattle.tv_layout.specs.Layout.{own_lines, system_lines, line_of_word};
ghost use Rattle.tv_layout.specs.Places.{WithinLimits, line_count, log_of, zero_wires_at, first_at};
ghost use Rattle.tv_layout.specs.Systems.{system_of};
ghost use Rattle.tv_layout.specs.StateBefore.{state_before};
ghost use Rattle.tv_layout.specs.Places.{runs_of};
ghost use Rattle.tv_lines.specs.Placed.{line_in};
ghost use Rattle.tv_lines.specs.Compact.{line_lc, word_lc};
ghost use Rattle.tv_word.specs.Widths.{IsWidth};

use crate::checks::line_kind;
use crate::places::{step_at, tape_wire, zero_wires_at};
use crate::sequence::first_state;
use tv_argument::{CompactLines, Kind};
use tv_block::{StateWires, block_line, next_state};
use tv_core::limits::{NULL_CELL, STEPS, TAPE_CELLS, TAPE_WORDS};
use tv_core::{F, LineLc, Wire};
use tv_lines::{Cell, CompactLine, Word};

/// Returns line `i` of a program's system, in time order: the lines of the image, of the words of
/// the primary tape, of the steps, and padding up to 2^k lines, where k is `log_of` of the number
/// of lines before the padding. `i` is below 2^k; the other arguments are those of `emit_system`.
/// Takes constant time and no memory. The combinations have at most 14 terms, of wires of the
/// system, over either network. A `LineLc` has some 8 KB.
pub fn line<const W: u32>(image: &[u32], n: u32, t: u32, i: u32) -> LineLc
    requires fits { WithinLimits (runs_of W image.now n t) }
    requires within { i < 2 ^ log_of (line_count (runs_of W image.now n t)) }
    ensures is { result ≡ line_in (system_lines (block_of W) (runs_of W image.now n t)) i }
    ensures short { IsShortLine result }
    ensures below { (net : Net) →
        LineUnder (system_of net (runs_of W image.now n t)).wires result }
{
    compact_line::<W>(image, n, t, i).lc()
}

// Returns line `i` in compact form.
fn compact_line<const W: u32>(image: &[u32], n: u32, t: u32, i: u32) -> CompactLine
    requires fits { WithinLimits (runs_of W image.now n t) }
    requires within { i < 2 ^ log_of (line_count (runs_of W image.now n t)) }
    ensures is { line_lc result
        ≡ line_in (system_lines (block_of W) (runs_of W image.now n t)) i }
    ensures short { IsShortLine (line_lc result) }
{
    let words = image.len() as u32;
    let boot = words + n;
    if i < words {
        line_of_word(i, i, Word::Number(image[i as usize]))
    } else if i < boot {
        let at = i - words;
        line_of_word(TAPE_CELLS + at, i, Word::Wired(tape_wire(at)))
    } else if i < boot + 3 * t {
        step_line::<W>(n, boot, i - boot)
    } else {
        line_of_word(NULL_CELL, i, Word::Nothing)
    }
}

// A line that no step makes.
fn line_of_word(cell: u32, time: u32, word: Word) -> CompactLine
    ensures is { line_lc result ≡ line_of_word cell time (word_lc word) }
{
    CompactLine {
        cell: Cell::Multiple(F::from(cell), Wire(0)),
        time,
        old: Word::Nothing,
        new: word,
    }
}

// Line j of the steps, of which the first begins at a time.
fn step_line<const W: u32>(n: u32, time: u32, j: u32) -> CompactLine
    requires width { IsWidth W }
    requires few { n ≤ TAPE_WORDS }
    requires some { j < 3 * STEPS }
    requires times { time + j + 3 < 2 ^ 32 }
    ensures is { line_lc result ≡ line_in (block_wires W
        (state_before W (zero_wires_at W n) (first_at W n) (j / 3)) (time + 3 * (j / 3))
        (first_at W n + j / 3 * block_made W)).lines (j % 3) }
    ensures short { IsShortLine (line_lc result) }
{
    let step = j / 3;
    let state = state_before::<W>(n, step);
    block_line::<W>(step_at::<W>(n, step), &state, time + 3 * step, j % 3)
}

// The state before a step.
fn state_before<const W: u32>(n: u32, step: u32) -> StateWires
    requires width { IsWidth W }
    requires few { n ≤ TAPE_WORDS }
    requires some { step < STEPS }
    ensures { result ≡ state_before W (zero_wires_at W n) (first_at W n) step }
{
    if step == 0 {
        first_state(zero_wires_at::<W>(n))
    } else {
        next_state::<W>(step_at::<W>(n, step - 1))
    }
}

// The lines of a program's system but padding, by their indexes.
#[derive(Clone, Copy)]
pub(crate) struct LayoutLines<'a, const W: u32> {
    pub(crate) image: &'a [u32],
    pub(crate) n: u32,
    pub(crate) t: u32,
    // The times of lines have `k` bits.
    pub(crate) k: u32,
    ghost fits: { ∥ WithinLimits (runs_of W image.now n t) ∥₁ },
    ghost log: { k ≡ log_of (line_count (runs_of W image.now n t)) },
}

impl<'a, const W: u32> CompactLines for LayoutLines<'a, W> {
    ghost lines = { λ l. own_lines (block_of W) (runs_of W l.image.now l.n l.t) };

    ghost checks = { λ l. checks_of (runs_of W l.image.now l.n l.t) };

    fn line(&self, i: u32) -> CompactLine {
        compact_line::<W>(self.image, self.n, self.t, i)
    }

    fn count(&self) -> u32 {
        self.image.len() as u32 + self.n + 3 * self.t
    }

    fn kind(&self, i: u32) -> Kind {
        line_kind(self.image.len() as u32, self.n, self.k, i)
    }
}
