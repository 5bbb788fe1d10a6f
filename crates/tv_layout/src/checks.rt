//! How the lines of a system are checked.
ghost use Rattle.std.specs.Prelude.{◌≡◌, ◌+◌, ◌^◌, ◌<◌, ◌≤◌};
ghost use Rattle.tv_layout.specs.Checks.{boot_kind, first_kind, line_kind, step_kind};
ghost use Rattle.tv_argument.specs.Checks.{IsShortKind};

use tv_argument::Kind;
use tv_core::limits::{CELL_BITS, TAPE_CELLS};

/// Returns how line `i` of a system is checked, its image having `words` words and its tape `n`. It
/// has at most 2^`k` lines before padding, and `i` is below their number. The line of the image's
/// first word is the least one, and has no old word; an image without words has none, and then the
/// least line is the first of the steps. Each other word at boot stands in the cell after that of
/// the line before. A step's second line is of the cell after the first line's, so its predecessor
/// is near.
pub fn line_kind(words: u32, n: u32, k: u32, i: u32) -> Kind
    requires few { k ≤ 20 }
    requires boot { words + n ≤ 2 ^ 20 }
    ensures is { result ≡ line_kind k words n i }
    ensures short { IsShortKind result }
{
    let boot = words + n;
    if i < words {
        boot_kind(Kind::ZeroOld, 0, i)
    } else if i < boot {
        boot_kind(Kind::Within(CELL_BITS), TAPE_CELLS, i - words)
    } else {
        step_kind(k, words, i - boot)
    }
}

// The kind of line i of those that write words from a cell on.
fn boot_kind(first: Kind, cell: u32, i: u32) -> Kind
    requires short { IsShortKind first }
    requires cells { cell + i < 2 ^ 32 }
    ensures is { result ≡ boot_kind first cell i }
    ensures short { IsShortKind result }
{
    if i == 0 {
        first
    } else {
        Kind::Boot(cell + i - 1)
    }
}

// The kind of a step's first line.
pub(crate) fn first_kind(words: u32, step: u32) -> Kind
    ensures is { result ≡ first_kind words step }
    ensures short { IsShortKind result }
{
    if words == 0 && step == 0 {
        Kind::Least
    } else {
        Kind::Within(CELL_BITS)
    }
}

// The kind of line j of the steps.
fn step_kind(k: u32, words: u32, j: u32) -> Kind
    requires few { k ≤ 20 }
    ensures is { result ≡ step_kind k words j }
    ensures short { IsShortKind result }
{
    if j % 3 == 0 {
        first_kind(words, j / 3)
    } else if j % 3 == 1 {
        Kind::Within(k)
    } else {
        Kind::Within(CELL_BITS)
    }
}
