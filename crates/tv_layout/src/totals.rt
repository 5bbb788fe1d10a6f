//! What the checks of a system's lines cost in wires and in constraints, by their kinds.
ghost use Rattle.std.specs.Prelude.{◌≡◌, ◌^◌, ◌≤◌};
ghost use Rattle.tv_layout.specs.Sizes.{AreCheap, check_costs, checks_total, in_row};
ghost use Rattle.tv_argument.specs.Checks.{check_added, check_made};

use crate::checks::first_kind;
use tv_argument::{Kind, check_added, check_made};
use tv_core::limits::CELL_BITS;

/// What checks of lines cost, in wires or in constraints.
#[derive(Clone, Copy)]
pub(crate) struct CheckCosts {
    /// The line of the image's first word.
    pub(crate) image_word: u32,
    /// The line of the tape's first word.
    pub(crate) tape_word: u32,
    /// The line of each other word of the two.
    pub(crate) boot_word: u32,
    /// The three lines of the first step.
    pub(crate) first_step: u32,
    /// Those of each other step.
    pub(crate) step: u32,
}

// How many wires checks make, for at most 2^`k` lines and an image of `words` words.
pub(crate) fn wire_costs(k: u32, words: u32) -> CheckCosts
    requires few { k ≤ 20 }
    ensures is { result ≡ check_costs check_made k words }
    ensures cheap { AreCheap result }
{
    let far = check_made(Kind::Within(CELL_BITS));
    let rest = check_made(Kind::Within(k)) + far;
    CheckCosts {
        image_word: check_made(Kind::ZeroOld),
        tape_word: far,
        boot_word: check_made(Kind::Boot(0)),
        first_step: check_made(first_kind(words, 0)) + rest,
        step: far + rest,
    }
}

// How many constraints they emit.
pub(crate) fn constraint_costs(k: u32, words: u32) -> CheckCosts
    requires few { k ≤ 20 }
    ensures is { result ≡ check_costs check_added k words }
    ensures cheap { AreCheap result }
{
    let far = check_added(Kind::Within(CELL_BITS));
    let rest = check_added(Kind::Within(k)) + far;
    CheckCosts {
        image_word: check_added(Kind::ZeroOld),
        tape_word: far,
        boot_word: check_added(Kind::Boot(0)),
        first_step: check_added(first_kind(words, 0)) + rest,
        step: far + rest,
    }
}

// What the checks cost of all lines of an image's words, a tape's `n` words and `t` steps.
pub(crate) fn total(of: &CheckCosts, words: u32, n: u32, t: u32) -> u64
    requires cheap { AreCheap of.now }
    requires words { words ≤ 2 ^ 18 }
    requires tape { n ≤ 2 ^ 18 }
    requires steps { t ≤ 2 ^ 18 }
    ensures is { result ≡ checks_total of.now words n t }
    ensures most { result ≤ 2 ^ 31 }
{
    in_row(words, of.image_word, of.boot_word)
        + in_row(n, of.tape_word, of.boot_word)
        + in_row(t, of.first_step, of.step)
}

// What n things in a row cost, of which the first costs something else.
fn in_row(n: u32, first: u32, other: u32) -> u64
    requires many { n ≤ 2 ^ 18 }
    requires first { first ≤ 2 ^ 10 }
    requires other { other ≤ 2 ^ 10 }
    ensures is { result ≡ in_row n first other }
    ensures most { result ≤ 2 ^ 29 }
{
    if n == 0 {
        0
    } else {
        u64::from(first) + u64::from(n - 1) * u64::from(other)
    }
}
