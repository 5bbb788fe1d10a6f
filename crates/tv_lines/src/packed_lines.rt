//! Lines packed into pairs of combinations and of numbers.
ghost use Rattle.std.specs.Prelude.{◌≡◌, ◌+◌, ◌*◌, ◌/◌, ◌%◌, ◌^◌, ◌<◌, ◌≤◌, length, max};
ghost use Rattle.tv_core.specs.Combinations.{top};
ghost use Rattle.tv_lines.specs.PackedLines.{packed_terms, pack};
ghost use Rattle.tv_lines.specs.PackedLines.{unpacked, PackIsRight};
ghost use Rattle.tv_lines.specs.PackedLines.{packed_item, ItemIsRight, PackIsOneToOne};

use tv_core::{F, Lc, Line, LineLc, Pair, PairNum};

/// Returns a line as two combinations: the old word and 2^32 times the cell; the new word and 2^32
/// times the time. The line has at most 32 terms in each combination, and the pair at most 64.
pub fn pack(line: &LineLc) -> Pair
    requires cell_short { length line.now.cell ≤ 32 }
    requires time_short { length line.now.time ≤ 32 }
    requires old_short { length line.now.old ≤ 32 }
    requires new_short { length line.now.new ≤ 32 }
    ensures pair { result ≡ pack line.now }
    ensures short { max (length result.first) (length result.second) ≤ 64 }
    ensures first_top { top result.first ≡ max (top line.now.old) (top line.now.cell) }
    ensures second_top { top result.second ≡ max (top line.now.new) (top line.now.time) }
{
    Pair {
        first: packed_terms(&line.old, &line.cell),
        second: packed_terms(&line.new, &line.time),
    }
}

// The one combination, and 2^32 times the other.
fn packed_terms(low: &Lc, high: &Lc) -> Lc
    requires low_short { length low.now ≤ 32 }
    requires high_short { length high.now ≤ 32 }
    ensures terms { result ≡ packed_terms low.now high.now }
    ensures len { length result ≡ length low.now + length high.now }
    ensures top { top result ≡ max (top low.now) (top high.now) }
{
    let mut lc = Lc::from_terms(low.terms());
    lc.plus_scaled(F::of(1 << 32), high.terms());
    lc
}

/// Returns the numbers of a line's item, for a line in range: 2^32 times the cell; the new word and
/// 2^32 times the time. The old word is left out.
pub fn pack_item(line: &Line) -> PairNum
    requires cell { line.now.cell < 2 ^ 31 }
    requires time { line.now.time < 2 ^ 20 }
    ensures { result ≡ packed_item line.now }
{
    PairNum {
        first: joined_words(0, line.cell),
        second: joined_words(line.new, line.time),
    }
}

/// Returns the line of an item: that of which the pair is packed, its old word 0 for an item.
pub fn unpack_item(pair: &PairNum) -> Line
    ensures { result ≡ unpacked pair.now }
{
    let (old, cell) = words(pair.first);
    let (new, time) = words(pair.second);
    Line {
        cell,
        time,
        old,
        new,
    }
}

// The one word, and 2^32 times the other.
fn joined_words(low: u32, high: u32) -> F
    requires { high < 2 ^ 31 }
    ensures { result ≡ high * 2 ^ 32 + low }
{
    F::of(u64::from(high) << 32 | u64::from(low))
}

// What is left of a number by 2^32, and how often 2^32 goes into it.
fn words(number: F) -> (u32, u32)
    ensures low { result.0 ≡ number % 2 ^ 32 }
    ensures high { result.1 ≡ number / 2 ^ 32 }
{
    let number = number.number();
    ((number % (1 << 32)) as u32, (number >> 32) as u32)
}

/// For a line in range, a cell below 2^31, a time below 2^20 and two words, the values of the
/// packed line are its packed values, as whole numbers.
#[tactic(auto, using(crate::proofs::PackingLaws::pack_right))]
pub fn pack_is_right()
    ensures { PackIsRight }
{}

/// For a line in range, the values of its item are the item's numbers, as whole numbers.
#[tactic(auto, using(crate::proofs::PackingLaws::item_right))]
pub fn item_is_right()
    ensures { ItemIsRight }
{}

/// Two lines in range that are packed to the same pair of numbers are the same.
#[tactic(auto, using(crate::proofs::PackingLaws::pack_one_to_one))]
pub fn pack_is_one_to_one()
    ensures { PackIsOneToOne }
{}
