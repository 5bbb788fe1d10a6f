//! The rows of a region in a turn.
ghost use Rattle.std.specs.Prelude.{◌≡◌, ◌*◌, ◌^◌, ◌<◌, ◌≤◌};
ghost use Rattle.std.specs.Prelude.{length, slice_index};
ghost use Rattle.tv_outline.specs.Expansion.{IsProper, IsShort};
ghost use Rattle.tv_outline.specs.Expansion.{coefficient_in, combination_in, constraint_in};
ghost use Rattle.tv_outline.specs.Expansion.{turn_count, values_of, weighed, wire_in};

use crate::outline::{Region, Row, Term};
use arrayvec::ArrayVec;
use tv_core::{F, Lc, Wire};

// The most values of a turn: a digit for each loop, and two words.
const VALUES: usize = 66;

// How many turns loops of these counts have, or 0 where there are 2^32 or more.
pub(crate) fn turn_count(counts: &[u32]) -> u32
    ensures few { turn_count counts.now < 2 ^ 32 → result ≡ turn_count counts.now }
    ensures many { 2 ^ 32 ≤ turn_count counts.now → result ≡ 0 }
{
    let mut turns = 1_u32;
    for count in counts {
        match turns.checked_mul(*count) {
            Some(product) => turns = product,
            None => return 0,
        }
    }
    turns
}

// The word of the image with this number, 0 past its end.
fn word_at(words: &[u32], i: u64) -> u32
    ensures { result ≡ slice_index words.now i }
{
    if i < words.len() as u64 {
        words[i as usize]
    } else {
        0
    }
}

// The values of a turn.
pub(crate) fn values_of(words: &[u32], region: &Region, turn: u32) -> ArrayVec<u32, VALUES>
    requires { IsProper region.now }
    ensures { result.items ≡ values_of words.now region.now turn }
{
    let mut values = ArrayVec::new();
    let mut size = turn_count(&region.counts);
    let mut rest = turn;
    for count in &region.counts {
        size /= *count;
        values.push(rest / size);
        rest %= size;
    }
    let at = 2 * (u64::from(region.first_pair) + u64::from(turn));
    values.push(word_at(words, at));
    values.push(word_at(words, at + 1));
    values
}

// The sum of each weight times its value, as far as there are both.
fn weighed(weights: &[u64], values: &[u32]) -> u128
    requires { length values.now ≤ 66 }
    ensures is { result ≡ weighed weights.now values.now }
    ensures below { result ≤ 66 * 2 ^ 96 }
{
    let mut sum = 0_u128;
    for i in 0..weights.len().min(values.len()) {
        sum += u128::from(weights[i]) * u128::from(values[i]);
    }
    sum
}

// The term's coefficient in a turn.
fn coefficient_in(region: &Region, values: &[u32], term: Term) -> F
    requires { length values.now ≤ 66 }
    ensures { result ≡ coefficient_in region.now values.now term }
{
    match region.rates.get(term.rate) {
        Some(weights) => F::of_wide(
            u128::from(term.coefficient.number()) + weighed(weights, values),
            0,
        ),
        None => F::of(term.coefficient.number()),
    }
}

// The term's wire in a turn.
fn wire_in(region: &Region, values: &[u32], term: Term) -> Wire
    requires { length values.now ≤ 66 }
    ensures { result ≡ wire_in region.now values.now term }
{
    match region.moves.get(term.shift) {
        Some(weights) => Wire(
            ((u128::from(term.wire) + weighed(weights, values)) % 4_294_967_296) as u32,
        ),
        None => Wire(term.wire),
    }
}

// Sets a combination to that of these terms in a turn.
fn set_combination(lc: &mut Lc, region: &Region, values: &[u32], terms: &[Term])
    requires values { length values.now ≤ 66 }
    requires terms { length terms.now ≤ 128 }
    ensures { lc.new ≡ combination_in region.now values.now terms.now }
{
    lc.clear();
    for term in terms {
        let coefficient = coefficient_in(region, values, *term);
        if coefficient != F::ZERO {
            lc.plus(coefficient, wire_in(region, values, *term));
        }
    }
}

// Sets three combinations to those of a row in a turn.
pub(crate) fn set_row(region: &Region, values: &[u32], row: &Row, made: &mut (Lc, Lc, Lc))
    requires values { length values.now ≤ 66 }
    requires row { IsShort row.now }
    ensures { constraint_in region.now values.now row.now
        ≡ record { a = made.new.0; b = made.new.1; c = made.new.2 } }
{
    set_combination(&mut made.0, region, values, &row.a);
    set_combination(&mut made.1, region, values, &row.b);
    set_combination(&mut made.2, region, values, &row.c);
}
