//! The items at the switches of a network, found among its inputs.
ghost use Rattle.std.specs.Prelude.{◌≡◌, ℕ, suc, if◌then◌else◌, ◌+◌, ◌*◌, ◌<◌, ◌≤◌, ◌^◌, Bool};
ghost use Rattle.tv_benes.specs.Items.{bit_at, pair_at, item_of, depth_of};
ghost use Rattle.tv_benes.specs.Through.{from, last_bit, through};

use crate::shape::{Net, level_switches, long_power};
use tv_core::{F, PairNum};

// The items of a network: its inputs; or, for the upper or lower network within another, that one's
// items and bits, and whether it is the lower one.
#[derive(Clone, Copy)]
pub(crate) enum Items<'a> {
    Given(&'a [PairNum]),
    Half(&'a Items<'a>, &'a [bool], bool),
}

// The bit at a place, 0 past the end.
pub(crate) fn bit(bits: &[bool], at: u64) -> bool
    ensures { result ≡ bit_at bits.now at }
{
    bits.get(at as usize).copied().unwrap_or(false)
}

// The bits from place `n` on.
pub(crate) fn bits_from(bits: &[bool], n: u64) -> &[bool]
    ensures { ◌≡◌ {A = ℕ → Bool} (bit_at result.now) (from n (bit_at bits.now)) }
{
    &bits[(n as usize).min(bits.len())..]
}

// The pair at a place, zeros past the end.
fn given(pairs: &[PairNum], at: u64) -> PairNum
    ensures { result ≡ pair_at pairs.now at }
{
    pairs.get(at as usize).copied().unwrap_or(PairNum {
        first: F::ZERO,
        second: F::ZERO,
    })
}

// Item `j`, found among the inputs: one step for each network that it lies within.
pub(crate) fn read(items: &Items<'_>, j: u64) -> PairNum
    requires { (j + 1) * 2 ^ depth_of items.now ≤ 2 ^ 62 }
    ensures { result ≡ item_of items.now j }
{
    match items {
        Items::Given(pairs) => given(pairs, j),
        Items::Half(outer, bits, lower) => {
            let crossed = bit(bits, j) != *lower;
            read(outer, 2 * j + flag(crossed))
        }
    }
}

// Which item of a network of level `h` comes out at place `i`.
pub(crate) fn source(net: Net, bits: &[bool], h: u32, i: u64) -> u64
    requires level { h < 31 }
    requires within { i < 2 ^ suc h }
    ensures is { result ≡ through net h (bit_at bits.now) (λ j. j) i }
    ensures below { result < 2 ^ suc h }
{
    let j = i / 2;
    let odd = i % 2 == 1;
    if h == 0 {
        let lower = bit(bits, j) != odd;
        return 2 * j + flag(lower);
    }
    let n = long_power(h);
    let s = level_switches(net, h - 1);
    let lower = last_bit(net, bits, n + 2 * s, j) != odd;
    let inner = source(net, bits_from(bits, n + only_if(lower, s)), h - 1, j);
    let crossed = bit(bits, inner) != lower;
    2 * inner + flag(crossed)
}

// The bit of switch `j` of a last column whose bits begin at `at`.
pub(crate) fn last_bit(net: Net, bits: &[bool], at: u64, j: u64) -> bool
    requires { at + j < 2 ^ 64 }
    ensures { result ≡ last_bit net (from at (bit_at bits.now)) j }
{
    match net {
        Net::Benes => bit(bits, at + j),
        Net::Waksman => j > 0 && bit(bits, at + j - 1),
    }
}

fn flag(set: bool) -> u64
    ensures is { result ≡ (if set then 1 else 0) }
    ensures small { result < 2 }
{
    u64::from(set)
}

fn only_if(set: bool, n: u64) -> u64
    ensures { result ≡ (if set then n else 0) }
{
    if set { n } else { 0 }
}
