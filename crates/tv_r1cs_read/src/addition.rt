//! Terms that a window holds, added to a sum as they are read, with none kept.

ghost use Rattle.std.specs.Prelude.{◌≡◌, ◌+◌, ◌*◌, ◌≤◌, ◌<◌, ◌^◌, length};
ghost use Rattle.std.specs.Prelude.{slice_index};
ghost use Rattle.std.specs.Bool.{OnFalse, OnTrue};
ghost use Rattle.tv_container.specs.Reading.{Holds};
ghost use Rattle.tv_r1cs_read.specs.Sums.{Adds, AreValues};

use crate::sum::Sum;
use crate::terms::{Bounds, TERM_BYTES, held_term};
use tv_container::Window;
use tv_core::F;

// The value of a wire, which has one.
#[inline(always)]
fn value_of(wire: u32, values: &[F]) -> F
    requires { wire < length values.now }
    ensures { result ≡ slice_index values.now wire }
{
    values[wire as usize]
}

/// Adds the value of the term at a place, and returns whether it is as it should be. Where `PASS`
/// there are no values: each counts as 0, and nothing is multiplied; else each wire has one.
#[inline(always)]
pub(crate) fn add_term<const PASS: bool>(
    window: &Window,
    bounds: &Bounds,
    at: u64,
    values: &[F],
    sum: &mut Sum,
) -> bool
    requires held { Holds window.now at 12 }
    requires within { at + 12 ≤ bounds.now.end }
    requires small { sum.old < 2 ^ 150 }
    requires values { AreValues PASS bounds.now.wires values.now }
    ensures same { OnFalse result (sum.new ≡ sum.old) }
    ensures small { sum.new ≤ sum.old + 2 ^ 128 }
    ensures adds { OnTrue result (Adds window.now bounds.now values.now at 1
        sum.old sum.new) }
{
    let Some(term) = held_term(window, bounds, at) else {
        return false;
    };
    let (wire, coefficient) = term;
    if PASS {
        return true;
    }
    sum.add(coefficient, value_of(wire, values));
    true
}

/// Adds the values of the terms from a place on, up to the first that isn't as it should be, and
/// returns how many were added; `PASS` is as for `add_term`.
#[inline(always)]
pub(crate) fn add_terms<const PASS: bool>(
    window: &Window,
    bounds: &Bounds,
    at: u64,
    count: u32,
    values: &[F],
    sum: &mut Sum,
) -> u32
    requires held { Holds window.now at (12 * count) }
    requires within { at + 12 * count ≤ bounds.now.end }
    requires small { sum.old + count * 2 ^ 128 ≤ 2 ^ 150 }
    requires values { AreValues PASS bounds.now.wires values.now }
    ensures most { result ≤ count }
    ensures small { sum.new ≤ sum.old + result * 2 ^ 128 }
    ensures adds { Adds window.now bounds.now values.now at result sum.old sum.new }
{
    let mut at = at;
    for good in 0..count {
        if !add_term::<PASS>(window, bounds, at, values, sum) {
            return good;
        }
        at += TERM_BYTES;
    }
    count
}

/// Like `add_terms`, for any values: none is added where some wires have one and others none. It
/// isn't inlined, and takes the sum by value, so that its loops have all registers, and nothing
/// that they write can be what they read.
#[inline(never)]
#[tactic(auto, using(crate::proofs::Sums::adds_none))]
pub(crate) fn add_far(
    window: &Window,
    bounds: &Bounds,
    at: u64,
    count: u32,
    values: &[F],
    sum: Sum,
) -> (u32, Sum)
    requires held { Holds window.now at (12 * count) }
    requires within { at + 12 * count ≤ bounds.now.end }
    requires small { sum + count * 2 ^ 128 ≤ 2 ^ 150 }
    ensures most { result.0 ≤ count }
    ensures small { result.1 ≤ sum + result.0 * 2 ^ 128 }
    ensures adds { Adds window.now bounds.now values.now at result.0 sum result.1 }
{
    let mut sum = sum;
    let good = if values.is_empty() {
        add_terms::<true>(window, bounds, at, count, values, &mut sum)
    } else if values.len() >= bounds.wires as usize {
        add_terms::<false>(window, bounds, at, count, values, &mut sum)
    } else {
        0
    };
    (good, sum)
}
