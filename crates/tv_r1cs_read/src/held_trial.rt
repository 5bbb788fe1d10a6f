//! A constraint tried straight from the bytes that the window holds.

ghost use Rattle.std.specs.Prelude.{◌≡◌, ℕ, ◌+◌, ◌*◌, ◌≤◌, ◌<◌, ◌^◌, List, IfSome};
ghost use Rattle.tv_container.specs.Reading.{IsPiece};
ghost use Rattle.tv_r1cs_read.specs.Held.{IsHeld};
ghost use Rattle.tv_r1cs_read.specs.R1cs.{combination_at, constraint_at};
ghost use Rattle.tv_r1cs_read.specs.Sums.{AreValues, SumsTo, IsTried};

use crate::addition::{add_term, add_terms};
use crate::far_trial::Tried;
use crate::held::Held;
use crate::sum::Sum;
use crate::terms::{Bounds, TERM_BYTES};
use tv_container::Window;
use tv_core::F;

/// Up to how many terms a combination isn't wide.
const NARROW: u32 = 16;

/// A combination that was added to a sum: the sum then, and what the window holds after it.
#[derive(Drop)]
struct Summed {
    sum: Sum,
    remainder: Held,
}

/// Tries the constraint at a place under an assignment; `None` where the window doesn't hold all of
/// it, or it isn't as it should be. Where `PASS` there are no values: each counts as 0, and nothing
/// is multiplied; else each wire has one.
///
/// The sum of the product's terms begins at 2^128 - 1 less the product, which spares a reduction.
#[inline(always)]
#[tactic(auto, unfolding(crate::specs::R1cs::constraint_at))]
pub(crate) fn try_held<const PASS: bool>(
    window: &Window,
    bounds: &Bounds,
    held: Held,
    values: &[F],
) -> Option<Tried>
    requires held { IsHeld window.now bounds.now.end held }
    requires values { AreValues PASS bounds.now.wires values.now }
    ensures within { IfSome result (λ tried. tried.next ≤ held.to) }
    ensures after { IfSome result (λ tried. held.from + 12 ≤ tried.next) }
    ensures gives { (file : List ℕ) → IsPiece window.now file → IfSome result
        (λ tried. IsTried (constraint_at file bounds.now.wires bounds.now.end held.from) values.now
        tried.holds held.from tried.next) }
{
    let a = sum_held::<PASS, true>(window, bounds, held, values, Sum::new())?;
    let b = sum_held::<PASS, false>(window, bounds, a.remainder, values, Sum::new())?;
    let rest = Sum::without(a.sum.residue(), b.sum.residue());
    let c = sum_held::<PASS, false>(window, bounds, b.remainder, values, rest)?;
    Some(Tried {
        holds: c.sum.value() == Sum::without(0, 0).value(),
        next: c.remainder.from,
    })
}

// Adds the combination at a place to a sum; `None` where the window doesn't hold all of it, or less
// than one of one term would take, or it isn't as it should be. Many have one term, without a loop.
// Where `FIRST`, a wide one is left unless the window holds two others after it: its terms would be
// added in vain.
#[inline(always)]
fn sum_held<const PASS: bool, const FIRST: bool>(
    window: &Window,
    bounds: &Bounds,
    held: Held,
    values: &[F],
    sum: Sum,
) -> Option<Summed>
    requires held { IsHeld window.now bounds.now.end held }
    requires small { sum < 2 ^ 128 }
    requires values { AreValues PASS bounds.now.wires values.now }
    ensures held { IfSome result (λ summed. IsHeld window.now bounds.now.end summed.remainder) }
    ensures ends { IfSome result (λ summed. summed.remainder.to ≡ held.to) }
    ensures after { IfSome result (λ summed. held.from + 4 ≤ summed.remainder.from) }
    ensures small { IfSome result (λ summed. summed.sum < 2 ^ 151) }
    ensures gives { (file : List ℕ) → IsPiece window.now file → IfSome result
        (λ summed. SumsTo (combination_at file bounds.now.wires bounds.now.end held.from)
        values.now sum summed.sum held.from summed.remainder.from) }
{
    if !held.has(4 + TERM_BYTES) {
        return None;
    }
    let terms = window.word(held.from);
    let mut sum = sum;
    if terms == 1 {
        if !add_term::<PASS>(window, bounds, held.from + 4, values, &mut sum) {
            return None;
        }
        return Some(Summed {
            sum,
            remainder: held.remainder(1),
        });
    }
    if !held.has(4 + TERM_BYTES * u64::from(terms)) {
        return None;
    }
    let remainder = held.remainder(terms);
    if FIRST && terms > NARROW && !remainder.has_two(window) {
        return None;
    }
    if add_terms::<PASS>(window, bounds, held.from + 4, terms, values, &mut sum) < terms {
        return None;
    }
    Some(Summed { sum, remainder })
}
