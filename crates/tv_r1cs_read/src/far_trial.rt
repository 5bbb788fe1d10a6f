//! A constraint tried as it is read, a piece of a combination at a time, with no term kept.

ghost use Rattle.std.specs.Prelude.{◌≡◌, ◌+◌, ◌*◌, ◌≤◌, false, IfOk, MatchResult, slice_index};
ghost use Rattle.tv_container.specs.Places.{places};
ghost use Rattle.tv_container.specs.Reading.{ReadsIn, Refuses};
ghost use Rattle.tv_r1cs_read.specs.R1cs.{constraint_at};
ghost use Rattle.tv_r1cs_read.specs.Sums.{IsSum, IsTried};

use crate::addition::add_far;
use crate::sum::Sum;
use crate::terms::{Bounds, TERM_BYTES, Taker, read_far};
use std::alloc::AllocFailed;
use std::mem;
use tv_container::{ReadRefusal, Window};
use tv_core::F;
use tv_files::Files;

/// A constraint that was read: whether it holds under an assignment, and the place after it.
#[derive(Drop)]
pub(crate) struct Tried {
    pub(crate) holds: bool,
    pub(crate) next: u64,
}

/// Reads the constraint at a place, and tries it under an assignment.
#[tactic(auto, unfolding(crate::specs::R1cs::constraint_at))]
pub(crate) fn try_far<D: Files>(
    files: &mut D,
    name: &str,
    window: &mut Window,
    bounds: &Bounds,
    at: u64,
    values: &[F],
) -> Result<Tried, ReadRefusal>
    requires { at ≤ bounds.now.end }
    ensures within { IfOk result (λ tried. tried.next ≤ bounds.now.end) }
    ensures after { IfOk result (λ tried. at + 12 ≤ tried.next) }
    ensures reads { ReadsIn (D.seen files.old) (D.seen files.new) name.now window.old window.new
        result
        (λ file. bounds.now.end ≤ places file → MatchResult result
        (λ tried. IsTried (constraint_at file bounds.now.wires bounds.now.end at) values.now
        tried.holds at tried.next)
        (λ why. Refuses why (constraint_at file bounds.now.wires bounds.now.end at))) }
{
    let mut a = Sum::new();
    let next = read_far(files, name, window, bounds, at, values, &mut a)?;
    let mut b = Sum::new();
    let next = read_far(files, name, window, bounds, next, values, &mut b)?;
    let mut c = Sum::new();
    let next = read_far(files, name, window, bounds, next, values, &mut c)?;
    Ok(Tried {
        holds: a.value() * b.value() == c.value(),
        next,
    })
}

// The value of a wire, where one past the end counts as 0.
fn value_at(wire: u32, values: &[F]) -> F
    ensures { result ≡ slice_index values.now wire }
{
    match values.get(wire as usize) {
        Some(value) => *value,
        None => F::ZERO,
    }
}

impl Taker for Sum {
    ghost keeps = { false };

    ghost Took = { λ sum z terms. IsSum z sum terms };

    // After the term, as many as the window holds are summed at once, up to the first that isn't as
    // it should be.
    #[inline(always)]
    fn take(
        &mut self,
        window: &Window,
        bounds: &Bounds,
        at: u64,
        left: u32,
        term: (u32, F),
        values: &[F],
    ) -> Result<u32, AllocFailed<(u32, F)>> {
        let mut sum = mem::replace(self, Sum::new());
        sum.add(term.1, value_at(term.0, values));
        let end = bounds.end;
        let some = (left - 1).min(window.whole_terms(at, end) - 1);
        let (good, sum) = add_far(window, bounds, at + TERM_BYTES, some, values, sum);
        *self = sum;
        Ok(good)
    }
}
