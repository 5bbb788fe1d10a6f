//! A count of terms, a term, or a combination, at a place of section 2.

ghost use Rattle.std.specs.Prelude.{◌≡◌, ℕ, ◌+◌, ◌*◌, ◌≤◌, ◌<◌, ◌^◌, List, [], ◌∷◌, ◌++◌, length};
ghost use Rattle.std.specs.Prelude.{Ok, OnOk, OnErr, IfOk, IfSome, Bool, true};
ghost use Rattle.tv_container.specs.Places.{fit, places};
ghost use Rattle.tv_container.specs.Reading.{ReadsAs, ReadsAsBy, Holds, IsPiece, ReadsIn};
ghost use Rattle.tv_container.specs.Reading.{ReadsInBy};
ghost use Rattle.tv_r1cs_read.specs.R1cs.{combination_at, count_at, term_at};
ghost use Rattle.tv_r1cs_read.specs.Rows.{combination_read, IsTaken, HasTerms};

use std::alloc::AllocFailed;
use tv_container::{ReadRefusal, ReadWhy, Window};
use tv_core::F;
use tv_files::Files;

/// The most terms of a combination.
pub(crate) const WIDEST: u32 = 1_048_576;

/// The bytes of a term: four of the wire, eight of the coefficient.
pub const TERM_BYTES: u64 = 12;

/// What bounds the terms: each wire is below `wires`, and section 2 ends at `end`.
#[derive(Clone, Copy)]
pub(crate) struct Bounds {
    pub(crate) wires: u32,
    pub(crate) end: u64,
}

// Reads on to a place until the window holds this many bytes there; bytes that pass the end of
// section 2 are `Truncated` at the place. What is at hand costs no call: reading a count or a term
// takes less time than a call.
#[inline(always)]
fn fit_below<D: Files>(
    files: &mut D,
    name: &str,
    window: &mut Window,
    bounds: &Bounds,
    at: u64,
    size: usize,
) -> Result<(), ReadRefusal>
    requires some { 0 < size }
    requires small { size ≤ 4096 }
    requires before { at ≤ bounds.now.end }
    ensures held { OnOk result (Holds window.new at size) }
    ensures within { OnOk result (at + size ≤ bounds.now.end) }
    ensures place { OnOk result (at + size < 2 ^ 64) }
    ensures reads { ReadsIn (D.seen files.old) (D.seen files.new) name.now window.old window.new
        result
        (λ file. bounds.now.end ≤ places file → ReadsAs result (fit size at bounds.now.end)) }
{
    if bounds.end - at < size as u64 {
        return Err(ReadRefusal::Bad {
            at,
            why: ReadWhy::Truncated,
        });
    }
    if window.holds(at, size) {
        return Ok(());
    }
    window.fit(files, name, at, size)
}

/// Reads how many terms the combination at a place has.
#[inline(always)]
#[tactic(auto, unfolding(crate::specs::R1cs::count_at))]
pub(crate) fn read_count<D: Files>(
    files: &mut D,
    name: &str,
    window: &mut Window,
    bounds: &Bounds,
    at: u64,
) -> Result<u32, ReadRefusal>
    requires { at ≤ bounds.now.end }
    ensures narrow { IfOk result (λ count. count ≤ WIDEST) }
    ensures within { OnOk result (at + 4 ≤ bounds.now.end) }
    ensures place { OnOk result (at + 4 < 2 ^ 64) }
    ensures reads { ReadsIn (D.seen files.old) (D.seen files.new) name.now window.old window.new
        result
        (λ file. bounds.now.end ≤ places file → ReadsAs result (count_at file bounds.now.end at)) }
{
    fit_below(files, name, window, bounds, at, 4)?;
    let terms = window.word(at);
    if terms > WIDEST {
        return Err(ReadRefusal::Bad {
            at,
            why: ReadWhy::TooWide { terms },
        });
    }
    Ok(terms)
}

/// Reads the term at a place: its wire, and its coefficient.
#[inline(always)]
#[tactic(auto, unfolding(crate::specs::R1cs::term_at))]
pub(crate) fn read_term<D: Files>(
    files: &mut D,
    name: &str,
    window: &mut Window,
    bounds: &Bounds,
    at: u64,
) -> Result<(u32, F), ReadRefusal>
    requires { at ≤ bounds.now.end }
    ensures held { OnOk result (Holds window.new at 12) }
    ensures within { OnOk result (at + 12 ≤ bounds.now.end) }
    ensures wire { IfOk result (λ term. term.0 < bounds.now.wires) }
    ensures reads { ReadsIn (D.seen files.old) (D.seen files.new) name.now window.old window.new
        result
        (λ file. bounds.now.end ≤ places file → ReadsAsBy result (λ term. (term.1, term.0))
        (term_at file bounds.now.wires bounds.now.end at)) }
{
    fit_below(files, name, window, bounds, at, TERM_BYTES as usize)?;
    let wire = window.word(at);
    if wire >= bounds.wires {
        return Err(ReadRefusal::Bad {
            at,
            why: ReadWhy::WireRange {
                wire,
                wires: bounds.wires,
            },
        });
    }
    let Some(coefficient) = F::canon(window.long(at + 4)) else {
        return Err(ReadRefusal::Bad {
            at: at + 4,
            why: ReadWhy::NotCanonical,
        });
    };
    Ok((wire, coefficient))
}

/// Returns the term at a place, which the window holds: its wire, and its coefficient; `None` where
/// one of them isn't as it should be.
#[inline(always)]
pub(crate) fn held_term(window: &Window, bounds: &Bounds, at: u64) -> Option<(u32, F)>
    requires held { Holds window.now at 12 }
    requires within { at + 12 ≤ bounds.now.end }
    ensures wire { IfSome result (λ term. term.0 < bounds.now.wires) }
    ensures gives { (file : List ℕ) → IsPiece window.now file → IfSome result
        (λ term. term_at file bounds.now.wires bounds.now.end at ≡ Ok (term.1, term.0)) }
{
    let wire = window.word(at);
    if wire >= bounds.wires {
        return None;
    }
    let coefficient = F::canon(window.long(at + 4))?;
    Some((wire, coefficient))
}

/// What takes the terms of a combination as they are read: it keeps them, or sums them under the
/// values of the wires, which it needs only then.
pub(crate) trait Taker {
    // it keeps them, which takes memory
    ghost keeps: { Bool };

    // under these values it took these terms, in order
    ghost Took: { Self → List ℕ → List (ℕ × ℕ) → Type 0 };

    /// Takes the term at a place, a wire and its coefficient, of `left` that are left, and returns
    /// how many it took after it, of those that the window holds.
    fn take(
        &mut self,
        window: &Window,
        bounds: &Bounds,
        at: u64,
        left: u32,
        term: (u32, F),
        values: &[F],
    ) -> Result<u32, AllocFailed<(u32, F)>>
        requires held { Holds window.now at 12 }
        requires within { at + 12 ≤ bounds.now.end }
        requires some { 0 < left }
        requires room { (before : List (ℕ × ℕ)) × Took self.old values.now before
            × (length before + left ≤ WIDEST) }
        ensures memory { OnErr result (keeps ≡ true) }
        ensures fewer { IfOk result (λ more. more < left) }
        ensures within { IfOk result (λ more. at + 12 + 12 * more ≤ bounds.now.end) }
        ensures took { (before : List (ℕ × ℕ)) → Took self.old values.now before → IfOk result
            (λ more. HasTerms window.now bounds.now (at + 12) more
            (λ terms. Took self.new values.now (before ++ term ∷ terms))) };
}

/// Reads the combination at a place, of which the window needn't hold anything, and returns the
/// place after it. The taker, which took nothing before, takes its terms.
#[inline(always)]
#[tactic(auto, unfolding(crate::specs::R1cs::combination_at))]
pub(crate) fn read_far<D: Files, T: Taker>(
    files: &mut D,
    name: &str,
    window: &mut Window,
    bounds: &Bounds,
    at: u64,
    values: &[F],
    taker: &mut T,
) -> Result<u64, ReadRefusal>
    requires within { at ≤ bounds.now.end }
    requires none { T.Took taker.old values.now [] }
    ensures within { IfOk result (λ next. next ≤ bounds.now.end) }
    ensures reads { (terms : List (ℕ × ℕ))
        × IfOk result (IsTaken (T.Took taker.new values.now) bounds.now.wires (at + 4) terms)
        × ReadsInBy T.keeps (D.seen files.old) (D.seen files.new) name.now window.old window.new
        result (λ file. bounds.now.end ≤ places file → ReadsAsBy result (combination_read terms)
        (combination_at file bounds.now.wires bounds.now.end at)) }
{
    let count = read_count(files, name, window, bounds, at)?;
    let mut at = at + 4;
    let mut left = count;
    while left > 0 {
        let term = read_term(files, name, window, bounds, at)?;
        let more = taker.take(window, bounds, at, left, term, values)?;
        at += TERM_BYTES * u64::from(1 + more);
        left -= 1 + more;
    }
    Ok(at)
}
