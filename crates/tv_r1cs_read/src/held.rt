//! How much of a constraint the window holds.

ghost use Rattle.std.specs.Prelude.{◌≡◌, ◌+◌, ◌-◌, ◌*◌, ◌≤◌, ◌<◌, IfSome, true, ◌↔◌};
ghost use Rattle.tv_container.specs.Reading.{Holds};
ghost use Rattle.tv_r1cs_read.specs.Held.{IsHeld};

use crate::terms::{Bounds, TERM_BYTES};
use tv_container::Window;

/// A place, and the one up to which the window holds the bytes from there on, at most 65,536: so
/// few that no combination among them is too wide.
#[derive(Clone, Copy)]
pub(crate) struct Held {
    pub(crate) from: u64,
    pub(crate) to: u64,
}

/// Returns what the window holds from a place on, at most up to the end of section 2.
#[inline(always)]
pub(crate) fn held_from(window: &Window, bounds: &Bounds, at: u64) -> Held
    requires { at ≤ bounds.now.end }
    ensures from { result.from ≡ at }
    ensures held { IsHeld window.now bounds.now.end result }
{
    if !window.holds(at, 0) {
        return Held { from: at, to: at };
    }
    let held = window.bytes_from(at).len() as u64;
    Held {
        from: at,
        to: at + held.min(bounds.end - at),
    }
}

impl Held {
    /// Returns whether this many bytes are held.
    #[inline(always)]
    pub(crate) fn has(self, size: u64) -> bool
        requires { self.from ≤ self.to }
        ensures { (result ≡ true) ↔ (self.from + size ≤ self.to) }
    {
        self.to - self.from >= size
    }

    // Returns how many terms the combination at the place has; `None` where the window doesn't hold
    // all of it.
    #[inline(always)]
    fn terms(self, window: &Window) -> Option<u32>
        requires before { self.from ≤ self.to }
        requires short { self.to ≤ self.from + 65536 }
        requires holds { self.from < self.to → Holds window.now self.from (self.to - self.from) }
        ensures within { IfSome result (λ terms. self.from + 4 + 12 * terms ≤ self.to) }
    {
        if !self.has(4) {
            return None;
        }
        let terms = window.word(self.from);
        self.has(4 + TERM_BYTES * u64::from(terms)).then_some(terms)
    }

    /// Returns what is held after the combination at the place, of this many terms.
    #[inline(always)]
    pub(crate) fn remainder(self, terms: u32) -> Held
        requires { self.from + 4 + 12 * terms ≤ self.to }
        ensures from { result.from ≡ self.from + 4 + 12 * terms }
        ensures to { result.to ≡ self.to }
    {
        Held {
            from: self.from + 4 + TERM_BYTES * u64::from(terms),
            to: self.to,
        }
    }

    /// Returns whether the window holds all of the two combinations at the place.
    #[cold]
    #[inline(never)]
    pub(crate) fn has_two(self, window: &Window) -> bool
        requires before { self.from ≤ self.to }
        requires short { self.to ≤ self.from + 65536 }
        requires holds { self.from < self.to → Holds window.now self.from (self.to - self.from) }
    {
        match self.terms(window) {
            Some(terms) => self.remainder(terms).terms(window).is_some(),
            None => false,
        }
    }
}
