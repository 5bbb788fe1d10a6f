//! The quantities among the words, each within its limits.
ghost use Rattle.std.specs.Prelude.{◌≡◌, ◌≤◌, true, false, MatchResult};
ghost use Rattle.tv_plan.specs.declared.refusal.Refusal.TheVariants.{Limit};
ghost use Rattle.tv_plan.specs.Plan.{is_out};

use crate::refusal::{Refusal, What};
use std::marker::Model;
use tv_core::limits::{DRAWS, STEPS, TAPE_WORDS};

/// A number from `LEAST` to `MOST`. Contracts see it as the number.
#[derive(Drop)]
pub struct Limited<const LEAST: u32, const MOST: u32> {
    number: u32,
}

/// How many words a primary tape has.
pub type TapeWords = Limited<0, TAPE_WORDS>;

/// The most steps of a run.
pub type Steps = Limited<1, STEPS>;

/// How many instructions are drawn.
pub type Draws = Limited<1, DRAWS>;

impl<const LEAST: u32, const MOST: u32> Model for Limited<LEAST, MOST> {
    ghost use Rattle.std.specs.Prelude.{ℕ, ◌≤◌};

    ghost Value = { ℕ };

    ghost view = { λ l. l.number };

    ghost invariant = { λ l. (LEAST ≤ l.number) × (l.number ≤ MOST) };

    ghost inverse = { λ n. record { number = n } };
}

impl<const LEAST: u32, const MOST: u32> Limited<LEAST, MOST> {
    /// The quantity that a word is, unless it passes its limit or doesn't reach the least.
    pub fn of(what: What, has: u64) -> Result<Limited<LEAST, MOST>, Refusal>
        ensures { let out = is_out
            (record { what = what; has = has; least = LEAST; most = MOST }) in
            MatchResult result (λ number. (number ≡ has) × (out ≡ false))
            (λ why. (why ≡ Limit what has MOST) × (out ≡ true)) }
    {
        if has < u64::from(LEAST) || u64::from(MOST) < has {
            return Err(Refusal::Limit {
                what,
                has,
                most: u64::from(MOST),
            });
        }
        Ok(Limited { number: has as u32 })
    }

    /// The number.
    pub fn number(&self) -> u32
        ensures number { result ≡ self.now }
        ensures least { LEAST ≤ self.now }
        ensures most { self.now ≤ MOST }
    {
        self.number
    }
}
