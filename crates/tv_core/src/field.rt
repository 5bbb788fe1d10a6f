//! The field of P = 2^64 - 2^32 + 1.
ghost use Rattle.std.specs.Prelude.{◌≡◌, ℕ, ◌+◌, ◌-◌, ◌*◌, ◌%◌, ◌^◌, ◌<◌, ◌≤◌, ◌↔◌, IsNone, IfSome};
ghost use Rattle.std.specs.Prelude.{if◌then◌else◌};
ghost use Rattle.tv_core.specs.declared.field.TheConstants.{P};

use std::marker::Model;
use std::ops::{Add, Mul, Neg, Sub};

/// The prime of the field, 2^64 - 2^32 + 1.
pub const P: u64 = 18_446_744_069_414_584_321;

/// A field element, an integer modulo `P`. Contracts see it as the number below `P`.
///
/// Every operation is exact and takes no memory. A multiplication costs one 64 by 64 bit product
/// and a few additions, without a division.
#[derive(Clone, Copy, PartialEq, Eq, Debug, Default)]
pub struct F {
    word: u64,
}

impl Model for F {
    ghost Value = { ℕ };

    ghost view = { λ f. f.word };

    ghost invariant = { λ f. f.word < P };

    ghost inverse = { λ n. record { word = n } };
}

// Returns 2^128 `upper` + `low` modulo `P`, not yet reduced below it, and whether 2^64 is to be
// added to that number; together they are below 2 `P`.
#[inline(always)]
fn folded(low: u128, upper: u64) -> (u64, bool)
    requires { upper < 2 ^ 31 }
    ensures residue { (result.0 + (if result.1 then 2 ^ 64 else 0)) % P
        ≡ (low + 2 ^ 128 * upper) % P }
    ensures small { result.0 + (if result.1 then 2 ^ 64 else 0) < 2 * P }
{
    // Modulo P, 2^64 is 2^32 - 1, and so 2^96 is -1: with the number as
    // low + 2^64 middle + 2^96 top, in parts of 64, 32 and 63 bits, it is
    // low - top + (2^32 - 1) middle.
    let high = (low >> 64) as u64;
    let low = (low % 18_446_744_073_709_551_616) as u64;
    let middle = high % 4_294_967_296;
    let top = (upper << 32) + (high >> 32);
    let (difference, borrow) = low.overflowing_sub(top);
    let start = if borrow {
        difference.wrapping_add(P)
    } else {
        difference
    };
    start.overflowing_add((middle << 32) - middle)
}

impl F {
    /// The field's 0.
    pub const ZERO: F = F { word: 0 };

    /// The field's 1.
    pub const ONE: F = F { word: 1 };

    /// Returns the residue of a number modulo `P`.
    pub fn of(number: u64) -> F
        ensures { result ≡ number % P }
    {
        F {
            word: if number >= P { number - P } else { number },
        }
    }

    /// Returns the element that a number below `P` writes; from `P` up there is none.
    pub fn canon(number: u64) -> Option<F>
        ensures none { IsNone result ↔ (P ≤ number) }
        ensures some { IfSome result (λ f. f ≡ number) }
    {
        if number < P {
            Some(F { word: number })
        } else {
            None
        }
    }

    /// Returns the residue of 2^128 `upper` + `low` modulo `P`, `upper` being below 2^31. It takes
    /// no division.
    #[inline(always)]
    pub fn of_wide(low: u128, upper: u64) -> F
        requires { upper < 2 ^ 31 }
        ensures { result ≡ (low + 2 ^ 128 * upper) % P }
    {
        let (sum, carry) = folded(low, upper);
        F {
            word: if carry || sum >= P {
                sum.wrapping_sub(P)
            } else {
                sum
            },
        }
    }

    /// Returns a number of that residue, which may be `P` or more: `of_wide` without its last
    /// comparison.
    #[inline(always)]
    pub fn noncanonical(low: u128, upper: u64) -> u64
        requires { upper < 2 ^ 31 }
        ensures { result % P ≡ (low + 2 ^ 128 * upper) % P }
    {
        let (sum, carry) = folded(low, upper);
        if carry { sum.wrapping_sub(P) } else { sum }
    }

    /// Returns the element as a number.
    pub fn number(self) -> u64
        ensures same { result ≡ self }
        ensures below { result < P }
    {
        self.word
    }

    /// Returns the sum.
    pub fn add(self, other: F) -> F
        ensures { result ≡ (self + other) % P }
    {
        let (sum, carry) = self.word.overflowing_add(other.word);
        F {
            word: if carry || sum >= P {
                sum.wrapping_sub(P)
            } else {
                sum
            },
        }
    }

    /// Returns the difference.
    pub fn sub(self, other: F) -> F
        ensures { result ≡ (self + (P - other)) % P }
    {
        let (difference, borrow) = self.word.overflowing_sub(other.word);
        F {
            word: if borrow {
                difference.wrapping_add(P)
            } else {
                difference
            },
        }
    }

    /// Returns the additive inverse, 0 for 0.
    pub fn neg(self) -> F
        ensures { result ≡ (P - self) % P }
    {
        F {
            word: if self.word == 0 { 0 } else { P - self.word },
        }
    }

    /// Returns the product.
    pub fn mul(self, other: F) -> F
        ensures { result ≡ (self * other) % P }
    {
        F::of_wide(self.word as u128 * other.word as u128, 0)
    }
}

impl Add for F {
    type Output = F;

    ghost add_gives = { λ x y sum. sum ≡ (x + y) % P };

    fn add(self, other: F) -> F {
        F::add(self, other)
    }
}

impl Sub for F {
    type Output = F;

    ghost sub_gives = { λ x y difference. difference ≡ (x + (P - y)) % P };

    fn sub(self, other: F) -> F {
        F::sub(self, other)
    }
}

impl Mul for F {
    type Output = F;

    ghost mul_gives = { λ x y product. product ≡ (x * y) % P };

    fn mul(self, other: F) -> F {
        F::mul(self, other)
    }
}

impl Neg for F {
    type Output = F;

    ghost neg_gives = { λ x negated. negated ≡ (P - x) % P };

    fn neg(self) -> F {
        F::neg(self)
    }
}
