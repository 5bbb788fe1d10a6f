//! Sums of products, reduced once.

ghost use Rattle.std.specs.Prelude.{◌≡◌, ◌+◌, ◌-◌, ◌*◌, ◌%◌, ◌^◌, ◌<◌};
ghost use Rattle.tv_core.specs.declared.field.TheConstants.{P};

use std::marker::Model;
use tv_core::F;

/// A sum of products that isn't reduced: multiples of 2^128 are counted apart. Contracts see it as
/// the number.
#[derive(Drop)]
pub(crate) struct Sum {
    low: u128,
    carries: u64,
}

impl Model for Sum {
    ghost use Rattle.std.specs.Prelude.{ℕ, ◌+◌, ◌*◌, ◌^◌};

    ghost Value = { ℕ };

    ghost view = { λ s. s.low + 2 ^ 128 * s.carries };
}

impl Sum {
    /// Nothing was added.
    #[inline(always)]
    pub(crate) fn new() -> Sum
        ensures { result ≡ 0 }
    {
        Sum { low: 0, carries: 0 }
    }

    /// 2^128 - 1 less a product: what is added to it makes 2^128 - 1 again, modulo P, where it is
    /// the product.
    #[inline(always)]
    pub(crate) fn without(x: u64, y: u64) -> Sum
        ensures { result + x * y ≡ 2 ^ 128 - 1 }
    {
        Sum {
            low: u128::MAX - x as u128 * y as u128,
            carries: 0,
        }
    }

    /// Adds a product.
    #[inline(always)]
    pub(crate) fn add(&mut self, x: F, y: F)
        requires { self.old < 2 ^ 150 }
        ensures sum { self.new ≡ self.old + x * y }
        ensures small { self.new < self.old + 2 ^ 128 }
    {
        let product = x.number() as u128 * y.number() as u128;
        let (sum, carry) = self.low.overflowing_add(product);
        self.low = sum;
        self.carries += u64::from(carry);
    }

    /// Returns the sum modulo P.
    #[inline(always)]
    pub(crate) fn value(self) -> F
        requires { self < 2 ^ 151 }
        ensures { result ≡ self % P }
    {
        F::of_wide(self.low, self.carries)
    }

    /// Returns a number that is the sum modulo P, and may be P or more.
    #[inline(always)]
    pub(crate) fn residue(self) -> u64
        requires { self < 2 ^ 151 }
        ensures { result % P ≡ self % P }
    {
        F::noncanonical(self.low, self.carries)
    }
}
