//! Wires that follow each other, as the bits of a number.
ghost use Rattle.std.specs.Prelude.{◌≡◌, ◌+◌, ◌-◌, ◌≤◌, ◌<◌, ◌^◌, ◌++◌, length, max};
ghost use Rattle.tv_bits.specs.Bits.{bits_combination, part};
ghost use Rattle.tv_core.specs.Combinations.{constant, scaled, top};

use tv_core::{F, Lc, Wire};

/// Wires that follow each other, as the bits of a number, lowest first. Contracts see the two
/// numbers.
#[derive(Clone, Copy, PartialEq, Eq, Debug)]
pub struct Bits {
    /// The wire of the lowest bit.
    pub first: Wire,
    /// How many bits there are.
    pub n: u32,
}

impl Bits {
    /// Returns the number whose bits they are, as a combination of `n` terms, at most 63.
    pub fn lc(&self) -> Lc
        requires short { self.now.n ≤ 63 }
        requires within { self.now.first + self.now.n < 2 ^ 32 }
        ensures terms { result ≡ bits_combination self.now.first self.now.n }
        ensures top { top result ≤ self.now.first + self.now.n }
        ensures len { length result ≡ self.now.n }
    {
        let mut lc = Lc::empty();
        self.set_number(&mut lc);
        lc
    }

    /// Makes `lc` the number whose bits they are, as `n` terms, at most 63.
    pub fn set_number(&self, lc: &mut Lc)
        requires short { self.now.n ≤ 63 }
        requires within { self.now.first + self.now.n < 2 ^ 32 }
        ensures terms { lc.new ≡ bits_combination self.now.first self.now.n }
        ensures top { top lc.new ≤ self.now.first + self.now.n }
        ensures len { length lc.new ≡ self.now.n }
    {
        lc.clear();
        self.plus_to(lc, F::ONE);
    }

    /// Appends `factor` times the number whose bits they are, as `n` terms, at most 63.
    pub fn plus_to(&self, lc: &mut Lc, factor: F)
        requires short { self.now.n ≤ 63 }
        requires within { self.now.first + self.now.n < 2 ^ 32 }
        requires room { length lc.old + self.now.n ≤ 128 }
        ensures terms { lc.new ≡ lc.old ++ scaled factor
            (bits_combination self.now.first self.now.n) }
        ensures top { top lc.new ≤ max (top lc.old) (self.now.first + self.now.n) }
        ensures len { length lc.new ≡ length lc.old + self.now.n }
    {
        let Bits { first, n } = *self;
        let mut coefficient = factor;
        for i in 0..n {
            lc.plus(coefficient, first.offset(i));
            coefficient = coefficient + coefficient;
        }
    }

    /// Returns one more than the number whose bits they are, as a combination of `n + 1` terms; `n`
    /// is at most 63.
    pub fn plus_one(&self) -> Lc
        requires short { self.now.n ≤ 63 }
        requires within { self.now.first + self.now.n < 2 ^ 32 }
        ensures terms { result ≡ bits_combination self.now.first self.now.n ++ constant 1 }
        ensures top { top result ≤ max 1 (self.now.first + self.now.n) }
        ensures len { length result ≡ self.now.n + 1 }
    {
        let mut lc = self.lc();
        lc.plus(F::ONE, Wire(0));
        lc
    }

    /// Returns the bits from place `from` on, as bits of their own: those of the number divided by
    /// 2^`from`.
    pub fn above(&self, from: u32) -> Bits
        requires enough { from ≤ self.now.n }
        requires within { self.now.first + self.now.n < 2 ^ 32 }
        ensures first { result.first ≡ self.now.first + from }
        ensures n { result.n ≡ self.now.n - from }
    {
        self.part(from, self.n - from)
    }

    /// Returns `n` of the bits, from place `low` on, as bits of their own: those of the remainder
    /// by 2^`n` of the number divided by 2^`low`.
    pub fn part(&self, low: u32, n: u32) -> Bits
        requires enough { low + n ≤ self.now.n }
        requires within { self.now.first + self.now.n < 2 ^ 32 }
        ensures { result ≡ part self.now low n }
    {
        Bits {
            first: self.first.offset(low),
            n,
        }
    }
}
