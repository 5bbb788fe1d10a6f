//! Linear combinations of wires.
ghost use Rattle.std.specs.Prelude.{◌≡◌, ℕ, ◌+◌, ◌*◌, ◌%◌, ◌<◌, ◌≤◌, List, [], ◌∷◌, ◌++◌, length, max};
ghost use Rattle.tv_core.specs.Constraints.{value};
ghost use Rattle.tv_core.specs.Combinations.{wire, constant, scaled, less, top};
ghost use Rattle.tv_core.specs.declared.field.TheConstants.{P};
ghost use Rattle.tv_core.specs.Normal.{normal, place, IsNormal};

use crate::field::F;
use crate::wire::Wire;
use arrayvec::ArrayVec;
use std::marker::Model;

/// The most terms that an `Lc` has room for.
pub const TERMS: usize = 128;

/// A linear combination of wires. Contracts see it as the list of its terms, each a coefficient and
/// a wire, of which it has at most `TERMS`.
///
/// The terms are stored in the value itself, about 2 KB: pass it by reference.
#[derive(Drop)]
pub struct Lc {
    terms: ArrayVec<(F, Wire), TERMS>,
}

impl Model for Lc {
    ghost Value = { List (ℕ × ℕ) };

    ghost view = { λ l. l.terms.items };

    ghost invariant = { λ l. length l.terms.items ≤ 128 };
}

impl Lc {
    /// The combination without terms.
    pub fn empty() -> Lc
        ensures { result ≡ [] }
    {
        Lc {
            terms: ArrayVec::new(),
        }
    }

    /// A number, as that multiple of the constant wire.
    pub fn constant(number: F) -> Lc
        ensures { result ≡ constant number }
    {
        let mut lc = Lc::empty();
        lc.plus(number, Wire(0));
        lc
    }

    /// One wire, once.
    pub fn wire(w: Wire) -> Lc
        ensures { result ≡ wire w }
    {
        let mut lc = Lc::empty();
        lc.plus(F::ONE, w);
        lc
    }

    /// The combination with these terms, at most `TERMS`.
    pub fn from_terms(terms: &[(F, Wire)]) -> Lc
        requires { length terms.now ≤ 128 }
        ensures { result ≡ terms.now }
    {
        let mut lc = Lc::empty();
        lc.plus_terms(terms);
        lc
    }

    /// Drops all terms. To reuse a combination costs less than to make one.
    #[inline]
    pub fn clear(&mut self)
        ensures { self.new ≡ [] }
    {
        // The vector writes a blank over each term that it drops. A number of terms that is known
        // takes a store each, and no call.
        match self.terms.len() {
            0 => {}
            1 => self.drop_all(1),
            2 => self.drop_all(2),
            3 => self.drop_all(3),
            4 => self.drop_all(4),
            _ => self.terms.clear(),
        }
    }

    // Drops all terms, of which there are `count`.
    #[inline(always)]
    fn drop_all(&mut self, count: usize)
        requires { length self.old ≡ count }
        ensures { self.new ≡ [] }
    {
        for _ in 0..count {
            let _ = self.terms.pop();
        }
    }

    /// Sets it to one wire, once.
    pub fn set_wire(&mut self, w: Wire)
        ensures terms { self.new ≡ wire w }
        ensures top { top self.new ≡ w + 1 }
    {
        if self.terms.len() == 1 {
            self.terms[0] = (F::ONE, w);
        } else {
            self.clear();
            self.plus(F::ONE, w);
        }
    }

    /// Sets it to one wire minus another.
    pub fn set_difference(&mut self, x: Wire, y: Wire)
        ensures terms { self.new ≡ less (wire x) (wire y) }
        ensures top { top self.new ≡ max (x + 1) (y + 1) }
    {
        self.set_wire(x);
        self.plus(-F::ONE, y);
    }

    /// Appends a term, where there are fewer than `TERMS`.
    pub fn plus(&mut self, coefficient: F, wire: Wire)
        requires { length self.old < 128 }
        ensures terms { self.new ≡ self.old ++ (coefficient, wire) ∷ [] }
        ensures len { length self.new ≡ length self.old + 1 }
        ensures top { top self.new ≡ max (top self.old) (wire + 1) }
    {
        self.terms.push((coefficient, wire));
    }

    /// Appends these terms; all together are at most `TERMS`.
    pub fn plus_terms(&mut self, terms: &[(F, Wire)])
        requires { length self.old + length terms.now ≤ 128 }
        ensures terms { self.new ≡ self.old ++ terms.now }
        ensures len { length self.new ≡ length self.old + length terms.now }
        ensures top { top self.new ≡ max (top self.old) (top terms.now) }
    {
        for (coefficient, wire) in terms {
            self.plus(*coefficient, *wire);
        }
    }

    /// Appends `factor` times each of these terms; all together are at most `TERMS`.
    pub fn plus_scaled(&mut self, factor: F, terms: &[(F, Wire)])
        requires { length self.old + length terms.now ≤ 128 }
        ensures terms { self.new ≡ self.old ++ scaled factor terms.now }
        ensures len { length self.new ≡ length self.old + length terms.now }
        ensures top { top self.new ≡ max (top self.old) (top terms.now) }
    {
        for (coefficient, wire) in terms {
            self.plus(times(factor, *coefficient), *wire);
        }
    }

    /// Appends the terms of `other`, negated; all together are at most `TERMS`.
    pub fn minus(&mut self, other: &Lc)
        requires { length self.old + length other.now ≤ 128 }
        ensures terms { self.new ≡ less self.old other.now }
        ensures len { length self.new ≡ length self.old + length other.now }
        ensures top { top self.new ≡ max (top self.old) (top other.now) }
    {
        self.plus_scaled(-F::ONE, other.terms());
    }

    /// Adds a term to a normal combination, at its wire's place. It costs one comparison where the
    /// wire is above all others.
    pub fn add(&mut self, coefficient: F, wire: Wire)
        requires normal { IsNormal self.old }
        requires room { length self.old < 128 }
        ensures terms { self.new ≡ normal (self.old ++ (coefficient, wire) ∷ []) }
        ensures normal { IsNormal self.new }
        ensures len { length self.new ≤ length self.old + 1 }
        ensures top { top self.new ≤ max (top self.old) (wire + 1) }
    {
        let at = place(self.terms(), wire);
        if at < self.terms.len() {
            self.add_at(at, coefficient, wire);
        } else if coefficient != F::ZERO {
            self.terms.push((coefficient, wire));
        }
    }

    // The same, where the wire's place is that of a term.
    #[inline(never)]
    fn add_at(&mut self, at: usize, coefficient: F, wire: Wire)
        requires normal { IsNormal self.old }
        requires place { at ≡ place wire self.old }
        requires within { at < length self.old }
        requires room { length self.old < 128 }
        ensures { self.new ≡ normal (self.old ++ (coefficient, wire) ∷ []) }
    {
        let (before, found) = self.terms[at];
        let sum = coefficient + before;
        if found.0 != wire.0 {
            if coefficient != F::ZERO {
                self.terms.insert(at, (coefficient, wire));
            }
        } else if sum == F::ZERO {
            let _ = self.terms.remove(at);
        } else {
            self.terms[at] = (sum, wire);
        }
    }

    /// Adds these terms to a normal combination, each at its wire's place.
    pub fn add_terms(&mut self, terms: &[(F, Wire)])
        requires normal { IsNormal self.old }
        requires room { length self.old + length terms.now ≤ 128 }
        ensures terms { self.new ≡ normal (self.old ++ terms.now) }
        ensures normal { IsNormal self.new }
        ensures len { length self.new ≤ length self.old + length terms.now }
        ensures top { top self.new ≤ max (top self.old) (top terms.now) }
    {
        for (coefficient, wire) in terms {
            self.add(*coefficient, *wire);
        }
    }

    /// Adds `factor` times each of these terms to a normal combination, each at its wire's place.
    pub fn add_scaled(&mut self, factor: F, terms: &[(F, Wire)])
        requires normal { IsNormal self.old }
        requires room { length self.old + length terms.now ≤ 128 }
        ensures terms { self.new ≡ normal (self.old ++ scaled factor terms.now) }
        ensures normal { IsNormal self.new }
        ensures len { length self.new ≤ length self.old + length terms.now }
        ensures top { top self.new ≤ max (top self.old) (top terms.now) }
    {
        for (coefficient, wire) in terms {
            self.add(times(factor, *coefficient), *wire);
        }
    }

    /// The terms, in order.
    pub fn terms(&self) -> &[(F, Wire)]
        ensures terms { result.now ≡ self.now }
        ensures fits { length result.now ≤ 128 }
    {
        self.terms.as_slice()
    }

    /// The value under an assignment; a wire past its end counts as 0.
    pub fn value_in(&self, z: &[F]) -> F
        ensures { result ≡ value self.now z.now }
    {
        let mut sum = F::ZERO;
        for (coefficient, wire) in self.terms() {
            if let Some(number) = z.get(wire.0 as usize) {
                sum = sum + *coefficient * *number;
            }
        }
        sum
    }
}

// The product of two elements. Where the first is -1, as in a difference, it takes no
// multiplication.
#[inline(always)]
fn times(factor: F, coefficient: F) -> F
    ensures { result ≡ factor * coefficient % P }
{
    if factor == -F::ONE {
        -coefficient
    } else {
        factor * coefficient
    }
}

// How many terms of a normal combination stand before a wire's place, sought from the last term on.
fn place(terms: &[(F, Wire)], wire: Wire) -> usize
    requires { IsNormal terms.now }
    ensures place { result ≡ place wire terms.now }
    ensures within { result ≤ length terms.now }
{
    let mut at = terms.len();
    while at > 0 {
        let (_, before) = terms[at - 1];
        if before.0 < wire.0 {
            return at;
        }
        at -= 1;
    }
    at
}
