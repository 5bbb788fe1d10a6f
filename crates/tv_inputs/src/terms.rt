//! Combinations set to a list of terms.
ghost use Rattle.std.specs.Prelude.{◌≡◌, ◌+◌, ◌-◌, ◌≤◌, [], ◌∷◌, length, max};
ghost use Rattle.tv_core.specs.Combinations.{scaled, top};
ghost use Rattle.tv_core.specs.declared.field.TheConstants.{P};

use tv_core::{F, Lc, Wire};

/// Sets `lc` to these terms.
pub fn set_terms(lc: &mut Lc, terms: &[(F, Wire)])
    requires { length terms.now ≤ 128 }
    ensures terms { lc.new ≡ terms.now }
    ensures len { length lc.new ≡ length terms.now }
    ensures top { top lc.new ≡ top terms.now }
{
    lc.clear();
    lc.plus_terms(terms);
}

/// Sets `lc` to these terms with their coefficients negated.
#[inline]
pub fn set_negated(lc: &mut Lc, terms: &[(F, Wire)])
    requires { length terms.now ≤ 128 }
    ensures terms { lc.new ≡ scaled (P - 1) terms.now }
    ensures len { length lc.new ≡ length terms.now }
    ensures top { top lc.new ≡ top terms.now }
{
    lc.clear();
    lc.plus_scaled(-F::ONE, terms);
}

/// Sets `lc` to the wire `x`, negated.
pub fn set_minus(lc: &mut Lc, x: Wire)
    ensures terms { lc.new ≡ (P - 1, x) ∷ [] }
    ensures len { length lc.new ≡ 1 }
    ensures top { top lc.new ≡ x + 1 }
{
    lc.clear();
    lc.plus(-F::ONE, x);
}

/// Sets `lc` to the wire `y` less the wire `x`, whose term comes first.
pub fn set_rise(lc: &mut Lc, x: Wire, y: Wire)
    ensures terms { lc.new ≡ (P - 1, x) ∷ (1, y) ∷ [] }
    ensures len { length lc.new ≡ 2 }
    ensures top { top lc.new ≡ max (x + 1) (y + 1) }
{
    set_minus(lc, x);
    lc.plus(F::ONE, y);
}
