//! Two ands in one constraint.
ghost use Rattle.std.specs.Prelude.{◌≡◌, ◌≤◌, length, max};
ghost use Rattle.tv_bits.specs.Pairs.{side, two_ands_of, TwoAndsAreSound, TwoAndsAreComplete};
ghost use Rattle.tv_bits.specs.Pairs.{TwoAndsSizes};
ghost use Rattle.tv_core.specs.Combinations.{top};
ghost use Rattle.tv_core.specs.Sinks.{Emits, Room};

use tv_core::{F, Lc, Put, Scratch, Sink, Wire};

/// Constrains `m` to the product of `x_a` and `y_a` plus `gamma` squared times that of `x_b` and
/// `y_b`, where these four are 0 or 1. They have at most 8 terms each, and `m` at most 64. It makes
/// no wire and 1 constraint.
pub fn two_ands<S: Sink>(
    s: &mut S,
    scratch: &mut Scratch,
    x_a: &[(F, Wire)],
    y_a: &[(F, Wire)],
    x_b: &[(F, Wire)],
    y_b: &[(F, Wire)],
    gamma: F,
    m: &[(F, Wire)],
) -> Put<()>
    requires room { Room S.meaning s.old 0 1 }
    requires a_made { max (top x_a.now) (top y_a.now) ≤ S.meaning.wires s.old }
    requires b_made { max (top x_b.now) (top y_b.now) ≤ S.meaning.wires s.old }
    requires m_made { top m.now ≤ S.meaning.wires s.old }
    requires short { max (max (length x_a.now) (length y_a.now))
        (max (length x_b.now) (length y_b.now)) ≤ 8 }
    requires m_short { length m.now ≤ 64 }
    ensures emits { Emits S.meaning s.old s.new
        (two_ands_of x_a.now y_a.now x_b.now y_b.now gamma m.now) 0 1 result }
{
    set_side(&mut scratch.a, x_a, y_a, x_b, y_b, gamma, F::ONE);
    set_side(&mut scratch.b, x_a, y_a, x_b, y_b, -gamma, F::ONE);
    set_side(
        &mut scratch.c,
        x_a,
        y_a,
        x_b,
        y_b,
        -(gamma * gamma),
        F::of(3),
    );
    scratch.c.plus_scaled(F::of(2), m);
    s.put(&scratch.a, &scratch.b, &scratch.c)
}

// Makes `lc` x_a + y_a + c (1 + k x_b - y_b).
fn set_side(
    lc: &mut Lc,
    x_a: &[(F, Wire)],
    y_a: &[(F, Wire)],
    x_b: &[(F, Wire)],
    y_b: &[(F, Wire)],
    c: F,
    k: F,
)
    requires short { max (max (length x_a.now) (length y_a.now))
        (max (length x_b.now) (length y_b.now)) ≤ 8 }
    ensures terms { lc.new ≡ side x_a.now y_a.now x_b.now y_b.now c k }
    ensures len { length lc.new ≤ 33 }
    ensures top { top lc.new ≡ max 1 (max (max (top x_a.now) (top y_a.now))
        (max (top x_b.now) (top y_b.now))) }
{
    lc.clear();
    lc.plus(c, Wire(0));
    lc.plus_terms(x_a);
    lc.plus_terms(y_a);
    lc.plus_scaled(c * k, x_b);
    lc.plus_scaled(-c, y_b);
}

/// The laws of `two_ands`:
/// - `sound`: in an assignment that satisfies the constraints of `two_ands`, `m` is the sum of the
///   products, the four being bits.
/// - `complete`: an assignment in which `m` is the sum of the products satisfies the constraints of
///   `two_ands`, the four being bits.
/// - `sizes`: `two_ands` makes no wire.
#[tactic(auto, using(crate::proofs::SizeLaws::two_ands_laws))]
pub fn two_ands_laws()
    ensures sound { TwoAndsAreSound }
    ensures complete { TwoAndsAreComplete }
    ensures sizes { TwoAndsSizes }
{}
