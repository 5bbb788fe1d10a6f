//! A wire that is a sign where another is 0.
ghost use Rattle.std.specs.Prelude.{◌≡◌, ◌≤◌, ◌<◌, false, length, OnOk};
ghost use Rattle.tv_bits.specs.ZeroSign.{zero_sign_of, zero_sign_values, ZeroSignIsSound};
ghost use Rattle.tv_bits.specs.ZeroSign.{ZeroSignIsComplete, ZeroSignSizes, ZeroSignCosts};
ghost use Rattle.tv_core.specs.Combinations.{top};
ghost use Rattle.tv_core.specs.Values.{GivesIn};
ghost use Rattle.tv_core.specs.Sinks.{Emits, Room};

use crate::zeros::zero_cases;
use tv_core::{F, Put, Scratch, Sink, Values, Wire};

/// Constrains the wire `f` to `sign` where the wire `y` is 0, and else to 0. `sign` has at most 127
/// terms and may have any value, such as 1 or -1. It makes 1 wire and 2 constraints, of 5 terms and
/// those of `sign`.
pub fn zero_sign<S: Sink>(
    s: &mut S,
    scratch: &mut Scratch,
    y: Wire,
    f: Wire,
    sign: &[(F, Wire)],
) -> Put<()>
    requires room { Room S.meaning s.old 1 2 }
    requires y_made { y < S.meaning.wires s.old }
    requires f_made { f < S.meaning.wires s.old }
    requires sign_made { top sign.now ≤ S.meaning.wires s.old }
    requires sign_short { length sign.now ≤ 127 }
    ensures emits { Emits S.meaning s.old s.new (zero_sign_of y f sign.now) 1 2 result }
{
    scratch.a.set_wire(y);
    scratch.c.clear();
    scratch.c.plus_terms(sign);
    scratch.c.plus(-F::ONE, f);
    zero_cases(s, scratch, &[(F::ONE, f)])
}

/// Assigns the value of the wire that `zero_sign` makes, `y` and `sign` being those of its
/// arguments.
pub fn fill_zero_sign<V: Values>(v: &mut V, y: F, sign: F) -> Put<()>
    requires { V.giving.broken v.old ≡ false }
    ensures gives { GivesIn V.giving v.old v.new (zero_sign_values y sign) result }
    ensures whole { OnOk result (V.giving.broken v.new ≡ false) }
{
    v.give(sign * y.inverse_or_zero())
}

/// The laws of `zero_sign`:
/// - `sound`: where an assignment satisfies the constraints of `zero_sign`, it has the sign at `f`
///   where it has 0 at `y`, and else 0.
/// - `complete`: where an assignment has the sign at `f` if it has 0 at `y`, else 0 there, and the
///   value that `fill_zero_sign` assigns, it satisfies the constraints of `zero_sign`.
/// - `sizes`: `fill_zero_sign` assigns one number of the field for each wire that `zero_sign`
///   makes.
/// - `costs`: how many constraints and terms `zero_sign` puts.
#[tactic(auto, using(crate::proofs::ZeroSignLaws::zero_sign_laws))]
pub fn zero_sign_laws()
    ensures sound { ZeroSignIsSound }
    ensures complete { ZeroSignIsComplete }
    ensures sizes { ZeroSignSizes }
    ensures costs { ZeroSignCosts }
{}
