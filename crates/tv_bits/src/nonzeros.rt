//! Whether a combination isn't 0.
ghost use Rattle.std.specs.Prelude.{◌≡◌, ◌≤◌, ◌<◌, false, IfOk, OnOk};
ghost use Rattle.tv_bits.specs.Nonzero.{nonzero_of, nonzero_values, NonzeroIsSound};
ghost use Rattle.tv_bits.specs.Nonzero.{NonzeroIsComplete, NonzeroSizes};
ghost use Rattle.tv_core.specs.Combinations.{top};
ghost use Rattle.tv_core.specs.Values.{GivesIn};
ghost use Rattle.tv_core.specs.Sinks.{Emits, Room};

use crate::zeros::zero_cases;
use tv_core::{F, Put, Scratch, Sink, Values, Wire, give_values};

/// Makes a wire that is 0 exactly where `scratch.a`, which stays there, is 0, and else 1. It makes
/// 2 wires and 2 constraints.
pub fn nonzero_by<S: Sink>(s: &mut S, scratch: &mut Scratch) -> Put<Wire>
    requires room { Room S.meaning s.old 2 2 }
    requires x_made { top scratch.old.a ≤ S.meaning.wires s.old }
    ensures emits { Emits S.meaning s.old s.new (nonzero_of scratch.old.a) 2 2 result }
    ensures below { IfOk result (λ flag. flag < S.meaning.wires s.new) }
    ensures a { scratch.new.a ≡ scratch.old.a }
{
    let flag = s.fresh();
    scratch.c.set_wire(flag);
    zero_cases(s, scratch, &[(F::ONE, Wire(0)), (-F::ONE, flag)])?;
    Ok(flag)
}

/// Assigns the values of the wires that `nonzero_by` makes, `x` being that of its combination.
pub fn fill_nonzero<V: Values>(v: &mut V, x: F) -> Put<()>
    requires { V.giving.broken v.old ≡ false }
    ensures gives { GivesIn V.giving v.old v.new (nonzero_values x) result }
    ensures whole { OnOk result (V.giving.broken v.new ≡ false) }
{
    give_values(v, &nonzero_values(x))
}

fn nonzero_values(x: F) -> [F; 2]
    ensures { result ≡ nonzero_values x }
{
    [F::from(x != F::ZERO), x.inverse_or_zero()]
}

/// The laws of `nonzero_by`:
/// - `sound`: where an assignment satisfies the constraints of `nonzero_by`, its flag is right.
/// - `complete`: where an assignment has the values that `fill_nonzero` assigns, it satisfies the
///   constraints of `nonzero_by`.
/// - `sizes`: which wire `nonzero_by` returns, and that `fill_nonzero` assigns one number to each
///   wire that it makes.
#[tactic(auto, using(crate::proofs::NonzeroLaws::nonzero_laws))]
pub fn nonzero_laws()
    ensures sound { NonzeroIsSound }
    ensures complete { NonzeroIsComplete }
    ensures sizes { NonzeroSizes }
{}
