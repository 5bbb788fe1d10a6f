//! An equation that a gate turns on. A gate is a combination whose value is 0 or 1.
ghost use Rattle.std.specs.Prelude.{◌+◌, ◌≤◌, length};
ghost use Rattle.tv_bits.specs.Gate.{gated_of, GatedIsSound, GatedIsComplete, GatedSizes};
ghost use Rattle.tv_bits.specs.Gate.{GatedCosts};
ghost use Rattle.tv_core.specs.Combinations.{top};
ghost use Rattle.tv_core.specs.Sinks.{Emits, Room};

use tv_core::{F, Lc, Put, Scratch, Sink, Wire};

/// Constrains `x` and `y` to the same value where `gate` is 1, and to nothing where it is 0:
/// `gate` times their difference is 0. `x` and `y` have at most 128 terms together. It makes no
/// wire and 1 constraint.
pub fn gated<S: Sink>(
    s: &mut S,
    scratch: &mut Scratch,
    gate: &Lc,
    x: &[(F, Wire)],
    y: &[(F, Wire)],
) -> Put<()>
    requires room { Room S.meaning s.old 0 1 }
    requires gate_made { top gate.now ≤ S.meaning.wires s.old }
    requires x_made { top x.now ≤ S.meaning.wires s.old }
    requires y_made { top y.now ≤ S.meaning.wires s.old }
    requires short { length x.now + length y.now ≤ 128 }
    ensures emits { Emits S.meaning s.old s.new (gated_of gate.now x.now y.now) 0 1 result }
{
    scratch.b.clear();
    scratch.b.plus_terms(x);
    scratch.b.plus_scaled(-F::ONE, y);
    scratch.c.clear();
    s.put(gate, &scratch.b, &scratch.c)
}

/// The laws of `gated`:
/// - `sound`: where the gate is 1 and an assignment satisfies the constraints of `gated`, the two
///   values are the same.
/// - `complete`: where the two values are the same, or the gate is 0, an assignment satisfies the
///   constraints of `gated`.
/// - `sizes`: `gated` makes no wire.
/// - `costs`: how many constraints and terms `gated` puts.
#[tactic(auto, using(crate::proofs::GateLaws::gated_laws))]
pub fn gated_laws()
    ensures sound { GatedIsSound }
    ensures complete { GatedIsComplete }
    ensures sizes { GatedSizes }
    ensures costs { GatedCosts }
{}
