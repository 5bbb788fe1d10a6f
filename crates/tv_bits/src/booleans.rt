//! A wire that is constrained to 0 or 1.
ghost use Rattle.std.specs.Prelude.{◌≡◌, ◌<◌, [], false, OnOk};
ghost use Rattle.tv_bits.specs.Bit.{bit_of, BitIsSound, BitIsComplete, BitSizes};
ghost use Rattle.tv_core.specs.Values.{GivesIn};
ghost use Rattle.tv_core.specs.Sinks.{Emits, Room};

use tv_core::{F, Put, Scratch, Sink, Values, Wire};

/// Constrains a wire to 0 or 1. It makes no wire and 1 constraint.
pub fn bit<S: Sink>(s: &mut S, w: Wire) -> Put<()>
    requires room { Room S.meaning s.old 0 1 }
    requires made { w < S.meaning.wires s.old }
    ensures emits { Emits S.meaning s.old s.new (bit_of w) 0 1 result }
{
    bit_by(s, &mut Scratch::new(), w)
}

/// Like `bit`, but reuses the caller's scratch combinations: to make one costs more than to put it.
pub fn bit_by<S: Sink>(s: &mut S, scratch: &mut Scratch, w: Wire) -> Put<()>
    requires room { Room S.meaning s.old 0 1 }
    requires made { w < S.meaning.wires s.old }
    ensures emits { Emits S.meaning s.old s.new (bit_of w) 0 1 result }
{
    scratch.a.set_wire(w);
    s.put(&scratch.a, &scratch.a, &scratch.a)
}

/// Assigns nothing, since `bit` makes no wire.
pub fn fill_bit<V: Values>(v: &mut V, _w: F) -> Put<()>
    requires { V.giving.broken v.old ≡ false }
    ensures gives { GivesIn V.giving v.old v.new [] result }
    ensures whole { OnOk result (V.giving.broken v.new ≡ false) }
{
    Ok(())
}

/// The laws of `bit`:
/// - `sound`: where an assignment satisfies the constraints of `bit`, the wire holds 0 or 1.
/// - `complete`: where an assignment has 0 or 1 at the wire, it satisfies the constraints of `bit`.
/// - `sizes`: `bit` makes no wire, and that `fill_bit` assigns no number.
#[tactic(auto, using(crate::proofs::SizeLaws::bit_laws))]
pub fn bit_laws()
    ensures sound { BitIsSound }
    ensures complete { BitIsComplete }
    ensures sizes { BitSizes }
{}
