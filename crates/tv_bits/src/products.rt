//! A product, a ratio, or a combination's value as a new wire.
ghost use Rattle.std.specs.Prelude.{◌≡◌, ◌≤◌, ◌<◌, IfOk};
ghost use Rattle.tv_bits.specs.Ratio.{ratio_of, RatioIsSound, RatioIsComplete, RatioDivides};
ghost use Rattle.tv_bits.specs.Ratio.{RatioSizes};
ghost use Rattle.tv_bits.specs.Times.{times_of, TimesIsSound, TimesIsComplete, TimesSizes};
ghost use Rattle.tv_bits.specs.Times.{kept_of, KeptIsSound, KeptIsComplete, KeptSizes};
ghost use Rattle.tv_core.specs.Combinations.{top};
ghost use Rattle.tv_core.specs.Sinks.{Emits, Room};

use tv_core::{Put, Scratch, Sink, Wire};

/// Makes a wire that is the product of the factors in `scratch`, which stay there. It makes 1 wire
/// and 1 constraint.
pub fn times_by<S: Sink>(s: &mut S, scratch: &mut Scratch) -> Put<Wire>
    requires room { Room S.meaning s.old 1 1 }
    requires x_made { top scratch.old.a ≤ S.meaning.wires s.old }
    requires y_made { top scratch.old.b ≤ S.meaning.wires s.old }
    ensures emits { Emits S.meaning s.old s.new (times_of scratch.old.a scratch.old.b) 1 1 result }
    ensures below { IfOk result (λ product. product < S.meaning.wires s.new) }
    ensures a { scratch.new.a ≡ scratch.old.a }
    ensures b { scratch.new.b ≡ scratch.old.b }
{
    let w = s.fresh();
    scratch.c.set_wire(w);
    s.put(&scratch.a, &scratch.b, &scratch.c)?;
    Ok(w)
}

/// Makes a wire that holds the value of `scratch.a`, which stays there. It makes 1 wire and 1
/// constraint, of 2 terms and those of `scratch.a`.
pub fn kept_by<S: Sink>(s: &mut S, scratch: &mut Scratch) -> Put<Wire>
    requires room { Room S.meaning s.old 1 1 }
    requires x_made { top scratch.old.a ≤ S.meaning.wires s.old }
    ensures emits { Emits S.meaning s.old s.new (kept_of scratch.old.a) 1 1 result }
    ensures below { IfOk result (λ w. w < S.meaning.wires s.new) }
    ensures a { scratch.new.a ≡ scratch.old.a }
{
    scratch.b.set_wire(Wire(0));
    times_by(s, scratch)
}

/// Makes a wire that times `scratch.a` is `scratch.b`; both stay there. Where `scratch.a` is 0 the
/// wire may hold anything, and `scratch.b` is constrained to 0. It makes 1 wire and 1 constraint.
pub fn ratio_by<S: Sink>(s: &mut S, scratch: &mut Scratch) -> Put<Wire>
    requires room { Room S.meaning s.old 1 1 }
    requires x_made { top scratch.old.a ≤ S.meaning.wires s.old }
    requires y_made { top scratch.old.b ≤ S.meaning.wires s.old }
    ensures emits { Emits S.meaning s.old s.new (ratio_of scratch.old.a scratch.old.b) 1 1 result }
    ensures below { IfOk result (λ ratio. ratio < S.meaning.wires s.new) }
    ensures a { scratch.new.a ≡ scratch.old.a }
    ensures b { scratch.new.b ≡ scratch.old.b }
{
    let w = s.fresh();
    scratch.c.set_wire(w);
    s.put(&scratch.a, &scratch.c, &scratch.b)?;
    Ok(w)
}

/// The laws of `times_by`:
/// - `sound`: where an assignment satisfies the constraints of `times_by`, the wire holds the
///   product.
/// - `complete`: where an assignment has the product at the wire that was made, it satisfies the
///   constraints of `times_by`.
/// - `sizes`: which wire `times_by` returns, and that there is one value for it, the product, a
///   number of the field.
#[tactic(auto, using(crate::proofs::TimesLaws::times_laws))]
pub fn times_laws()
    ensures sound { TimesIsSound }
    ensures complete { TimesIsComplete }
    ensures sizes { TimesSizes }
{}

/// The laws of `kept_by`:
/// - `sound`: where an assignment satisfies the constraints of `kept_by`, its wire holds the value.
/// - `complete`: where an assignment has the value at the wire that was made, it satisfies the
///   constraints of `kept_by`.
/// - `sizes`: which wire `kept_by` returns, and that there is one value for it, the number kept, a
///   number of the field.
#[tactic(auto, using(crate::proofs::TimesLaws::kept_laws))]
pub fn kept_laws()
    ensures sound { KeptIsSound }
    ensures complete { KeptIsComplete }
    ensures sizes { KeptSizes }
{}

/// The laws of `ratio_by`:
/// - `sound`: where an assignment satisfies the constraints of `ratio_by`, the wire times the first
///   number is the second.
/// - `complete`: where an assignment has at the wire a number whose product with the first is the
///   second, it satisfies the constraints of `ratio_by`.
/// - `divides`: the second number times the inverse of the first, 0 where the first is 0, is one,
///   unless the first is 0 and the second isn't.
/// - `sizes`: which wire `ratio_by` returns, and that there is one value for it, the second number
///   times the inverse of the first, a number of the field.
#[tactic(auto, using(crate::proofs::TimesLaws::ratio_laws))]
pub fn ratio_laws()
    ensures sound { RatioIsSound }
    ensures complete { RatioIsComplete }
    ensures divides { RatioDivides }
    ensures sizes { RatioSizes }
{}
