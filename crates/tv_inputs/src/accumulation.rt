//! A product added to a sum, as a new wire.
ghost use Rattle.std.specs.Prelude.{◌≡◌, ◌≤◌, ◌<◌, length, max, IfOk};
ghost use Rattle.tv_core.specs.Combinations.{top};
ghost use Rattle.tv_core.specs.Sinks.{Emits, Room};
ghost use Rattle.tv_inputs.specs.Accumulation.{closed_of, AccumulatedIsSound};
ghost use Rattle.tv_inputs.specs.Accumulation.{AccumulatedIsComplete, AccumulatedSizes};

use tv_core::{F, Put, Scratch, Sink, Wire};

/// Returns a wire that is the product of the factors in `scratch`, which stay there, plus a sum, of
/// which `scratch.c` has the terms with their coefficients negated. It makes 1 wire and 1
/// constraint.
pub fn accumulated<S: Sink>(s: &mut S, scratch: &mut Scratch) -> Put<Wire>
    requires room { Room S.meaning s.old 1 1 }
    requires made { max (top scratch.old.a) (max (top scratch.old.b) (top scratch.old.c))
        ≤ S.meaning.wires s.old }
    requires short { length scratch.old.c ≤ 64 }
    ensures emits { Emits S.meaning s.old s.new
        (closed_of scratch.old.c scratch.old.a scratch.old.b) 1 1 result }
    ensures below { IfOk result (λ sum. sum < S.meaning.wires s.new) }
    ensures a { scratch.new.a ≡ scratch.old.a }
    ensures b { scratch.new.b ≡ scratch.old.b }
{
    let sum = s.fresh();
    scratch.c.plus(F::ONE, sum);
    s.put(&scratch.a, &scratch.b, &scratch.c)?;
    Ok(sum)
}

/// The laws of `accumulated`. In an assignment that meets the constraint the wire holds the sum,
/// and an assignment that has the sum at the wire meets it. They also say which wire is returned,
/// and that its value is one number of the field.
pub fn accumulated_laws()
    ensures sound { AccumulatedIsSound }
    ensures complete { AccumulatedIsComplete }
    ensures sizes { AccumulatedSizes }
{}
