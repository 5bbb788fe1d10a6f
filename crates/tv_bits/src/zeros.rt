//! Whether a combination is 0.
ghost use Rattle.std.specs.Prelude.{◌≡◌, ◌≤◌, ◌<◌, false, length, max, IfOk, OnOk};
ghost use Rattle.tv_core.specs.Combinations.{top};
ghost use Rattle.tv_core.specs.Sinks.{Emits, Room};
ghost use Rattle.tv_core.specs.Values.{GivesIn};
ghost use Rattle.tv_bits.specs.Zero.{zero_cases_of, zero_of, zero_values};
ghost use Rattle.tv_bits.specs.Zero.{ZeroIsSound, ZeroIsComplete, ZeroSizes};

use tv_core::{F, Lc, Put, Scratch, Sink, Values, Wire, give_values};

/// Makes a wire that is 1 exactly where `x` is 0, and else 0. It makes 2 wires and 2 constraints.
pub fn zero<S: Sink>(s: &mut S, x: &Lc) -> Put<Wire>
    requires room { Room S.meaning s.old 2 2 }
    requires x_made { top x.now ≤ S.meaning.wires s.old }
    ensures emits { Emits S.meaning s.old s.new (zero_of x.now) 2 2 result }
    ensures below { IfOk result (λ flag. flag < S.meaning.wires s.new) }
{
    let mut scratch = Scratch::new();
    scratch.a.plus_terms(x.terms());
    zero_by(s, &mut scratch)
}

/// Like `zero`, of `scratch.a`, which stays there, and reuses the caller's other scratch
/// combinations.
pub fn zero_by<S: Sink>(s: &mut S, scratch: &mut Scratch) -> Put<Wire>
    requires room { Room S.meaning s.old 2 2 }
    requires x_made { top scratch.old.a ≤ S.meaning.wires s.old }
    ensures emits { Emits S.meaning s.old s.new (zero_of scratch.old.a) 2 2 result }
    ensures below { IfOk result (λ flag. flag < S.meaning.wires s.new) }
    ensures a { scratch.new.a ≡ scratch.old.a }
{
    let flag = s.fresh();
    scratch.c.set_difference(Wire(0), flag);
    zero_cases(s, scratch, &[(F::ONE, flag)])?;
    Ok(flag)
}

/// Constrains `scratch.c` to 0 where `scratch.a` is 0, and `other` to 0 where it isn't; `scratch.a`
/// stays. It makes 1 wire, a hint, whose value is `scratch.c` divided by `scratch.a`, and 2
/// constraints.
pub fn zero_cases<S: Sink>(s: &mut S, scratch: &mut Scratch, other: &[(F, Wire)]) -> Put<()>
    requires room { Room S.meaning s.old 1 2 }
    requires made { max (top scratch.old.a) (max (top scratch.old.c) (top other.now))
        ≤ S.meaning.wires s.old }
    requires short { length other.now ≤ 128 }
    ensures emits { Emits S.meaning s.old s.new
        (zero_cases_of scratch.old.a scratch.old.c other.now) 1 2 result }
    ensures a { scratch.new.a ≡ scratch.old.a }
{
    let hint = s.fresh();
    scratch.b.set_wire(hint);
    s.put(&scratch.a, &scratch.b, &scratch.c)?;
    scratch.b.clear();
    scratch.b.plus_terms(other);
    scratch.c.clear();
    s.put(&scratch.a, &scratch.b, &scratch.c)
}

/// Assigns the values of the wires that `zero` makes, `x` being that of its combination.
pub fn fill_zero<V: Values>(v: &mut V, x: F) -> Put<()>
    requires { V.giving.broken v.old ≡ false }
    ensures gives { GivesIn V.giving v.old v.new (zero_values x) result }
    ensures whole { OnOk result (V.giving.broken v.new ≡ false) }
{
    give_values(v, &zero_values(x))
}

/// Returns the values that `fill_zero` assigns for `x`.
pub fn zero_values(x: F) -> [F; 2]
    ensures { result ≡ zero_values x }
{
    [F::from(x == F::ZERO), x.inverse_or_zero()]
}

/// The laws of `zero`:
/// - `sound`: where an assignment satisfies the constraints of `zero`, its flag is right.
/// - `complete`: where an assignment has the values that `fill_zero` assigns, it satisfies the
///   constraints of `zero`.
/// - `sizes`: which wire `zero` returns, and that `fill_zero` assigns one number to each wire that
///   it makes.
#[tactic(auto, using(crate::proofs::SizeLaws::zero_laws))]
pub fn zero_laws()
    ensures sound { ZeroIsSound }
    ensures complete { ZeroIsComplete }
    ensures sizes { ZeroSizes }
{}
