//! The choice that a bit makes between two combinations.
ghost use Rattle.std.specs.Prelude.{◌≡◌, ◌+◌, ◌≤◌, ◌<◌, false, length, max, IfOk, OnOk};
ghost use Rattle.tv_bits.specs.Select.{selected, select_of, select_values, SelectIsSound};
ghost use Rattle.tv_bits.specs.Select.{SelectIsComplete, SelectIsNormal, SelectSizes};
ghost use Rattle.tv_bits.specs.Select.{wire_less, pick_of, PickIsSound, PickIsComplete, PickSizes};
ghost use Rattle.tv_core.specs.Combinations.{wire, less, top};
ghost use Rattle.tv_core.specs.Values.{GivesIn};
ghost use Rattle.tv_core.specs.Normal.{normal};
ghost use Rattle.tv_core.specs.Sinks.{Emits, Room};

use tv_core::{F, Lc, Put, Scratch, Sink, Values, Wire};

/// Makes a wire that is `x` where the bit `b` is 1, and `y` where it is 0; both have at most 64
/// terms. It makes 1 wire and 1 constraint.
pub fn select<S: Sink>(s: &mut S, b: Wire, x: &Lc, y: &Lc) -> Put<Wire>
    requires room { Room S.meaning s.old 1 1 }
    requires b_made { b < S.meaning.wires s.old }
    requires made { max (top x.now) (top y.now) ≤ S.meaning.wires s.old }
    requires short { max (length x.now) (length y.now) ≤ 64 }
    ensures emits { Emits S.meaning s.old s.new (select_of b x.now y.now) 1 1 result }
    ensures below { IfOk result (λ chosen. chosen < S.meaning.wires s.new) }
{
    select_terms(s, &mut Scratch::new(), b, x.terms(), y.terms())
}

/// Like `select`, of two lists of terms, but reuses the caller's scratch combinations.
pub fn select_terms<S: Sink>(
    s: &mut S,
    scratch: &mut Scratch,
    b: Wire,
    x: &[(F, Wire)],
    y: &[(F, Wire)],
) -> Put<Wire>
    requires room { Room S.meaning s.old 1 1 }
    requires b_made { b < S.meaning.wires s.old }
    requires made { max (top x.now) (top y.now) ≤ S.meaning.wires s.old }
    requires short { max (length x.now) (length y.now) ≤ 64 }
    ensures emits { Emits S.meaning s.old s.new (select_of b x.now y.now) 1 1 result }
    ensures below { IfOk result (λ chosen. chosen < S.meaning.wires s.new) }
{
    scratch.a.set_wire(b);
    pick_by(s, scratch, x, y)
}

/// Like `select`, of two wires, but reuses the caller's scratch combinations.
pub fn select_wires<S: Sink>(
    s: &mut S,
    scratch: &mut Scratch,
    b: Wire,
    x: Wire,
    y: Wire,
) -> Put<Wire>
    requires room { Room S.meaning s.old 1 1 }
    requires b_made { b < S.meaning.wires s.old }
    requires x_made { x < S.meaning.wires s.old }
    requires y_made { y < S.meaning.wires s.old }
    ensures emits { Emits S.meaning s.old s.new (select_of b (wire x) (wire y)) 1 1 result }
    ensures below { IfOk result (λ chosen. chosen < S.meaning.wires s.new) }
{
    select_terms(s, scratch, b, &[(F::ONE, x)], &[(F::ONE, y)])
}

/// Makes a wire that is `x` where `scratch.a`, a bit that stays there, is 1, and `y` where it is 0;
/// `x` and `y` have at most 64 terms. It makes 1 wire and 1 constraint. Its generator is
/// `fill_select`.
pub fn pick_by<S: Sink>(
    s: &mut S,
    scratch: &mut Scratch,
    x: &[(F, Wire)],
    y: &[(F, Wire)],
) -> Put<Wire>
    requires room { Room S.meaning s.old 1 1 }
    requires b_made { top scratch.old.a ≤ S.meaning.wires s.old }
    requires made { max (top x.now) (top y.now) ≤ S.meaning.wires s.old }
    requires short { max (length x.now) (length y.now) ≤ 64 }
    ensures emits { Emits S.meaning s.old s.new (pick_of scratch.old.a x.now y.now) 1 1 result }
    ensures below { IfOk result (λ w. w < S.meaning.wires s.new) }
    ensures a { scratch.new.a ≡ scratch.old.a }
{
    let w = s.fresh();
    set_terms_less(&mut scratch.b, x, y);
    set_wire_less(&mut scratch.c, w, y);
    s.put(&scratch.a, &scratch.b, &scratch.c)?;
    Ok(w)
}

// Makes `lc` the difference of `x` and `y`, in normal form. It costs least where the wires of `y`
// are before those of `x`.
#[inline(always)]
fn set_terms_less(lc: &mut Lc, x: &[(F, Wire)], y: &[(F, Wire)])
    requires x_short { length x.now ≤ 64 }
    requires y_short { length y.now ≤ 64 }
    ensures terms { lc.new ≡ normal (less x.now y.now) }
    ensures top { top lc.new ≤ max (top x.now) (top y.now) }
{
    lc.clear();
    lc.add_scaled(-F::ONE, y);
    lc.add_terms(x);
}

// Makes `lc` the wire `w` less `y`.
fn set_wire_less(lc: &mut Lc, w: Wire, y: &[(F, Wire)])
    requires short { length y.now ≤ 64 }
    ensures terms { lc.new ≡ wire_less w y.now }
    ensures top { top lc.new ≤ max (top y.now) (w + 1) }
{
    lc.clear();
    lc.plus_scaled(-F::ONE, y);
    lc.plus(F::ONE, w);
}

/// Assigns the value of the wire that `select` or `pick_by` makes, from the values of its inputs.
pub fn fill_select<V: Values>(v: &mut V, b: F, x: F, y: F) -> Put<()>
    requires { V.giving.broken v.old ≡ false }
    ensures gives { GivesIn V.giving v.old v.new (select_values b x y) result }
    ensures whole { OnOk result (V.giving.broken v.new ≡ false) }
{
    v.give(selected(b, x, y))
}

fn selected(b: F, x: F, y: F) -> F
    ensures { result ≡ selected b x y }
{
    if b.number() == 1 { x } else { y }
}

/// The laws of `select`:
/// - `sound`: where an assignment has a bit at `b` and satisfies the constraints of `select`, it
///   has the selected value.
/// - `complete`: where an assignment has a bit at `b` and the value that `fill_select` assigns, it
///   satisfies the constraints of `select`.
/// - `normal`: where the bit and `y` are normal combinations and the wires of `y` are below the
///   next one, the constraint that `select` or `pick_by` put is of normal combinations.
/// - `sizes`: which wire `select` returns, and that `fill_select` assigns one number to each wire
///   that it makes.
#[tactic(auto, using(crate::proofs::NormalLaws::select_laws))]
pub fn select_laws()
    ensures sound { SelectIsSound }
    ensures complete { SelectIsComplete }
    ensures normal { SelectIsNormal }
    ensures sizes { SelectSizes }
{}

/// The laws of `pick_by`:
/// - `sound`: where the combination is a bit in an assignment that satisfies the constraints of
///   `pick_by`, its wire holds the selected value.
/// - `complete`: where the combination is a bit in an assignment that has the selected value at the
///   wire that was made, it satisfies the constraints of `pick_by`.
/// - `sizes`: which wire `pick_by` returns, whatever the next wire is, and that `fill_select`
///   assigns one value to it, below P.
#[tactic(auto, using(crate::proofs::SizeLaws::pick_laws))]
pub fn pick_laws()
    ensures sound { PickIsSound }
    ensures complete { PickIsComplete }
    ensures sizes { PickSizes }
{}
