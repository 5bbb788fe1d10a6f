//! One switch between two items, bound or open.
ghost use Rattle.std.specs.Prelude.{◌≡◌, ◌<◌, ◌≤◌, length, false, OnOk};
ghost use Rattle.tv_core.specs.Combinations.{top};
ghost use Rattle.tv_core.specs.Sinks.{Emits, Room};
ghost use Rattle.tv_core.specs.Values.{GivesIn};
ghost use Rattle.tv_network.specs.Switches.{width, remainder_of, product_of, switch_of};
ghost use Rattle.tv_network.specs.Switches.{IsPairMade, switch_values, SwitchIsSound};
ghost use Rattle.tv_network.specs.Switches.{SwitchIsComplete, SwitchIsNormal, SwitchSizes};
ghost use Rattle.tv_network.specs.declared.switches.Form.TheVariants.{Bound, Open};

use tv_bits::{bit_by, select_terms};
use tv_core::{F, Lc, Pair, PairNum, Put, Scratch, Sink, Values, Wire, give_values};

/// The form of a stage: a switch of a bound one makes wires for the numbers that it passes on, and
/// a switch of an open one two products, with which they are sums.
#[derive(Clone, Copy, PartialEq, Eq, Debug)]
pub enum Form {
    /// 5 wires a switch.
    Bound,
    /// 3 wires a switch.
    Open,
}

impl Form {
    /// Returns how many wires a switch makes, and how many constraints.
    pub fn width(self) -> u32
        ensures { result ≡ width self }
    {
        match self {
            Form::Bound => 5,
            Form::Open => 3,
        }
    }
}

// Scratch space for the switches of a network: two items, and the combinations of a constraint.
#[derive(Drop)]
pub(crate) struct Buffers {
    pub(crate) scratch: Scratch,
    pub(crate) x: Pair,
    pub(crate) y: Pair,
}

impl Buffers {
    pub(crate) fn new() -> Buffers {
        Buffers {
            scratch: Scratch::new(),
            x: Pair::empty(),
            y: Pair::empty(),
        }
    }
}

// A wire that is with the wire `p` the sum of `x` and `y`. It makes 1 wire and 1 constraint, of 3
// terms and those of the sum.
fn remainder<S: Sink>(s: &mut S, scratch: &mut Scratch, x: &Lc, y: &Lc, p: Wire) -> Put<Wire>
    requires room { Room S.meaning s.old 1 1 }
    requires p_made { p < S.meaning.wires s.old }
    requires x_made { top x.now ≤ S.meaning.wires s.old }
    requires y_made { top y.now ≤ S.meaning.wires s.old }
    requires x_short { length x.now ≤ 64 }
    requires y_short { length y.now ≤ 64 }
    ensures emits { Emits S.meaning s.old s.new (remainder_of x.now y.now p) 1 1 result }
{
    let q = s.fresh();
    scratch.a.clear();
    scratch.a.add_terms(x.terms());
    scratch.a.add_terms(y.terms());
    scratch.b.set_wire(Wire(0));
    scratch.c.set_wire(p);
    scratch.c.plus(F::ONE, q);
    s.put(&scratch.a, &scratch.b, &scratch.c)?;
    Ok(q)
}

// The product of the bit `b` and the difference of `x` and `y`. It makes 1 wire and 1 constraint,
// of 2 terms and those of the difference.
fn product<S: Sink>(s: &mut S, scratch: &mut Scratch, b: Wire, x: &Lc, y: &Lc) -> Put<Wire>
    requires room { Room S.meaning s.old 1 1 }
    requires b_made { b < S.meaning.wires s.old }
    requires x_made { top x.now ≤ S.meaning.wires s.old }
    requires y_made { top y.now ≤ S.meaning.wires s.old }
    requires x_short { length x.now ≤ 64 }
    requires y_short { length y.now ≤ 64 }
    ensures emits { Emits S.meaning s.old s.new (product_of b x.now y.now) 1 1 result }
{
    let m = s.fresh();
    scratch.a.set_wire(b);
    scratch.b.clear();
    scratch.b.add_terms(x.terms());
    scratch.b.add_scaled(-F::ONE, y.terms());
    scratch.c.set_wire(m);
    s.put(&scratch.a, &scratch.b, &scratch.c)?;
    Ok(m)
}

// A bound switch between two items. It makes 5 wires and 5 constraints: its bit's, and for both
// numbers of an item a choice and a sum.
fn bound_switch<S: Sink>(s: &mut S, scratch: &mut Scratch, x: &Pair, y: &Pair) -> Put<()>
    requires room { Room S.meaning s.old 5 5 }
    requires x_made { IsPairMade 64 x.now (S.meaning.wires s.old) }
    requires y_made { IsPairMade 64 y.now (S.meaning.wires s.old) }
    ensures emits { Emits S.meaning s.old s.new (switch_of Bound x.now y.now) 5 5 result }
{
    let b = s.fresh();
    bit_by(s, scratch, b)?;
    let first = select_terms(s, scratch, b, y.first.terms(), x.first.terms())?;
    let second = select_terms(s, scratch, b, y.second.terms(), x.second.terms())?;
    remainder(s, scratch, &x.first, &y.first, first)?;
    remainder(s, scratch, &x.second, &y.second, second)?;
    Ok(())
}

// An open switch between two items. It makes 3 wires and 3 constraints: its bit's, and a product
// for both numbers of an item.
fn open_switch<S: Sink>(s: &mut S, scratch: &mut Scratch, x: &Pair, y: &Pair) -> Put<()>
    requires room { Room S.meaning s.old 3 3 }
    requires x_made { IsPairMade 64 x.now (S.meaning.wires s.old) }
    requires y_made { IsPairMade 64 y.now (S.meaning.wires s.old) }
    ensures emits { Emits S.meaning s.old s.new (switch_of Open x.now y.now) 3 3 result }
{
    let bit = s.fresh();
    bit_by(s, scratch, bit)?;
    product(s, scratch, bit, &x.first, &y.first)?;
    product(s, scratch, bit, &x.second, &y.second)?;
    Ok(())
}

// A switch of either form between two items.
pub(crate) fn switch<S: Sink>(
    s: &mut S,
    scratch: &mut Scratch,
    form: Form,
    x: &Pair,
    y: &Pair,
) -> Put<()>
    requires room { Room S.meaning s.old (width form) (width form) }
    requires x_made { IsPairMade 64 x.now (S.meaning.wires s.old) }
    requires y_made { IsPairMade 64 y.now (S.meaning.wires s.old) }
    ensures emits { Emits S.meaning s.old s.new
        (switch_of form x.now y.now) (width form) (width form) result }
{
    match form {
        Form::Bound => bound_switch(s, scratch, x, y),
        Form::Open => open_switch(s, scratch, x, y),
    }
}

fn bound_values(b: bool, x: PairNum, y: PairNum) -> [F; 5]
    ensures { result ≡ switch_values Bound b x y }
{
    if b {
        [F::ONE, y.first, y.second, x.first, x.second]
    } else {
        [F::ZERO, x.first, x.second, y.first, y.second]
    }
}

fn open_values(b: bool, x: PairNum, y: PairNum) -> [F; 3]
    ensures { result ≡ switch_values Open b x y }
{
    if b {
        [F::ONE, x.first - y.first, x.second - y.second]
    } else {
        [F::ZERO, F::ZERO, F::ZERO]
    }
}

// Assigns the values of a switch's wires.
pub(crate) fn fill_switch<V: Values>(
    v: &mut V,
    form: Form,
    b: bool,
    x: PairNum,
    y: PairNum,
) -> Put<()>
    requires whole { V.giving.broken v.old ≡ false }
    ensures gives { GivesIn V.giving v.old v.new (switch_values form b x y) result }
    ensures whole { OnOk result (V.giving.broken v.new ≡ false) }
{
    match form {
        Form::Bound => give_values(v, &bound_values(b, x, y)),
        Form::Open => give_values(v, &open_values(b, x, y)),
    }
}

/// Where an assignment satisfies the constraints of a switch, it has 0 or 1 at the bit, and the
/// bit's choice of the two items at both slots.
#[tactic(auto, using(crate::proofs::SwitchLaws::switch_sound))]
pub fn switch_is_sound()
    ensures { SwitchIsSound }
{}

/// Where an assignment has a switch's values for a bit, it satisfies the switch's constraints, and
/// has the bit.
#[tactic(auto, using(crate::proofs::SwitchLaws::switch_complete))]
pub fn switch_is_complete()
    ensures { SwitchIsComplete }
{}

/// Over normal items of earlier wires, each combination that a switch emits or passes on is normal.
#[tactic(auto, using(crate::proofs::SwitchSizes::switch_normal))]
pub fn switch_is_normal()
    ensures { SwitchIsNormal }
{}

/// A switch makes `width` wires and constraints, with one value of the field each, and what it
/// passes on has at most one term more than the item that stood there.
#[tactic(auto, using(crate::proofs::SwitchSizes::switch_sizes))]
pub fn switch_sizes()
    ensures { SwitchSizes }
{}
