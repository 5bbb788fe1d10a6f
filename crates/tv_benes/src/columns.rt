//! The columns of a network's switches, emitted into a sink.
ghost use Rattle.std.specs.Prelude.{◌+◌, ◌*◌, ◌<◌, ◌≤◌, length};
ghost use Rattle.tv_core.specs.Combinations.{top};
ghost use Rattle.tv_core.specs.Sinks.{Emits, Room};
ghost use Rattle.tv_benes.specs.Network.{remainder_of, switch_of, column_of};
ghost use Rattle.tv_benes.specs.Places.{item_in, count_in, ArePairsMade, IsPairMade};

use crate::places::{ColumnItems, Inputs};
use tv_bits::{bit_by, select_terms};
use tv_core::{F, Lc, Pair, Put, Scratch, Sink, Wire};

// A wire that is with the wire `p` the sum of `x` and `y`. It makes 1 wire and 1 constraint, of 3
// terms and those of the sum.
fn remainder<S: Sink>(s: &mut S, scratch: &mut Scratch, x: &Lc, y: &Lc, p: Wire) -> Put<Wire>
    requires room { Room S.meaning s.old 1 1 }
    requires p_made { p < S.meaning.wires s.old }
    requires x_made { top x.now ≤ S.meaning.wires s.old }
    requires y_made { top y.now ≤ S.meaning.wires s.old }
    requires x_short { length x.now ≤ 64 }
    requires y_short { length y.now ≤ 64 }
    ensures emits { Emits S.meaning s.old s.new (remainder_of x.now y.now p) 1 1 result }
{
    let q = s.fresh();
    scratch.a.clear();
    scratch.a.add_terms(x.terms());
    scratch.a.add_terms(y.terms());
    scratch.b.set_wire(Wire(0));
    scratch.c.set_wire(p);
    scratch.c.plus(F::ONE, q);
    s.put(&scratch.a, &scratch.b, &scratch.c)?;
    Ok(q)
}

// A switch between two items. It makes 5 wires and 5 constraints: its bit's, and for both numbers
// of an item a choice and a sum.
fn switch<S: Sink>(s: &mut S, scratch: &mut Scratch, x: &Pair, y: &Pair) -> Put<()>
    requires room { Room S.meaning s.old 5 5 }
    requires x_made { IsPairMade x.now (S.meaning.wires s.old) }
    requires y_made { IsPairMade y.now (S.meaning.wires s.old) }
    ensures emits { Emits S.meaning s.old s.new (switch_of x.now y.now) 5 5 result }
{
    let b = s.fresh();
    bit_by(s, scratch, b)?;
    let first = select_terms(s, scratch, b, y.first.terms(), x.first.terms())?;
    let second = select_terms(s, scratch, b, y.second.terms(), x.second.terms())?;
    remainder(s, scratch, &x.first, &y.first, first)?;
    remainder(s, scratch, &x.second, &y.second, second)?;
    Ok(())
}

// `n` switches.
pub(crate) fn column<S: Sink, I: Inputs>(
    s: &mut S,
    buffers: &mut Buffers,
    n: u32,
    items: &ColumnItems<'_, I>,
) -> Put<()>
    requires room { Room S.meaning s.old (5 * n) (5 * n) }
    requires count { 2 * n ≤ count_in I.count items.now }
    requires made { ArePairsMade (item_in I.pair items.now) (2 * n) (S.meaning.wires s.old) }
    ensures emits { Emits S.meaning s.old s.new
        (column_of n (item_in I.pair items.now)) (5 * n) (5 * n) result }
{
    for j in 0..n {
        items.set_item(2 * j, &mut buffers.x);
        items.set_item(2 * j + 1, &mut buffers.y);
        switch(s, &mut buffers.scratch, &buffers.x, &buffers.y)?;
    }
    Ok(())
}

// Scratch space of all columns of a network: two items, and the combinations of a constraint.
#[derive(Drop)]
pub(crate) struct Buffers {
    scratch: Scratch,
    x: Pair,
    y: Pair,
}

impl Buffers {
    pub(crate) fn new() -> Buffers {
        Buffers {
            scratch: Scratch::new(),
            x: Pair::empty(),
            y: Pair::empty(),
        }
    }
}
