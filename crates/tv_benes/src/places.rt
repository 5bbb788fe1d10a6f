//! Where the items stand that go into a network, pass through it and come out of it.
ghost use Rattle.std.specs.Prelude.{◌≡◌, ℕ, ◌+◌, ◌<◌, ◌≤◌, ◌^◌};
ghost use Rattle.tv_core.specs.Combinations.{top};
ghost use Rattle.tv_core.specs.declared.lines.Pair.{Pair};
ghost use Rattle.tv_benes.specs.Places.{wires_at, item_in, count_in};
ghost use Rattle.tv_benes.specs.Places.{output, output_wire, column_outputs, last_outputs};

use crate::shape::Net;
use tv_core::{Pair, Wire};

/// The items that go into a network, indexed by position: contracts see them as the function
/// `pair`, for places below `count`. A network asks for each of them once.
pub trait Inputs {
    ghost pair: { Self → ℕ → Pair };

    ghost count: { Self → ℕ };

    /// Returns the item at place `i`.
    fn at(&self, i: u32) -> Pair
        requires { i < count self.now }
        ensures { result ≡ pair self.now i };

    /// Sets `item` to the item at place `i`. A network reuses the same two pairs for each switch,
    /// so an input that can write its combinations in place does so here.
    fn set_item(&self, i: u32, item: &mut Pair)
        requires { i < count self.now }
        ensures { item.new ≡ pair self.now i }
    {
        *item = self.at(i);
    }
}

// The items of a column: those that go into the network; every fifth pair of wires from one on,
// which the column before it passes first, or second; or the outputs of two networks, in turn.
#[derive(Drop)]
pub(crate) enum ColumnItems<'a, I> {
    Given(&'a I),
    Row(Wire),
    Joined(Net, &'a Ends, &'a Ends),
}

impl<'a, I: Inputs> ColumnItems<'a, I> {
    // Makes `item` the item at place `i`.
    pub(crate) fn set_item(&self, i: u32, item: &mut Pair)
        requires within { i < count_in I.count self.now }
        requires made { top (item_in I.pair self.now i).second ≤ 2 ^ 32 }
        ensures { item.new ≡ item_in I.pair self.now i }
    {
        match self {
            ColumnItems::Given(inputs) => inputs.set_item(i, item),
            ColumnItems::Row(first) => set_wires(item, first.offset(5 * i)),
            ColumnItems::Joined(net, upper, lower) => {
                let i = i + 2 * net.missing();
                let network = if i % 2 == 0 { upper } else { lower };
                network.set_item(i / 2, item);
            }
        }
    }
}

// Makes `item` the pair of wires from `w` on.
fn set_wires(item: &mut Pair, w: Wire)
    requires { w + 1 < 2 ^ 32 }
    ensures { item.new ≡ wires_at w }
{
    item.first.set_wire(w);
    item.second.set_wire(w.offset(1));
}

/// Where the outputs of a network stand. Each is two wires that follow each other, and the outputs
/// from the third on stand regularly, five wires a switch.
#[derive(Clone, Copy, PartialEq, Eq, Debug)]
pub struct Ends {
    /// The first wire of output 0.
    pub first: Wire,
    /// The first wire of output 1.
    pub second: Wire,
    /// The first wire of the switches whose outputs are the others.
    pub others: Wire,
}

impl Ends {
    // Sets `item` to output `i`.
    fn set_item(&self, i: u32, item: &mut Pair)
        requires { output_wire self.now i + 1 < 2 ^ 32 }
        ensures { item.new ≡ output self.now i }
    {
        set_wires(item, self.wire(i));
    }

    // The first wire of output `i`.
    pub(crate) fn wire(&self, i: u32) -> Wire
        requires { output_wire self.now i < 2 ^ 32 }
        ensures { result ≡ output_wire self.now i }
    {
        if i == 0 {
            return self.first;
        }
        if i == 1 {
            return self.second;
        }
        let skipped = if i % 2 == 0 { 1 } else { 3 };
        self.others.offset(skipped + 5 * ((i - 2) / 2))
    }
}

// The outputs of a column whose wires begin at `first` and that has all its switches.
pub(crate) fn column_outputs(first: Wire) -> Ends
    requires { first + 5 < 2 ^ 32 }
    ensures { result ≡ column_outputs first }
{
    Ends {
        first: first.offset(1),
        second: first.offset(3),
        others: first.offset(5),
    }
}

// The outputs of a last column whose wires begin at `first`.
pub(crate) fn last_outputs(net: Net, first: Wire, upper: &Ends, lower: &Ends) -> Ends
    requires { first + 5 < 2 ^ 32 }
    ensures { result ≡ last_outputs net first upper.now lower.now }
{
    match net {
        Net::Benes => column_outputs(first),
        Net::Waksman => Ends {
            first: upper.first,
            second: lower.first,
            others: first,
        },
    }
}
