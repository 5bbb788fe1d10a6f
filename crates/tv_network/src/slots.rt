//! The items of a network, and what its switches pass on.
ghost use Rattle.std.specs.Prelude.{◌≡◌, ℕ, ◌+◌, ◌<◌, ◌^◌, length};
ghost use Rattle.tv_core.specs.declared.lines.Pair.{Pair};
ghost use Rattle.tv_network.specs.Switches.{passed_to, wires_at};
ghost use Rattle.tv_network.specs.declared.switches.Form.TheVariants.{Bound, Open};
ghost use Rattle.tv_stages.specs.Stages.{depth, is_low};

use tv_core::{F, Pair, Wire};
use tv_stages::Stage;

/// The items that go into a network, indexed by slot: contracts see them as the function `pair`,
/// for slots below `count`.
pub trait Inputs {
    ghost pair: { Self → ℕ → Pair };

    ghost count: { Self → ℕ };

    /// Sets `item` to the item at slot `i`. A network asks for an item some few times, and reuses
    /// the same two pairs for each switch.
    fn set_item(&self, i: u32, item: &mut Pair)
        requires { i < count self.now }
        ensures { item.new ≡ pair self.now i };
}

// Whether a slot is the lower one of the two of its switch.
pub(crate) fn is_low(stage: &Stage, slot: u32) -> bool
    ensures { result ≡ is_low (depth stage.now.slots stage.now.number) slot }
{
    slot / stage.stride() % 2 == 0
}

// Makes `item` what a bound switch passes on to its lower slot, or to the upper one.
pub(crate) fn set_wires(item: &mut Pair, low: bool, switch: Wire)
    requires { switch + 4 < 2 ^ 32 }
    ensures { item.new ≡ passed_to Bound low switch item.old }
{
    set_pair(item, switch.offset(if low { 1 } else { 3 }));
}

// Makes `item` the wire `w` and the one after it.
pub(crate) fn set_pair(item: &mut Pair, w: Wire)
    requires { w + 1 < 2 ^ 32 }
    ensures { item.new ≡ wires_at w }
{
    item.first.set_wire(w);
    item.second.set_wire(w.offset(1));
}

// Makes of `item` what an open switch passes on to its lower slot, or to the upper one.
pub(crate) fn add_products(item: &mut Pair, low: bool, switch: Wire)
    requires switch { switch + 2 < 2 ^ 32 }
    requires first { length item.old.first < 128 }
    requires second { length item.old.second < 128 }
    ensures { item.new ≡ passed_to Open low switch item.old }
{
    let sign = if low { -F::ONE } else { F::ONE };
    item.first.plus(sign, switch.offset(1));
    item.second.plus(sign, switch.offset(2));
}
