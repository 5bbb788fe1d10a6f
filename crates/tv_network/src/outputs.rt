//! The outputs of a network, which are wires.
ghost use Rattle.std.specs.Prelude.{◌≡◌, ◌+◌, ◌^◌, ◌<◌, ◌≤◌};
ghost use Rattle.tv_network.specs.Network.{network_wires, output_of, output_wire, AreOutputs};

use crate::shape::Network;
use crate::slots::set_pair;
use tv_core::{Pair, Wire};

/// The outputs of a network, two wires at each slot. Its size does not depend on the network's.
#[derive(Clone, Copy)]
pub struct Outputs {
    /// The network.
    pub network: Network,
    /// Its first wire.
    pub first: Wire,
    // The first wire of the last stage, and that of the loose slots.
    last: Wire,
    loose: Wire,
    ghost are: { AreOutputs network first last loose },
}

impl Outputs {
    /// Returns the outputs of a network of at most 2^25 items whose wires begin at `first`.
    pub fn new(network: Network, first: Wire) -> Outputs
        requires rate { 1 ≤ network.rate }
        requires few { network.items ≤ 2 ^ 25 }
        requires room { first + network_wires network < 2 ^ 32 }
        ensures network { result.network ≡ network }
        ensures first { result.first ≡ first }
    {
        let loose = first.offset(network.stages_wires() as u32);
        let switches = (network.items - network.loose_count()) / 2;
        Outputs {
            network,
            first,
            last: Wire(loose.0 - 5 * switches),
            loose,
        }
    }

    /// Sets `item` to the two wires of the output at a slot.
    pub fn set_item(&self, slot: u32, item: &mut Pair)
        requires { slot < self.now.network.items }
        ensures { item.new ≡ output_of self.now.network self.now.first slot }
    {
        set_pair(item, self.wire(slot));
    }

    // The first of the two.
    fn wire(&self, slot: u32) -> Wire
        requires { slot < self.now.network.items }
        ensures is { result ≡ output_wire self.now.network self.now.first slot }
        ensures room { result + 1 < 2 ^ 32 }
    {
        match self.network.loose_at(slot) {
            Some(j) => self.loose.offset(2 * j),
            None => {
                // after the bit of its switch, the lower slot's wires before the upper's
                let at = slot / 2 - self.network.loose_count() / 2;
                self.last.offset(5 * at + 1 + 2 * (slot % 2))
            }
        }
    }
}
