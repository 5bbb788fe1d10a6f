//! Waksman's network, and the values of its wires.
ghost use Rattle.std.specs.Prelude.{◌≡◌, ◌-◌, ◌*◌, ◌^◌, ◌≤◌, false, IfOk, OnOk};
ghost use Rattle.tv_benes.specs.Items.{bit_at, pair_at};
ghost use Rattle.tv_benes.specs.Network.{network_of, network_values};
ghost use Rattle.tv_benes.specs.OutputLists.{ends_in};
ghost use Rattle.tv_benes.specs.Places.{ArePairsMade, AreBelow};
ghost use Rattle.tv_benes.specs.Through.{switches};
ghost use Rattle.tv_benes.specs.declared.shape.Net.TheVariants.{Waksman};
ghost use Rattle.tv_core.specs.Values.{GivesIn};
ghost use Rattle.tv_core.specs.Sinks.{Emits, Room};

use crate::outputs::Outputs;
use tv_benes::{Inputs, Net, fill_routing_network, routing_network, routing_switches};
use tv_core::{PairNum, Put, Sink, Values};
use tv_word::arithmetic::power;

/// Returns how many switches Waksman's network for 2^`k` items has, `k` being from 1 to 31.
pub fn switches_w(k: u32) -> u64
    requires some { 1 ≤ k }
    requires few { k ≤ 31 }
    ensures { result ≡ switches Waksman (k - 1) }
{
    routing_switches(Net::Waksman, k)
}

/// Waksman's network on 2^`k` items, `k` being from 1 to 31. It makes 5 wires and 5 constraints a
/// switch.
pub fn network_w<S: Sink, I: Inputs>(s: &mut S, k: u32, inputs: &I) -> Put<Outputs>
    requires some { 1 ≤ k }
    requires few { k ≤ 31 }
    requires room { Room S.meaning s.old (5 * switches Waksman (k - 1))
        (5 * switches Waksman (k - 1)) }
    requires count { I.count inputs.now ≡ 2 ^ k }
    requires made { ArePairsMade (I.pair inputs.now) (2 ^ k) (S.meaning.wires s.old) }
    ensures emits { Emits S.meaning s.old s.new
        (network_of Waksman (k - 1) (I.pair inputs.now))
        (5 * switches Waksman (k - 1)) (5 * switches Waksman (k - 1)) (ends_in result) }
    ensures count { IfOk result (λ outputs. outputs.count ≡ 2 ^ k) }
    ensures below { IfOk result (λ outputs. AreBelow outputs.ends (2 ^ k) (S.meaning.wires s.new)) }
{
    let ends = routing_network(s, Net::Waksman, k, inputs)?;
    Ok(Outputs::new(ends, power(k)))
}

/// Assigns the values of the wires that `network_w` makes, for the numbers of its inputs and the
/// bits of its switches in order; a bit or a pair that is not there counts as 0.
pub fn fill_network_w<V: Values>(v: &mut V, k: u32, inputs: &[PairNum], bits: &[bool]) -> Put<()>
    requires whole { V.giving.broken v.old ≡ false }
    requires some { 1 ≤ k }
    requires few { k ≤ 31 }
    ensures gives { GivesIn V.giving v.old v.new
        (network_values Waksman (k - 1) (bit_at bits.now) (pair_at inputs.now)) result }
    ensures whole { OnOk result (V.giving.broken v.new ≡ false) }
{
    fill_routing_network(v, Net::Waksman, k, inputs, bits)
}
