//! Either network, emitted into a sink.
ghost use Rattle.std.specs.Prelude.{◌≡◌, ◌+◌, ◌-◌, ◌*◌, ◌^◌, ◌<◌, ◌≤◌, IfOk};
ghost use Rattle.tv_benes.specs.Network.{last_column_of, network_of};
ghost use Rattle.tv_benes.specs.OutputLists.{ends_in};
ghost use Rattle.tv_benes.specs.Places.{item_in, count_in, ArePairsMade, AreBelow};
ghost use Rattle.tv_benes.specs.Through.{switches, missing};
ghost use Rattle.tv_benes.specs.declared.shape.Net.TheVariants.{Benes};
ghost use Rattle.tv_core.specs.Sinks.{Emits, Room};

use crate::columns::{Buffers, column};
use crate::outputs::Outputs;
use crate::places::{ColumnItems, Ends, Inputs, column_outputs, last_outputs};
use crate::shape::Net;
use tv_core::{Put, Sink, Wire};
use tv_word::arithmetic::power;

/// Benes' network on 2^`k` items, `k` being from 1 to 31. It makes 5 wires and 5 constraints a
/// switch; it keeps no list, and asks `inputs` for each item once.
pub fn network<S: Sink, I: Inputs>(s: &mut S, k: u32, inputs: &I) -> Put<Outputs>
    requires some { 1 ≤ k }
    requires few { k ≤ 31 }
    requires room { Room S.meaning s.old (5 * switches Benes (k - 1)) (5 * switches Benes (k - 1)) }
    requires count { I.count inputs.now ≡ 2 ^ k }
    requires made { ArePairsMade (I.pair inputs.now) (2 ^ k) (S.meaning.wires s.old) }
    ensures emits { Emits S.meaning s.old s.new (network_of Benes (k - 1) (I.pair inputs.now))
        (5 * switches Benes (k - 1)) (5 * switches Benes (k - 1)) (ends_in result) }
    ensures count { IfOk result (λ outputs. outputs.count ≡ 2 ^ k) }
    ensures below { IfOk result (λ outputs. AreBelow outputs.ends (2 ^ k) (S.meaning.wires s.new)) }
{
    let ends = routing_network(s, Net::Benes, k, inputs)?;
    Ok(Outputs::new(ends, power(k)))
}

/// Either network on 2^`k` items, `k` being from 1 to 31. It returns where its outputs stand.
pub fn routing_network<S: Sink, I: Inputs>(s: &mut S, net: Net, k: u32, inputs: &I) -> Put<Ends>
    requires some { 1 ≤ k }
    requires few { k ≤ 31 }
    requires room { Room S.meaning s.old (5 * switches net (k - 1)) (5 * switches net (k - 1)) }
    requires count { I.count inputs.now ≡ 2 ^ k }
    requires made { ArePairsMade (I.pair inputs.now) (2 ^ k) (S.meaning.wires s.old) }
    ensures emits { Emits S.meaning s.old s.new (network_of net (k - 1) (I.pair inputs.now))
        (5 * switches net (k - 1)) (5 * switches net (k - 1)) result }
    ensures below { IfOk result (λ outputs. AreBelow outputs (2 ^ k) (S.meaning.wires s.new)) }
{
    level(
        s,
        &mut Buffers::new(),
        net,
        k - 1,
        &ColumnItems::Given(inputs),
    )
}

// A network of level `h` on these items.
fn level<S: Sink, I: Inputs>(
    s: &mut S,
    buffers: &mut Buffers,
    net: Net,
    h: u32,
    items: &ColumnItems<'_, I>,
) -> Put<Ends>
    requires level { h < 31 }
    requires room { Room S.meaning s.old (5 * switches net h) (5 * switches net h) }
    requires count { 2 * 2 ^ h ≤ count_in I.count items.now }
    requires made { ArePairsMade (item_in I.pair items.now) (2 * 2 ^ h) (S.meaning.wires s.old) }
    ensures emits { Emits S.meaning s.old s.new (network_of net h (item_in I.pair items.now))
        (5 * switches net h) (5 * switches net h) result }
{
    let first = Wire(s.wires());
    column(s, buffers, power(h), items)?;
    if h == 0 {
        return Ok(column_outputs(first));
    }
    let items = ColumnItems::<I>::Row(first.offset(1));
    let upper = level(s, buffers, net, h - 1, &items)?;
    let items = ColumnItems::<I>::Row(first.offset(3));
    let lower = level(s, buffers, net, h - 1, &items)?;
    last_column::<S, I>(s, buffers, net, h, &upper, &lower)
}

// The last column of a network of level `h`, over the outputs of the two networks before it.
fn last_column<S: Sink, I: Inputs>(
    s: &mut S,
    buffers: &mut Buffers,
    net: Net,
    h: u32,
    upper: &Ends,
    lower: &Ends,
) -> Put<Ends>
    requires level { h < 31 }
    requires some { 1 ≤ h }
    requires room { Room S.meaning s.old (5 * (2 ^ h - missing net)) (5 * (2 ^ h - missing net)) }
    requires upper { AreBelow upper.now (2 ^ h) (S.meaning.wires s.old) }
    requires lower { AreBelow lower.now (2 ^ h) (S.meaning.wires s.old) }
    ensures emits { Emits S.meaning s.old s.new (last_column_of net h upper.now lower.now)
        (5 * (2 ^ h - missing net)) (5 * (2 ^ h - missing net)) result }
{
    let n = power(h) - net.missing();
    let first = Wire(s.wires());
    let items = ColumnItems::<I>::Joined(net, upper, lower);
    column(s, buffers, n, &items)?;
    Ok(last_outputs(net, first, upper, lower))
}
