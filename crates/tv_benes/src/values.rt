//! The values of a network's wires, for its inputs and the bits of its switches.
ghost use Rattle.std.specs.Prelude.{◌≡◌, suc, false, ◌+◌, ◌-◌, ◌*◌, ◌^◌, ◌<◌, ◌≤◌, OnOk};
ghost use Rattle.tv_benes.specs.Items.{bit_at, pair_at, item_of, depth_of};
ghost use Rattle.tv_benes.specs.Network.{switch_values, column_values};
ghost use Rattle.tv_benes.specs.Network.{last_column_values, network_values};
ghost use Rattle.tv_benes.specs.Through.{switches, missing, from, last_item};
ghost use Rattle.tv_benes.specs.declared.shape.Net.TheVariants.{Benes};
ghost use Rattle.tv_core.specs.Values.{GivesIn};

use crate::items::{Items, bit, bits_from, read, source};
use crate::shape::{Net, level_switches, long_missing, long_power};
use tv_core::{F, PairNum, Put, Values, give_values};

/// Assigns the values of the wires that `network` makes, for the numbers of its inputs and the bits
/// of its switches in order, `k` being from 1 to 31; a bit or a pair that is not there counts as 0.
/// It takes no memory: the item at a switch is found among the inputs, in at most 2k steps.
pub fn fill_network<V: Values>(v: &mut V, k: u32, inputs: &[PairNum], bits: &[bool]) -> Put<()>
    requires whole { V.giving.broken v.old ≡ false }
    requires some { 1 ≤ k }
    requires few { k ≤ 31 }
    ensures gives { GivesIn V.giving v.old v.new
        (network_values Benes (k - 1) (bit_at bits.now) (pair_at inputs.now)) result }
    ensures whole { OnOk result (V.giving.broken v.new ≡ false) }
{
    fill_routing_network(v, Net::Benes, k, inputs, bits)
}

/// Assigns the values of the wires that `routing_network` makes for 2^k items, k from 1 to 31. A
/// bit or an item that is missing counts as 0.
pub fn fill_routing_network<V: Values>(
    v: &mut V,
    net: Net,
    k: u32,
    inputs: &[PairNum],
    bits: &[bool],
) -> Put<()>
    requires whole { V.giving.broken v.old ≡ false }
    requires some { 1 ≤ k }
    requires few { k ≤ 31 }
    ensures gives { GivesIn V.giving v.old v.new
        (network_values net (k - 1) (bit_at bits.now) (pair_at inputs.now)) result }
    ensures whole { OnOk result (V.giving.broken v.new ≡ false) }
{
    fill_level(v, net, k - 1, &Items::Given(inputs), bits)
}

fn switch_values(b: bool, x: PairNum, y: PairNum) -> [F; 5]
    ensures { result ≡ switch_values b x y }
{
    if b {
        [F::ONE, y.first, y.second, x.first, x.second]
    } else {
        [F::ZERO, x.first, x.second, y.first, y.second]
    }
}

// The values of a switch.
fn fill_switch<V: Values>(v: &mut V, b: bool, x: PairNum, y: PairNum) -> Put<()>
    requires whole { V.giving.broken v.old ≡ false }
    ensures gives { GivesIn V.giving v.old v.new (switch_values b x y) result }
    ensures whole { OnOk result (V.giving.broken v.new ≡ false) }
{
    give_values(v, &switch_values(b, x, y))
}

// The values of `n` switches.
fn fill_column<V: Values>(v: &mut V, n: u64, items: &Items<'_>, bits: &[bool]) -> Put<()>
    requires whole { V.giving.broken v.old ≡ false }
    requires near { 2 * n * 2 ^ depth_of items.now ≤ 2 ^ 62 }
    ensures gives { GivesIn V.giving v.old v.new
        (column_values n (bit_at bits.now) (item_of items.now)) result }
    ensures whole { OnOk result (V.giving.broken v.new ≡ false) }
{
    for j in 0..n {
        let x = read(items, 2 * j);
        let y = read(items, 2 * j + 1);
        fill_switch(v, bit(bits, j), x, y)?;
    }
    Ok(())
}

// The values of switch `j` of the last column of a network of level `h` + 1 on these items.
fn fill_last_switch<V: Values>(
    v: &mut V,
    net: Net,
    h: u32,
    items: &Items<'_>,
    bits: &[bool],
    j: u64,
) -> Put<()>
    requires whole { V.giving.broken v.old ≡ false }
    requires level { h < 30 }
    requires near { 2 ^ suc (suc h) * 2 ^ depth_of items.now ≤ 2 ^ 62 }
    requires within { j + missing net < 2 ^ suc h }
    ensures gives { let bit = bit_at bits.now
        in let item = last_item net h bit (item_of items.now)
        in GivesIn V.giving v.old v.new (switch_values
        (from (2 ^ suc h + 2 * switches net h) bit j) (item (2 * j)) (item (2 * j + 1))) result }
    ensures whole { OnOk result (V.giving.broken v.new ≡ false) }
{
    let n = long_power(h + 1);
    let s = level_switches(net, h);
    let i = j + long_missing(net);
    let from_upper = source(net, bits_from(bits, n), h, i);
    let from_lower = source(net, bits_from(bits, n + s), h, i);
    let x = read(&Items::Half(&*items, bits, false), from_upper);
    let y = read(&Items::Half(&*items, bits, true), from_lower);
    fill_switch(v, bit(bits, n + 2 * s + j), x, y)
}

// The values of that whole column.
fn fill_last<V: Values>(v: &mut V, net: Net, h: u32, items: &Items<'_>, bits: &[bool]) -> Put<()>
    requires whole { V.giving.broken v.old ≡ false }
    requires level { h < 30 }
    requires near { 2 ^ suc (suc h) * 2 ^ depth_of items.now ≤ 2 ^ 62 }
    ensures gives { GivesIn V.giving v.old v.new
        (last_column_values net h (bit_at bits.now) (item_of items.now))
        result }
    ensures whole { OnOk result (V.giving.broken v.new ≡ false) }
{
    let n = long_power(h + 1) - long_missing(net);
    for j in 0..n {
        fill_last_switch(v, net, h, items, bits, j)?;
    }
    Ok(())
}

// The values of a network of level `h` on these items.
fn fill_level<V: Values>(v: &mut V, net: Net, h: u32, items: &Items<'_>, bits: &[bool]) -> Put<()>
    requires whole { V.giving.broken v.old ≡ false }
    requires level { h < 31 }
    requires near { 2 ^ suc h * 2 ^ depth_of items.now ≤ 2 ^ 62 }
    ensures gives { GivesIn V.giving v.old v.new
        (network_values net h (bit_at bits.now) (item_of items.now)) result }
    ensures whole { OnOk result (V.giving.broken v.new ≡ false) }
{
    if h == 0 {
        return fill_column(v, 1, items, bits);
    }
    let n = long_power(h);
    let below = h - 1;
    let s = level_switches(net, below);
    fill_column(v, n, items, bits)?;
    let upper = Items::Half(&*items, bits, false);
    fill_level(v, net, below, &upper, bits_from(bits, n))?;
    let lower = Items::Half(&*items, bits, true);
    fill_level(v, net, below, &lower, bits_from(bits, n + s))?;
    fill_last(v, net, below, items, bits)
}
