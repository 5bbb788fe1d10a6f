//! The values of a network's wires, while the items move to where they come out.
ghost use Rattle.std.specs.Prelude.{◌≡◌, ℕ, ◌+◌, ◌^◌, ◌<◌, ◌≤◌, false, get_or, length, OnOk};
ghost use Rattle.tv_core.specs.Below.{joined_below};
ghost use Rattle.tv_core.specs.Values.{GivesIn};
ghost use Rattle.tv_network.specs.Filling.{exchanged, pair_at};
ghost use Rattle.tv_network.specs.Network.{kept_values, loose_count, loose_slot, network_values};
ghost use Rattle.tv_network.specs.Stages.{stages_values, stage_values};
ghost use Rattle.tv_network.specs.Switches.{passed, switch_values};
ghost use Rattle.tv_stages.specs.Stages.{bit_in, first_switch, places, stage, stage_count};
ghost use Rattle.tv_stages.specs.Stages.{through_stages};

use crate::shape::Network;
use crate::switches::{Form, fill_switch};
use tv_core::{PairNum, Put, Values, give_values};

/// Assigns the values of the wires that `network` makes, for the numbers of its items and the bits
/// of its switches, stage after stage in order of position; a bit that is not there counts as 0. It
/// moves the items to the slots where they come out; after a refusal they are left somewhere.
/// Allocates nothing.
pub fn fill_network<V: Values>(
    v: &mut V,
    network: Network,
    items: &mut [PairNum],
    bits: &[bool],
) -> Put<()>
    requires whole { V.giving.broken v.old ≡ false }
    requires rate { 1 ≤ network.rate }
    requires few { network.items ≤ 2 ^ 25 }
    requires items { length items.old ≡ network.items }
    ensures gives { GivesIn V.giving v.old v.new (network_values network
        (bit_in network.net network.items bits.now) (pair_at items.old)) result }
    ensures whole { OnOk result (V.giving.broken v.new ≡ false) }
    ensures moved { OnOk result (items.new ≡ places network.items
        (through_stages network.net network.items (bit_in network.net network.items bits.now)
        (pair_at items.old))) }
{
    fill_stages(v, network, items, bits)?;
    fill_loose(v, network, items)
}

// Assigns the values of the loose slots' wires, where the items came out.
fn fill_loose<V: Values>(v: &mut V, network: Network, items: &[PairNum]) -> Put<()>
    requires whole { V.giving.broken v.old ≡ false }
    requires items { length items.now ≡ network.items }
    ensures gives { GivesIn V.giving v.old v.new (joined_below (loose_count network)
        (λ j. kept_values (pair_at items.now (loose_slot network j)))) result }
    ensures whole { OnOk result (V.giving.broken v.new ≡ false) }
{
    for j in 0..network.loose_count() {
        let item = items[network.loose_slot(j) as usize];
        give_values(v, &[item.first, item.second])?;
    }
    Ok(())
}

// The same of the stages' wires.
fn fill_stages<V: Values>(
    v: &mut V,
    network: Network,
    items: &mut [PairNum],
    bits: &[bool],
) -> Put<()>
    requires whole { V.giving.broken v.old ≡ false }
    requires rate { 1 ≤ network.rate }
    requires few { network.items ≤ 2 ^ 25 }
    requires items { length items.old ≡ network.items }
    ensures gives { GivesIn V.giving v.old v.new (stages_values network
        (bit_in network.net network.items bits.now) (pair_at items.old)) result }
    ensures whole { OnOk result (V.giving.broken v.new ≡ false) }
    ensures moved { OnOk result (items.new ≡ places network.items
        (through_stages network.net network.items (bit_in network.net network.items bits.now)
        (pair_at items.old))) }
{
    let mut from: usize = 0;
    for l in 0..network.stages() {
        fill_stage(v, network, l, items, bits, from)?;
        from += network.stage(l).switches() as usize;
    }
    Ok(())
}

// The same of stage `l`, whose first bit is at `from`.
fn fill_stage<V: Values>(
    v: &mut V,
    network: Network,
    l: u32,
    items: &mut [PairNum],
    bits: &[bool],
    from: usize,
) -> Put<()>
    requires whole { V.giving.broken v.old ≡ false }
    requires rate { 1 ≤ network.rate }
    requires few { network.items ≤ 2 ^ 25 }
    requires within { l < stage_count network.items }
    requires items { length items.old ≡ network.items }
    requires from { from ≡ first_switch network.net network.items l }
    requires near { from ≤ 2 ^ 31 }
    ensures gives { GivesIn V.giving v.old v.new (stage_values network l
        (bit_in network.net network.items bits.now l) (pair_at items.old)) result }
    ensures whole { OnOk result (V.giving.broken v.new ≡ false) }
    ensures moved { OnOk result ((x : ℕ) → x < network.items → pair_at items.new x
        ≡ stage network.net network.items (bit_in network.net network.items bits.now) l
        (pair_at items.old) x) }
{
    let stage = network.stage(l);
    let form = network.form(l);
    for at in 0..stage.switches() {
        let x = stage.slot(at) as usize;
        let y = x + stage.stride() as usize;
        fill_at(v, form, bit(bits, from + at as usize), items, x, y)?;
    }
    Ok(())
}

// The same of a switch between two slots, whose bit is `b`.
fn fill_at<V: Values>(
    v: &mut V,
    form: Form,
    b: bool,
    items: &mut [PairNum],
    x: usize,
    y: usize,
) -> Put<()>
    requires whole { V.giving.broken v.old ≡ false }
    requires x { x < length items.old }
    requires y { y < length items.old }
    ensures gives { GivesIn V.giving v.old v.new
        (switch_values form b (pair_at items.old x) (pair_at items.old y)) result }
    ensures whole { OnOk result (V.giving.broken v.new ≡ false) }
    ensures moved { items.new ≡ exchanged b x y items.old }
{
    let lower = items[x];
    let upper = items[y];
    items[x] = passed(b, &lower, &upper);
    items[y] = passed(b, &upper, &lower);
    fill_switch(v, form, b, lower, upper)
}

// What stands after a switch where `x` stood, `y` being the other item.
fn passed(b: bool, x: &PairNum, y: &PairNum) -> PairNum
    ensures { result ≡ passed b x.now y.now }
{
    if b { *y } else { *x }
}

// The bit at a place, 0 past the end.
fn bit(bits: &[bool], at: usize) -> bool
    ensures { result ≡ get_or bits.now at false }
{
    bits.get(at).copied().unwrap_or(false)
}
