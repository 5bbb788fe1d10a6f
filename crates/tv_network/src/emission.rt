//! A network, emitted into a sink stage by stage.
ghost use Rattle.std.specs.Prelude.{◌≡◌, ◌+◌, ◌*◌, ◌<◌};
ghost use Rattle.tv_core.specs.Sinks.{Emits, Room};
ghost use Rattle.tv_network.specs.Stages.{form_of, item_at, stages_of, stages_wires, stage_of};
ghost use Rattle.tv_network.specs.Stages.{switches_in, wires_before};
ghost use Rattle.tv_network.specs.Slots.{AreItems};
ghost use Rattle.tv_network.specs.Network.{kept_of, loose_count, loose_of, network_of};
ghost use Rattle.tv_network.specs.Network.{network_wires};
ghost use Rattle.tv_network.specs.Switches.{width, IsPairMade};
ghost use Rattle.tv_stages.specs.Stages.{stage_count};

use crate::levels::Levels;
use crate::shape::Network;
use crate::slots::Inputs;
use crate::switches::{Buffers, switch};
use tv_core::{Pair, Put, Scratch, Sink, Wire};

/// Emits a network over these items, of at most 15 terms a combination, and returns its first wire;
/// `Outputs` finds its outputs from there. It makes 5 wires and 5 constraints a switch in bound
/// stages, 3 in open ones, and 2 for a slot that no switch of the last stage has. Allocates
/// nothing.
pub fn network<S: Sink, I: Inputs>(s: &mut S, network: Network, items: &I) -> Put<Wire>
    requires room { Room S.meaning s.old (network_wires network) (network_wires network) }
    requires items { AreItems network (I.pair items.now) (I.count items.now)
        (S.meaning.wires s.old) }
    ensures emits { Emits S.meaning s.old s.new (network_of network (I.pair items.now))
        (network_wires network) (network_wires network) result }
{
    let first = Wire(s.wires());
    let levels = Levels::new(network, first);
    stages(s, &levels, items)?;
    loose(s, &levels, items)?;
    Ok(first)
}

// The wires of the loose slots, which hold what stands there after the last stage.
fn loose<S: Sink, I: Inputs>(s: &mut S, levels: &Levels, items: &I) -> Put<()>
    requires start { levels.now.first + stages_wires levels.now.network ≡ S.meaning.wires s.old }
    requires items { AreItems levels.now.network (I.pair items.now) (I.count items.now)
        levels.now.first }
    requires room { let made = 2 * loose_count levels.now.network
        in Room S.meaning s.old made made }
    ensures emits { let made = 2 * loose_count levels.now.network
        in Emits S.meaning s.old s.new
        (loose_of levels.now.network levels.now.first (I.pair items.now)) made made result }
{
    let mut scratch = Scratch::new();
    let mut item = Pair::empty();
    let network = levels.network;
    for j in 0..network.loose_count() {
        levels.set_item(network.stages(), items, network.loose_slot(j), &mut item);
        kept(s, &mut scratch, &item)?;
    }
    Ok(())
}

// A wire for each of two numbers. It makes 2 wires and 2 constraints.
fn kept<S: Sink>(s: &mut S, scratch: &mut Scratch, x: &Pair) -> Put<()>
    requires room { Room S.meaning s.old 2 2 }
    requires made { IsPairMade 64 x.now (S.meaning.wires s.old) }
    ensures emits { Emits S.meaning s.old s.new (kept_of x.now) 2 2 result }
{
    let first = s.fresh();
    scratch.b.set_wire(Wire(0));
    scratch.c.set_wire(first);
    s.put(&x.first, &scratch.b, &scratch.c)?;
    let second = s.fresh();
    scratch.c.set_wire(second);
    s.put(&x.second, &scratch.b, &scratch.c)
}

// The stages of a network.
fn stages<S: Sink, I: Inputs>(s: &mut S, levels: &Levels, items: &I) -> Put<()>
    requires first { levels.now.first ≡ S.meaning.wires s.old }
    requires items { AreItems levels.now.network (I.pair items.now) (I.count items.now)
        levels.now.first }
    requires room { let made = stages_wires levels.now.network in Room S.meaning s.old made made }
    ensures emits { let made = stages_wires levels.now.network
        in Emits S.meaning s.old s.new (stages_of levels.now.network (I.pair items.now)) made made
        result }
{
    let mut buffers = Buffers::new();
    for l in 0..levels.network.stages() {
        stage(s, &mut buffers, levels, l, items)?;
    }
    Ok(())
}

// Stage `l`.
fn stage<S: Sink, I: Inputs>(
    s: &mut S,
    buffers: &mut Buffers,
    levels: &Levels,
    l: u32,
    items: &I,
) -> Put<()>
    requires within { l < stage_count levels.now.network.items }
    requires start { levels.now.first + wires_before levels.now.network l ≡ S.meaning.wires s.old }
    requires items { AreItems levels.now.network (I.pair items.now) (I.count items.now)
        levels.now.first }
    requires room { let n = levels.now.network in let made = switches_in n l * width (form_of n l)
        in Room S.meaning s.old made made }
    ensures emits { let n = levels.now.network in let made = switches_in n l * width (form_of n l)
        in Emits S.meaning s.old s.new (stage_of n l
        (item_at n levels.now.first (I.pair items.now) l)) made made result }
{
    let level = levels.level(l);
    for at in 0..level.stage.switches() {
        let lower = level.stage.slot(at);
        levels.set_item(l, items, lower, &mut buffers.x);
        levels.set_item(l, items, lower + level.stage.stride(), &mut buffers.y);
        switch(s, &mut buffers.scratch, level.form, &buffers.x, &buffers.y)?;
    }
    Ok(())
}
