//! The stages of a network in a table, and what stands at the slots before each.
ghost use Rattle.std.specs.Prelude.{◌≡◌, ◌+◌, ◌<◌, ◌≤◌, ◌^◌};
ghost use Rattle.tv_network.specs.Slots.{AreItems, AreLevels, IsLevel};
ghost use Rattle.tv_network.specs.Stages.{item_at, stages_wires};
ghost use Rattle.tv_stages.specs.Stages.{stage_count};

use crate::shape::Network;
use crate::slots::{Inputs, add_products, is_low, set_wires};
use crate::switches::Form;
use tv_core::{Pair, Wire};
use tv_stages::{Net, Stage};

// A stage of a network: its switches, their form, and the first of their wires.
#[derive(Clone, Copy)]
pub(crate) struct Level {
    pub(crate) stage: Stage,
    pub(crate) form: Form,
    pub(crate) start: Wire,
}

// The stages of a network whose wires begin at `first`, about 2 KB: pass it by reference. It keeps
// no list of what stands at a slot before a stage: that is found from the stages before, back to
// the last that made wires for it.
#[derive(Clone, Copy)]
pub(crate) struct Levels {
    pub(crate) network: Network,
    pub(crate) first: Wire,
    levels: [Level; 49],
    ghost are: { AreLevels network first levels },
}

impl Levels {
    pub(crate) fn new(network: Network, first: Wire) -> Levels
        requires rate { 1 ≤ network.rate }
        requires few { network.items ≤ 2 ^ 25 }
        requires room { first + stages_wires network < 2 ^ 32 }
        ensures network { result.network ≡ network }
        ensures first { result.first ≡ first }
    {
        let mut levels = [blank(); 49];
        let mut start = first;
        for l in 0..network.stages() {
            let stage = network.stage(l);
            let form = network.form(l);
            levels[l as usize] = Level { stage, form, start };
            start = start.offset(stage.switches() * form.width());
        }
        Levels {
            network,
            first,
            levels,
        }
    }

    // Stage `l`.
    pub(crate) fn level(&self, l: u32) -> &Level
        requires { l < stage_count self.now.network.items }
        ensures { IsLevel self.now.network self.now.first l result.now }
    {
        &self.levels[l as usize]
    }

    // Sets `item` to what stands at a slot before stage `l`, or after the last.
    pub(crate) fn set_item<I: Inputs>(&self, l: u32, items: &I, slot: u32, item: &mut Pair)
        requires within { l ≤ stage_count self.now.network.items }
        requires items { AreItems self.now.network (I.pair items.now) (I.count items.now)
            self.now.first }
        requires slot { slot < self.now.network.items }
        ensures { item.new ≡ item_at self.now.network self.now.first (I.pair items.now) l slot }
    {
        if l == 0 {
            return items.set_item(slot, item);
        }
        let level = self.level(l - 1);
        match level.stage.position(slot) {
            None => self.set_item(l - 1, items, slot, item),
            Some(at) => {
                let switch = level.start.offset(at * level.form.width());
                match level.form {
                    Form::Bound => set_wires(item, is_low(&level.stage, slot), switch),
                    Form::Open => {
                        self.set_item(l - 1, items, slot, item);
                        add_products(item, is_low(&level.stage, slot), switch);
                    }
                }
            }
        }
    }
}

// What stands in the table past the last stage.
fn blank() -> Level {
    Level {
        stage: Stage::new(Net::Benes, 2, 0),
        form: Form::Bound,
        start: Wire(0),
    }
}
