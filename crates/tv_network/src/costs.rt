//! What a network costs in terms.
ghost use Rattle.std.specs.Prelude.{◌≡◌, ◌+◌, ◌*◌, ◌^◌, ◌<◌, ◌≤◌, length};
ghost use Rattle.tv_core.specs.Below.{sum_below};
ghost use Rattle.tv_network.specs.Costs.{stages_terms, number_terms, stage_terms, switch_terms};
ghost use Rattle.tv_network.specs.Network.{kept_terms, loose_count, loose_slot, network_terms};
ghost use Rattle.tv_network.specs.Network.{network_wires};
ghost use Rattle.tv_network.specs.Stages.{item_at, stages_wires};
ghost use Rattle.tv_network.specs.Slots.{AreItems};
ghost use Rattle.tv_network.specs.Switches.{IsPairMade};
ghost use Rattle.tv_network.specs.declared.switches.Form.TheVariants.{Bound, Open};
ghost use Rattle.tv_stages.specs.Stages.{stage_count};

use crate::levels::Levels;
use crate::shape::Network;
use crate::slots::Inputs;
use crate::switches::{Buffers, Form};
use tv_core::{F, Lc, Pair, Wire};

/// Returns how many terms the constraints have that `network` emits over these items, where its
/// wires begin at `first`: fewer than 2^43. It takes no memory, and less time than to emit them.
pub fn network_terms<I: Inputs>(network: Network, first: Wire, items: &I) -> u64
    requires items { AreItems network (I.pair items.now) (I.count items.now) first }
    requires room { first + network_wires network < 2 ^ 32 }
    ensures is { result ≡ network_terms network first (I.pair items.now) }
    ensures few { result < 2 ^ 43 }
{
    let levels = Levels::new(network, first);
    stages_terms(&levels, items) + loose_terms(&levels, items)
}

// Of the loose slots, after the last stage.
fn loose_terms<I: Inputs>(levels: &Levels, items: &I) -> u64
    requires items { AreItems levels.now.network (I.pair items.now) (I.count items.now)
        levels.now.first }
    ensures is { let n = levels.now.network in result ≡ sum_below (loose_count n) (λ j. kept_terms
        (item_at n levels.now.first (I.pair items.now) (stage_count n.items) (loose_slot n j))) }
    ensures few { result < 2 ^ 42 }
{
    let mut terms: u64 = 0;
    let mut item = Pair::empty();
    let network = levels.network;
    for j in 0..network.loose_count() {
        levels.set_item(network.stages(), items, network.loose_slot(j), &mut item);
        terms += (item.first.terms().len() + item.second.terms().len() + 4) as u64;
    }
    terms
}

// Of the stages.
fn stages_terms<I: Inputs>(levels: &Levels, items: &I) -> u64
    requires items { AreItems levels.now.network (I.pair items.now) (I.count items.now)
        levels.now.first }
    ensures is { result ≡ stages_terms levels.now.network levels.now.first (I.pair items.now) }
    ensures few { result < 2 ^ 42 }
{
    let mut buffers = Buffers::new();
    let mut terms: u64 = 0;
    for l in 0..levels.network.stages() {
        terms += stage_terms(&mut buffers, levels, l, items);
    }
    terms
}

// Of stage `l`.
fn stage_terms<I: Inputs>(buffers: &mut Buffers, levels: &Levels, l: u32, items: &I) -> u64
    requires within { l < stage_count levels.now.network.items }
    requires items { AreItems levels.now.network (I.pair items.now) (I.count items.now)
        levels.now.first }
    ensures is { result ≡ stage_terms levels.now.network l
        (item_at levels.now.network levels.now.first (I.pair items.now) l) }
    ensures few { result ≤ 2 ^ 25 * 655 }
{
    let level = levels.level(l);
    let mut terms: u64 = 0;
    for at in 0..level.stage.switches() {
        let lower = level.stage.slot(at);
        levels.set_item(l, items, lower, &mut buffers.x);
        levels.set_item(l, items, lower + level.stage.stride(), &mut buffers.y);
        let switch = switch_terms(&mut buffers.scratch.a, level.form, &buffers.x, &buffers.y);
        terms += u64::from(switch);
    }
    terms
}

// Of a switch.
fn switch_terms(scratch: &mut Lc, form: Form, x: &Pair, y: &Pair) -> u32
    requires x { IsPairMade 64 x.now (2 ^ 32) }
    requires y { IsPairMade 64 y.now (2 ^ 32) }
    ensures is { result ≡ switch_terms form x.now y.now }
    ensures few { result ≤ 655 }
{
    let first = number_terms(scratch, form, &x.first, &y.first);
    3 + first + number_terms(scratch, form, &x.second, &y.second)
}

// The same for one number of each item.
fn number_terms(scratch: &mut Lc, form: Form, x: &Lc, y: &Lc) -> u32
    requires x { length x.now ≤ 64 }
    requires y { length y.now ≤ 64 }
    ensures is { result ≡ number_terms form x.now y.now }
    ensures few { result ≤ 325 }
{
    match form {
        Form::Bound => bound_terms(scratch, x, y),
        Form::Open => open_terms(scratch, x, y),
    }
}

fn bound_terms(scratch: &mut Lc, x: &Lc, y: &Lc) -> u32
    requires x { length x.now ≤ 64 }
    requires y { length y.now ≤ 64 }
    ensures is { result ≡ number_terms Bound x.now y.now }
    ensures few { result ≤ 325 }
{
    scratch.clear();
    scratch.add_terms(y.terms());
    scratch.add_scaled(-F::ONE, x.terms());
    let difference = scratch.terms().len();
    scratch.clear();
    scratch.add_terms(x.terms());
    scratch.add_terms(y.terms());
    let sum = scratch.terms().len();
    (1 + difference + (x.terms().len() + 1) + (sum + 1 + 2)) as u32
}

fn open_terms(scratch: &mut Lc, x: &Lc, y: &Lc) -> u32
    requires x { length x.now ≤ 64 }
    requires y { length y.now ≤ 64 }
    ensures is { result ≡ number_terms Open x.now y.now }
    ensures few { result ≤ 325 }
{
    scratch.clear();
    scratch.add_terms(x.terms());
    scratch.add_scaled(-F::ONE, y.terms());
    (1 + scratch.terms().len() + 1) as u32
}
