//! A network, its stages, and which of them are bound.
ghost use Rattle.std.specs.Prelude.{◌≡◌, ◌≤◌, ◌<◌, ◌^◌, if◌then◌else◌, Some, None};
ghost use Rattle.tv_network.specs.Network.{is_loose, left_out, loose_count, loose_number};
ghost use Rattle.tv_network.specs.Network.{loose_slot, network_wires};
ghost use Rattle.tv_network.specs.Stages.{form_of, stages_wires, wires_before};
ghost use Rattle.tv_stages.specs.Stages.{stage_count};

use crate::switches::Form;
use tv_stages::{Net, Stage, stage_count};

/// A network of any number of items. A stage is bound if its distance from the outside, counted
/// from 0, is a multiple of `rate`, which is at least 1; the others are open.
#[derive(Clone, Copy, PartialEq, Eq, Debug)]
pub struct Network {
    /// Which switches it has.
    pub net: Net,
    /// How many items.
    pub items: u32,
    /// How far apart the bound stages are.
    pub rate: u32,
}

impl Network {
    // How many stages there are, at most 49 for 2^25 items.
    pub(crate) fn stages(self) -> u32
        requires { self.items ≤ 2 ^ 25 }
        ensures is { result ≡ stage_count self.items }
        ensures few { result ≤ 49 }
    {
        stage_count(self.items)
    }

    // Stage `l`.
    pub(crate) fn stage(self, l: u32) -> Stage
        requires few { self.items ≤ 2 ^ 25 }
        requires within { l < stage_count self.items }
        ensures net { result.net ≡ self.net }
        ensures slots { result.slots ≡ self.items }
        ensures number { result.number ≡ l }
    {
        Stage::new(self.net, self.items, l)
    }

    // Its form.
    pub(crate) fn form(self, l: u32) -> Form
        requires few { self.items ≤ 2 ^ 25 }
        requires rate { 1 ≤ self.rate }
        requires within { l < stage_count self.items }
        ensures { result ≡ form_of self l }
    {
        let across = self.stages() - 1 - l;
        if l.min(across) % self.rate == 0 {
            Form::Bound
        } else {
            Form::Open
        }
    }

    // How many wires the stages make.
    pub(crate) fn stages_wires(self) -> u64
        requires few { self.items ≤ 2 ^ 25 }
        requires rate { 1 ≤ self.rate }
        ensures is { result ≡ stages_wires self }
        ensures few { result < 2 ^ 33 }
    {
        let mut wires: u64 = 0;
        for l in 0..self.stages() {
            let width = u64::from(self.form(l).width());
            wires += u64::from(self.stage(l).switches()) * width;
        }
        wires
    }

    /// Returns how many wires the network makes, and how many constraints: fewer than 2^34.
    pub fn wires(self) -> u64
        requires few { self.items ≤ 2 ^ 25 }
        requires rate { 1 ≤ self.rate }
        ensures is { result ≡ network_wires self }
        ensures few { result < 2 ^ 34 }
    {
        self.stages_wires() + 2 * u64::from(self.loose_count())
    }

    // How many slots are at no switch of the last stage: the loose ones.
    pub(crate) fn loose_count(self) -> u32
        ensures { result ≡ loose_count self }
    {
        if self.items % 2 == 1 {
            1
        } else {
            left_out(self.net, self.items)
        }
    }

    // The loose slot with a number.
    pub(crate) fn loose_slot(self, j: u32) -> u32
        ensures { result ≡ loose_slot self j }
    {
        if self.items % 2 == 1 {
            self.items - 1
        } else {
            j
        }
    }

    // The number of a loose slot, if this is one.
    pub(crate) fn loose_at(self, slot: u32) -> Option<u32>
        requires { slot < self.items }
        ensures { result ≡ (if is_loose self slot then Some (loose_number self slot) else None) }
    {
        if self.items % 2 == 1 {
            if slot == self.items - 1 {
                Some(0)
            } else {
                None
            }
        } else if slot < left_out(self.net, self.items) {
            Some(slot)
        } else {
            None
        }
    }
}

// How many of an even number of slots are loose.
fn left_out(net: Net, items: u32) -> u32
    ensures { result ≡ left_out net items }
{
    match net {
        Net::Benes => 0,
        Net::Waksman => { if items > 2 { 2 } else { 0 } }
    }
}
