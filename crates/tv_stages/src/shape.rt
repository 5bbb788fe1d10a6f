//! The stages of a network, and where the switches of a stage are.
ghost use Rattle.std.specs.Prelude.{◌≡◌, ◌+◌, ◌*◌, ◌^◌, ◌<◌, ◌≤◌};
ghost use Rattle.tv_stages.specs.declared.nets.Net.TheVariants.{Waksman};
ghost use Rattle.tv_stages.specs.Shape.{IsStage};
ghost use Rattle.tv_stages.specs.Stages.{height, stage_count, depth, pairs, number_count};
ghost use Rattle.tv_stages.specs.Stages.{gap_start, gap_size, switch_count, number, switch_slot};
ghost use Rattle.tv_stages.specs.Stages.{insert_bit, remove_bit, switch_at, first_switch, switches};

use crate::nets::Net;
use tv_word::arithmetic::power;

/// Returns the number of bits of the last slot's number: the least k with `slots` at most 2^k.
pub fn height(slots: u32) -> u32
    requires small { slots ≤ 2 ^ 31 }
    ensures is { result ≡ height slots }
    ensures few { result ≤ 31 }
{
    if slots < 2 {
        return 0;
    }
    (slots - 1).ilog2() + 1
}

/// Returns how many stages a network has.
#[tactic(auto, unfolding(crate::specs::Stages::stage_count))]
pub fn stage_count(slots: u32) -> u32
    requires small { slots ≤ 2 ^ 31 }
    ensures is { result ≡ stage_count slots }
    ensures few { result ≤ 61 }
{
    (2 * height(slots)).saturating_sub(1)
}

// The bit of stage `l`.
#[tactic(auto, unfolding(crate::specs::Stages::stage_count, crate::specs::Stages::depth))]
fn depth(slots: u32, l: u32) -> u32
    requires small { slots ≤ 2 ^ 31 }
    requires within { l < stage_count slots }
    ensures is { result ≡ depth slots l }
    ensures few { result < 31 }
{
    let k = height(slots);
    if l < k { l } else { 2 * k - 2 - l }
}

// How many slots have bit `depth` 0 and a slot above in the same pair.
#[tactic(auto, unfolding(crate::specs::Stages::pairs))]
fn pairs(slots: u32, depth: u32) -> u32
    requires small { slots ≤ 2 ^ 31 }
    requires within { depth < 31 }
    ensures is { result ≡ pairs slots depth }
{
    let stride = power(depth);
    stride * (slots / (2 * stride)) + (slots % (2 * stride)).saturating_sub(stride)
}

// How many numbers stage `l` has, left out or not.
#[tactic(auto, unfolding(crate::specs::Stages::number_count, crate::specs::Stages::middle_count))]
fn number_count(slots: u32, l: u32) -> u32
    requires small { slots ≤ 2 ^ 31 }
    requires within { l < stage_count slots }
    ensures is { result ≡ number_count slots l }
{
    let k = height(slots);
    if l == k {
        slots - power(k - 1)
    } else {
        pairs(slots, depth(slots, l))
    }
}

// The first number that may be left out of stage `l`.
#[tactic(auto, unfolding(crate::specs::Stages::gap_start))]
fn gap_start(slots: u32, l: u32) -> u32
    requires small { slots ≤ 2 ^ 31 }
    requires within { l < stage_count slots }
    ensures { result ≡ gap_start slots l }
{
    let stride = power(depth(slots, l));
    if slots / stride % 2 == 0 {
        slots % stride
    } else {
        0
    }
}

// How many numbers are left out of stage `l`.
#[tactic(auto, unfolding(crate::specs::Stages::gap_size))]
fn gap_size(net: Net, slots: u32, l: u32) -> u32
    requires small { slots ≤ 2 ^ 31 }
    requires within { l < stage_count slots }
    ensures { result ≡ gap_size net slots l }
{
    match net {
        Net::Benes => 0,
        Net::Waksman => waksman_gap(slots, l),
    }
}

// How many numbers Waksman's network leaves out of stage `l`.
#[tactic(auto, unfolding(crate::specs::Stages::gap_size))]
fn waksman_gap(slots: u32, l: u32) -> u32
    requires small { slots ≤ 2 ^ 31 }
    requires within { l < stage_count slots }
    ensures { result ≡ gap_size Waksman slots l }
{
    let stride = power(depth(slots, l));
    let (whole, rest) = (slots / stride, slots % stride);
    if l < height(slots) || whole == 2 {
        0
    } else if whole % 2 == 0 {
        stride - rest
    } else {
        rest
    }
}

/// A stage of a network: its depth, and its switches in order of their positions.
#[derive(Clone, Copy)]
pub struct Stage {
    net: Net,
    slots: u32,
    number: u32,
    depth: u32,
    numbers: u32,
    gap_start: u32,
    gap_size: u32,
    ghost is: { IsStage net slots number depth numbers gap_start gap_size },
}

impl Stage {
    /// Returns stage `l` of the network for so many slots.
    pub fn new(net: Net, slots: u32, l: u32) -> Stage
        requires small { slots ≤ 2 ^ 31 }
        requires within { l < stage_count slots }
        ensures net { result.net ≡ net }
        ensures slots { result.slots ≡ slots }
        ensures number { result.number ≡ l }
    {
        Stage {
            net,
            slots,
            number: l,
            depth: depth(slots, l),
            numbers: number_count(slots, l),
            gap_start: gap_start(slots, l),
            gap_size: gap_size(net, slots, l),
        }
    }

    /// Returns the distance of the two slots of a switch.
    pub fn stride(self) -> u32
        ensures is { result ≡ 2 ^ depth self.slots self.number }
        ensures few { result ≤ 2 ^ 30 }
    {
        power(self.depth)
    }

    /// Returns how many switches the stage has.
    pub fn switches(self) -> u32
        ensures is { result ≡ switch_count self.net self.slots self.number }
        ensures few { result ≤ self.slots }
    {
        self.numbers - self.gap_size
    }

    /// Returns the lower slot of the switch at a position.
    pub fn slot(self, at: u32) -> u32
        requires { at < switch_count self.net self.slots self.number }
        ensures is { result ≡ switch_slot self.net self.slots self.number at }
        ensures within { result + 2 ^ depth self.slots self.number < self.slots }
    {
        insert_bit(self.depth, self.number_at(at))
    }

    // The number of the switch at a position.
    fn number_at(self, at: u32) -> u32
        requires { at < switch_count self.net self.slots self.number }
        ensures { result ≡ number self.net self.slots self.number at }
    {
        if at < self.gap_start {
            at
        } else {
            at + self.gap_size
        }
    }

    /// Returns the position of the switch at a slot, if there is one.
    pub fn position(self, slot: u32) -> Option<u32>
        ensures { result ≡ switch_at self.net self.slots self.number slot }
    {
        let number = remove_bit(self.depth, slot);
        if number >= self.numbers {
            None
        } else if number < self.gap_start {
            Some(number)
        } else if number - self.gap_start < self.gap_size {
            None
        } else {
            Some(number - self.gap_size)
        }
    }
}

/// Returns the place of the first bit of stage `l`: how many switches the stages before it have.
pub fn first_switch(net: Net, slots: u32, l: u32) -> u64
    requires small { slots ≤ 2 ^ 31 }
    requires within { l ≤ stage_count slots }
    ensures is { result ≡ first_switch net slots l }
    ensures few { result ≤ l * slots }
{
    let mut first = 0;
    for m in 0..l {
        first += u64::from(Stage::new(net, slots, m).switches());
    }
    first
}

/// Returns how many switches a network has.
pub fn switches(net: Net, slots: u32) -> u64
    requires small { slots ≤ 2 ^ 31 }
    ensures is { result ≡ switches net slots }
    ensures few { result < 2 ^ 37 }
{
    first_switch(net, slots, stage_count(slots))
}

// `i` with a 0 put in at bit `depth`.
#[tactic(auto, unfolding(crate::specs::Stages::insert_bit))]
fn insert_bit(depth: u32, i: u32) -> u32
    requires within { depth < 31 }
    requires few { insert_bit depth i < 2 ^ 31 }
    ensures { result ≡ insert_bit depth i }
{
    let stride = power(depth);
    i / stride * (2 * stride) + i % stride
}

// `slot` without bit `depth`.
#[tactic(auto, unfolding(crate::specs::Stages::remove_bit))]
fn remove_bit(depth: u32, slot: u32) -> u32
    requires { depth < 31 }
    ensures { result ≡ remove_bit depth slot }
{
    let stride = power(depth);
    slot / stride / 2 * stride + slot % stride
}
