//! The settings of a network for a permutation.
ghost use Rattle.std.specs.Prelude.{◌≡◌, ℕ, suc, ◌+◌, ◌*◌, ◌^◌, ◌<◌, ◌≤◌, nat_lt, length};
ghost use Rattle.std.specs.Prelude.{slice_index, IfOk};
ghost use Rattle.tv_stages.specs.Settings.{is_up, sorted, narrowed, within, backs, settings_of};
ghost use Rattle.tv_stages.specs.Walks.{bit_by, AreSetTo, IsDepthSet, AreInverse, AreMarked};
ghost use Rattle.tv_stages.specs.Stages.{low, height, stage_count, switch_count, switches, places};
ghost use Rattle.tv_stages.specs.Stages.{IsReordering};

use crate::nets::Net;
use crate::shape::{Stage, first_switch, height, switches};
use crate::walks::{flip, is_low, settle, stride_of};
use std::alloc::{AllocError, Global};
use std::marker::Model;

/// The bits of a network's switches, stage after stage in order of position. Contracts see them as
/// that list.
#[derive(Drop)]
pub struct Settings {
    bits: Vec<bool>,
}

impl Model for Settings {
    ghost use Rattle.std.specs.Prelude.{List, Bool};

    ghost Value = { List Bool };

    ghost view = { λ settings. settings.bits.items };
}

impl Settings {
    /// Returns the bits, stage after stage in order of position.
    pub fn as_slice(&self) -> &[bool]
        ensures { result.now ≡ self.now }
    {
        self.bits.as_slice()
    }
}

/// Returns settings of either network for which output i is the item at slot `p[i]`, for a
/// permutation `p` of at most 2^31 slots. Takes time linear in the number of switches, and at its
/// peak one byte for each switch, which the settings keep, and 9 bytes for each slot. Fails only
/// where memory runs out.
pub fn settings_for(alloc: Global, net: Net, p: &[u32]) -> Result<Settings, AllocError>
    requires small { length p.now ≤ 2 ^ 31 }
    requires permutes { IsReordering (length p.now) (λ i. slice_index p.now i) }
    ensures { IfOk result (λ bits. bits ≡ settings_of net p.now) }
{
    let slots = p.len();
    let mut q = Vec::from_slice(alloc, p)?;
    let mut r = Vec::from_elem(alloc, 0, slots)?;
    let mut marks = Vec::from_elem(alloc, None, slots)?;
    let mut bits = Vec::from_elem(alloc, false, switches(net, slots as u32) as usize)?;
    set_all(
        net,
        q.as_mut_slice(),
        r.as_mut_slice(),
        marks.as_mut_slice(),
        bits.as_mut_slice(),
    );
    Ok(Settings { bits })
}

// Sets the bits of the stages of depth `d`, so that with those within they bring `q`, and makes `q`
// and its inverse `r` what those within have to bring.
fn set_depth(
    net: Net,
    d: u32,
    q: &mut [u32],
    r: &mut [u32],
    marks: &mut [Option<bool>],
    bits: &mut [bool],
)
    requires small { length q.old ≤ 2 ^ 31 }
    requires depth { d < height (length q.old) }
    requires inverse { AreInverse (length q.old) d q.old r.old }
    requires marks_long { length marks.old ≡ length q.old }
    requires long { length bits.old ≡ switches net (length q.old) }
    ensures within { q.new ≡ within d q.old }
    ensures back { r.new ≡ backs q.new }
    ensures marks_long { length marks.new ≡ length q.old }
    ensures set { IsDepthSet net (length q.old) d q.old bits.old bits.new }
{
    marks.fill(None);
    settle(q, r, d, marks);
    set_stage(net, d, r, marks, bits);
    set_after(net, d, r, marks, bits);
    narrow(q, d, marks, r);
    q.copy_from_slice(r);
    invert(q, r);
}

// Whether an output gets its item through the lower slots of the stages within.
fn is_up(marks: &[Option<bool>], x: usize) -> bool
    requires { x < length marks.now }
    ensures { result ≡ is_up marks.now x }
{
    marks[x].unwrap_or(false)
}

// The bit of the switch whose lower slot is `x`, in a stage before the middle or in another.
fn bit_by(before: bool, r: &[u32], marks: &[Option<bool>], x: usize) -> bool
    requires slot { x < length r.now }
    requires within { (y : ℕ) → y < length r.now → slice_index r.now y < length r.now }
    requires marks_long { length marks.now ≡ length r.now }
    ensures { result ≡ bit_by before r.now marks.now x }
{
    if before {
        !is_up(marks, r[x] as usize)
    } else {
        !is_up(marks, x)
    }
}

// Sets the bits of stage `l`.
fn set_stage(net: Net, l: u32, r: &[u32], marks: &[Option<bool>], bits: &mut [bool])
    requires small { length r.now ≤ 2 ^ 31 }
    requires stage { l < stage_count (length r.now) }
    requires within { (x : ℕ) → x < length r.now → slice_index r.now x < length r.now }
    requires marks_long { length marks.now ≡ length r.now }
    requires long { length bits.old ≡ switches net (length r.now) }
    ensures { AreSetTo net (length r.now) l (switch_count net (length r.now) l)
        (bit_by (nat_lt l (height (length r.now))) r.now marks.now) bits.old bits.new }
{
    let slots = r.len() as u32;
    let stage = Stage::new(net, slots, l);
    let first = first_switch(net, slots, l) as usize;
    let before = l < height(slots);
    for at in 0..stage.switches() {
        bits[first + at as usize] = bit_by(before, r, marks, stage.slot(at) as usize);
    }
}

// Sets the bits of the stage of depth `d` after the middle, if it is not the middle itself.
fn set_after(net: Net, d: u32, r: &[u32], marks: &[Option<bool>], bits: &mut [bool])
    requires small { length r.now ≤ 2 ^ 31 }
    requires depth { d < height (length r.now) }
    requires within { (x : ℕ) → x < length r.now → slice_index r.now x < length r.now }
    requires marks_long { length marks.now ≡ length r.now }
    requires long { length bits.old ≡ switches net (length r.now) }
    ensures long { length bits.new ≡ length bits.old }
    ensures last { suc d ≡ height (length r.now) → bits.new ≡ bits.old }
    ensures set { (l : ℕ) → height (length r.now) ≤ l → l + d + 2 ≡ 2 * height (length r.now)
        → AreSetTo net (length r.now) l (switch_count net (length r.now) l)
        (bit_by (nat_lt l (height (length r.now))) r.now marks.now) bits.old bits.new }
{
    let k = height(r.len() as u32);
    if d + 1 < k {
        set_stage(net, 2 * k - 2 - d, r, marks, bits);
    }
}

// The lower of the two slots that differ in bit `d`.
#[tactic(auto, using(crate::proofs::Slots::high_more), unfolding(crate::specs::Stages::low))]
fn low(d: u32, x: usize) -> usize
    requires { d < 32 }
    ensures is { result ≡ low d x }
    ensures few { result ≤ x }
{
    if is_low(d, x) { x } else { x - stride_of(d) }
}

// The slot whose item the stage of depth `d` after the middle leaves at slot `x`.
#[tactic(auto, using(crate::proofs::Narrowing::up_near), unfolding(crate::specs::Settings::sorted))]
fn sorted(d: u32, marks: &[Option<bool>], x: usize) -> usize
    requires depth { d < 32 }
    requires small { length marks.now ≤ 2 ^ 31 }
    requires slot { x < length marks.now }
    requires marked { AreMarked (length marks.now) d marks.now }
    ensures is { result ≡ sorted d (is_up marks.now) x }
    ensures few { result < length marks.now }
{
    if is_up(marks, low(d, x)) {
        x
    } else {
        flip(d, x)
    }
}

// What the stages within have to bring to slot `x`.
#[tactic(auto, unfolding(crate::specs::Settings::narrowed))]
fn narrowed(q: &[u32], d: u32, marks: &[Option<bool>], x: usize) -> u32
    requires depth { d < 31 }
    requires small { length q.now ≤ 2 ^ 31 }
    requires slot { x < length q.now }
    requires marks_long { length marks.now ≡ length q.now }
    requires within { (y : ℕ) → y < length q.now → slice_index q.now y < length q.now }
    requires marked { AreMarked (length q.now) d marks.now }
    ensures { result ≡ narrowed d q.now marks.now x }
{
    let input = low(d, q[sorted(d, marks, x)] as usize);
    if is_low(d, x) {
        input as u32
    } else {
        (input + stride_of(d)) as u32
    }
}

// Writes what the stages within have to bring.
fn narrow(q: &[u32], d: u32, marks: &[Option<bool>], next: &mut [u32])
    requires depth { d < 31 }
    requires small { length q.now ≤ 2 ^ 31 }
    requires marks_long { length marks.now ≡ length q.now }
    requires long { length next.old ≡ length q.now }
    requires within { (y : ℕ) → y < length q.now → slice_index q.now y < length q.now }
    requires marked { AreMarked (length q.now) d marks.now }
    ensures { next.new ≡ places (length q.now) (narrowed d q.now marks.now) }
{
    for x in 0..q.len() {
        next[x] = narrowed(q, d, marks, x);
    }
}

// Writes where each slot stands in a permutation.
fn invert(q: &[u32], r: &mut [u32])
    requires small { length q.now ≤ 2 ^ 31 }
    requires permutes { IsReordering (length q.now) (λ i. slice_index q.now i) }
    requires long { length r.old ≡ length q.now }
    ensures { r.new ≡ backs q.now }
{
    for x in 0..q.len() {
        r[q[x] as usize] = x as u32;
    }
}

// Sets the bits of all stages for the permutation `q`.
fn set_all(net: Net, q: &mut [u32], r: &mut [u32], marks: &mut [Option<bool>], bits: &mut [bool])
    requires small { length q.old ≤ 2 ^ 31 }
    requires permutes { IsReordering (length q.old) (λ i. slice_index q.old i) }
    requires back_long { length r.old ≡ length q.old }
    requires marks_long { length marks.old ≡ length q.old }
    requires long { length bits.old ≡ switches net (length q.old) }
    ensures { bits.new ≡ settings_of net q.old }
{
    invert(q, r);
    for d in 0..height(q.len() as u32) {
        set_depth(net, d, q, r, marks, bits);
    }
}
