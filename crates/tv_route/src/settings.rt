//! The settings of a network for a permutation.
ghost use Rattle.std.specs.Prelude.{◌≡◌, suc, ◌+◌, ◌-◌, ◌*◌, ◌/◌, ◌^◌, ◌<◌, ◌≤◌, ◌++◌};
ghost use Rattle.std.specs.Prelude.{if◌then◌else◌, length, slice_index, IfOk, OnOk};
ghost use Rattle.tv_benes.specs.Through.{missing, places};
ghost use Rattle.tv_benes.specs.declared.shape.Net.TheVariants.{Benes, Waksman};
ghost use Rattle.tv_route.specs.Permutations.{Permutes, IsRoutable};
ghost use Rattle.tv_route.specs.Route.{down, up_input, down_input, route, route_level_of, route_of};

use crate::marks::halves;
use std::alloc::{AllocError, Global};
use std::marker::Model;
use tv_benes::{Net, routing_switches};
use tv_word::arithmetic::power;

/// The bits of a network's switches, in order. Contracts see them as that list.
#[derive(Drop)]
pub struct Settings {
    bits: Vec<bool>,
}

impl Model for Settings {
    ghost use Rattle.std.specs.Prelude.{List, Bool};

    ghost Value = { List Bool };

    ghost view = { λ settings. settings.bits.items };
}

impl Settings {
    /// Returns the bits, in the order of the switches.
    pub fn as_slice(&self) -> &[bool]
        ensures { result.now ≡ self.now }
    {
        self.bits.as_slice()
    }
}

/// Returns settings of Benes' network for which output i is the input at place `p[i]`, for a
/// permutation `p` of the numbers below 2^k, k from 1 to 31. Takes time linear in the number of
/// switches, and at its peak one byte for each switch, which the settings keep, and 8 bytes for
/// each item. Fails only where memory runs out.
pub fn route(alloc: Global, p: &[u32]) -> Result<Settings, AllocError>
    requires { IsRoutable p.now }
    ensures { IfOk result (λ settings. settings ≡ route_of Benes p.now) }
{
    routing_settings(alloc, Net::Benes, p)
}

/// Like `route`, for Waksman's network.
pub fn route_w(alloc: Global, p: &[u32]) -> Result<Settings, AllocError>
    requires { IsRoutable p.now }
    ensures { IfOk result (λ settings. settings ≡ route_of Waksman p.now) }
{
    routing_settings(alloc, Net::Waksman, p)
}

// Like `route`, for either network.
fn routing_settings(alloc: Global, net: Net, p: &[u32]) -> Result<Settings, AllocError>
    requires { IsRoutable p.now }
    ensures { IfOk result (λ settings. settings ≡ route_of net p.now) }
{
    let h = level(p);
    let mut bits = Vec::with_capacity(alloc, routing_switches(net, h + 1) as usize)?;
    route_level(alloc, net, h, p, &mut bits)?;
    Ok(Settings { bits })
}

// The level of a network on as many items.
fn level(p: &[u32]) -> u32
    requires { IsRoutable p.now }
    ensures is { result ≡ route_level_of p.now }
    ensures small { result < 31 }
    ensures long { length p.now ≡ 2 ^ suc result }
{
    p.len().ilog2() - 1
}

// The settings of a network of level `h`, after what `bits` has. The inputs of one half are let go
// before those of the other are made.
fn route_level(
    alloc: Global,
    net: Net,
    h: u32,
    p: &[u32],
    bits: &mut Vec<bool>,
) -> Result<(), AllocError>
    requires level { h < 31 }
    requires permutes { Permutes (2 ^ suc h) p.now }
    ensures { OnOk result (bits.new.items ≡ bits.old.items ++ route net h p.now) }
{
    if h == 0 {
        bits.push(p[0] == 1)?;
        return Ok(());
    }
    let n = power(h) as usize;
    let marks = halves(alloc, p, n)?;
    push_first(bits, &marks, n)?;
    route_level(
        alloc,
        net,
        h - 1,
        &inputs(alloc, &marks, p, n, false)?,
        bits,
    )?;
    route_level(alloc, net, h - 1, &inputs(alloc, &marks, p, n, true)?, bits)?;
    push_last(bits, net, &marks, p, n)?;
    Ok(())
}

// Whether an input goes through the lower half.
fn down(marks: &[Option<bool>], x: usize) -> bool
    requires { x < length marks.now }
    ensures { result ≡ down marks.now x }
{
    marks[x].unwrap_or(false)
}

// Of the inputs of a pair of outputs the one that goes through a half.
fn input(marks: &[Option<bool>], p: &[u32], j: usize, lower: bool) -> u32
    requires small { j < 2 ^ 32 }
    requires within { 2 * j + 1 < length p.now }
    requires first { slice_index p.now (2 * j) < length marks.now }
    ensures { result ≡ (if lower then down_input marks.now p.now j
        else up_input marks.now p.now j) }
{
    let first = down(marks, p[2 * j] as usize);
    p[if lower == first { 2 * j } else { 2 * j + 1 }]
}

// The places, within one half, of the inputs that go through it.
fn inputs(
    alloc: Global,
    marks: &[Option<bool>],
    p: &[u32],
    n: usize,
    lower: bool,
) -> Result<Vec<u32>, AllocError>
    requires small { n < 2 ^ 32 }
    requires long { length marks.now ≡ 2 * n }
    requires permutes { Permutes (2 * n) p.now }
    ensures { IfOk result (λ v. v.items ≡ places n
        (λ j. (if lower then down_input marks.now p.now j else up_input marks.now p.now j) / 2)) }
{
    let mut found = Vec::with_capacity(alloc, n)?;
    for j in 0..n {
        found.push(input(marks, p, j, lower) / 2)?;
    }
    Ok(found)
}

// The bits of the first column.
fn push_first(bits: &mut Vec<bool>, marks: &[Option<bool>], n: usize) -> Result<(), AllocError>
    requires small { n < 2 ^ 32 }
    requires long { length marks.now ≡ 2 * n }
    ensures { OnOk result (bits.new.items ≡ bits.old.items
        ++ places n (λ j. down marks.now (2 * j))) }
{
    for j in 0..n {
        bits.push(down(marks, 2 * j))?;
    }
    Ok(())
}

// The bits of the last column.
fn push_last(
    bits: &mut Vec<bool>,
    net: Net,
    marks: &[Option<bool>],
    p: &[u32],
    n: usize,
) -> Result<(), AllocError>
    requires small { n < 2 ^ 32 }
    requires some { 1 ≤ n }
    requires long { length marks.now ≡ 2 * n }
    requires permutes { Permutes (2 * n) p.now }
    ensures { OnOk result (bits.new.items ≡ bits.old.items
        ++ places (n - missing net) (λ j. down marks.now
        (slice_index p.now (2 * (j + missing net))))) }
{
    let left_out = net.missing() as usize;
    for j in 0..n - left_out {
        bits.push(down(marks, p[2 * (j + left_out)] as usize))?;
    }
    Ok(())
}
