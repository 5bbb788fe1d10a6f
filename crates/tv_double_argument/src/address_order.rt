//! The successors of double lines in address order.
ghost use Rattle.std.specs.Prelude.{◌≡◌, ◌%◌, ◌^◌, ◌≤◌, length, map, IfOk, IsPermutation};
ghost use Rattle.tv_double_argument.specs.Order.{successors};
ghost use Rattle.tv_doubles.specs.Doubles.{key};
ghost use Rattle.tv_doubles.specs.Successors.{address_order, next_in};
ghost use Rattle.tv_stages.specs.Stages.{places};

use crate::lines::DoubleNumbers;
use std::alloc::{AllocError, Global};
use tv_core::limits::TIME_BITS;

/// Returns the place of the successor of each of at most 2^20 double lines in address order; the
/// successor of the last is the first. It sorts their keys, takes 12 bytes a line, and fails only
/// where memory runs out.
pub fn successors<L: DoubleNumbers>(alloc: Global, lines: &L) -> Result<Vec<u32>, AllocError>
    requires few { (L.numbers lines.now).count ≤ 2 ^ 20 }
    ensures { IfOk result (λ found. found.items
        ≡ successors (L.numbers lines.now).count (L.numbers lines.now).line) }
{
    let order = address_order(alloc, lines)?;
    next_in(alloc, &order)
}

// Returns for each place the one after it in `order`; the one after the last is the first.
fn next_in(alloc: Global, order: &[u32]) -> Result<Vec<u32>, AllocError>
    requires { IsPermutation (places (length order.now) (λ i. i)) order.now }
    ensures { IfOk result (λ found. found.items
        ≡ places (length order.now) (next_in order.now)) }
{
    let mut found = Vec::from_slice(alloc, order)?;
    for j in 0..order.len() {
        let after = if j + 1 == order.len() { 0 } else { j + 1 };
        found[order[j] as usize] = order[after];
    }
    Ok(found)
}

// Returns the places of the lines, in address order.
fn address_order<L: DoubleNumbers>(alloc: Global, lines: &L) -> Result<Vec<u32>, AllocError>
    requires few { (L.numbers lines.now).count ≤ 2 ^ 20 }
    ensures { IfOk result (λ order. order.items
        ≡ address_order (L.numbers lines.now).count (L.numbers lines.now).line) }
{
    let mut keys = keys(alloc, lines)?;
    keys.sort_unstable();
    places_of(alloc, &keys)
}

// The keys of lines.
fn keys<L: DoubleNumbers>(alloc: Global, lines: &L) -> Result<Vec<u64>, AllocError>
    requires few { (L.numbers lines.now).count ≤ 2 ^ 20 }
    ensures { IfOk result (λ keys. keys.items
        ≡ places (L.numbers lines.now).count (key (L.numbers lines.now).line)) }
{
    let mut keys = Vec::with_capacity(alloc, lines.count() as usize)?;
    for i in 0..lines.count() {
        keys.push(u64::from(lines.line(i).cell) * (1 << TIME_BITS) + u64::from(i))?;
    }
    Ok(keys)
}

// The places of keys.
fn places_of(alloc: Global, keys: &[u64]) -> Result<Vec<u32>, AllocError>
    ensures { IfOk result (λ places. places.items ≡ map (λ key. key % 2 ^ 20) keys.now) }
{
    let mut places = Vec::with_capacity(alloc, keys.len())?;
    for key in keys {
        places.push((*key % (1 << TIME_BITS)) as u32)?;
    }
    Ok(places)
}
