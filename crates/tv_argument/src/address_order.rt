//! The predecessors of lines in address order.
ghost use Rattle.std.specs.Prelude.{◌≡◌, ◌%◌, ◌^◌, ◌≤◌, length, slice_index, map, IfOk};
ghost use Rattle.tv_lines.specs.Ordered.{key};
ghost use Rattle.tv_lines.specs.PackedLines.{unpacked};
ghost use Rattle.tv_lines.specs.Placed.{LinesFrom};
ghost use Rattle.tv_argument.specs.Order.{address_order, previous_order, predecessors};
ghost use Rattle.tv_argument.specs.Order.{AddressOrderIsRight, PredecessorsAreRight};
ghost use Rattle.tv_stages.specs.Stages.{IsReordering};

use std::alloc::{AllocError, Global};
use tv_core::PairNum;
use tv_core::limits::TIME_BITS;

/// Returns the place of each line's predecessor in address order, for items or packed lines whose
/// times are their places; the predecessor of the first is the last. It sorts their keys, takes 12
/// bytes a line, and fails only where memory runs out.
pub fn predecessors(alloc: Global, pairs: &[PairNum]) -> Result<Vec<u32>, AllocError>
    requires few { length pairs.now ≤ 2 ^ 20 }
    requires times { LinesFrom 0 (map unpacked pairs.now) }
    ensures { IfOk result (λ found. found.items ≡ predecessors (map unpacked pairs.now)) }
{
    let order = address_order(alloc, pairs)?;
    previous(alloc, &order)
}

// Returns for each place the one before it in `order`; the one before the first is the last.
fn previous(alloc: Global, order: &[u32]) -> Result<Vec<u32>, AllocError>
    requires { IsReordering (length order.now) (λ i. slice_index order.now i) }
    ensures { IfOk result (λ found. found.items ≡ previous_order order.now) }
{
    let mut found = Vec::from_slice(alloc, order)?;
    for j in 0..order.len() {
        let before = if j == 0 { order.len() - 1 } else { j - 1 };
        found[order[j] as usize] = order[before];
    }
    Ok(found)
}

// Returns the places of the lines, in address order.
fn address_order(alloc: Global, pairs: &[PairNum]) -> Result<Vec<u32>, AllocError>
    ensures { IfOk result (λ order. order.items ≡ address_order (map unpacked pairs.now)) }
{
    let mut keys = keys(alloc, pairs)?;
    keys.sort_unstable();
    times(alloc, &keys)
}

// The keys of packed lines.
fn keys(alloc: Global, pairs: &[PairNum]) -> Result<Vec<u64>, AllocError>
    ensures { IfOk result (λ keys. keys.items ≡ map (λ pair. key (unpacked pair)) pairs.now) }
{
    let mut keys = Vec::with_capacity(alloc, pairs.len())?;
    for pair in pairs {
        keys.push(key(pair))?;
    }
    Ok(keys)
}

// The key of a packed line.
fn key(pair: &PairNum) -> u64
    ensures { result ≡ key (unpacked pair.now) }
{
    let cell = pair.first.number() >> 32;
    let time = pair.second.number() >> 32;
    cell * (1 << TIME_BITS) + time
}

// The times of keys.
fn times(alloc: Global, keys: &[u64]) -> Result<Vec<u32>, AllocError>
    ensures { IfOk result (λ times. times.items ≡ map (λ key. key % 2 ^ 20) keys.now) }
{
    let mut times = Vec::with_capacity(alloc, keys.len())?;
    for key in keys {
        times.push((*key % (1 << TIME_BITS)) as u32)?;
    }
    Ok(times)
}

/// The address order of lines at the times 0, 1, 2, .. is a permutation of their places; and honest
/// lines are in address order there.
#[tactic(auto, using(crate::proofs::Order::address_order_right))]
pub fn address_order_is_right()
    ensures { AddressOrderIsRight }
{}

/// The predecessors of lines at the times 0, 1, 2, .. are a permutation of their places, and each
/// honest line but the least follows its predecessor. The settings for them bring to each line the
/// item of its predecessor, so that the values of `fill_argument` are those for which
/// `argument_is_complete` stands.
#[tactic(auto, using(crate::proofs::Reached::predecessors_right))]
pub fn predecessors_are_right()
    ensures { PredecessorsAreRight }
{}
