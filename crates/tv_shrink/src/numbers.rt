//! The numbers of the wires that are kept.

ghost use Rattle.std.specs.Prelude.{◌≡◌, ◌==◌, ◌<◌, ℕ, length, slice_index, IfOk};
ghost use Rattle.std.specs.List.{list_any};
ghost use Rattle.std.specs.List.Sorted.{IsStrictlyIncreasing};
ghost use Rattle.tv_r1cs_write.specs.Bytes.{others};

use std::alloc::{AllocError, Global};
use std::marker::Model;
use tv_core::Wire;

/// The wires that are gone, in order, and the new numbers of the others. Contracts see it as the
/// list of the wires that are gone.
///
/// The numbers of the first wires stand in a table; that of another one takes a search.
#[derive(Drop)]
pub(crate) struct Numbers {
    gone: Vec<u32>,
    first: Vec<u32>,
}

impl Model for Numbers {
    ghost use Rattle.std.specs.Prelude.{◌≡◌, ◌<◌, ℕ, List, length, slice_index};
    ghost use Rattle.std.specs.List.Sorted.{IsStrictlyIncreasing};
    ghost use Rattle.tv_r1cs_write.specs.Bytes.{others};

    ghost Value = { List ℕ };

    ghost view = { λ n. n.gone.items };

    ghost invariant = { λ n. IsStrictlyIncreasing n.gone.items
        × ((w : ℕ) → w < length n.first.items
        → slice_index n.first.items w ≡ length (others w n.gone.items)) };
}

// How many of the wires below one are none of those that are gone, which rise.
fn lowered(gone: &[u32], wire: u32) -> u32
    requires { IsStrictlyIncreasing gone.now }
    ensures { result ≡ length (others wire gone.now) }
{
    wire - gone.partition_point(|of| *of < wire) as u32
}

// For each of the first wires how many below it are none of those that are gone, which rise.
fn lower_first(alloc: Global, gone: &[u32], wires: u32) -> Result<Vec<u32>, AllocError>
    requires { IsStrictlyIncreasing gone.now }
    ensures { IfOk result (λ first. (w : ℕ) → w < length first.items
        → slice_index first.items w ≡ length (others w gone.now)) }
{
    let mut first = Vec::with_capacity(alloc, wires as usize)?;
    let mut next = 0;
    for wire in 0..wires {
        first.push(wire - next as u32)?;
        if next < gone.len() && gone[next] == wire {
            next += 1;
        }
    }
    Ok(first)
}

impl Numbers {
    /// Puts the wires that are gone in order, each once, and numbers the others; `wires` is the
    /// size of the table.
    pub(crate) fn of(alloc: Global, gone: Vec<u32>, wires: u32) -> Result<Numbers, AllocError>
        ensures { IfOk result (λ numbers. (w : ℕ) → list_any (λ v. v == w) numbers
            ≡ list_any (λ v. v == w) gone.items) }
    {
        let mut gone = gone;
        gone.sort_unstable();
        gone.dedup();
        let first = lower_first(alloc, &gone, wires)?;
        Ok(Numbers { gone, first })
    }

    /// The new number of a wire that is kept: how many wires below it are not gone.
    #[inline(always)]
    pub(crate) fn get(&self, wire: Wire) -> u32
        ensures { result ≡ length (others wire self.now) }
    {
        match self.first.get(wire.0 as usize) {
            Some(number) => *number,
            None => lowered(&self.gone, wire.0),
        }
    }

    /// The wires that are gone, in order.
    pub(crate) fn into_gone(self) -> Vec<u32>
        ensures gone { result.items ≡ self }
        ensures rising { IsStrictlyIncreasing result.items }
    {
        self.gone
    }
}
