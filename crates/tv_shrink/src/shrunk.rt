//! A shrunk system, its wires numbered anew.
ghost use Rattle.std.specs.Prelude.{◌≡◌, ◌+◌, ◌≤◌, ◌<◌, ◌^◌, List, length, IfOk};
ghost use Rattle.tv_core.specs.Constraints.{Constraint};
ghost use Rattle.tv_shrink.specs.Answers.{counted_system, start_rows, IsReady};
ghost use Rattle.tv_shrink.specs.Shrunk.{shrink};
ghost use Rattle.tv_shrink.specs.Tidy.{rows_terms, AreWithin};

use crate::normal_system::NormalSystem;
use crate::numbers::Numbers;
use crate::output::count_rows;
use crate::pass::Pass;
use crate::rows::Rows;
use crate::state::State;
use std::alloc::{AllocError, Global};
use std::marker::Model;
use tv_core::Wire;

/// A system with fewer private wires, as `shrink` makes it of another one. Contracts see it as the
/// shrunk system, the old number of each of its wires, and how many wires the old system had.
///
/// Its memory is that of its terms, of at most as many places that replacements left empty, and of
/// one number for each wire that is gone.
#[derive(Drop)]
pub struct Shrunk {
    pub(crate) outputs: u32,
    pub(crate) inputs: u32,
    pub(crate) wires: u32,
    pub(crate) kept: u32,
    pub(crate) gone: Vec<u32>,
    pub(crate) rows: Rows,
}

impl Model for Shrunk {
    ghost use Rattle.std.specs.Prelude.{◌≡◌, ◌+◌, ◌≤◌, ◌<◌, ◌^◌, length};
    ghost use Rattle.std.specs.List.{filter_map};
    ghost use Rattle.std.specs.List.Sorted.{IsStrictlyIncreasing};
    ghost use Rattle.tv_r1cs_write.specs.Bytes.{others};
    ghost use Rattle.tv_r1cs_write.specs.Shrunken.{Shrunken};
    ghost use Rattle.tv_shrink.specs.Tidy.{AreWithin};

    ghost Value = { Shrunken };

    ghost view = { λ s. record {
      system = record {
        wires = s.kept;
        outputs = s.outputs;
        inputs = s.inputs;
        constraints = filter_map (λ row. row) s.rows;
      };
      labels = others s.wires s.gone.items;
      wires = s.wires;
    } };

    ghost invariant = { λ s. (1 + s.outputs + s.inputs ≤ s.kept)
        × (s.kept ≡ length (others s.wires s.gone.items)) × IsStrictlyIncreasing s.gone.items
        × AreWithin s.kept s.rows × (length s.rows < 2 ^ 32) };
}

// As many wires as constraints have terms, or all, if they are fewer.
fn most_wires(rows: &Rows, wires: u32) -> u32
    requires few { length rows.now < 2 ^ 32 }
    requires within { AreWithin wires rows.now }
    ensures { result ≤ rows_terms rows.now }
{
    count_rows(rows, wires).terms.min(u64::from(wires)) as u32
}

/// What is left once the pass has run, its wires numbered anew.
pub(crate) fn settle(alloc: Global, system: NormalSystem) -> Result<Shrunk, AllocError>
    requires { IsReady system.counts system.rows }
    ensures { IfOk result (λ shrunk. (list : List Constraint) → system.rows ≡ start_rows list
        → shrunk ≡ shrink (counted_system system.counts list)) }
{
    let NormalSystem { rows, counts } = system;
    let publics = 1 + counts.outputs + counts.inputs;
    let most = most_wires(&rows, counts.wires);
    let state = State::begin(alloc, rows, publics, most as usize + 1)?;
    let mut pass = Pass::new(alloc, state);
    pass.run()?;
    let (mut rows, gone) = pass.state.into_parts();
    let numbers = Numbers::of(alloc, gone, most)?;
    rows.renumber(&numbers);
    Ok(Shrunk {
        outputs: counts.outputs,
        inputs: counts.inputs,
        wires: counts.wires,
        kept: numbers.get(Wire(counts.wires)),
        gone: numbers.into_gone(),
        rows,
    })
}
