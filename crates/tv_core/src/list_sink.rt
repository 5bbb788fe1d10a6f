//! A sink that keeps its constraints.
ghost use Rattle.std.specs.Prelude.{◌≡◌, ◌<◌, ◌==◌, [], length, false, slice_get, Some};
ghost use Rattle.std.proofs.Common.{ap};
ghost use Rattle.tv_core.specs.Meanings.{Listed, listed_meaning};

use crate::combination::Lc;
use crate::field::F;
use crate::rows::{TermRow, append, combinations};
use crate::sink::{Put, Sink, SinkFault};
use crate::wire::Wire;
use std::alloc::{AllocError, Global};
use std::marker::Model;

/// A sink that keeps the list of its constraints. It refuses only where memory runs out.
///
/// All terms stand in one vector; a constraint takes 16 bytes beside them.
#[derive(Drop)]
pub struct ListSink {
    wires: u32,
    terms: Vec<(F, Wire)>,
    rows: Vec<TermRow>,
    broken: bool,
}

impl Model for ListSink {
    ghost use Rattle.std.specs.Prelude.{◌^◌, ◌<◌, map, length, All};
    ghost use Rattle.tv_core.specs.Meanings.{Listed};

    ghost Value = { Listed };

    ghost use Rattle.tv_core.specs.Rows.{constraint_at, Within};

    ghost view = { λ s. record {
      wires = s.wires;
      list = map (constraint_at s.terms.items) s.rows.items;
      broken = s.broken;
    } };

    ghost invariant = { λ s. (All (Within s.terms.items) s.rows.items)
        × (length s.rows.items < 2 ^ 32) };
}

impl ListSink {
    /// Returns an empty sink, whose next wire has the number `wires`.
    pub fn new(alloc: Global, wires: u32) -> ListSink
        ensures { result ≡ record { wires = wires; list = []; broken = false } }
    {
        ListSink {
            wires,
            terms: Vec::new(alloc),
            rows: Vec::new(alloc),
            broken: false,
        }
    }

    /// Returns how many constraints were put.
    pub fn len(&self) -> u32
        ensures { result ≡ length self.now.list }
    {
        self.rows.len() as u32
    }

    /// Returns whether none was put.
    pub fn is_empty(&self) -> bool
        ensures { result ≡ (length self.now.list == 0) }
    {
        self.rows.is_empty()
    }

    /// Returns the constraint at a place.
    pub fn row(&self, i: u32) -> (Lc, Lc, Lc)
        requires { i < length self.now.list }
        ensures { slice_get self.now.list i ≡ Some
            (record { a = result.0; b = result.1; c = result.2 }) }
    {
        combinations(&self.terms, self.rows[i as usize])
    }
}

impl Sink for ListSink {
    ghost meaning = { listed_meaning };

    fn wires(&self) -> u32 {
        self.wires
    }

    #[tactic(auto, unfolding(crate::specs::Circuits::fresh))]
    fn fresh(&mut self) -> Wire {
        let next = Wire(self.wires);
        self.wires += 1;
        next
    }

    #[tactic(auto, unfolding(crate::specs::Circuits::put))]
    fn put(&mut self, a: &Lc, b: &Lc, c: &Lc) -> Put<()> {
        match append(&mut self.terms, &mut self.rows, a, b, c) {
            Ok(()) => Ok(()),
            Err(AllocError) => {
                self.broken = true;
                Err(SinkFault::Memory)
            }
        }
    }

    ghost counted = { λ sink list stands. ap length stands.0 };

    ghost unbroken = { λ sink list stands. stands.1 };
}
