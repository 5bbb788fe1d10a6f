//! A sink that counts constraints and terms.
ghost use Rattle.std.specs.Prelude.{◌≡◌, ◌-◌, ◌*◌, ◌^◌, ◌<◌, ◌≤◌, IsOk, refl};
ghost use Rattle.tv_core.specs.Circuits.{fresh, put};
ghost use Rattle.tv_core.specs.Combinations.{top};
ghost use Rattle.tv_core.specs.Sinks.{Emits};
ghost use Rattle.tv_core.specs.Meanings.{Counted, counted_meaning};

use crate::combination::Lc;
use crate::sink::{Put, Sink};
use crate::wire::Wire;
use std::marker::Model;

/// A sink that counts the constraints put into it. It takes no memory and never fails.
#[derive(Drop)]
pub struct CountSink {
    wires: u32,
    constraints: u32,
    terms: u64,
}

impl Model for CountSink {
    ghost Value = { Counted };

    ghost view = { λ s. record { wires = s.wires; constraints = s.constraints; terms = s.terms } };

    ghost invariant = { λ s. s.terms ≤ 384 * s.constraints };
}

impl CountSink {
    /// Returns an empty sink, whose next wire has the number `wires`.
    pub fn new(wires: u32) -> CountSink
        ensures { result ≡ record { wires = wires; constraints = 0; terms = 0 } }
    {
        CountSink {
            wires,
            constraints: 0,
            terms: 0,
        }
    }

    /// Returns how many constraints were put.
    pub fn constraints(&self) -> u32
        ensures { result ≡ self.now.constraints }
    {
        self.constraints
    }

    /// Returns how many terms their combinations have.
    pub fn terms(&self) -> u64
        ensures { result ≡ self.now.terms }
    {
        self.terms
    }
}

impl Sink for CountSink {
    ghost meaning = { counted_meaning };

    fn wires(&self) -> u32 {
        self.wires
    }

    #[tactic(auto, unfolding(crate::specs::Circuits::fresh))]
    fn fresh(&mut self) -> Wire {
        let next = Wire(self.wires);
        self.wires += 1;
        next
    }

    #[tactic(auto, unfolding(crate::specs::Circuits::put))]
    fn put(&mut self, a: &Lc, b: &Lc, c: &Lc) -> Put<()>
        requires room { self.old.constraints < 2 ^ 32 - 1 }
        requires a_made { top a.now ≤ self.old.wires }
        requires b_made { top b.now ≤ self.old.wires }
        requires c_made { top c.now ≤ self.old.wires }
        ensures ok { IsOk result }
        ensures emits { Emits counted_meaning self.old self.new (put a.now b.now c.now) 0 1 result }
    {
        self.constraints += 1;
        self.terms += (a.terms().len() + b.terms().len() + c.terms().len()) as u64;
        Ok(())
    }

    ghost counted = { λ sink list stands. stands.constraints };

    ghost unbroken = { λ _ _ _. refl };
}
