//! A sink that tests each constraint against an assignment.
ghost use Rattle.std.specs.Prelude.{◌≡◌, ◌-◌, ◌^◌, ◌<◌, ◌≤◌, IsOk, None, refl};
ghost use Rattle.tv_core.specs.Circuits.{fresh, put};
ghost use Rattle.tv_core.specs.Sinks.{Emits};
ghost use Rattle.tv_core.specs.Meanings.{Tested, tested_meaning};

use crate::combination::Lc;
use crate::field::F;
use crate::sink::{Put, Sink};
use crate::wire::Wire;
use std::marker::Model;

/// A sink that tests each constraint against numbers for the wires, of which those past the end
/// count as 0. It takes no memory and never refuses.
#[derive(Drop)]
pub struct TestSink<'a> {
    z: &'a [F],
    wires: u32,
    tested: u32,
    held: u32,
    first_failed: Option<u32>,
    sum: F,
}

impl<'a> Model for TestSink<'a> {
    ghost Value = { Tested };

    ghost view = { λ s. record {
      z = s.z.now;
      wires = s.wires;
      tested = s.tested;
      held = s.held;
      first_failed = s.first_failed;
      sum = s.sum;
    } };

    ghost invariant = { λ s. s.held ≤ s.tested };
}

impl<'a> TestSink<'a> {
    /// Returns an empty sink over these numbers, whose next wire has the number `wires`.
    pub fn over(z: &'a [F], wires: u32) -> TestSink<'a>
        ensures { result ≡ record {
          z = z.entry.now;
          wires = wires;
          tested = 0;
          held = 0;
          first_failed = None;
          sum = 0;
        } }
    {
        TestSink {
            z,
            wires,
            tested: 0,
            held: 0,
            first_failed: None,
            sum: F::ZERO,
        }
    }

    /// Returns how many constraints were put.
    pub fn tested(&self) -> u32
        ensures { result ≡ self.now.tested }
    {
        self.tested
    }

    /// Returns how many of them hold.
    pub fn held(&self) -> u32
        ensures { result ≡ self.now.held }
    {
        self.held
    }

    /// Returns the place of the first that does not hold.
    pub fn first_failed(&self) -> Option<u32>
        ensures { result ≡ self.now.first_failed }
    {
        self.first_failed
    }

    /// Returns the sum, over the constraints, of the products of their first two values.
    pub fn sum(&self) -> F
        ensures { result ≡ self.now.sum }
    {
        self.sum
    }
}

impl<'a> Sink for TestSink<'a> {
    ghost meaning = { tested_meaning };

    fn wires(&self) -> u32 {
        self.wires
    }

    #[tactic(auto, unfolding(crate::specs::Circuits::fresh))]
    fn fresh(&mut self) -> Wire {
        let next = Wire(self.wires);
        self.wires += 1;
        next
    }

    #[tactic(auto, unfolding(crate::specs::Circuits::put))]
    fn put(&mut self, a: &Lc, b: &Lc, c: &Lc) -> Put<()>
        requires { self.old.tested < 2 ^ 32 - 1 }
        ensures ok { IsOk result }
        ensures emits { Emits tested_meaning self.old self.new (put a.now b.now c.now) 0 1 result }
    {
        let product = a.value_in(self.z) * b.value_in(self.z);
        let holds = product == c.value_in(self.z);
        self.sum = self.sum + product;
        self.held += u32::from(holds);
        self.first_failed = self.first_failed.or((!holds).then_some(self.tested));
        self.tested += 1;
        Ok(())
    }

    ghost counted = { λ sink list stands. stands.tested };

    ghost unbroken = { λ _ _ _. refl };
}
