//! A sink that tests constraints against an outline.
ghost use Rattle.std.specs.Prelude.{◌≡◌, ◌+◌, ◌-◌, ◌^◌, ◌<◌, ◌≤◌, ◌↔◌};
ghost use Rattle.std.specs.Prelude.{IsOk, IsTrue, List, refl, true};
ghost use Rattle.tv_core.specs.Circuits.{put};
ghost use Rattle.tv_core.specs.Constraints.{Constraint};
ghost use Rattle.tv_core.specs.Sinks.{Emits};
ghost use Rattle.tv_outline.specs.Expansion.{IsOutline, expansion_of};
ghost use Rattle.tv_outline.specs.Matching.{IsMatched, Matched, matching};

use crate::outline::Outline;
use crate::place::{Place, after, is_at};
use std::marker::Model;
use tv_core::{Lc, Put, Sink, Wire};

/// A sink that tests whether the constraints put into it are an outline's expansion. It takes no
/// memory and never refuses.
#[derive(Drop)]
pub struct Matches<'a> {
    outline: &'a Outline,
    at: Place,
    made: (Lc, Lc, Lc),
    wires: u32,
    constraints: u32,
    same: bool,
}

impl<'a> Model for Matches<'a> {
    ghost use Rattle.tv_outline.specs.Expansion.{IsOutline};
    ghost use Rattle.tv_outline.specs.Matching.{Matched};
    ghost use Rattle.tv_outline.specs.Places.{IsAt, left_at};

    ghost Value = { Matched };

    ghost view = { λ s. record {
      outline = s.outline.now;
      wires = s.wires;
      constraints = s.constraints;
      left = left_at s.outline.now s.at;
      same = s.same;
    } };

    ghost invariant = { λ s. IsOutline s.outline.now × IsAt s.outline.now s.at };
}

impl<'a> Matches<'a> {
    /// Returns an empty sink that tests against an outline. Its next wire is the one after the
    /// outline's public wires.
    pub fn new(outline: &'a Outline) -> Matches<'a>
        requires { IsOutline outline.now }
        ensures { result ≡ record {
          outline = outline.entry.now;
          wires = 1 + outline.entry.now.outputs + outline.entry.now.inputs;
          constraints = 0;
          left = expansion_of outline.entry.now;
          same = true;
        } }
    {
        Matches {
            outline,
            at: Place {
                region: 0,
                turn: 0,
                row: 0,
            },
            made: (Lc::empty(), Lc::empty(), Lc::empty()),
            wires: 1 + outline.outputs + outline.inputs,
            constraints: 0,
            same: true,
        }
    }

    /// Returns whether the constraints that were put are the outline's whole expansion, and the
    /// wires as many as the outline says.
    pub fn matched(&self) -> bool
        ensures { (list : List Constraint) → IsMatched self.now list → IsTrue result
            ↔ ((list ≡ expansion_of self.now.outline)
            × (self.now.wires ≡ self.now.outline.wires)) }
    {
        self.same
            && self.at.region >= self.outline.regions.len()
            && self.wires == self.outline.wires
    }
}

impl<'a> Sink for Matches<'a> {
    ghost meaning = { matching };

    fn wires(&self) -> u32 {
        self.wires
    }

    #[tactic(auto, unfolding(tv_core::specs::Circuits::fresh))]
    fn fresh(&mut self) -> Wire {
        let next = Wire(self.wires);
        self.wires += 1;
        next
    }

    #[tactic(auto, unfolding(tv_core::specs::Circuits::put))]
    fn put(&mut self, a: &Lc, b: &Lc, c: &Lc) -> Put<()>
        requires { self.old.constraints < 2 ^ 32 - 1 }
        ensures ok { IsOk result }
        ensures emits { Emits matching self.old self.new (put a.now b.now c.now) 0 1 result }
    {
        self.constraints += 1;
        if self.same {
            self.same = is_at(self.outline, self.at, a, b, c, &mut self.made);
            self.at = after(self.outline, self.at);
        }
        Ok(())
    }

    ghost counted = { λ sink list stands. stands.constraints };

    ghost unbroken = { λ _ _ _. refl };
}
