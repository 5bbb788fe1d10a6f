//! One pass over the constraints of a system, in which private wires are replaced.

ghost use Rattle.std.specs.Prelude.{◌≡◌, ◌≤◌, ◌<◌, length, OnOk};
ghost use Rattle.std.specs.List.{fold, range_with_len, AllByRecursion};
ghost use Rattle.tv_core.specs.Normal.{IsNormalFrom};
ghost use Rattle.tv_shrink.specs.Pass.{attempted, dropped, turn};

use crate::row::solve;
use crate::state::State;
use crate::substitution::Substitution;
use std::alloc::{AllocError, Global};
use tv_core::{F, Wire};

/// A pass: its state, and room for what a turn makes.
#[derive(Drop)]
pub(crate) struct Pass {
    pub(crate) state: State,
    /// The constraints that may have the wire of this turn.
    named: Vec<u32>,
    /// What the constraint of this turn holds to 0, and then what it makes of its greatest wire.
    form: Vec<(F, Wire)>,
    /// A combination, or a constraint's.
    scratch: Vec<(F, Wire)>,
}

impl Pass {
    /// A pass in this state.
    pub(crate) fn new(alloc: Global, state: State) -> Pass
        ensures { result.state ≡ state }
    {
        Pass {
            state,
            named: Vec::new(alloc),
            form: Vec::new(alloc),
            scratch: Vec::new(alloc),
        }
    }

    // Drops the constraint at a place and puts what the wire is in its place, if all others keep to
    // their most terms.
    fn eliminate(&mut self, at: usize, wire: Wire) -> Result<(), AllocError>
        requires within { at < length self.old.state.pass.rows }
        requires private { self.old.state.publics ≤ wire }
        requires by { IsNormalFrom 0 self.old.form.items }
        requires below { AllByRecursion (λ t. t.1 < wire) self.old.form.items }
        ensures { OnOk result (self.new.state ≡ record {
          publics = self.old.state.publics;
          pass = attempted wire self.old.form.items (dropped at self.old.state.pass)
              self.old.state.pass;
        }) }
    {
        let by = Substitution {
            wire,
            replacement: &self.form,
        };
        let scratch = &mut self.scratch;
        if !self.state.others_fit(at, scratch, &by)? {
            return Ok(());
        }
        self.state.remove(at);
        self.state.substitute(&mut self.named, scratch, &by)
    }

    /// The turn of the constraint at a place.
    pub(crate) fn turn(&mut self, at: usize) -> Result<(), AllocError>
        requires { at < length self.old.state.pass.rows }
        ensures { OnOk result (self.new.state ≡ record {
          publics = self.old.state.publics;
          pass = turn self.old.state.publics self.old.state.pass at;
        }) }
    {
        let Some(row) = self.state.get(at) else {
            return Ok(());
        };
        if !row.linear_form(&mut self.form)? {
            return Ok(());
        }
        let Some(last) = self.form.pop() else {
            self.state.remove(at);
            return Ok(());
        };
        let (own, wire) = last;
        if wire.0 < self.state.publics() {
            return Ok(());
        }
        solve(&mut self.form, own);
        self.eliminate(at, wire)
    }

    /// The whole pass: each constraint has its turn.
    pub(crate) fn run(&mut self) -> Result<(), AllocError>
        ensures { OnOk result (self.new.state ≡ record {
          publics = self.old.state.publics;
          pass = fold (turn self.old.state.publics) self.old.state.pass
              (range_with_len 0 (length self.old.state.pass.rows));
        }) }
    {
        for at in 0..self.state.len() {
            self.turn(at)?;
            self.state.tidy()?;
        }
        Ok(())
    }
}
