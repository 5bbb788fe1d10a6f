//! The state of a pass.

ghost use Rattle.std.specs.Prelude.{◌≡◌, ◌+◌, ◌≤◌, ◌<◌, ◌^◌, [], true, length};
ghost use Rattle.std.specs.Prelude.{slice_index_or, slice_set, None, Some, IfOk, OnOk};
ghost use Rattle.std.specs.List.{list_all};
ghost use Rattle.std.specs.Option.{option_map};
ghost use Rattle.tv_shrink.specs.Pass.{dropped, row_fits, substituted};
ghost use Rattle.tv_shrink.specs.Substitution.{replaced_in};
ghost use Rattle.tv_shrink.specs.Tidy.{row_has, rows_terms, RowsAreNormal, RowIsNormal};

use crate::occurrences::Occurrences;
use crate::row::{Row, row_has};
use crate::rows::Rows;
use crate::substitution::Substitution;
use std::alloc::{AllocError, Global};
use std::marker::Model;
use tv_core::{F, Wire};

/// How far a pass has come: its constraints, in which of them each private wire may stand, and
/// which wires were solved for.
///
/// Its memory is that of the terms, whatever their wires: at most one list of rows more than there
/// are terms at the start, and four bytes for each wire that was solved for.
#[derive(Drop)]
pub(crate) struct State {
    publics: u32,
    rows: Rows,
    gone: Vec<u32>,
    occurrences: Occurrences,
}

impl Model for State {
    ghost use Rattle.tv_shrink.specs.Occurrences.{has_row};
    ghost use Rattle.tv_shrink.specs.Tidy.{State as Seen, IsKept};

    ghost Value = { Seen };

    ghost view = { λ s. record {
      publics = s.publics;
      pass = record { rows = s.rows; gone = s.gone.items };
    } };

    ghost invariant = { λ s. IsKept s.publics s.rows (has_row s.occurrences) };
}

impl State {
    /// The start of a pass over these constraints, before any has had its turn, with this number of
    /// lists of rows.
    pub(crate) fn begin(
        alloc: Global,
        rows: Rows,
        publics: u32,
        lists: usize,
    ) -> Result<State, AllocError>
        requires normal { RowsAreNormal rows }
        requires few { length rows < 2 ^ 32 }
        requires lists { (0 < lists) × (lists ≤ rows_terms rows + 1) }
        ensures { IfOk result (λ state. state ≡ record {
          publics = publics;
          pass = record { rows = rows; gone = [] };
        }) }
    {
        Ok(State {
            publics,
            gone: Vec::new(alloc),
            occurrences: Occurrences::of(alloc, lists, &rows, publics)?,
            rows,
        })
    }

    /// The number of the first private wire.
    pub(crate) fn publics(&self) -> u32
        ensures { result ≡ self.now.publics }
    {
        self.publics
    }

    /// How many constraints there are, with those that were dropped.
    pub(crate) fn len(&self) -> usize
        ensures { result ≡ length self.now.pass.rows }
    {
        self.rows.len()
    }

    /// The constraint at a place, if it was not dropped.
    pub(crate) fn get(&self, at: usize) -> Option<Row<'_>>
        requires { at < length self.now.pass.rows }
        ensures row { result ≡ slice_index_or self.now.pass.rows at None }
        ensures normal { RowIsNormal result }
    {
        self.rows.get(at)
    }

    /// Drops the constraint at a place.
    pub(crate) fn remove(&mut self, at: usize)
        requires { at < length self.old.pass.rows }
        ensures { self.new ≡ record {
          publics = self.old.publics;
          pass = dropped at self.old.pass;
        } }
    {
        self.rows.remove(at);
    }

    /// Whether all constraints but the one at a place keep to their most terms after a
    /// substitution. One that doesn't is the first that the next call for the wire looks at.
    pub(crate) fn others_fit(
        &mut self,
        but: usize,
        scratch: &mut Vec<(F, Wire)>,
        by: &Substitution<'_>,
    ) -> Result<bool, AllocError>
        requires { self.old.publics ≤ by.now.wire }
        ensures same { self.new ≡ self.old }
        ensures fit { IfOk result (λ fit. fit
            ≡ list_all (row_fits by.now.wire by.now.terms)
            (slice_set self.old.pass.rows but None)) }
    {
        let misfit = self.occurrences.misfit(&self.rows, but, scratch, by)?;
        let Some(row) = misfit else {
            return Ok(true);
        };
        self.occurrences.add(by.wire.0, row)?;
        Ok(false)
    }

    // Substitutes in the constraint at a place, if the wire stands there, and files each private
    // wire that comes into it.
    fn replace_at(
        &mut self,
        at: u32,
        scratch: &mut Vec<(F, Wire)>,
        by: &Substitution<'_>,
    ) -> Result<(), AllocError>
        requires { row_fits by.now.wire by.now.terms
            (slice_index_or self.old.pass.rows at None) ≡ true }
        ensures { OnOk result (self.new ≡ record {
          publics = self.old.publics;
          pass = record {
            rows = slice_set self.old.pass.rows at (option_map
                (replaced_in by.now.wire by.now.terms) (slice_index_or self.old.pass.rows at None));
            gone = self.old.pass.gone;
          };
        }) }
    {
        if at as usize >= self.rows.len() {
            return Ok(());
        }
        if !row_has(&self.rows.get(at as usize), by.wire) {
            return Ok(());
        }
        self.occurrences.file(at, by.replacement, self.publics)?;
        self.rows.replace(at as usize, scratch, by)
    }

    /// Substitutes for a private wire in all constraints, after which the wire is gone; `named` and
    /// `scratch` are for its use.
    pub(crate) fn substitute(
        &mut self,
        named: &mut Vec<u32>,
        scratch: &mut Vec<(F, Wire)>,
        by: &Substitution<'_>,
    ) -> Result<(), AllocError>
        requires private { self.old.publics ≤ by.now.wire }
        requires fit { list_all (row_fits by.now.wire by.now.terms) self.old.pass.rows ≡ true }
        ensures { OnOk result (self.new ≡ record {
          publics = self.old.publics;
          pass = substituted by.now.wire by.now.terms self.old.pass;
        }) }
    {
        self.occurrences.rows_of(by.wire.0, named)?;
        for at in named.iter() {
            self.replace_at(*at, scratch, by)?;
        }
        self.gone.push(by.wire.0)?;
        Ok(())
    }

    /// Leaves out terms that no constraint has, and rows that wires may not stand in, once there
    /// may be more of them than of the others.
    pub(crate) fn tidy(&mut self) -> Result<(), AllocError>
        ensures { OnOk result (self.new ≡ self.old) }
    {
        self.rows.tidy()?;
        self.occurrences.tidy(&self.rows, self.publics)
    }

    /// The constraints that are left, and the wires that are gone, in any order.
    pub(crate) fn into_parts(self) -> (Rows, Vec<u32>)
        ensures rows { result.0 ≡ self.pass.rows }
        ensures gone { result.1.items ≡ self.pass.gone }
    {
        (self.rows, self.gone)
    }
}
