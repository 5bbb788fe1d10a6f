//! The constraints of a pass.

ghost use Rattle.std.specs.Prelude.{◌≡◌, ◌+◌, ◌<◌, ◌++◌, [], ◌∷◌, true, length, map, None, Some};
ghost use Rattle.std.specs.Prelude.{slice_index_or, slice_set, OnOk, OnErr, IfOk, IfErr};
ghost use Rattle.std.specs.Option.{option_map};
ghost use Rattle.tv_r1cs_read.specs.Rows.{constraint_of};
ghost use Rattle.tv_shrink.specs.Answers.{start_row, wide_in, IsTooWide};
ghost use Rattle.tv_shrink.specs.Renumbering.{moved_rows};
ghost use Rattle.tv_core.specs.Normal.{normal_constraint};
ghost use Rattle.tv_shrink.specs.Pass.{row_fits};
ghost use Rattle.tv_shrink.specs.Substitution.{replaced_in};
ghost use Rattle.tv_shrink.specs.Spans.{row_at, AreLaid, IsInside};
ghost use Rattle.tv_shrink.specs.Tidy.{RowsAreNormal, RowIsNormal};

use crate::arena::{Span, append_copy, append_read, lay, put_replaced, renumber_terms};
use crate::fault::ShrinkFault;
use crate::numbers::Numbers;
use crate::row::Row;
use crate::substitution::Substitution;
use std::alloc::{AllocError, Global};
use std::marker::Model;
use tv_core::{F, Wire};

/// The constraints of a pass, each of normal combinations, or dropped.
///
/// Their terms lie in one vector, those of no two in one place. New ones lie over those that the
/// constraint had, or, where they are more, after all others; those that no constraint has any more
/// stay until `tidy` leaves them out.
#[derive(Drop)]
pub(crate) struct Rows {
    alloc: Global,
    spans: Vec<Option<Span>>,
    terms: Vec<(F, Wire)>,
    // How many terms there were when each still stood in a constraint.
    wanted: usize,
}

impl Model for Rows {
    ghost use Rattle.std.specs.Prelude.{List, Option, length, map};
    ghost use Rattle.std.specs.Option.{option_map};
    ghost use Rattle.tv_core.specs.Constraints.{Constraint};

    ghost Value = { List (Option Constraint) };

    ghost use Rattle.tv_shrink.specs.Spans.{row_at, AreLaid};

    ghost view = { λ r. map (option_map (row_at r.terms.items)) r.spans.items };

    ghost invariant = { λ r. AreLaid (length r.terms.items) r.spans.items };
}

impl Rows {
    /// No constraints; takes no memory.
    pub(crate) fn new(alloc: Global) -> Rows
        ensures { result ≡ [] }
    {
        Rows {
            alloc,
            spans: Vec::new(alloc),
            terms: Vec::new(alloc),
            wanted: 0,
        }
    }

    /// How many constraints there are, with those that were dropped.
    pub(crate) fn len(&self) -> usize
        ensures { result ≡ length self.now }
    {
        self.spans.len()
    }

    /// The constraint at a place, if it was not dropped.
    pub(crate) fn get(&self, at: usize) -> Option<Row<'_>>
        requires { at < length self.now }
        ensures { result ≡ slice_index_or self.now at None }
    {
        let span = self.spans[at]?;
        Some(span.row(&self.terms))
    }

    /// Drops the constraint at a place.
    pub(crate) fn remove(&mut self, at: usize)
        requires { at < length self.old }
        ensures { self.new ≡ slice_set self.old at None }
    {
        self.spans[at] = None;
    }

    /// Appends a constraint that was read, made normal, unless it holds by constants; refused where
    /// a combination has more than 128 terms then. `scratch` is for its use.
    pub(crate) fn add(
        &mut self,
        row: &tv_r1cs_read::Row,
        scratch: &mut Vec<(u32, F)>,
    ) -> Result<(), ShrinkFault>
        ensures rows { OnOk result (self.new ≡ self.old
            ++ start_row (normal_constraint (constraint_of row.now))) }
        ensures narrow { OnOk result (wide_in (constraint_of row.now) ≡ None) }
        ensures err { IfErr result (λ fault. IsTooWide fault (wide_in (constraint_of row.now))) }
    {
        let span = append_read(scratch, &mut self.terms, row)?;
        if span.row(&self.terms).holds_by_constants() {
            self.terms.truncate(span.start);
            return Ok(());
        }
        self.spans.push(Some(span))?;
        self.wanted = self.terms.len();
        Ok(())
    }

    // The same constraints, with no terms but theirs.
    fn compacted(&self) -> Result<Rows, AllocError>
        ensures { IfOk result (λ rows. rows ≡ self.now) }
    {
        let mut spans = Vec::new(self.alloc);
        let mut terms = Vec::new(self.alloc);
        for span in &self.spans {
            copy(&mut spans, &mut terms, span, &self.terms)?;
        }
        Ok(Rows {
            alloc: self.alloc,
            spans,
            wanted: terms.len(),
            terms,
        })
    }

    /// Leaves out the terms that no constraint has any more, once there may be more of them than of
    /// the others, or than there are constraints: so there are at most twice as many terms as the
    /// constraints had together, or as there are constraints, and those that were appended since
    /// the call before.
    pub(crate) fn tidy(&mut self) -> Result<(), AllocError>
        ensures { self.new ≡ self.old }
    {
        if self.terms.len() / 2 > self.wanted.max(self.spans.len()) {
            let rows = self.compacted()?;
            *self = rows;
        }
        Ok(())
    }

    /// Whether the constraint at a place keeps to its most terms after a substitution, as one does
    /// that was dropped, is to be dropped, or isn't there; `scratch` is for its use.
    pub(crate) fn other_fits(
        &self,
        but: usize,
        at: u32,
        scratch: &mut Vec<(F, Wire)>,
        by: &Substitution<'_>,
    ) -> Result<bool, AllocError>
        requires { RowsAreNormal self.now }
        ensures { IfOk result (λ answer. answer ≡ row_fits by.now.wire by.now.terms
            (slice_index_or (slice_set self.now but None) at None)) }
    {
        let at = at as usize;
        if at == but || at >= self.len() {
            return Ok(true);
        }
        match self.get(at) {
            Some(row) => row.fits(scratch, by),
            None => Ok(true),
        }
    }

    /// Substitutes in the constraint at a place, unless it was dropped; `scratch` is for its use.
    pub(crate) fn replace(
        &mut self,
        at: usize,
        scratch: &mut Vec<(F, Wire)>,
        by: &Substitution<'_>,
    ) -> Result<(), AllocError>
        requires inside { at < length self.old }
        requires normal { RowIsNormal (slice_index_or self.old at None) }
        requires fits { row_fits by.now.wire by.now.terms (slice_index_or self.old at None) ≡ true }
        ensures replaces { OnOk result (self.new ≡ slice_set self.old at
            (option_map (replaced_in by.now.wire by.now.terms) (slice_index_or self.old at None))) }
        ensures err { OnErr result (self.new ≡ self.old) }
    {
        let Some(span) = self.spans[at] else {
            return Ok(());
        };
        let row = span.row(&self.terms);
        let made = put_replaced(scratch, &row, by)?;
        let start = lay(&mut self.terms, &span, scratch)?;
        self.spans[at] = Some(Span { start, ..made });
        Ok(())
    }

    /// Gives each wire of the constraints its new number.
    pub(crate) fn renumber(&mut self, numbers: &Numbers)
        ensures { self.new ≡ moved_rows numbers.now self.old }
    {
        renumber_terms(&mut self.terms, numbers);
    }
}

// Appends a constraint whose terms lie among others, or one that was dropped.
fn copy(
    spans: &mut Vec<Option<Span>>,
    terms: &mut Vec<(F, Wire)>,
    span: &Option<Span>,
    from: &[(F, Wire)],
) -> Result<(), AllocError>
    requires inside { IsInside (length from.now) span.now }
    requires laid { AreLaid (length terms.old.items) spans.old.items }
    ensures laid { OnOk result (AreLaid (length terms.new.items) spans.new.items) }
    ensures rows { OnOk result (map (option_map (row_at terms.new.items)) spans.new.items
        ≡ map (option_map (row_at terms.old.items)) spans.old.items
        ++ option_map (row_at from.now) span.now ∷ []) }
{
    let Some(span) = span else {
        spans.push(None)?;
        return Ok(());
    };
    let made = append_copy(terms, span, from)?;
    spans.push(Some(made))?;
    Ok(())
}
