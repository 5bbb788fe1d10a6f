//! In which rows each wire may stand.

ghost use Rattle.std.specs.Prelude.{◌≡◌, ◌==◌, ◌≤◌, ◌<◌, ◌^◌, ℕ, true, false, length};
ghost use Rattle.std.specs.Prelude.{slice_index_or, slice_set, None, Ok, IfOk, OnOk, IfSome};
ghost use Rattle.std.specs.List.{list_any};
ghost use Rattle.tv_shrink.specs.Occurrences.{has_row};
ghost use Rattle.tv_shrink.specs.Pass.{row_fits};
ghost use Rattle.tv_shrink.specs.Substitution.{has_wire};
ghost use Rattle.tv_shrink.specs.Tidy.{row_has, RowsAreNormal, Covers};

use crate::row::Row;
use crate::rows::Rows;
use crate::substitution::Substitution;
use std::alloc::{AllocError, Global};
use std::marker::Model;
use tv_core::{F, Wire};

/// A row that a wire may stand in, and the number of the wire's entry before it, 0 at the first.
#[derive(Clone, Copy)]
struct Entry {
    row: u32,
    next: usize,
}

/// For each wire a list of rows that it may stand in, the one filed last first.
///
/// Wires whose numbers leave the same remainder share a list, so a wire below the number of lists
/// shares its own with greater ones alone. An entry takes 16 bytes, and a list eight. Entries of
/// rows that a wire has left stay until `tidy` files all constraints anew, in memory beside that of
/// before.
#[derive(Drop)]
pub(crate) struct Occurrences {
    alloc: Global,
    heads: Vec<usize>,
    entries: Vec<Entry>,
    // How many entries there were when a whole constraint was last filed.
    wanted: usize,
}

impl Model for Occurrences {
    ghost use Rattle.std.specs.Prelude.{ℕ, List, map, reverse};

    ghost Value = { List (List ℕ) };

    ghost use Rattle.tv_shrink.specs.Occurrences.{rows_from, AreLinked};

    ghost view = { λ p. map (rows_from (reverse p.entries.items)) p.heads.items };

    ghost invariant = { λ p. AreLinked p.entries.items p.heads.items };
}

impl Occurrences {
    /// Lists the rows that each private wire stands in, in this number of lists.
    pub(crate) fn of(
        alloc: Global,
        lists: usize,
        rows: &Rows,
        publics: u32,
    ) -> Result<Occurrences, AllocError>
        requires some { 0 < lists }
        requires few { length rows.now < 2 ^ 32 }
        ensures covers { IfOk result (λ lists. Covers publics rows.now (has_row lists)) }
    {
        let mut lists = Occurrences {
            alloc,
            heads: Vec::from_elem(alloc, 0, lists)?,
            entries: Vec::new(alloc),
            wanted: 0,
        };
        for at in 0..rows.len() {
            lists.file_row(at as u32, &rows.get(at), publics)?;
        }
        Ok(lists)
    }

    /// Puts the rows that a wire may stand in into `rows`, whose memory serves again.
    pub(crate) fn rows_of(&self, wire: u32, rows: &mut Vec<u32>) -> Result<(), AllocError>
        ensures { OnOk result ((i : ℕ) → list_any (λ p. p == i) rows.new.items
            ≡ has_row self.now wire i) }
    {
        rows.clear();
        let mut number = self.heads[wire as usize % self.heads.len()];
        while number > 0 {
            let entry = self.entries[number - 1];
            rows.push(entry.row)?;
            number = entry.next;
        }
        Ok(())
    }

    /// The first of the rows that a substitution's wire may stand in, but for the one at a place,
    /// that doesn't keep to its most terms after it. It looks at no row after that one.
    pub(crate) fn misfit(
        &self,
        rows: &Rows,
        but: usize,
        scratch: &mut Vec<(F, Wire)>,
        by: &Substitution<'_>,
    ) -> Result<Option<u32>, AllocError>
        requires { RowsAreNormal rows.now }
        ensures some { IfOk result (λ found. IfSome found (λ row.
            row_fits by.now.wire by.now.terms
            (slice_index_or (slice_set rows.now but None) row None) ≡ false)) }
        ensures none { result ≡ Ok None → (i : ℕ) → has_row self.now by.now.wire i ≡ true
            → row_fits by.now.wire by.now.terms
            (slice_index_or (slice_set rows.now but None) i None) ≡ true }
    {
        let mut number = self.heads[by.wire.0 as usize % self.heads.len()];
        while number > 0 {
            let entry = self.entries[number - 1];
            if !rows.other_fits(but, entry.row, scratch, by)? {
                return Ok(Some(entry.row));
            }
            number = entry.next;
        }
        Ok(None)
    }

    /// Files that a wire may stand in a row, which comes first in its list.
    pub(crate) fn add(&mut self, wire: u32, row: u32) -> Result<(), AllocError>
        ensures has { OnOk result (has_row self.new wire row ≡ true) }
        ensures more { (w i : ℕ) → has_row self.old w i ≡ true → has_row self.new w i ≡ true }
    {
        let place = wire as usize % self.heads.len();
        let next = self.heads[place];
        self.entries.push(Entry { row, next })?;
        self.heads[place] = self.entries.len();
        Ok(())
    }

    /// Files each private wire of a combination: it may stand in this row.
    #[inline(always)]
    pub(crate) fn file(
        &mut self,
        row: u32,
        terms: &[(F, Wire)],
        publics: u32,
    ) -> Result<(), AllocError>
        ensures more { (w i : ℕ) → has_row self.old w i ≡ true → has_row self.new w i ≡ true }
        ensures added { OnOk result ((w : ℕ) → publics ≤ w → has_wire w terms.now ≡ true
            → has_row self.new w row ≡ true) }
    {
        for (_, wire) in terms {
            if wire.0 >= publics {
                self.add(wire.0, row)?;
            }
        }
        Ok(())
    }

    /// Files each private wire of a constraint, unless it was dropped, in the row at this number.
    #[inline(always)]
    pub(crate) fn file_row(
        &mut self,
        at: u32,
        row: &Option<Row<'_>>,
        publics: u32,
    ) -> Result<(), AllocError>
        ensures more { OnOk result ((w i : ℕ) → has_row self.old w i ≡ true
            → has_row self.new w i ≡ true) }
        ensures added { OnOk result ((w : ℕ) → publics ≤ w → row_has w row.now ≡ true
            → has_row self.new w at ≡ true) }
    {
        let Some(row) = row else {
            return Ok(());
        };
        self.file(at, row.a, publics)?;
        self.file(at, row.b, publics)?;
        self.file(at, row.c, publics)?;
        self.wanted = self.entries.len();
        Ok(())
    }

    /// Files all constraints anew, once half of the entries are more than there were when a whole
    /// constraint was last filed, and than there are constraints, and lists.
    pub(crate) fn tidy(&mut self, rows: &Rows, publics: u32) -> Result<(), AllocError>
        requires covers { Covers publics rows.now (has_row self.old) }
        requires few { length rows.now < 2 ^ 32 }
        ensures { Covers publics rows.now (has_row self.new) }
    {
        let wanted = self.wanted.max(rows.len()).max(self.heads.len());
        if self.entries.len() / 2 > wanted {
            let lists = Occurrences::of(self.alloc, self.heads.len(), rows, publics)?;
            *self = lists;
        }
        Ok(())
    }
}
