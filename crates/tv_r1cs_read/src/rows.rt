//! Constraints as they are read: three combinations in vectors that are reused.
ghost use Rattle.std.specs.Prelude.{◌≡◌, ◌+◌, ◌*◌, ◌≤◌, true, [], IfOk, OnOk};
ghost use Rattle.tv_container.specs.Places.{places};
ghost use Rattle.tv_container.specs.Reading.{ReadsAsBy, ReadsInBy};
ghost use Rattle.tv_r1cs_read.specs.R1cs.{constraint_at};
ghost use Rattle.tv_r1cs_read.specs.Rows.{constraint_read, terms_in, IsOver};

use crate::terms::{Bounds, Taker, read_far};
use std::alloc::{AllocFailed, Global};
use std::marker::Model;
use tv_container::{ReadRefusal, Window};
use tv_core::F;
use tv_files::Files;

/// The terms of a combination in order, each a wire and its coefficient.
#[derive(Drop)]
pub struct Terms {
    items: Vec<(u32, F)>,
}

impl Model for Terms {
    ghost use Rattle.std.specs.Prelude.{ℕ, List};

    ghost Value = { List (ℕ × ℕ) };

    ghost view = { λ terms. terms.items.items };
}

impl Terms {
    // No terms; takes no memory.
    fn new(alloc: Global) -> Terms
        ensures { result ≡ [] }
    {
        Terms {
            items: Vec::new(alloc),
        }
    }

    /// Returns the terms in order.
    pub fn as_slice(&self) -> &[(u32, F)]
        ensures { result.now ≡ self.now }
    {
        self.items.as_slice()
    }

    // No terms; keeps the memory.
    #[inline(always)]
    fn clear(&mut self)
        ensures { self.new ≡ [] }
    {
        self.items.clear();
    }
}

impl Taker for Terms {
    ghost keeps = { true };

    ghost Took = { λ kept _ terms. kept ≡ terms };

    #[inline(always)]
    fn take(
        &mut self,
        _window: &Window,
        _bounds: &Bounds,
        _at: u64,
        _left: u32,
        term: (u32, F),
        _values: &[F],
    ) -> Result<u32, AllocFailed<(u32, F)>> {
        self.items.push(term)?;
        Ok(0)
    }
}

/// A constraint that was read: the value of `a` times that of `b` is that of `c`.
#[derive(Drop)]
pub struct Row {
    /// The terms of the first factor.
    pub a: Terms,
    /// The terms of the second factor.
    pub b: Terms,
    /// The terms of the product.
    pub c: Terms,
}

impl Row {
    /// Returns a row without terms; takes no memory.
    pub fn new(alloc: Global) -> Row
        ensures a { result.a ≡ [] }
        ensures b { result.b ≡ [] }
        ensures c { result.c ≡ [] }
    {
        Row {
            a: Terms::new(alloc),
            b: Terms::new(alloc),
            c: Terms::new(alloc),
        }
    }
}

// Reads the constraint at a place, and returns the place after it.
#[tactic(auto, unfolding(crate::specs::R1cs::constraint_at))]
pub(crate) fn read_row<D: Files>(
    files: &mut D,
    name: &str,
    window: &mut Window,
    bounds: &Bounds,
    at: u64,
    row: &mut Row,
) -> Result<u64, ReadRefusal>
    requires { at ≤ bounds.now.end }
    ensures within { IfOk result (λ next. next ≤ bounds.now.end) }
    ensures size { IfOk result (λ next. next ≡ at + 12 + 12 * terms_in row.new) }
    ensures wires { OnOk result (IsOver bounds.now.wires row.new) }
    ensures reads { ReadsInBy true (D.seen files.old) (D.seen files.new) name.now window.old
        window.new result
        (λ file. bounds.now.end ≤ places file →
        ReadsAsBy result (constraint_read row.new)
        (constraint_at file bounds.now.wires bounds.now.end at)) }
{
    row.a.clear();
    let next = read_far(files, name, window, bounds, at, &[], &mut row.a)?;
    row.b.clear();
    let next = read_far(files, name, window, bounds, next, &[], &mut row.b)?;
    row.c.clear();
    let next = read_far(files, name, window, bounds, next, &[], &mut row.c)?;
    Ok(next)
}
