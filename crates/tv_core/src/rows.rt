//! The terms of a list of constraints in one vector, and where each constraint's terms stand.
ghost use Rattle.std.specs.Prelude.{◌≡◌, ◌+◌, ◌≤◌, [], ◌∷◌, ◌++◌, length, vec_len, vec_capacity};
ghost use Rattle.std.specs.Prelude.{OnOk, OnErr};
ghost use Rattle.tv_core.specs.Rows.{constraint_at, row_after, Within};

use crate::combination::Lc;
use crate::field::F;
use crate::wire::Wire;
use std::alloc::AllocError;

// Where the terms of a constraint stand: the first, and the ends of its three combinations from
// there.
#[derive(Clone, Copy)]
pub(crate) struct TermRow {
    pub(crate) start: usize,
    pub(crate) a_end: u16,
    pub(crate) b_end: u16,
    pub(crate) c_end: u16,
}

// Returns the three combinations of a row of the terms.
pub(crate) fn combinations(terms: &[(F, Wire)], row: TermRow) -> (Lc, Lc, Lc)
    requires within { Within terms.now row }
    ensures { constraint_at terms.now row ≡ record { a = result.0; b = result.1; c = result.2 } }
{
    let a_end = row.start + row.a_end as usize;
    let b_end = row.start + row.b_end as usize;
    let c_end = row.start + row.c_end as usize;
    (
        Lc::from_terms(&terms[row.start..a_end]),
        Lc::from_terms(&terms[a_end..b_end]),
        Lc::from_terms(&terms[b_end..c_end]),
    )
}

// Appends three combinations one after another, and their row, or nothing where memory runs out.
pub(crate) fn append(
    terms: &mut Vec<(F, Wire)>,
    rows: &mut Vec<TermRow>,
    a: &Lc,
    b: &Lc,
    c: &Lc,
) -> Result<(), AllocError>
    ensures terms { OnOk result (terms.new.items ≡ terms.old.items ++ (a.now ++ (b.now ++ c.now))) }
    ensures rows { OnOk result (rows.new.items ≡ rows.old.items
        ++ row_after terms.old.items a.now b.now c.now ∷ []) }
    ensures lengths { (length a.now ≤ 128) × (length b.now ≤ 128) × (length c.now ≤ 128) }
    ensures err { OnErr result ((terms.new.items ≡ terms.old.items)
        × (rows.new.items ≡ rows.old.items)) }
{
    let (a, b, c) = (a.terms(), b.terms(), c.terms());
    let row = TermRow {
        start: terms.len(),
        a_end: a.len() as u16,
        b_end: (a.len() + b.len()) as u16,
        c_end: (a.len() + b.len() + c.len()) as u16,
    };
    rows.reserve(1)?;
    terms.reserve(a.len() + b.len() + c.len())?;
    extend_reserved(terms, a);
    extend_reserved(terms, b);
    extend_reserved(terms, c);
    rows.push_reserved(row);
    Ok(())
}

// Appends terms for which there is room.
#[inline]
fn extend_reserved(terms: &mut Vec<(F, Wire)>, more: &[(F, Wire)])
    requires { vec_len terms.old + length more.now ≤ vec_capacity terms.old }
    ensures items { terms.new.items ≡ terms.old.items ++ more.now }
    ensures len { vec_len terms.new ≡ vec_len terms.old + length more.now }
    ensures capacity { vec_capacity terms.old ≤ vec_capacity terms.new }
{
    let _ = terms.extend_from_slice(more);
}
