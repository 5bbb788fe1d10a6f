//! A shrunk system's constraints, put into a sink.

ghost use Rattle.std.specs.Prelude.{◌≡◌, ◌≤◌, false, length, IfOk};
ghost use Rattle.tv_core.specs.Sinks.{Emits, EmitsAll, PutsIn, Room};
ghost use Rattle.tv_shrink.specs.Emission.{row_circuit, row_count, rows_circuit, wires_circuit};
ghost use Rattle.tv_shrink.specs.Tidy.{RowIsWithin, AreWithin};

use crate::row::Row;
use crate::rows::Rows;
use tv_core::{F, Lc, Put, Scratch, Sink, Wire};

/// Makes this many wires.
pub(crate) fn make_wires<S: Sink>(s: &mut S, n: u32)
    requires room { Room S.meaning s.old n 0 }
    ensures emits { EmitsAll S.meaning s.old s.new (wires_circuit n) n 0 tt }
{
    for _ in 0..n {
        s.fresh();
    }
}

// Puts terms into a combination, in place of those that it has.
fn refill(lc: &mut Lc, terms: &[(F, Wire)])
    requires { length terms.now ≤ 128 }
    ensures { lc.new ≡ terms.now }
{
    lc.clear();
    lc.plus_terms(terms);
}

// Puts the constraint at a place, unless it was dropped; `scratch` is for its use.
fn put_row<S: Sink>(s: &mut S, scratch: &mut Scratch, row: &Option<Row<'_>>) -> Put<()>
    requires room { Room S.meaning s.old 0 1 }
    requires within { RowIsWithin (S.meaning.wires s.old) row.now }
    ensures emits { Emits S.meaning s.old s.new (row_circuit row.now) 0 (row_count row.now) result }
{
    let Some(row) = row else {
        return Ok(());
    };
    refill(&mut scratch.a, row.a);
    refill(&mut scratch.b, row.b);
    refill(&mut scratch.c, row.c);
    s.put(&scratch.a, &scratch.b, &scratch.c)
}

/// Puts the constraints that were not dropped.
pub(crate) fn put_rows<S: Sink>(s: &mut S, rows: &Rows) -> Put<()>
    requires room { Room S.meaning s.old 0 (length rows.now) }
    requires within { AreWithin (S.meaning.wires s.old) rows.now }
    ensures puts { PutsIn S.meaning s.old s.new (rows_circuit rows.now (length rows.now)) result }
    ensures whole { IfOk result (λ _. S.meaning.broken s.new ≡ false) }
{
    let mut scratch = Scratch::new();
    for at in 0..rows.len() {
        put_row(s, &mut scratch, &rows.get(at))?;
    }
    Ok(())
}
