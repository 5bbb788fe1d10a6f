//! The sum of two words in a row of twice their width.
ghost use Rattle.std.specs.Prelude.{◌≤◌, ◌<◌};
ghost use Rattle.tv_bits.specs.DoubleRow.{row_number};
ghost use Rattle.tv_core.specs.Combinations.{top};
ghost use Rattle.tv_core.specs.Sinks.{Emits, Room};
ghost use Rattle.tv_rows.specs.RowSum.{row_sum_of, RowSumIsSound, RowSumIsComplete};
ghost use Rattle.tv_rows.specs.RowSum.{RowSumSizes, RowSumCosts};
ghost use Rattle.tv_word.specs.Widths.{IsWidth};

use tv_bits::{DoubleRow, gated};
use tv_core::{F, Lc, Put, Scratch, Sink, Wire};

/// Constrains a row to the sum of two words of `W` bits where `gate` is 1, and to nothing where it
/// is 0: its low half is the sum modulo 2^`W`, and its high half the carry. It makes no wire and 1
/// constraint, of 4 terms beside those of `gate`.
pub fn row_sum<const W: u32, S: Sink>(
    s: &mut S,
    scratch: &mut Scratch,
    gate: &Lc,
    x: Wire,
    y: Wire,
    row: &DoubleRow,
) -> Put<()>
    requires width { IsWidth W }
    requires room { Room S.meaning s.old 0 1 }
    requires gate_made { top gate.now ≤ S.meaning.wires s.old }
    requires x_made { x < S.meaning.wires s.old }
    requires y_made { y < S.meaning.wires s.old }
    requires row_made { top (row_number W row.now) ≤ S.meaning.wires s.old }
    ensures emits { Emits S.meaning s.old s.new (row_sum_of W gate.now x y row.now) 0 1 result }
{
    gated(
        s,
        scratch,
        gate,
        &[(F::ONE, x), (F::ONE, y)],
        &row.number::<W>(),
    )
}

/// The laws of `row_sum`:
/// - `sound`: where the gate is 1, the wires hold words and an assignment satisfies the constraints
///   of `row_sum`, the row holds their sum.
/// - `complete`: where the row holds the sum of the words, or the gate is 0, an assignment
///   satisfies the constraints of `row_sum`; and the sum of two words is a row.
/// - `sizes`: `row_sum` makes no wire.
/// - `costs`: how many constraints and terms `row_sum` puts.
#[tactic(auto, using(crate::proofs::RowSumLaws::row_sum_laws))]
pub fn row_sum_laws()
    ensures sound { RowSumIsSound }
    ensures complete { RowSumIsComplete }
    ensures sizes { RowSumSizes }
    ensures costs { RowSumCosts }
{}
