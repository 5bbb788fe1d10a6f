//! The product of two words in a row of twice their width.
ghost use Rattle.std.specs.Prelude.{◌≡◌, ◌≤◌, ◌<◌, false, IfOk, OnOk};
ghost use Rattle.tv_bits.specs.DoubleRow.{row_number};
ghost use Rattle.tv_bits.specs.Times.{times_of};
ghost use Rattle.tv_core.specs.Combinations.{wire, top};
ghost use Rattle.tv_core.specs.Values.{GivesIn};
ghost use Rattle.tv_core.specs.Sinks.{Emits, Room};
ghost use Rattle.tv_row_products.specs.RowProduct.{row_product_of, row_product_values};
ghost use Rattle.tv_row_products.specs.RowProduct.{RowProductIsSound, RowProductIsComplete};
ghost use Rattle.tv_row_products.specs.RowProduct.{RowProductSizes, RowProductCosts};
ghost use Rattle.tv_word.specs.Widths.{IsWidth};

use tv_bits::{DoubleRow, gated, times_by};
use tv_core::{F, Lc, Put, Scratch, Sink, Values, Wire};

/// Constrains a row to the product of two words of `W` bits where `gate` is 1, and to nothing where
/// it is 0. It makes 1 wire, the product modulo P, and 2 constraints, of 6 terms beside those of
/// `gate`.
pub fn row_product<const W: u32, S: Sink>(
    s: &mut S,
    scratch: &mut Scratch,
    gate: &Lc,
    x: Wire,
    y: Wire,
    row: &DoubleRow,
) -> Put<()>
    requires width { IsWidth W }
    requires room { Room S.meaning s.old 1 2 }
    requires gate_made { top gate.now ≤ S.meaning.wires s.old }
    requires x_made { x < S.meaning.wires s.old }
    requires y_made { y < S.meaning.wires s.old }
    requires row_made { top (row_number W row.now) ≤ S.meaning.wires s.old }
    ensures emits { Emits S.meaning s.old s.new (row_product_of W gate.now x y row.now) 1 2 result }
{
    let product = product_of_wires(s, scratch, x, y)?;
    gated(s, scratch, gate, &row.number::<W>(), &[(F::ONE, product)])
}

// A wire that is the product of two.
pub(crate) fn product_of_wires<S: Sink>(
    s: &mut S,
    scratch: &mut Scratch,
    x: Wire,
    y: Wire,
) -> Put<Wire>
    requires room { Room S.meaning s.old 1 1 }
    requires x_made { x < S.meaning.wires s.old }
    requires y_made { y < S.meaning.wires s.old }
    ensures emits { Emits S.meaning s.old s.new (times_of (wire x) (wire y)) 1 1 result }
    ensures below { IfOk result (λ product. product < S.meaning.wires s.new) }
{
    scratch.a.set_wire(x);
    scratch.b.set_wire(y);
    times_by(s, scratch)
}

/// Assigns the value of the wire that `row_product` makes for two words.
pub fn fill_row_product<V: Values>(v: &mut V, x: u32, y: u32) -> Put<()>
    requires whole { V.giving.broken v.old ≡ false }
    ensures gives { GivesIn V.giving v.old v.new (row_product_values x y) result }
    ensures whole { OnOk result (V.giving.broken v.new ≡ false) }
{
    v.give(F::from(x) * F::from(y))
}

/// The laws of `row_product`:
/// - `sound`: where the gate is 1, the wires represent words and an assignment satisfies the
///   constraints of `row_product`, the row is their product.
/// - `complete`: where the row is the product of the words, or the gate is 0, an assignment that
///   has the value that `fill_row_product` assigns satisfies the constraints of `row_product`; and
///   the product of two words is a row.
/// - `sizes`: `row_product` makes one wire, to which `fill_row_product` assigns one value below P.
/// - `costs`: how many constraints and terms `row_product` emits.
#[tactic(auto, using(crate::proofs::RowProductLaws::row_product_laws))]
pub fn row_product_laws()
    ensures sound { RowProductIsSound }
    ensures complete { RowProductIsComplete }
    ensures sizes { RowProductSizes }
    ensures costs { RowProductCosts }
{}
