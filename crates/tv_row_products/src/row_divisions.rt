//! The quotient and the remainder of two words in a row of twice their width.
ghost use Rattle.std.specs.Prelude.{◌≡◌, ◌+◌, ◌%◌, ◌^◌, ◌≤◌, ◌<◌, ◌++◌, false, max, IfOk, OnOk};
ghost use Rattle.tv_bits.specs.Bits.{AreBitsBelow};
ghost use Rattle.tv_bits.specs.DoubleRow.{row_number};
ghost use Rattle.tv_bits.specs.Times.{times_of};
ghost use Rattle.tv_core.specs.Combinations.{wire, top};
ghost use Rattle.tv_core.specs.Values.{GivesIn};
ghost use Rattle.tv_core.specs.Sinks.{Emits, Room};
ghost use Rattle.tv_row_products.specs.RowDivision.{below_divisor, room_below, bits_less};
ghost use Rattle.tv_row_products.specs.RowDivision.{dividing, row_division_of, row_division_values};
ghost use Rattle.tv_row_products.specs.RowDivision.{RowDivisionIsSound, RowDivisionIsComplete};
ghost use Rattle.tv_row_products.specs.RowDivision.{RowDivisionSizes, RowDivisionCosts};
ghost use Rattle.tv_word.specs.Widths.{IsWidth};

use crate::row_products::product_of_wires;
use tv_bits::{Bits, DoubleRow, gated, times_by};
use tv_core::{F, Lc, Put, Scratch, Sink, Values, Wire, give_values};

/// Constrains a row to the division of two words of `W` bits where `gate` is 1: its low half is the
/// remainder and its high half the quotient, both 0 where `y` is, and `by_zero`, a bit, is 1
/// exactly there. The number of `bits` is then by how much more than 1 the divisor, or 2^`W` in
/// place of 0, is above the remainder. Where `gate` is 0, the bits represent `x`, and the row is
/// free. It returns a wire that is `by_zero` times `x`. It makes 2 wires and 4
/// constraints, of `W + 17` terms beside twice those of `gate`.
pub fn row_division<const W: u32, S: Sink>(
    s: &mut S,
    scratch: &mut Scratch,
    gate: &Lc,
    x: Wire,
    y: Wire,
    by_zero: Wire,
    bits: &Bits,
    row: &DoubleRow,
) -> Put<Wire>
    requires width { IsWidth W }
    requires room { Room S.meaning s.old 2 4 }
    requires terms_made { max (top gate.now) (top (row_number W row.now)) ≤ S.meaning.wires s.old }
    requires words_made { max (max x y) by_zero < S.meaning.wires s.old }
    requires bits_made { AreBitsBelow (S.meaning.wires s.old) W bits.now }
    ensures emits { Emits S.meaning s.old s.new
        (row_division_of W gate.now (dividing x y by_zero) bits.now row.now) 2 4 result }
    ensures below { IfOk result (λ kept. kept < S.meaning.wires s.new) }
{
    let kept = product_of_wires(s, scratch, by_zero, x)?;
    let product = product_of_quotient(s, scratch, row.high, y, by_zero)?;
    let parts = [(F::ONE, row.low), (F::ONE, kept), (F::ONE, product)];
    gated(s, scratch, gate, &[(F::ONE, x)], &parts)?;
    set_room_below::<W>(&mut scratch.b, x, y, by_zero, row);
    set_bits_less::<W>(&mut scratch.c, x, bits);
    s.put(gate, &scratch.b, &scratch.c)?;
    Ok(kept)
}

// A wire that is the quotient times the divisor, or times 1 where the divisor is 0.
fn product_of_quotient<S: Sink>(
    s: &mut S,
    scratch: &mut Scratch,
    high: Wire,
    y: Wire,
    by_zero: Wire,
) -> Put<Wire>
    requires room { Room S.meaning s.old 1 1 }
    requires high_made { high < S.meaning.wires s.old }
    requires y_made { y < S.meaning.wires s.old }
    requires by_zero_made { by_zero < S.meaning.wires s.old }
    ensures emits { Emits S.meaning s.old s.new
        (times_of (wire high) (wire y ++ wire by_zero)) 1 1 result }
    ensures below { IfOk result (λ product. product < S.meaning.wires s.new) }
{
    scratch.a.set_wire(high);
    scratch.b.set_wire(y);
    scratch.b.plus(F::ONE, by_zero);
    times_by(s, scratch)
}

// Makes `lc` the room below the divisor, less `x`.
fn set_room_below<const W: u32>(lc: &mut Lc, x: Wire, y: Wire, by_zero: Wire, row: &DoubleRow)
    requires width { IsWidth W }
    ensures terms { lc.new ≡ room_below W x y by_zero row.now }
    ensures top { top lc.new ≤ max (max (x + 1) (y + 1))
        (max (by_zero + 1) (top (row_number W row.now))) }
{
    lc.clear();
    lc.plus(-F::ONE, Wire(0));
    lc.plus(-F::ONE, x);
    lc.plus(F::ONE, y);
    lc.plus(F::of(1 << W), by_zero);
    lc.plus(-F::ONE, row.low);
}

// Makes `lc` the number of the bits, less `x`.
fn set_bits_less<const W: u32>(lc: &mut Lc, x: Wire, bits: &Bits)
    requires width { IsWidth W }
    requires bits_word { bits.now.n ≡ W }
    requires within { bits.now.first + W < 2 ^ 32 }
    ensures terms { lc.new ≡ bits_less W x bits.now }
    ensures top { top lc.new ≤ max (x + 1) (bits.now.first + W) }
{
    lc.clear();
    lc.plus(-F::ONE, x);
    bits.plus_to(lc, F::ONE);
}

/// Assigns the values of the wires that `row_division` makes, `by_zero` and `high` being the values
/// of the wires of those names.
pub fn fill_row_division<V: Values>(v: &mut V, by_zero: F, x: u32, high: u32, y: u32) -> Put<()>
    requires whole { V.giving.broken v.old ≡ false }
    ensures gives { GivesIn V.giving v.old v.new (row_division_values by_zero x high y) result }
    ensures whole { OnOk result (V.giving.broken v.new ≡ false) }
{
    give_values(v, &row_division_values(by_zero, x, high, y))
}

fn row_division_values(by_zero: F, x: u32, high: u32, y: u32) -> [F; 2]
    ensures { result ≡ row_division_values by_zero x high y }
{
    [by_zero * F::from(x), F::from(high) * (F::from(y) + by_zero)]
}

/// Returns by how much more than 1 the divisor `y`, or 2^`W` in place of 0, is above the remainder
/// of `x`: the number that the bits of a division represent.
pub fn below_divisor<const W: u32>(x: u32, y: u32) -> u32
    requires width { IsWidth W }
    requires y_word { y < 2 ^ W }
    ensures number { result ≡ below_divisor W x y }
    ensures word { result < 2 ^ W }
{
    if y == 0 {
        ((1 << W) - 1u64) as u32
    } else {
        y - 1 - x % y
    }
}

/// The laws of `row_division`:
/// - `sound`: where the gate is 1, the wires represent words and an assignment satisfies the
///   constraints of `row_division`, the row is their division; where the gate is 0, the bits
///   represent `x`.
/// - `complete`: where the row is the division of the words and the bits represent what is below
///   the divisor, or the gate is 0 and they represent `x`, an assignment that has the values that
///   `fill_row_division` assigns satisfies the constraints of `row_division`; and the division of
///   two words is a row.
/// - `sizes`: which wire `row_division` returns, and that `fill_row_division` assigns one value
///   below P to each wire that it makes.
/// - `costs`: how many constraints and terms `row_division` emits.
#[tactic(auto, using(crate::proofs::RowDivisionLaws::row_division_laws))]
pub fn row_division_laws()
    ensures sound { RowDivisionIsSound }
    ensures complete { RowDivisionIsComplete }
    ensures sizes { RowDivisionSizes }
    ensures costs { RowDivisionCosts }
{}
