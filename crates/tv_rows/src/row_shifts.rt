//! The shift of a word to the right in a row of twice its width.
ghost use Rattle.std.specs.Prelude.{◌≡◌, ◌+◌, ◌*◌, ◌≤◌, ◌<◌, false, IfOk, OnOk};
ghost use Rattle.tv_bits.specs.DoubleRow.{row_number};
ghost use Rattle.tv_bits.specs.Times.{times_of};
ghost use Rattle.tv_core.specs.Combinations.{wire, top};
ghost use Rattle.tv_core.specs.Values.{GivesIn};
ghost use Rattle.tv_core.specs.Sinks.{Emits, Room};
ghost use Rattle.tv_rows.specs.RowShift.{right_shift_of, right_shift_values};
ghost use Rattle.tv_rows.specs.RowShift.{RightShiftIsSound, RightShiftIsComplete};
ghost use Rattle.tv_rows.specs.RowShift.{RightShiftSizes, RightShiftCosts};
ghost use Rattle.tv_rows.specs.RowShift.{ShiftsByAnyDistance};
ghost use Rattle.tv_word.specs.Widths.{IsWidth};

use tv_bits::{DoubleRow, gated, times_by};
use tv_core::{F, Lc, Put, Scratch, Sink, Values, Wire};

/// Constrains a row, where `gate` is 1, to the word `v` of `W` bits shifted to the right by m, with
/// `power` a wire that holds 2^m and m below `W`: its high half is the shifted word, and its low
/// half the bits that leave it, from the top down. Where `gate` is 0, nothing is asked of the row.
/// It makes 1 wire, the product of the row's number and `power`, and 2 constraints, of 6 terms
/// beside those of `gate`.
pub fn right_shift<const W: u32, S: Sink>(
    s: &mut S,
    scratch: &mut Scratch,
    gate: &Lc,
    v: Wire,
    power: Wire,
    row: &DoubleRow,
) -> Put<()>
    requires width { IsWidth W }
    requires room { Room S.meaning s.old 1 2 }
    requires gate_made { top gate.now ≤ S.meaning.wires s.old }
    requires v_made { v < S.meaning.wires s.old }
    requires power_made { power < S.meaning.wires s.old }
    requires row_made { top (row_number W row.now) ≤ S.meaning.wires s.old }
    ensures emits { Emits S.meaning s.old s.new
        (right_shift_of W gate.now v power row.now) 1 2 result }
{
    let product = row_times::<W, S>(s, scratch, power, row)?;
    gated(
        s,
        scratch,
        gate,
        &[(F::of(1 << W), v)],
        &[(F::ONE, product)],
    )
}

// Makes a wire that is the product of the row's number and the wire `power`.
#[inline]
fn row_times<const W: u32, S: Sink>(
    s: &mut S,
    scratch: &mut Scratch,
    power: Wire,
    row: &DoubleRow,
) -> Put<Wire>
    requires width { IsWidth W }
    requires room { Room S.meaning s.old 1 1 }
    requires power_made { power < S.meaning.wires s.old }
    requires row_made { top (row_number W row.now) ≤ S.meaning.wires s.old }
    ensures emits { Emits S.meaning s.old s.new
        (times_of (row_number W row.now) (wire power)) 1 1 result }
    ensures below { IfOk result (λ product. product < S.meaning.wires s.new) }
{
    scratch.a.clear();
    scratch.a.plus_terms(&row.number::<W>());
    scratch.b.set_wire(power);
    times_by(s, scratch)
}

/// Assigns the value of the wire that `right_shift` makes for a row's halves and a power.
pub fn fill_right_shift<const W: u32, V: Values>(
    v: &mut V,
    low: u32,
    high: u32,
    power: u32,
) -> Put<()>
    requires width { IsWidth W }
    requires whole { V.giving.broken v.old ≡ false }
    ensures gives { GivesIn V.giving v.old v.new (right_shift_values W low high power) result }
    ensures whole { OnOk result (V.giving.broken v.new ≡ false) }
{
    let number = F::from(low) + F::of(1 << W) * F::from(high);
    v.give(number * F::from(power))
}

/// The laws of `right_shift`:
/// - `sound`: where the gate is 1 and an assignment satisfies the constraints of `right_shift`, a
///   row holds the word shifted to the right.
/// - `complete`: where the row holds the word shifted to the right, or the gate is 0, an assignment
///   that has the value that `fill_right_shift` assigns satisfies the constraints of `right_shift`;
///   and such halves are a row.
/// - `sizes`: `fill_right_shift` assigns one number of the field for each wire that `right_shift`
///   makes.
/// - `costs`: how many constraints and terms `right_shift` puts.
pub fn right_shift_laws()
    ensures sound { RightShiftIsSound }
    ensures complete { RightShiftIsComplete }
    ensures sizes { RightShiftSizes }
    ensures costs { RightShiftCosts }
{}

/// A word that is 0 where the distance reaches `W`, shifted by the distance modulo `W`, is the word
/// shifted by the distance, and 0 where that reaches `W`. It is the word times the wire that
/// `zero_sign` constrains for the distance divided by `W` and the sign 1.
#[tactic(auto, using(crate::proofs::AnyDistance::any_distance))]
pub fn shifts_by_any_distance()
    ensures { ShiftsByAnyDistance }
{}
