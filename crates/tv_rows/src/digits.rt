//! The bitwise operations as digits: of two bits the sum is twice their and, plus their exclusive
//! or.
ghost use Rattle.std.specs.Prelude.{◌≡◌, ◌+◌, ◌*◌, ◌/◌, ◌^◌, ◌++◌, ◌≤◌, ◌<◌, length, max};
ghost use Rattle.tv_core.specs.Combinations.{top};
ghost use Rattle.tv_core.specs.Sinks.{Emits, Room};
ghost use Rattle.tv_rows.specs.Digits.{digits_combination, digits_of, bitwise_of};
ghost use Rattle.tv_rows.specs.Digits.{BitwiseIsSound, BitwiseIsComplete, BitwiseSizes};
ghost use Rattle.tv_rows.specs.Digits.{BitwiseCosts};
ghost use Rattle.tv_word.specs.Widths.{IsWidth};

use tv_bits::{Bits, DoubleRow};
use tv_core::{F, Lc, Put, Scratch, Sink, Wire};

/// The base of the digits. The sum of two bits, and twice a bit plus another, are digits below it,
/// so numbers with different digits differ.
const BASE: u32 = 4;

/// Constrains the double row, where `gate` is 1: its low half is the bitwise and of the words `x`
/// and `y`, and its high half is their exclusive or, so their or is the sum of the halves. Where
/// `gate` is 0, the row is free. It makes no wire and 2 constraints, of `4 W` terms and
/// twice those of `gate`. Half of a word's digits stand in each, so that no sum reaches P.
pub fn bitwise<const W: u32, S: Sink>(
    s: &mut S,
    scratch: &mut Scratch,
    gate: &Lc,
    x: &Bits,
    y: &Bits,
    row: &DoubleRow,
) -> Put<()>
    requires width { IsWidth W }
    requires room { Room S.meaning s.old 0 2 }
    requires gate_made { top gate.now ≤ S.meaning.wires s.old }
    requires x_made { x.now.first + W ≤ S.meaning.wires s.old }
    requires y_made { y.now.first + W ≤ S.meaning.wires s.old }
    requires row_made { row.now.first + 2 * W ≤ S.meaning.wires s.old }
    ensures emits { Emits S.meaning s.old s.new
        (bitwise_of W gate.now x.now y.now row.now) 0 2 result }
{
    let half = W / 2;
    digits::<W, S>(s, scratch, half, gate, x.first, y.first, row.first)?;
    digits::<W, S>(
        s,
        scratch,
        half,
        gate,
        x.first.offset(half),
        y.first.offset(half),
        row.first.offset(half),
    )
}

// Constrains `n` digits of the words from `x`, `y` and `row` on, where `gate` is 1.
fn digits<const W: u32, S: Sink>(
    s: &mut S,
    scratch: &mut Scratch,
    n: u32,
    gate: &Lc,
    x: Wire,
    y: Wire,
    row: Wire,
) -> Put<()>
    requires room { Room S.meaning s.old 0 1 }
    requires short { n ≤ 32 }
    requires gate_made { top gate.now ≤ S.meaning.wires s.old }
    requires x_made { x + n ≤ S.meaning.wires s.old }
    requires y_made { y + n ≤ S.meaning.wires s.old }
    requires row_made { row + W + n ≤ S.meaning.wires s.old }
    ensures emits { Emits S.meaning s.old s.new (digits_of W n gate.now x y row) 0 1 result }
{
    scratch.b.clear();
    plus_digits(&mut scratch.b, F::ONE, y, n);
    plus_digits(&mut scratch.b, F::ONE, x, n);
    plus_digits(&mut scratch.b, -F::of(2), row, n);
    plus_digits(&mut scratch.b, -F::ONE, row.offset(W), n);
    scratch.c.clear();
    s.put(gate, &scratch.b, &scratch.c)
}

// Appends `factor` times the number whose `n` digits the wires from `first` on hold.
fn plus_digits(lc: &mut Lc, factor: F, first: Wire, n: u32)
    requires within { first + n < 2 ^ 32 }
    requires room { length lc.old + n ≤ 128 }
    ensures terms { lc.new ≡ lc.old ++ digits_combination factor first n }
    ensures top { top lc.new ≤ max (top lc.old) (first + n) }
    ensures len { length lc.new ≡ length lc.old + n }
{
    let mut coefficient = factor;
    for j in 0..n {
        lc.plus(coefficient, first.offset(j));
        coefficient = coefficient * F::from(BASE);
    }
}

/// The laws of `bitwise`:
/// - `sound`: where the gate is 1 and an assignment satisfies the constraints of `bitwise`, the
///   row's halves are the words' and and exclusive or, and their sum is the or.
/// - `complete`: where the row's halves are the words' and and exclusive or, or the gate is 0, an
///   assignment satisfies the constraints of `bitwise`. These halves are those of a row.
/// - `sizes`: `bitwise` makes no wire.
/// - `costs`: how many constraints and terms `bitwise` emits.
pub fn bitwise_laws()
    ensures sound { BitwiseIsSound }
    ensures complete { BitwiseIsComplete }
    ensures sizes { BitwiseSizes }
    ensures costs { BitwiseCosts }
{}
