//! The difference of two words in a row of twice their width, whose high half is their order.
ghost use Rattle.std.specs.Prelude.{◌≡◌, ◌+◌, ◌-◌, ◌%◌, ◌^◌, ◌≤◌, ◌<◌, length};
ghost use Rattle.std.specs.Prelude.{if◌then◌else◌, max, false, IfOk, OnOk};
ghost use Rattle.tv_bits.specs.DoubleRow.{row_number};
ghost use Rattle.tv_bits.specs.SignedWords.{top_signed};
ghost use Rattle.tv_bits.specs.Times.{times_of};
ghost use Rattle.tv_core.specs.Combinations.{less, top};
ghost use Rattle.tv_core.specs.Values.{GivesIn};
ghost use Rattle.tv_core.specs.Sinks.{Emits, Room};
ghost use Rattle.tv_rows.specs.RowDifference.{is_above, difference_low, difference_high};
ghost use Rattle.tv_rows.specs.RowDifference.{sign_difference, minuend, subtrahend};
ghost use Rattle.tv_rows.specs.RowDifference.{comparing, row_difference_of, RowDifferenceEqual};
ghost use Rattle.tv_rows.specs.RowDifference.{row_difference_values, RowDifferenceIsSound};
ghost use Rattle.tv_rows.specs.RowDifference.{RowDifferenceIsComplete, RowDifferenceSizes};
ghost use Rattle.tv_rows.specs.RowDifference.{RowDifferenceCosts};
ghost use Rattle.tv_word.specs.Widths.{IsWidth};

use tv_bits::{DoubleRow, SignedWord, sign_of};
use tv_core::{F, Lc, Put, Scratch, Sink, Values, Wire};
use tv_word::arithmetic;

/// Constrains a row to the difference of two words of `W` bits where `gate` is 1, and to nothing
/// where it is 0. Its low half is `x` less `y`, and less 1 more where `strict` is 1, modulo 2^`W`.
/// Its high half is 1 where `x` is above `y`, and also where they are the same if `strict` is 0;
/// else it is 0. The order is that of signed words where `by_sign` is 1. Gate, `by_sign` and
/// `strict` are 0 or 1; `strict` has at most 64 terms. It makes 1 wire and 2 constraints, of 9
/// terms beside those of the three.
pub fn row_difference<const W: u32, S: Sink>(
    s: &mut S,
    scratch: &mut Scratch,
    gate: &Lc,
    by_sign: &Lc,
    strict: &[(F, Wire)],
    x: &SignedWord,
    y: &SignedWord,
    row: &DoubleRow,
) -> Put<()>
    requires width { IsWidth W }
    requires room { Room S.meaning s.old 1 2 }
    requires flags_made { max (top gate.now) (max (top by_sign.now) (top strict.now))
        ≤ S.meaning.wires s.old }
    requires strict_short { length strict.now ≤ 64 }
    requires words_made { max (top_signed x.now) (top_signed y.now) ≤ S.meaning.wires s.old }
    requires row_made { top (row_number W row.now) ≤ S.meaning.wires s.old }
    ensures emits { Emits S.meaning s.old s.new
        (row_difference_of W gate.now (comparing by_sign.now strict.now) x.now y.now row.now)
        1 2 result }
{
    let signs = sign_difference(s, scratch, by_sign, x, y)?;
    set_row_difference::<W>(&mut scratch.b, strict, x.word, y.word, row, signs);
    scratch.c.clear();
    s.put(gate, &scratch.b, &scratch.c)
}

// A wire that is the sign of `x` less that of `y` where `by_sign` is 1, and else 0.
fn sign_difference<S: Sink>(
    s: &mut S,
    scratch: &mut Scratch,
    by_sign: &Lc,
    x: &SignedWord,
    y: &SignedWord,
) -> Put<Wire>
    requires room { Room S.meaning s.old 1 1 }
    requires by_sign_made { top by_sign.now ≤ S.meaning.wires s.old }
    requires x_made { top_signed x.now ≤ S.meaning.wires s.old }
    requires y_made { top_signed y.now ≤ S.meaning.wires s.old }
    ensures emits { Emits S.meaning s.old s.new
        (times_of by_sign.now (sign_difference x.now y.now)) 1 1 result }
    ensures below { IfOk result (λ signs. signs < S.meaning.wires s.new) }
{
    scratch.b.clear();
    scratch.b.plus(-F::ONE, y.sign);
    scratch.b.plus(F::ONE, x.sign);
    let signs = s.fresh();
    scratch.c.set_wire(signs);
    s.put(by_sign, &scratch.b, &scratch.c)?;
    Ok(signs)
}

// Makes `lc` 2^`W` + x, less 1 where `strict` is 1, less `y`, the row's number and 2^`W` times the
// difference of the signs.
fn set_row_difference<const W: u32>(
    lc: &mut Lc,
    strict: &[(F, Wire)],
    x: Wire,
    y: Wire,
    row: &DoubleRow,
    signs: Wire,
)
    requires width { IsWidth W }
    requires strict_short { length strict.now ≤ 64 }
    ensures terms { lc.new ≡ less (minuend W strict.now x) (subtrahend W y row.now signs) }
    ensures top { top lc.new ≤ max (max (top strict.now) (max (x + 1) (y + 1)))
        (max (top (row_number W row.now)) (signs + 1)) }
{
    lc.clear();
    lc.plus(F::of(1 << W), Wire(0));
    lc.plus_scaled(-F::ONE, strict);
    lc.plus(F::ONE, x);
    lc.plus_scaled(-F::ONE, &subtrahend::<W>(y, row, signs));
}

fn subtrahend<const W: u32>(y: Wire, row: &DoubleRow, signs: Wire) -> [(F, Wire); 4]
    requires width { IsWidth W }
    ensures { result ≡ subtrahend W y row.now signs }
{
    let power = F::of(1 << W);
    [
        (F::ONE, y),
        (F::ONE, row.low),
        (power, row.high),
        (power, signs),
    ]
}

/// Assigns the value of the wire that `row_difference` makes: the sign of `x` less that of `y`, or
/// 0 if the words are not compared by sign.
pub fn fill_row_difference<const W: u32, V: Values>(
    v: &mut V,
    by_sign: bool,
    x: u32,
    y: u32,
) -> Put<()>
    requires width { IsWidth W }
    requires whole { V.giving.broken v.old ≡ false }
    ensures gives { GivesIn V.giving v.old v.new
        (row_difference_values W (if by_sign then 1 else 0) x y) result }
    ensures whole { OnOk result (V.giving.broken v.new ≡ false) }
{
    v.give(F::from(by_sign) * (sign_of::<W>(x) - sign_of::<W>(y)))
}

/// Returns the low and the high half of the row that is the difference of two words.
pub fn difference_halves<const W: u32>(by_sign: bool, strict: bool, x: u32, y: u32) -> (u32, u32)
    requires width { IsWidth W }
    requires x_word { x < 2 ^ W }
    requires y_word { y < 2 ^ W }
    ensures low { result.0 ≡ difference_low W (if strict then 1 else 0) x y }
    ensures high { result.1 ≡ difference_high W (if by_sign then 1 else 0)
        (if strict then 1 else 0) x y }
{
    let difference = u64::from(x) + ((1 << W) - u64::from(y)) - u64::from(strict);
    let above = is_above::<W>(by_sign, strict, x, y);
    ((difference % (1 << W)) as u32, u32::from(above))
}

// Whether `x` is above `y`, or also the same where the order isn't strict.
fn is_above<const W: u32>(by_sign: bool, strict: bool, x: u32, y: u32) -> bool
    requires width { IsWidth W }
    requires x_word { x < 2 ^ W }
    requires y_word { y < 2 ^ W }
    ensures { result ≡ is_above W (if by_sign then 1 else 0) (if strict then 1 else 0) x y }
{
    if by_sign {
        let (x, y) = (
            arithmetic::signed_word::<W>(x),
            arithmetic::signed_word::<W>(y),
        );
        if strict { x > y } else { x >= y }
    } else if strict {
        x > y
    } else {
        x >= y
    }
}

/// The laws of `row_difference`:
/// - `sound`: where the gate is 1, the wires hold words and an assignment satisfies the constraints
///   of `row_difference`, the row holds their difference and their order.
/// - `equal`: its low half is 0 exactly where the words are the same, `strict` being 0.
/// - `complete`: where the row holds the difference of the words, or the gate is 0, an assignment
///   that has the value that `fill_row_difference` assigns satisfies the constraints of
///   `row_difference`; and the difference of two words is a row.
/// - `sizes`: `row_difference` makes one wire, to which `fill_row_difference` assigns one value
///   below P.
/// - `costs`: how many constraints and terms `row_difference` puts.
pub fn row_difference_laws()
    ensures sound { RowDifferenceIsSound }
    ensures equal { RowDifferenceEqual }
    ensures complete { RowDifferenceIsComplete }
    ensures sizes { RowDifferenceSizes }
    ensures costs { RowDifferenceCosts }
{}
