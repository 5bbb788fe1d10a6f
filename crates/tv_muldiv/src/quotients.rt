//! The quotient and the remainder of two words.
ghost use Rattle.std.specs.Prelude.{◌≡◌, ◌+◌, ◌*◌, ◌/◌, ◌^◌, ◌<◌, [], ◌∷◌, false, IfOk, OnOk};
ghost use Rattle.tv_bits.specs.Bits.{AreBitsBelow};
ghost use Rattle.tv_bits.specs.Zero.{zero_flag};
ghost use Rattle.tv_core.specs.Values.{GivesIn};
ghost use Rattle.tv_core.specs.Sinks.{Emits, Room};
ghost use Rattle.tv_muldiv.specs.Quotient.{IsQuotientBelow};
ghost use Rattle.tv_muldiv.specs.Quotient.{quotient_wires_of, gate_of, division_of};
ghost use Rattle.tv_muldiv.specs.Quotient.{remainder_below_of, quotient_of, gate_in, words_values};
ghost use Rattle.tv_muldiv.specs.Quotient.{above_values, quotient_values, QuotientIsSound};
ghost use Rattle.tv_muldiv.specs.Quotient.{QuotientIsComplete, QuotientSizes};
ghost use Rattle.tv_word.specs.Widths.{IsWidth};

use crate::records::Quot;
use tv_bits::{
    Bits, fill_bits, fill_prefix_difference, first_difference, new_bits_by, prefix_difference_by,
    times_by,
};
use tv_core::{F, Put, Scratch, Sink, Values, Wire, give_values};
use tv_word::arithmetic;

// Words are cut into this many chunks.
const CHUNKS: u32 = 4;

/// Constrains new bits to the quotient and the remainder of two words of `W` bits, both 0 where the
/// divisor `y` is, and a wire to 1 exactly where the divisor is 0, else 0. It makes
/// `2 W + W / 4 + 4` wires and `2 W + W / 4 + 7` constraints, of `19 W + 3 W / 4 + 19` terms: 76,
/// 79 and 651 at 32 bits.
pub fn quotient<const W: u32, S: Sink>(s: &mut S, x: &Bits, y: &Bits) -> Put<Quot>
    requires width { IsWidth W }
    requires room { Room S.meaning s.old (2 * W + W / 4 + 4) (2 * W + W / 4 + 7) }
    requires x_word { AreBitsBelow (S.meaning.wires s.old) W x.now }
    requires y_word { AreBitsBelow (S.meaning.wires s.old) W y.now }
    ensures emits { Emits S.meaning s.old s.new
        (quotient_of W x.now y.now) (2 * W + W / 4 + 4) (2 * W + W / 4 + 7) result }
    ensures below { IfOk result (IsQuotientBelow (S.meaning.wires s.new) W) }
{
    let mut scratch = Scratch::new();
    let made = quotient_wires::<W, S>(s, &mut scratch, y)?;
    division::<W, S>(s, &mut scratch, x, y, &made)?;
    remainder_below::<W, S>(s, &mut scratch, y, &made)?;
    Ok(made)
}

// Bits for the quotient and the remainder, and one more that is 0 where the divisor isn't.
fn quotient_wires<const W: u32, S: Sink>(s: &mut S, scratch: &mut Scratch, y: &Bits) -> Put<Quot>
    requires width { IsWidth W }
    requires room { Room S.meaning s.old (2 * W + 1) (2 * W + 2) }
    requires y_word { AreBitsBelow (S.meaning.wires s.old) W y.now }
    ensures emits { Emits S.meaning s.old s.new
        (quotient_wires_of W y.now) (2 * W + 1) (2 * W + 2) result }
    ensures below { IfOk result (IsQuotientBelow (S.meaning.wires s.new) W) }
{
    let first = new_bits_by(s, scratch, 2 * W + 1)?.first;
    let (rem, by_zero) = (first.offset(W), first.offset(2 * W));
    scratch.a.set_wire(by_zero);
    y.set_number(&mut scratch.b);
    scratch.c.clear();
    s.put(&scratch.a, &scratch.b, &scratch.c)?;
    Ok(Quot {
        quot: Bits { first, n: W },
        rem: Bits { first: rem, n: W },
        by_zero,
    })
}

// Holds the quotient times `y` to `x` less the remainder, or both to 0 where the divisor is.
fn division<const W: u32, S: Sink>(
    s: &mut S,
    scratch: &mut Scratch,
    x: &Bits,
    y: &Bits,
    made: &Quot,
) -> Put<()>
    requires width { IsWidth W }
    requires room { Room S.meaning s.old 1 2 }
    requires x_word { AreBitsBelow (S.meaning.wires s.old) W x.now }
    requires y_word { AreBitsBelow (S.meaning.wires s.old) W y.now }
    requires made { IsQuotientBelow (S.meaning.wires s.old) W made.now }
    ensures emits { Emits S.meaning s.old s.new (division_of W x.now y.now made.now) 1 2 result }
{
    let gate = gate::<W, S>(s, scratch, x, made)?;
    made.quot.set_number(&mut scratch.a);
    y.set_number(&mut scratch.b);
    x.set_number(&mut scratch.c);
    made.rem.plus_to(&mut scratch.c, -F::ONE);
    scratch.c.plus(-F::ONE, gate);
    s.put(&scratch.a, &scratch.b, &scratch.c)
}

// A wire that is `x` plus the quotient where the divisor is 0, and else 0.
fn gate<const W: u32, S: Sink>(s: &mut S, scratch: &mut Scratch, x: &Bits, made: &Quot) -> Put<Wire>
    requires width { IsWidth W }
    requires room { Room S.meaning s.old 1 1 }
    requires x_word { AreBitsBelow (S.meaning.wires s.old) W x.now }
    requires made { IsQuotientBelow (S.meaning.wires s.old) W made.now }
    ensures emits { Emits S.meaning s.old s.new (gate_of W x.now made.now) 1 1 result }
    ensures below { IfOk result (λ gate. gate < S.meaning.wires s.new) }
{
    scratch.a.set_wire(made.by_zero);
    x.set_number(&mut scratch.b);
    made.quot.plus_to(&mut scratch.b, F::ONE);
    times_by(s, scratch)
}

// Holds the remainder below `y`, unless the divisor is 0.
fn remainder_below<const W: u32, S: Sink>(
    s: &mut S,
    scratch: &mut Scratch,
    y: &Bits,
    made: &Quot,
) -> Put<()>
    requires width { IsWidth W }
    requires room { Room S.meaning s.old (W / 4 + 2) (W / 4 + 3) }
    requires y_word { AreBitsBelow (S.meaning.wires s.old) W y.now }
    requires made { IsQuotientBelow (S.meaning.wires s.old) W made.now }
    ensures emits { Emits S.meaning s.old s.new
        (remainder_below_of W y.now made.now) (W / 4 + 2) (W / 4 + 3) result }
{
    let above = new_bits_by(s, scratch, W / CHUNKS)?;
    let mut difference = above.plus_one();
    difference.plus(-F::ONE, made.by_zero);
    prefix_difference_by(s, scratch, y, &made.rem, &difference, W / CHUNKS, CHUNKS)
}

/// Assigns the `2 W + W / 4 + 4` values of the wires that `quotient` makes for bits that represent
/// `x` and `y`.
pub fn fill_quotient<const W: u32, V: Values>(v: &mut V, x: u32, y: u32) -> Put<()>
    requires width { IsWidth W }
    requires x_word { x < 2 ^ W }
    requires y_word { y < 2 ^ W }
    requires whole { V.giving.broken v.old ≡ false }
    ensures gives { GivesIn V.giving v.old v.new (quotient_values W x y) result }
    ensures whole { OnOk result (V.giving.broken v.new ≡ false) }
{
    fill_words::<W, V>(v, x, y)?;
    give_values(v, &flags(x, y))?;
    fill_above::<W, V>(v, x, y)
}

fn fill_words<const W: u32, V: Values>(v: &mut V, x: u32, y: u32) -> Put<()>
    requires width { IsWidth W }
    requires x_word { x < 2 ^ W }
    requires y_word { y < 2 ^ W }
    requires whole { V.giving.broken v.old ≡ false }
    ensures gives { GivesIn V.giving v.old v.new (words_values W x y) result }
    ensures whole { OnOk result (V.giving.broken v.new ≡ false) }
{
    fill_bits(v, F::from(arithmetic::quotient::<W>(x, y)), W)?;
    fill_bits(v, F::from(arithmetic::remainder::<W>(x, y)), W)
}

// Whether the divisor is 0, and the gate.
fn flags(x: u32, y: u32) -> [F; 2]
    ensures { result ≡ zero_flag y ∷ gate_in x y ∷ [] }
{
    if y == 0 {
        [F::ONE, F::from(x)]
    } else {
        [F::ZERO, F::ZERO]
    }
}

fn fill_above<const W: u32, V: Values>(v: &mut V, x: u32, y: u32) -> Put<()>
    requires width { IsWidth W }
    requires x_word { x < 2 ^ W }
    requires y_word { y < 2 ^ W }
    requires whole { V.giving.broken v.old ≡ false }
    ensures gives { GivesIn V.giving v.old v.new (above_values W x y) result }
    ensures whole { OnOk result (V.giving.broken v.new ≡ false) }
{
    let rem = u64::from(arithmetic::remainder::<W>(x, y));
    let y = u64::from(y);
    let above = first_difference(y, rem, W / CHUNKS, CHUNKS);
    fill_bits(v, F::of(above.saturating_sub(1)), W / CHUNKS)?;
    fill_prefix_difference(v, y, rem, F::of(above), W / CHUNKS, CHUNKS)
}

/// The laws of `quotient`:
/// - `sound`: where bits represent words of `W` bits and an assignment satisfies the constraints of
///   `quotient`, its wires represent their quotient and their remainder.
/// - `complete`: where bits represent words and an assignment has the values that `fill_quotient`
///   assigns, it satisfies the constraints of `quotient`.
/// - `sizes`: which wires `quotient` returns and how many it makes, whatever the next wire is, and
///   that `fill_quotient` assigns one value below P to each of them.
pub fn quotient_laws()
    ensures sound { QuotientIsSound }
    ensures complete { QuotientIsComplete }
    ensures sizes { QuotientSizes }
{}
