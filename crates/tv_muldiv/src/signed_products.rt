//! The high word of the signed product of two words.
ghost use Rattle.std.specs.Prelude.{◌≡◌, ◌+◌, ◌*◌, ◌≤◌, ◌<◌, ◌^◌, false, IfOk, OnOk};
ghost use Rattle.tv_bits.specs.Bits.{AreBitsBelow};
ghost use Rattle.tv_core.specs.Combinations.{top};
ghost use Rattle.tv_core.specs.Values.{GivesIn};
ghost use Rattle.tv_core.specs.Sinks.{Emits, Room};
ghost use Rattle.tv_muldiv.specs.SignedHigh.{signed_bits_of, excess};
ghost use Rattle.tv_row_products.specs.RowSignedProduct.{excess_in};
ghost use Rattle.tv_muldiv.specs.SignedHigh.{signed_high_of, signed_high_values};
ghost use Rattle.tv_muldiv.specs.SignedHigh.{SignedHighIsSound, SignedHighIsComplete};
ghost use Rattle.tv_muldiv.specs.SignedHigh.{SignedHighSizes};
ghost use Rattle.tv_word.specs.Operations.{product_twos};
ghost use Rattle.tv_word.specs.Widths.{IsWidth};

use crate::numbers::{fill_halves, set_signed_number};
use crate::records::High;
use tv_bits::{Bits, fill_nonzero, new_bits_by, nonzero_by};
use tv_core::{F, Lc, Put, Scratch, Sink, Values, Wire};
use tv_row_products::product_twos;

/// Constrains new bits to the high word of the product of two words of `W` bits as signed numbers,
/// and a wire to 1 exactly where that product lies outside -2^(`W - 1`) .. 2^(`W - 1`) - 1, else 0.
/// It makes `2 W + 2` wires and `2 W + 3` constraints, of `12 W + 6` terms: 66, 67 and 390 at 32
/// bits.
pub fn signed_high<const W: u32, S: Sink>(s: &mut S, x: &Bits, y: &Bits) -> Put<High>
    requires width { IsWidth W }
    requires room { Room S.meaning s.old (2 * W + 2) (2 * W + 3) }
    requires x_word { AreBitsBelow (S.meaning.wires s.old) W x.now }
    requires y_word { AreBitsBelow (S.meaning.wires s.old) W y.now }
    ensures emits { Emits S.meaning s.old s.new
        (signed_high_of W x.now y.now) (2 * W + 2) (2 * W + 3) result }
    ensures high_below { IfOk result (λ made. AreBitsBelow (S.meaning.wires s.new) W made.high) }
    ensures over_below { IfOk result (λ made. made.over < S.meaning.wires s.new) }
{
    let mut scratch = Scratch::new();
    let made = signed_bits::<W, S>(s, &mut scratch, x, y)?;
    set_high_excess::<W>(&mut scratch.a, made.first);
    let over = nonzero_by(s, &mut scratch)?;
    let high = made.above(W);
    Ok(High { high, over })
}

// `2 W` bits that represent the product in two's complement.
fn signed_bits<const W: u32, S: Sink>(
    s: &mut S,
    scratch: &mut Scratch,
    x: &Bits,
    y: &Bits,
) -> Put<Bits>
    requires width { IsWidth W }
    requires room { Room S.meaning s.old (2 * W) (2 * W + 1) }
    requires x_word { AreBitsBelow (S.meaning.wires s.old) W x.now }
    requires y_word { AreBitsBelow (S.meaning.wires s.old) W y.now }
    ensures emits { Emits S.meaning s.old s.new
        (signed_bits_of W x.now y.now) (2 * W) (2 * W + 1) result }
    ensures below { IfOk result (AreBitsBelow (S.meaning.wires s.new) (2 * W)) }
{
    let made = new_bits_by(s, scratch, 2 * W)?;
    set_signed_number(&mut scratch.a, x.first, W);
    set_signed_number(&mut scratch.b, y.first, W);
    set_signed_number(&mut scratch.c, made.first, 2 * W);
    s.put(&scratch.a, &scratch.b, &scratch.c)?;
    Ok(made)
}

// Makes `lc` the high word of `2 W` bits less 2^`W` - 1 times the highest bit of the low word.
fn set_high_excess<const W: u32>(lc: &mut Lc, first: Wire)
    requires width { IsWidth W }
    requires within { first + 2 * W < 2 ^ 32 }
    ensures terms { lc.new ≡ excess first W }
    ensures top { top lc.new ≤ first + 2 * W }
{
    let high = Bits {
        first: first.offset(W),
        n: W,
    };
    high.set_number(lc);
    lc.plus(-F::of((1 << W) - 1), first.offset(W - 1));
}

/// Assigns the `2 W + 2` values of the wires that `signed_high` makes for bits that represent `x`
/// and `y`.
pub fn fill_signed_high<const W: u32, V: Values>(v: &mut V, x: u32, y: u32) -> Put<()>
    requires width { IsWidth W }
    requires x_word { x < 2 ^ W }
    requires y_word { y < 2 ^ W }
    requires whole { V.giving.broken v.old ≡ false }
    ensures gives { GivesIn V.giving v.old v.new (signed_high_values W x y) result }
    ensures whole { OnOk result (V.giving.broken v.new ≡ false) }
{
    let product = product_twos::<W>(x, y);
    fill_halves::<W, V>(v, product)?;
    fill_nonzero(v, excess_in::<W>(product))
}

fn excess_in<const W: u32>(number: u64) -> F
    requires width { IsWidth W }
    requires small { number < 2 ^ (2 * W) }
    ensures { result ≡ excess_in W number }
{
    let sign = F::of((number >> (W - 1)) % 2);
    F::of(number >> W) + -F::of((1 << W) - 1) * sign
}

/// The laws of `signed_high`:
/// - `sound`: where bits represent words and an assignment satisfies the constraints of
///   `signed_high`, its wires represent the high word of their signed product.
/// - `complete`: where bits represent words and an assignment has the values that
///   `fill_signed_high` assigns, it satisfies the constraints of `signed_high`.
/// - `sizes`: which wires `signed_high` returns and how many it makes, whatever the next wire is,
///   and that `fill_signed_high` assigns one value below P to each of them.
pub fn signed_high_laws()
    ensures sound { SignedHighIsSound }
    ensures complete { SignedHighIsComplete }
    ensures sizes { SignedHighSizes }
{}
