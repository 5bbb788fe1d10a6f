//! The product of two words as signed numbers, in two's complement in a row of twice their width.
ghost use Rattle.std.specs.Prelude.{◌≡◌, ◌+◌, ◌-◌, ◌*◌, ◌/◌, ◌%◌, ◌^◌, ◌≤◌, ◌<◌, max};
ghost use Rattle.std.specs.Prelude.{false, IfOk, OnOk};
ghost use Rattle.std.specs.Int.{bit_at};
ghost use Rattle.tv_bits.specs.DoubleRow.{row_number};
ghost use Rattle.tv_bits.specs.SignedWords.{top_signed};
ghost use Rattle.tv_bits.specs.Times.{times_of};
ghost use Rattle.tv_core.specs.Combinations.{less, wire, top};
ghost use Rattle.tv_core.specs.Values.{GivesIn};
ghost use Rattle.tv_core.specs.Sinks.{Emits, Room};
ghost use Rattle.tv_row_products.specs.RowSignedProduct.{signed_word, signed_in, signed_row};
ghost use Rattle.tv_row_products.specs.RowSignedProduct.{row_signed_product_of};
ghost use Rattle.tv_row_products.specs.RowSignedProduct.{row_signed_product_values};
ghost use Rattle.tv_row_products.specs.RowSignedProduct.{RowSignedProductIsSound};
ghost use Rattle.tv_row_products.specs.RowSignedProduct.{RowSignedProductIsComplete};
ghost use Rattle.tv_row_products.specs.RowSignedProduct.{RowSignedProductFits};
ghost use Rattle.tv_row_products.specs.RowSignedProduct.{RowSignedProductSizes};
ghost use Rattle.tv_row_products.specs.RowSignedProduct.{RowSignedProductCosts};
ghost use Rattle.tv_word.specs.Operations.{signed_product, product_twos};
ghost use Rattle.tv_word.specs.Widths.{IsWidth};

use tv_bits::{DoubleRow, SignedWord, sign_of, times_by};
use tv_core::{F, Lc, Put, Scratch, Sink, Values, Wire};
use tv_word::arithmetic::signed_word;

/// Constrains a row to the product of two words of `W` bits as signed numbers, in two's complement
/// of `2 W` bits, where `gate` is 1, and to nothing where it is 0. The row is to be signed where
/// the gate is 1, since its halves may be any words. It makes 1 wire and 2 constraints, of 9 terms
/// beside those of `gate`.
pub fn row_signed_product<const W: u32, S: Sink>(
    s: &mut S,
    scratch: &mut Scratch,
    gate: &Lc,
    x: &SignedWord,
    y: &SignedWord,
    row: &DoubleRow,
) -> Put<()>
    requires width { IsWidth W }
    requires room { Room S.meaning s.old 1 2 }
    requires gate_made { top gate.now ≤ S.meaning.wires s.old }
    requires words_made { max (top_signed x.now) (top_signed y.now) ≤ S.meaning.wires s.old }
    requires bits_made { row.now.first + 2 * W ≤ S.meaning.wires s.old }
    requires row_made { top (row_number W row.now) ≤ S.meaning.wires s.old }
    ensures emits { Emits S.meaning s.old s.new
        (row_signed_product_of W gate.now x.now y.now row.now) 1 2 result }
{
    let product = product_of_words::<W, S>(s, scratch, x, y)?;
    set_product_less::<W>(&mut scratch.b, row, product);
    scratch.c.clear();
    s.put(gate, &scratch.b, &scratch.c)
}

// A wire that is the product of two signed words.
fn product_of_words<const W: u32, S: Sink>(
    s: &mut S,
    scratch: &mut Scratch,
    x: &SignedWord,
    y: &SignedWord,
) -> Put<Wire>
    requires width { IsWidth W }
    requires room { Room S.meaning s.old 1 1 }
    requires x_made { top_signed x.now ≤ S.meaning.wires s.old }
    requires y_made { top_signed y.now ≤ S.meaning.wires s.old }
    ensures emits { Emits S.meaning s.old s.new
        (times_of (signed_word W x.now) (signed_word W y.now)) 1 1 result }
    ensures below { IfOk result (λ product. product < S.meaning.wires s.new) }
{
    set_signed_word::<W>(&mut scratch.a, x);
    set_signed_word::<W>(&mut scratch.b, y);
    times_by(s, scratch)
}

// Makes `lc` a word less 2^`W` times its sign.
fn set_signed_word<const W: u32>(lc: &mut Lc, x: &SignedWord)
    requires width { IsWidth W }
    ensures terms { lc.new ≡ signed_word W x.now }
    ensures top { top lc.new ≡ top_signed x.now }
{
    lc.set_wire(x.word);
    lc.plus(-F::of(1 << W), x.sign);
}

// Makes `lc` the row's number less 2^(2 `W`) times its highest bit, less the product.
fn set_product_less<const W: u32>(lc: &mut Lc, row: &DoubleRow, product: Wire)
    requires width { IsWidth W }
    requires within { row.now.first + 2 * W < 2 ^ 32 }
    ensures terms { lc.new ≡ less (signed_row W row.now) (wire product) }
    ensures top { top lc.new ≤ max (max (row.now.first + 2 * W) (top (row_number W row.now)))
        (product + 1) }
{
    let power = F::of(1 << W);
    lc.clear();
    lc.plus(-(power * power), row.first.offset(2 * W - 1));
    lc.plus_terms(&row.number::<W>());
    lc.plus(-F::ONE, product);
}

/// Assigns the value of the wire that `row_signed_product` makes for two words. The sign of `x` is
/// that of `x_bits`, which may be another word where the gate is 0.
pub fn fill_row_signed_product<const W: u32, V: Values>(
    v: &mut V,
    x: u32,
    x_bits: u32,
    y: u32,
) -> Put<()>
    requires width { IsWidth W }
    requires whole { V.giving.broken v.old ≡ false }
    ensures gives { GivesIn V.giving v.old v.new
        (row_signed_product_values W x (bit_at x_bits (W - 1)) y (bit_at y (W - 1))) result }
    ensures whole { OnOk result (V.giving.broken v.new ≡ false) }
{
    v.give(signed_in::<W>(x, sign_of::<W>(x_bits)) * signed_in::<W>(y, sign_of::<W>(y)))
}

// A word less 2^`W` times a sign.
fn signed_in<const W: u32>(word: u32, sign: F) -> F
    requires width { IsWidth W }
    ensures { result ≡ signed_in W word sign }
{
    F::from(word) + -F::of(1 << W) * sign
}

/// Returns the low and the high half of the row that is the signed product of two words.
pub fn signed_product_halves<const W: u32>(x: u32, y: u32) -> (u32, u32)
    requires width { IsWidth W }
    requires x_word { x < 2 ^ W }
    requires y_word { y < 2 ^ W }
    ensures low { result.0 ≡ product_twos W x y % 2 ^ W }
    ensures high { result.1 ≡ product_twos W x y / 2 ^ W }
{
    let product = product_twos::<W>(x, y);
    ((product % (1 << W)) as u32, (product >> W) as u32)
}

/// Returns the product of two words as signed numbers, in two's complement of `2 W` bits.
pub fn product_twos<const W: u32>(x: u32, y: u32) -> u64
    requires width { IsWidth W }
    requires x_word { x < 2 ^ W }
    requires y_word { y < 2 ^ W }
    ensures { result ≡ product_twos W x y }
{
    let product = signed_product::<W>(x, y).cast_unsigned();
    if W == 16 {
        product % (1 << 32)
    } else {
        product
    }
}

fn signed_product<const W: u32>(x: u32, y: u32) -> i64
    requires width { IsWidth W }
    requires x_word { x < 2 ^ W }
    requires y_word { y < 2 ^ W }
    ensures { result ≡ signed_product W x y }
{
    signed_word::<W>(x) * signed_word::<W>(y)
}

/// The laws of `row_signed_product`:
/// - `sound`: where the gate is 1, the wires represent words and an assignment satisfies the
///   constraints of `row_signed_product`, the row is their signed product.
/// - `fits`: its high half is 2^`W` - 1 times the highest bit of its low half exactly where the
///   product is a signed word.
/// - `complete`: where the row is the signed product of the words, or the gate is 0, an assignment
///   that has the value that `fill_row_signed_product` assigns satisfies the constraints of
///   `row_signed_product`.
/// - `sizes`: `row_signed_product` makes one wire, to which `fill_row_signed_product` assigns one
///   value below P.
/// - `costs`: how many constraints and terms `row_signed_product` emits.
pub fn row_signed_product_laws()
    ensures sound { RowSignedProductIsSound }
    ensures fits { RowSignedProductFits }
    ensures complete { RowSignedProductIsComplete }
    ensures sizes { RowSignedProductSizes }
    ensures costs { RowSignedProductCosts }
{}
