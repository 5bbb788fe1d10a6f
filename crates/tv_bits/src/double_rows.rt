//! A row of bits of twice a word's width, which can hold what an operation on two words makes.
ghost use Rattle.std.specs.Prelude.{◌≡◌, ◌+◌, ◌-◌, ◌*◌, ◌^◌, ◌≤◌, ◌<◌, [], ◌∷◌, length, max};
ghost use Rattle.std.specs.Prelude.{if◌then◌else◌, false, IfOk, OnOk};
ghost use Rattle.tv_bits.specs.Bits.{bits_combination};
ghost use Rattle.tv_bits.specs.DoubleRow.{row_number, row_wires_of, above_edge, above_edge_in};
ghost use Rattle.tv_bits.specs.DoubleRow.{double_row_of, double_row_values, DoubleRowIsSound};
ghost use Rattle.tv_bits.specs.DoubleRow.{DoubleRowIsComplete, DoubleRowSizes, DoubleRowCosts};
ghost use Rattle.tv_bits.specs.Ratio.{ratio};
ghost use Rattle.tv_bits.specs.Times.{kept_of};
ghost use Rattle.tv_core.specs.Combinations.{top};
ghost use Rattle.tv_core.specs.Values.{GivesIn};
ghost use Rattle.tv_core.specs.Sinks.{Emits, Room};
ghost use Rattle.tv_word.specs.Widths.{IsWidth};

use crate::bit_wires::Bits;
use crate::decomposition::{fill_bits, new_bits_by};
use crate::products::{kept_by, ratio_by};
use tv_core::{F, Lc, Put, Scratch, Sink, Values, Wire, give_values};

/// A row of bits of twice a word's width, and the two words that its halves hold. Its number is
/// `low` plus 2^w `high`, below P unless the row is signed.
#[derive(Clone, Copy, PartialEq, Eq, Debug)]
pub struct DoubleRow {
    /// The wire of the lowest bit; the others follow it.
    pub first: Wire,
    /// The wire of the word that the low half holds.
    pub low: Wire,
    /// The wire of the word that the high half holds.
    pub high: Wire,
}

impl DoubleRow {
    /// Returns the row's number as 2 terms, for words of `W` bits.
    pub fn number<const W: u32>(&self) -> [(F, Wire); 2]
        requires width { IsWidth W }
        ensures { result ≡ row_number W self.now }
    {
        [(F::ONE, self.low), (F::of(1 << W), self.high)]
    }
}

/// Makes a row of `2 W` bits with its halves as wires. Where `signed` is 0, its high half has all
/// bits set only if the low half is 0, so the row's number is below P; where `signed` is 1, the
/// halves are any two words. `signed` is 0 or 1, and has at most 64 terms. It makes `2 W + 3` wires
/// and `2 W + 3` constraints, of `8 W + 8` terms beside those of `signed`.
pub fn double_row<const W: u32, S: Sink>(
    s: &mut S,
    scratch: &mut Scratch,
    signed: &[(F, Wire)],
) -> Put<DoubleRow>
    requires width { IsWidth W }
    requires room { Room S.meaning s.old (2 * W + 3) (2 * W + 3) }
    requires signed_made { top signed.now ≤ S.meaning.wires s.old }
    requires short { length signed.now ≤ 64 }
    ensures emits { Emits S.meaning s.old s.new
        (double_row_of W signed.now) (2 * W + 3) (2 * W + 3) result }
    ensures bits_below { IfOk result (λ row. row.first + 2 * W ≤ S.meaning.wires s.new) }
    ensures words_below { IfOk result (λ row. max row.low row.high < S.meaning.wires s.new) }
{
    let row = row_wires::<W, S>(s, scratch)?;
    set_above_edge::<W>(&mut scratch.a, signed, row.high);
    scratch.b.set_wire(row.low);
    ratio_by(s, scratch)?;
    Ok(row)
}

// Makes the bits, and the two words that they hold as wires.
fn row_wires<const W: u32, S: Sink>(s: &mut S, scratch: &mut Scratch) -> Put<DoubleRow>
    requires width { IsWidth W }
    requires room { Room S.meaning s.old (2 * W + 2) (2 * W + 2) }
    ensures emits { Emits S.meaning s.old s.new (row_wires_of W) (2 * W + 2) (2 * W + 2) result }
    ensures bits_below { IfOk result (λ row. row.first + 2 * W ≤ S.meaning.wires s.new) }
    ensures words_below { IfOk result (λ row. max row.low row.high < S.meaning.wires s.new) }
{
    let first = new_bits_by(s, scratch, 2 * W)?.first;
    let low = word::<W, S>(s, scratch, first)?;
    let high = word::<W, S>(s, scratch, first.offset(W))?;
    Ok(DoubleRow { first, low, high })
}

// Makes a wire for the word whose bits stand from `first` on.
fn word<const W: u32, S: Sink>(s: &mut S, scratch: &mut Scratch, first: Wire) -> Put<Wire>
    requires width { IsWidth W }
    requires room { Room S.meaning s.old 1 1 }
    requires made { first + W ≤ S.meaning.wires s.old }
    ensures emits { Emits S.meaning s.old s.new (kept_of (bits_combination first W)) 1 1 result }
    ensures below { IfOk result (λ w. w < S.meaning.wires s.new) }
{
    Bits { first, n: W }.set_number(&mut scratch.a);
    kept_by(s, scratch)
}

// Makes `lc` the high word less 2^`W` - 1, and less 1 more where the row is signed.
fn set_above_edge<const W: u32>(lc: &mut Lc, signed: &[(F, Wire)], high: Wire)
    requires width { IsWidth W }
    requires short { length signed.now ≤ 64 }
    ensures terms { lc.new ≡ above_edge W signed.now high }
    ensures top { top lc.new ≤ max (top signed.now) (high + 1) }
{
    lc.clear();
    lc.plus(-F::of((1 << W) - 1), Wire(0));
    lc.plus_scaled(-F::ONE, signed);
    lc.plus(F::ONE, high);
}

/// Assigns the `2 W + 3` values of the wires that `double_row` makes for two words: their bits, the
/// words, and the ratio that shows that they are a row.
pub fn fill_double_row<const W: u32, V: Values>(
    v: &mut V,
    low: u32,
    high: u32,
    signed: bool,
) -> Put<()>
    requires width { IsWidth W }
    requires high_word { high < 2 ^ W }
    requires whole { V.giving.broken v.old ≡ false }
    ensures gives { GivesIn V.giving v.old v.new
        (double_row_values W low high (if signed then 1 else 0)) result }
    ensures whole { OnOk result (V.giving.broken v.new ≡ false) }
{
    fill_bits(v, F::from(low), W)?;
    fill_bits(v, F::from(high), W)?;
    give_values(v, &words_and_ratio::<W>(low, high, signed))
}

fn words_and_ratio<const W: u32>(low: u32, high: u32, signed: bool) -> [F; 3]
    requires width { IsWidth W }
    requires high_word { high < 2 ^ W }
    ensures { result ≡ low ∷ high ∷
        ratio (above_edge_in W high (if signed then 1 else 0)) low ∷ [] }
{
    let edge = above_edge::<W>(high, signed);
    let (low, high) = (F::from(low), F::from(high));
    [low, high, low * edge.inverse_or_zero()]
}

// The high word less 2^`W` - 1, and less 1 more where the row is signed.
fn above_edge<const W: u32>(high: u32, signed: bool) -> F
    requires width { IsWidth W }
    requires high_word { high < 2 ^ W }
    ensures { result ≡ above_edge_in W high (if signed then 1 else 0) }
{
    F::from(high) - F::of((1 << W) - 1) - F::from(signed)
}

/// The laws of `double_row`:
/// - `sound`: where an assignment satisfies the constraints of `double_row`, the bits are those of
///   the two words at its wires, which are a row unless it is signed.
/// - `complete`: where two words are a row, or it is signed, an assignment that has the values that
///   `fill_double_row` assigns satisfies the constraints of `double_row`.
/// - `sizes`: which wires `double_row` returns and how many it makes, whatever the next wire is,
///   and that `fill_double_row` assigns one value to each of them, below P.
/// - `costs`: how many constraints and terms `double_row` puts.
#[tactic(auto, using(crate::proofs::DoubleRowLaws::double_row_laws))]
pub fn double_row_laws()
    ensures sound { DoubleRowIsSound }
    ensures complete { DoubleRowIsComplete }
    ensures sizes { DoubleRowSizes }
    ensures costs { DoubleRowCosts }
{}
