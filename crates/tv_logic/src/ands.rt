//! The word of ands, two of which share a constraint.
ghost use Rattle.std.specs.Prelude.{◌≡◌, ◌+◌, ◌-◌, ◌/◌, ◌^◌, ◌<◌, ◌≤◌, false, length, max, IfOk};
ghost use Rattle.std.specs.Prelude.{OnOk};
ghost use Rattle.tv_core.specs.Combinations.{top, wire};
ghost use Rattle.tv_core.specs.Values.{GivesIn};
ghost use Rattle.tv_core.specs.Sinks.{Emits, Room};
ghost use Rattle.tv_logic.specs.Ands.{pair_in, and_pair_of, new_and_pair_of, lowest_pair, and_of};
ghost use Rattle.tv_logic.specs.Ands.{and_values, pair_values};
ghost use Rattle.tv_word.specs.Widths.{IsWidth};

use tv_bits::{Bits, two_ands};
use tv_core::{F, Lc, Put, Scratch, Sink, Values, Wire};

/// Emits the constraints of the bitwise and of two words, and returns it. It makes `W / 2` wires
/// and constraints, two ands in each: the bits number `i` and `i + W / 2`. The lowest pair's is
/// what the others leave of the word.
pub(crate) fn and_word<const W: u32, S: Sink>(
    s: &mut S,
    scratch: &mut Scratch,
    x: &Bits,
    y: &Bits,
) -> Put<Wire>
    requires width { IsWidth W }
    requires room { Room S.meaning s.old (W / 2) (W / 2) }
    requires words_made { max (x.now.first + W) (y.now.first + W) ≤ S.meaning.wires s.old }
    ensures emits { Emits S.meaning s.old s.new (and_of W x.now y.now) (W / 2) (W / 2) result }
    ensures below { IfOk result (λ word. word < S.meaning.wires s.new) }
{
    let word = s.fresh();
    let first = Wire(s.wires());
    for i in 0..W / 2 - 1 {
        new_pair::<W, S>(s, scratch, x, y, i)?;
    }
    let lowest = lowest_pair::<W>(word, first);
    pair::<W, S>(s, scratch, x, y, 0, lowest.terms())?;
    Ok(word)
}

// A new wire for the pair after number `i`.
fn new_pair<const W: u32, S: Sink>(
    s: &mut S,
    scratch: &mut Scratch,
    x: &Bits,
    y: &Bits,
    i: u32,
) -> Put<()>
    requires width { IsWidth W }
    requires room { Room S.meaning s.old 1 1 }
    requires within { i < W / 2 - 1 }
    requires words_made { max (x.now.first + W) (y.now.first + W) ≤ S.meaning.wires s.old }
    ensures emits { Emits S.meaning s.old s.new (new_and_pair_of W x.now y.now i) 1 1 result }
{
    let w = s.fresh();
    pair::<W, S>(s, scratch, x, y, i + 1, &[(F::ONE, w)])
}

// Holds `m` to the and of the bits number `i`, plus 2^(W / 2) times that of the bits number `i + W
// / 2`.
fn pair<const W: u32, S: Sink>(
    s: &mut S,
    scratch: &mut Scratch,
    x: &Bits,
    y: &Bits,
    i: u32,
    m: &[(F, Wire)],
) -> Put<()>
    requires width { IsWidth W }
    requires room { Room S.meaning s.old 0 1 }
    requires within { i < W / 2 }
    requires words_made { max (x.now.first + W) (y.now.first + W) ≤ S.meaning.wires s.old }
    requires m_made { top m.now ≤ S.meaning.wires s.old }
    requires m_short { length m.now ≤ 64 }
    ensures emits { Emits S.meaning s.old s.new (and_pair_of W x.now y.now i m.now) 0 1 result }
{
    two_ands(
        s,
        scratch,
        &bit_wire(x, i),
        &bit_wire(y, i),
        &bit_wire(x, W / 2 + i),
        &bit_wire(y, W / 2 + i),
        F::of(1 << (W / 4)),
        m,
    )
}

// A bit's wire.
fn bit_wire(x: &Bits, i: u32) -> [(F, Wire); 1]
    requires { x.now.first + i < 2 ^ 32 }
    ensures { result ≡ wire (x.now.first + i) }
{
    [(F::ONE, x.first.offset(i))]
}

// What is left of the word without the pairs from number 1 on, whose wires follow each other.
fn lowest_pair<const W: u32>(word: Wire, first: Wire) -> Lc
    requires width { IsWidth W }
    requires within { first + (W / 2 - 1) < 2 ^ 32 }
    ensures terms { result ≡ lowest_pair W word first }
    ensures top { top result ≤ max (word + 1) (first + (W / 2 - 1)) }
    ensures len { length result ≡ W / 2 }
{
    let mut lc = Lc::wire(word);
    Bits {
        first,
        n: W / 2 - 1,
    }
    .plus_to(&mut lc, -F::of(2));
    lc
}

/// Assigns the values of the wires that `and_word` makes, `ands` being the and of the words.
pub(crate) fn fill_and<const W: u32, V: Values>(v: &mut V, ands: u32) -> Put<()>
    requires width { IsWidth W }
    requires whole { V.giving.broken v.old ≡ false }
    ensures gives { GivesIn V.giving v.old v.new (and_values W ands) result }
    ensures whole { OnOk result (V.giving.broken v.new ≡ false) }
{
    v.give(F::from(ands))?;
    fill_pairs::<W, V>(v, ands)
}

fn fill_pairs<const W: u32, V: Values>(v: &mut V, ands: u32) -> Put<()>
    requires width { IsWidth W }
    requires whole { V.giving.broken v.old ≡ false }
    ensures gives { GivesIn V.giving v.old v.new (pair_values W ands) result }
    ensures whole { OnOk result (V.giving.broken v.new ≡ false) }
{
    for i in 0..W / 2 - 1 {
        v.give(pair_in::<W>(ands, i + 1))?;
    }
    Ok(())
}

// The bits number `i` and `i + W / 2`, the second times 2^(W / 2).
fn pair_in<const W: u32>(ands: u32, i: u32) -> F
    requires width { IsWidth W }
    requires within { i < W / 2 }
    ensures { result ≡ pair_in W ands i }
{
    let low = u64::from((ands >> i) % 2);
    let high = u64::from((ands >> (W / 2 + i)) % 2);
    F::of(low + (high << (W / 2)))
}
