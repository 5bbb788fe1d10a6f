//! The words of the four operations.
ghost use Rattle.std.specs.Prelude.{◌≡◌, ◌+◌, ◌-◌, ◌/◌, ◌^◌, ◌<◌, ◌≤◌, false, max, IfOk, OnOk};
ghost use Rattle.tv_bits.specs.Bits.{AreBitsBelow};
ghost use Rattle.tv_core.specs.Combinations.{top};
ghost use Rattle.tv_core.specs.Values.{GivesIn};
ghost use Rattle.tv_core.specs.Sinks.{Emits, Room};
ghost use Rattle.tv_logic.specs.Words.{sum_less, complement, logic_words_of};
ghost use Rattle.tv_logic.specs.Words.{word_values};
ghost use Rattle.tv_word.specs.Widths.{IsWidth};

use crate::ands::{and_word, fill_and};
use crate::answers::LogicWords;
use tv_bits::{Bits, kept_by};
use tv_core::{F, Lc, Put, Scratch, Sink, Values, Wire, give_values};
use tv_word::arithmetic::inverted;

/// Emits the constraints of the words of the four operations, and returns the words. It makes
/// `W / 2 + 3` wires and constraints.
pub(crate) fn words<const W: u32, S: Sink>(s: &mut S, x: &Bits, y: &Bits) -> Put<LogicWords>
    requires width { IsWidth W }
    requires room { Room S.meaning s.old (W / 2 + 3) (W / 2 + 3) }
    requires x_word { AreBitsBelow (S.meaning.wires s.old) W x.now }
    requires y_word { AreBitsBelow (S.meaning.wires s.old) W y.now }
    ensures emits { Emits S.meaning s.old s.new
        (logic_words_of W x.now y.now) (W / 2 + 3) (W / 2 + 3) result }
    ensures below { IfOk result (λ made. max (max made.and_word made.or_word)
        (max made.xor_word made.not_word) < S.meaning.wires s.new) }
{
    let mut scratch = Scratch::new();
    let and_word = and_word::<W, S>(s, &mut scratch, x, y)?;
    set_sum_less::<W>(&mut scratch.a, x, y, F::ONE, and_word);
    let or_word = kept_by(s, &mut scratch)?;
    set_sum_less::<W>(&mut scratch.a, x, y, F::of(2), and_word);
    let xor_word = kept_by(s, &mut scratch)?;
    set_complement::<W>(&mut scratch.a, y);
    let not_word = kept_by(s, &mut scratch)?;
    Ok(LogicWords {
        and_word,
        or_word,
        xor_word,
        not_word,
    })
}

// Makes `lc` the sum of two words, less `k` times a wire.
fn set_sum_less<const W: u32>(lc: &mut Lc, x: &Bits, y: &Bits, k: F, w: Wire)
    requires width { IsWidth W }
    requires x_word { x.now.n ≡ W }
    requires y_word { y.now.n ≡ W }
    requires x_within { x.now.first + W < 2 ^ 32 }
    requires y_within { y.now.first + W < 2 ^ 32 }
    ensures terms { lc.new ≡ sum_less W x.now y.now k w }
    ensures top { top lc.new ≤ max (max (x.now.first + W) (y.now.first + W)) (w + 1) }
{
    x.set_number(lc);
    y.plus_to(lc, F::ONE);
    lc.plus(-k, w);
}

// Makes `lc` the greatest word less another.
fn set_complement<const W: u32>(lc: &mut Lc, y: &Bits)
    requires width { IsWidth W }
    requires y_word { y.now.n ≡ W }
    requires y_within { y.now.first + W < 2 ^ 32 }
    ensures terms { lc.new ≡ complement W y.now }
    ensures top { top lc.new ≤ max 1 (y.now.first + W) }
{
    lc.clear();
    lc.plus(F::from(greatest_word::<W>()), Wire(0));
    y.plus_to(lc, -F::ONE);
}

// The greatest word.
fn greatest_word<const W: u32>() -> u32
    requires width { IsWidth W }
    ensures { result ≡ 2 ^ W - 1 }
{
    u32::MAX >> (32 - W)
}

/// Assigns the values of the wires that `words` makes.
pub(crate) fn fill_words<const W: u32, V: Values>(v: &mut V, x: u32, y: u32) -> Put<()>
    requires width { IsWidth W }
    requires y_word { y < 2 ^ W }
    requires whole { V.giving.broken v.old ≡ false }
    ensures gives { GivesIn V.giving v.old v.new (word_values W x y) result }
    ensures whole { OnOk result (V.giving.broken v.new ≡ false) }
{
    fill_and::<W, V>(v, x & y)?;
    let others = [F::from(x | y), F::from(x ^ y), F::from(inverted::<W>(y))];
    give_values(v, &others)
}
