//! The four operations and their zero flags together.
ghost use Rattle.std.specs.Prelude.{◌≡◌, ◌<◌, ◌^◌, false, max, IfOk, OnOk};
ghost use Rattle.tv_bits.specs.Bits.{AreBitsBelow};
ghost use Rattle.tv_core.specs.Values.{GivesIn};
ghost use Rattle.tv_core.specs.Sinks.{Emits, Room};
ghost use Rattle.tv_logic.specs.Logic.{logic_of, logic_values, logic_made, LogicIsSound};
ghost use Rattle.tv_logic.specs.Logic.{LogicIsComplete, LogicSizes};
ghost use Rattle.tv_word.specs.Widths.{IsWidth};

use crate::answers::Logic;
use crate::flags::{fill_flags, flags};
use crate::words::{fill_words, words};
use tv_bits::Bits;
use tv_core::{Put, Sink, Values};
use tv_word::arithmetic::inverted;

/// Emits the constraints of the bitwise and, or and exclusive or of two words of `W` bits, of the
/// complement of the second, and of their zero flags; returns all eight. It makes `W / 2 + 10`
/// wires and constraints: 26 of 461 terms at 32 bits, and 18 of 245 at 16.
pub fn logic<const W: u32, S: Sink>(s: &mut S, x: &Bits, y: &Bits) -> Put<Logic>
    requires width { IsWidth W }
    requires room { Room S.meaning s.old (logic_made W) (logic_made W) }
    requires x_word { AreBitsBelow (S.meaning.wires s.old) W x.now }
    requires y_word { AreBitsBelow (S.meaning.wires s.old) W y.now }
    ensures emits { Emits S.meaning s.old s.new
        (logic_of W x.now y.now) (logic_made W) (logic_made W) result }
    ensures words_below { IfOk result (λ made. max (max made.and_word made.or_word)
        (max made.xor_word made.not_word) < S.meaning.wires s.new) }
    ensures flags_below { IfOk result (λ made. max (max made.and_zero made.or_zero)
        (max made.xor_zero made.not_zero) < S.meaning.wires s.new) }
{
    let words = words::<W, S>(s, x, y)?;
    let flags = flags(s, &words)?;
    Ok(Logic {
        and_word: words.and_word,
        or_word: words.or_word,
        xor_word: words.xor_word,
        not_word: words.not_word,
        and_zero: flags.and_zero,
        or_zero: flags.or_zero,
        xor_zero: flags.xor_zero,
        not_zero: flags.not_zero,
    })
}

/// Assigns the values of the wires that `logic` makes for two words of `W` bits.
pub fn fill_logic<const W: u32, V: Values>(v: &mut V, x: u32, y: u32) -> Put<()>
    requires width { IsWidth W }
    requires y_word { y < 2 ^ W }
    requires whole { V.giving.broken v.old ≡ false }
    ensures gives { GivesIn V.giving v.old v.new (logic_values W x y) result }
    ensures whole { OnOk result (V.giving.broken v.new ≡ false) }
{
    fill_words::<W, V>(v, x, y)?;
    fill_flags(v, x & y, x | y, x ^ y, inverted::<W>(y))
}

/// The laws of `logic`:
/// - `sound`: where the inputs represent words and an assignment satisfies the constraints of
///   `logic`, its answer has the words and flags of the four operations.
/// - `complete`: where the inputs represent words and an assignment has the values that
///   `fill_logic` assigns for them, it satisfies the constraints of `logic`.
/// - `sizes`: which wires `logic` returns and how many it makes, whatever the next wire is, and
///   that `fill_logic` assigns one value to each of them, below the prime for words.
pub fn logic_laws()
    ensures sound { LogicIsSound }
    ensures complete { LogicIsComplete }
    ensures sizes { LogicSizes }
{}
