//! The zero flags of the four words.
ghost use Rattle.std.specs.Prelude.{◌≡◌, ◌<◌, false, max, IfOk, OnOk};
ghost use Rattle.tv_bits.specs.Zero.{zero_of};
ghost use Rattle.tv_core.specs.Combinations.{wire};
ghost use Rattle.tv_core.specs.Values.{GivesIn};
ghost use Rattle.tv_core.specs.Sinks.{Emits, Room};
ghost use Rattle.tv_logic.specs.Flags.{logic_flags_of, flag_values};

use crate::answers::{LogicFlags, LogicWords};
use tv_bits::{times_by, zero_by, zero_values};
use tv_core::{F, Put, Scratch, Sink, Values, Wire, give_values};

/// Emits the constraints of the zero flags of four words, and returns the flags. The second word is
/// 0 exactly where the first and the third are. It makes 7 wires and 7 constraints.
pub(crate) fn flags<S: Sink>(s: &mut S, words: &LogicWords) -> Put<LogicFlags>
    requires room { Room S.meaning s.old 7 7 }
    requires made { max words.now.and_word (max words.now.xor_word words.now.not_word)
        < S.meaning.wires s.old }
    ensures emits { Emits S.meaning s.old s.new (logic_flags_of words.now) 7 7 result }
    ensures below { IfOk result (λ made. max (max made.and_zero made.or_zero)
        (max made.xor_zero made.not_zero) < S.meaning.wires s.new) }
{
    let mut scratch = Scratch::new();
    let and_zero = zero_flag(s, &mut scratch, words.and_word)?;
    let xor_zero = zero_flag(s, &mut scratch, words.xor_word)?;
    let not_zero = zero_flag(s, &mut scratch, words.not_word)?;
    scratch.a.set_wire(and_zero);
    scratch.b.set_wire(xor_zero);
    let or_zero = times_by(s, &mut scratch)?;
    Ok(LogicFlags {
        and_zero,
        or_zero,
        xor_zero,
        not_zero,
    })
}

// A wire that is 1 exactly where a word's wire is 0.
fn zero_flag<S: Sink>(s: &mut S, scratch: &mut Scratch, word: Wire) -> Put<Wire>
    requires room { Room S.meaning s.old 2 2 }
    requires made { word < S.meaning.wires s.old }
    ensures emits { Emits S.meaning s.old s.new (zero_of (wire word)) 2 2 result }
    ensures below { IfOk result (λ flag. flag < S.meaning.wires s.new) }
{
    scratch.a.set_wire(word);
    zero_by(s, scratch)
}

/// Assigns the values of the wires that `flags` makes, the arguments being the four words' numbers.
pub(crate) fn fill_flags<V: Values>(v: &mut V, ands: u32, ors: u32, xors: u32, nots: u32) -> Put<()>
    requires whole { V.giving.broken v.old ≡ false }
    ensures gives { GivesIn V.giving v.old v.new (flag_values ands ors xors nots) result }
    ensures whole { OnOk result (V.giving.broken v.new ≡ false) }
{
    give_values(v, &flag_values(ands, ors, xors, nots))
}

fn flag_values(ands: u32, ors: u32, xors: u32, nots: u32) -> [F; 7]
    ensures { result ≡ flag_values ands ors xors nots }
{
    let [and_zero, and_inverse] = zero_values(F::from(ands));
    let [xor_zero, xor_inverse] = zero_values(F::from(xors));
    let [not_zero, not_inverse] = zero_values(F::from(nots));
    [
        and_zero,
        and_inverse,
        xor_zero,
        xor_inverse,
        not_zero,
        not_inverse,
        F::from(ors == 0),
    ]
}
