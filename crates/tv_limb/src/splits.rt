//! A number as a word and what is above it.
ghost use Rattle.std.specs.Prelude.{◌≡◌, ◌+◌, ◌-◌, ◌≤◌, false, IfOk, OnOk};
ghost use Rattle.tv_bits.specs.Bits.{AreBitsBelow};
ghost use Rattle.tv_core.specs.Combinations.{top};
ghost use Rattle.tv_core.specs.Values.{GivesIn};
ghost use Rattle.tv_core.specs.Sinks.{Emits, Room};
ghost use Rattle.tv_limb.specs.Split.{split_of, split_values, SplitIsSound, SplitIsComplete};
ghost use Rattle.tv_limb.specs.Split.{SplitSizes};

use crate::parts::{Split, split_at_word};
use tv_bits::{bits, fill_bits};
use tv_core::{F, Lc, Put, Sink, Values};

/// Constrains `x` to two parts, its lowest `W` bits and the `n - W` above, so that it is the low
/// part plus 2^`W` times the high part; `n` is from `W` to 63, and `x` is held below 2^n. It makes
/// `n` wires and `n + 1` constraints, of `4 n + 1` terms beside those of `x`.
pub fn split<const W: u32, S: Sink>(s: &mut S, x: &Lc, n: u32) -> Put<Split>
    requires room { Room S.meaning s.old n (n + 1) }
    requires x_made { top x.now ≤ S.meaning.wires s.old }
    requires long { W ≤ n }
    requires short { n ≤ 63 }
    ensures emits { Emits S.meaning s.old s.new (split_of W x.now n) n (n + 1) result }
    ensures low { IfOk result (λ parts. AreBitsBelow (S.meaning.wires s.new) W parts.low) }
    ensures high { IfOk result (λ parts. AreBitsBelow (S.meaning.wires s.new) (n - W) parts.high) }
{
    let made = bits(s, x, n)?;
    Ok(split_at_word::<W>(made))
}

/// Assigns the values of the wires that `split` makes: the `n` lowest bits of `x`, lowest first,
/// the same at both widths.
pub fn fill_split<const W: u32, V: Values>(v: &mut V, x: F, n: u32) -> Put<()>
    requires whole { V.giving.broken v.old ≡ false }
    requires short { n ≤ 63 }
    ensures gives { GivesIn V.giving v.old v.new (split_values x n) result }
    ensures whole { OnOk result (V.giving.broken v.new ≡ false) }
{
    fill_bits(v, x, n)
}

/// The laws of `split`:
/// - `sound`: where an assignment satisfies the constraints of `split`, the parts represent the
///   value's remainder and quotient by the word's power of 2.
/// - `complete`: where the value is below 2^n and an assignment has the values that `fill_split`
///   assigns, it satisfies the constraints of `split`.
/// - `sizes`: which wires `split` returns and how many it makes, whatever the next wire is, and
///   that `fill_split` assigns one value below P to each of them.
#[tactic(auto, using(crate::proofs::SplitLaws::split_laws))]
pub fn split_laws()
    ensures sound { SplitIsSound }
    ensures complete { SplitIsComplete }
    ensures sizes { SplitSizes }
{}
