//! The sum of two words, with its carry.
ghost use Rattle.std.specs.Prelude.{◌≡◌, ◌+◌, false, IfOk, OnOk};
ghost use Rattle.tv_bits.specs.Bits.{AreBitsBelow};
ghost use Rattle.tv_core.specs.Values.{GivesIn};
ghost use Rattle.tv_core.specs.Sinks.{Emits, Room};
ghost use Rattle.tv_word.specs.Widths.{IsWidth};
ghost use Rattle.tv_limb.specs.Sum.{add_of, add_values, AddIsSound, AddIsComplete, AddSizes};

use crate::parts::Split;
use crate::splits::split;
use tv_bits::{Bits, fill_bits};
use tv_core::{F, Put, Sink, Values};

/// Constrains new bits to the sum of two words of `W` bits modulo 2^`W`, and one more to the carry.
/// It makes `W + 1` wires and `W + 2` constraints, of `6 W + 5` terms: 33, 34 and 197 at 32 bits.
pub fn add<const W: u32, S: Sink>(s: &mut S, x: &Bits, y: &Bits) -> Put<Split>
    requires width { IsWidth W }
    requires room { Room S.meaning s.old (W + 1) (W + 2) }
    requires x_word { AreBitsBelow (S.meaning.wires s.old) W x.now }
    requires y_word { AreBitsBelow (S.meaning.wires s.old) W y.now }
    ensures emits { Emits S.meaning s.old s.new (add_of W x.now y.now) (W + 1) (W + 2) result }
    ensures low { IfOk result (λ parts. AreBitsBelow (S.meaning.wires s.new) W parts.low) }
    ensures high { IfOk result (λ parts. AreBitsBelow (S.meaning.wires s.new) 1 parts.high) }
{
    let mut sum = x.lc();
    y.plus_to(&mut sum, F::ONE);
    split::<W, S>(s, &sum, W + 1)
}

/// Assigns the `W + 1` values of the wires that `add` makes: the bits of the sum, the carry last.
pub fn fill_add<const W: u32, V: Values>(v: &mut V, x: u32, y: u32) -> Put<()>
    requires width { IsWidth W }
    requires whole { V.giving.broken v.old ≡ false }
    ensures gives { GivesIn V.giving v.old v.new (add_values W x y) result }
    ensures whole { OnOk result (V.giving.broken v.new ≡ false) }
{
    fill_bits(v, F::of(u64::from(x) + u64::from(y)), W + 1)
}

/// The laws of `add`:
/// - `sound`: where the inputs represent words of `W` bits and an assignment satisfies the
///   constraints of `add`, the answer represents their sum modulo 2^`W` and the carry.
/// - `complete`: where the inputs represent words and an assignment has the values that `fill_add`
///   assigns for them, it satisfies the constraints of `add`.
/// - `sizes`: which wires `add` returns and how many it makes, whatever the next wire is, and that
///   `fill_add` assigns one value below P to each of them.
pub fn add_laws()
    ensures sound { AddIsSound }
    ensures complete { AddIsComplete }
    ensures sizes { AddSizes }
{}
