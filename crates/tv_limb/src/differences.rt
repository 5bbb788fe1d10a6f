//! The difference of two words, with its borrow.
ghost use Rattle.std.specs.Prelude.{◌≡◌, ◌+◌, ◌*◌, ◌^◌, ◌≤◌, ◌<◌, false, max, IfOk, OnOk};
ghost use Rattle.tv_bits.specs.Bits.{AreBitsBelow};
ghost use Rattle.tv_core.specs.Combinations.{top};
ghost use Rattle.tv_core.specs.Values.{GivesIn};
ghost use Rattle.tv_core.specs.Sinks.{Emits, Room};
ghost use Rattle.tv_word.specs.Operations.{sub_result};
ghost use Rattle.tv_word.specs.Widths.{IsWidth};
ghost use Rattle.tv_limb.specs.Difference.{borrow, less_borrow, difference_of_words};
ghost use Rattle.tv_limb.specs.Difference.{sub_of, sub_values, SubIsSound, SubIsComplete, SubSizes};

use crate::parts::{Split, split_at_word};
use tv_bits::{Bits, fill_bits, new_bits_by};
use tv_core::{F, Lc, Put, Scratch, Sink, Values, Wire};

/// Constrains new bits to the difference of two words of `W` bits modulo 2^`W`, and one more to the
/// borrow, which is 1 where `x` is below `y`. It makes `W + 1` wires and `W + 2` constraints, of
/// `6 W + 5` terms: 33, 34 and 197 at 32 bits.
pub fn sub<const W: u32, S: Sink>(s: &mut S, x: &Bits, y: &Bits) -> Put<Split>
    requires width { IsWidth W }
    requires room { Room S.meaning s.old (W + 1) (W + 2) }
    requires x_word { AreBitsBelow (S.meaning.wires s.old) W x.now }
    requires y_word { AreBitsBelow (S.meaning.wires s.old) W y.now }
    ensures emits { Emits S.meaning s.old s.new (sub_of W x.now y.now) (W + 1) (W + 2) result }
    ensures low { IfOk result (λ parts. AreBitsBelow (S.meaning.wires s.new) W parts.low) }
    ensures high { IfOk result (λ parts. AreBitsBelow (S.meaning.wires s.new) 1 parts.high) }
{
    let mut scratch = Scratch::new();
    let parts = split_at_word::<W>(new_bits_by(s, &mut scratch, W + 1)?);
    set_less_borrow::<W>(&mut scratch.a, &parts);
    scratch.b.set_wire(Wire(0));
    s.put(&scratch.a, &scratch.b, &difference_of_words::<W>(x, y))?;
    Ok(parts)
}

// Makes `lc` the low part less 2^`W` times the borrow.
fn set_less_borrow<const W: u32>(lc: &mut Lc, parts: &Split)
    requires width { IsWidth W }
    requires word { parts.now.low.n ≡ W }
    requires low_within { parts.now.low.first + W < 2 ^ 32 }
    ensures terms { lc.new ≡ less_borrow W parts.now }
    ensures top { top lc.new ≤ max (parts.now.low.first + W) (parts.now.high.first + 1) }
{
    parts.low.set_number(lc);
    lc.plus(-F::of(1 << W), parts.high.first);
}

// One word less the other.
fn difference_of_words<const W: u32>(x: &Bits, y: &Bits) -> Lc
    requires width { IsWidth W }
    requires x_word { x.now.n ≡ W }
    requires y_word { y.now.n ≡ W }
    requires x_within { x.now.first + W < 2 ^ 32 }
    requires y_within { y.now.first + W < 2 ^ 32 }
    ensures terms { result ≡ difference_of_words W x.now y.now }
    ensures top { top result ≤ max (x.now.first + W) (y.now.first + W) }
{
    let mut lc = x.lc();
    y.plus_to(&mut lc, -F::ONE);
    lc
}

/// Assigns the `W + 1` values of the wires that `sub` makes: the bits of the difference, and then
/// the borrow.
pub fn fill_sub<const W: u32, V: Values>(v: &mut V, x: u32, y: u32) -> Put<()>
    requires width { IsWidth W }
    requires x_word { x < 2 ^ W }
    requires y_word { y < 2 ^ W }
    requires whole { V.giving.broken v.old ≡ false }
    ensures gives { GivesIn V.giving v.old v.new (sub_values W x y) result }
    ensures whole { OnOk result (V.giving.broken v.new ≡ false) }
{
    fill_bits(v, difference_and_borrow::<W>(x, y), W + 1)
}

// The difference, with the borrow above it.
fn difference_and_borrow<const W: u32>(x: u32, y: u32) -> F
    requires width { IsWidth W }
    requires x_word { x < 2 ^ W }
    requires y_word { y < 2 ^ W }
    ensures { result ≡ sub_result W x y + 2 ^ W * borrow x y }
{
    let (x, y) = (u64::from(x), u64::from(y));
    let power = 1 << W;
    F::of(if x < y { power + power + x - y } else { x - y })
}

/// The laws of `sub`:
/// - `sound`: where the inputs represent words of `W` bits and an assignment satisfies the
///   constraints of `sub`, the answer represents their difference modulo 2^`W` and the borrow.
/// - `complete`: where the inputs represent words and an assignment has the values that `fill_sub`
///   assigns for them, it satisfies the constraints of `sub`.
/// - `sizes`: which wires `sub` returns and how many it makes, whatever the next wire is, and that
///   `fill_sub` assigns one value below P to each of them.
pub fn sub_laws()
    ensures sound { SubIsSound }
    ensures complete { SubIsComplete }
    ensures sizes { SubSizes }
{}
