//! The comparison of two words, as numbers and as signed numbers.
ghost use Rattle.std.specs.Prelude.{◌≡◌, ◌+◌, ◌-◌, ◌/◌, ◌≤◌, ◌<◌, ◌^◌, int_lt, false, max, IfOk};
ghost use Rattle.std.specs.Prelude.{OnOk};
ghost use Rattle.tv_bits.specs.Bits.{AreBitsBelow};
ghost use Rattle.tv_cmp.specs.Compare.{sign, but_for_signs, order_flags_of, signed_size_of};
ghost use Rattle.tv_cmp.specs.Compare.{greater_of, compare_of, size, signed_size, compare_values};
ghost use Rattle.tv_cmp.specs.Compare.{CompareIsSound, CompareIsComplete, CompareSizes};
ghost use Rattle.tv_core.specs.Values.{GivesIn};
ghost use Rattle.tv_core.specs.Sinks.{Emits, Room};
ghost use Rattle.tv_word.specs.Widths.{IsWidth};
ghost use Rattle.tv_word.specs.Word.{signed};

use tv_bits::{
    Bits, bit_by, fill_bits, fill_prefix_difference, first_difference, kept_by, new_bits_by,
    prefix_difference_by, times_by,
};
use tv_core::{F, Lc, Put, Scratch, Sink, Values, Wire, give_values};
use tv_word::arithmetic::signed_word;

// Words are cut into this many chunks.
const CHUNKS: u32 = 4;

/// How two words compare: three wires that hold 0 or 1. Contracts see their numbers.
#[derive(Clone, Copy, PartialEq, Eq, Debug)]
pub struct Cmp {
    /// Whether the two are the same.
    pub equal: Wire,
    /// Whether the first is above the second.
    pub above: Wire,
    /// Whether the first is greater than the second, as signed words.
    pub greater: Wire,
}

/// Compares the words whose bits are `x` and `y`, `W` of each. It makes `W / 4 + 6` wires and
/// `W / 4 + 8` constraints, of `8 W + 24` terms: 14, 16 and 280 at 32 bits.
pub fn compare<const W: u32, S: Sink>(s: &mut S, x: &Bits, y: &Bits) -> Put<Cmp>
    requires width { IsWidth W }
    requires room { Room S.meaning s.old (W / 4 + 6) (W / 4 + 8) }
    requires x_word { AreBitsBelow (S.meaning.wires s.old) W x.now }
    requires y_word { AreBitsBelow (S.meaning.wires s.old) W y.now }
    ensures emits { Emits S.meaning s.old s.new
        (compare_of W x.now y.now) (W / 4 + 6) (W / 4 + 8) result }
    ensures below { IfOk result (λ cmp. max cmp.equal (max cmp.above cmp.greater)
        < S.meaning.wires s.new) }
{
    let equal = s.fresh();
    let above = s.fresh();
    let mut scratch = Scratch::new();
    order_flags::<W, S>(s, &mut scratch, equal, above, x, y)?;
    let difference = signed_size::<W, S>(s, &mut scratch, equal, above)?;
    let size = Lc::wire(difference);
    prefix_difference_by(s, &mut scratch, x, y, &size, W / CHUNKS, CHUNKS)?;
    let greater = greater::<W, S>(s, &mut scratch, above, x, y)?;
    Ok(Cmp {
        equal,
        above,
        greater,
    })
}

// Constrains `above` to 0 or 1, and `equal` to 0 where the words differ and where `above` is 1.
fn order_flags<const W: u32, S: Sink>(
    s: &mut S,
    scratch: &mut Scratch,
    equal: Wire,
    above: Wire,
    x: &Bits,
    y: &Bits,
) -> Put<()>
    requires width { IsWidth W }
    requires room { Room S.meaning s.old 0 3 }
    requires x_word { AreBitsBelow (S.meaning.wires s.old) W x.now }
    requires y_word { AreBitsBelow (S.meaning.wires s.old) W y.now }
    requires equal_made { equal < S.meaning.wires s.old }
    requires above_made { above < S.meaning.wires s.old }
    ensures emits { Emits S.meaning s.old s.new
        (order_flags_of W equal above x.now y.now) 0 3 result }
{
    bit_by(s, scratch, above)?;
    scratch.a.set_wire(equal);
    x.set_number(&mut scratch.b);
    y.plus_to(&mut scratch.b, -F::ONE);
    scratch.c.clear();
    s.put(&scratch.a, &scratch.b, &scratch.c)?;
    scratch.b.set_wire(above);
    s.put(&scratch.b, &scratch.a, &scratch.c)
}

// Makes a wire for a number from 1 to 2^(`W / 4`): itself where `above` is 1, negative where
// `above` and `equal` are 0, and 0 where `equal` is 1.
fn signed_size<const W: u32, S: Sink>(
    s: &mut S,
    scratch: &mut Scratch,
    equal: Wire,
    above: Wire,
) -> Put<Wire>
    requires width { IsWidth W }
    requires room { Room S.meaning s.old (W / 4 + 1) (W / 4 + 1) }
    requires equal_made { equal < S.meaning.wires s.old }
    requires above_made { above < S.meaning.wires s.old }
    ensures emits { Emits S.meaning s.old s.new
        (signed_size_of (W / 4) equal above) (W / 4 + 1) (W / 4 + 1) result }
    ensures below { IfOk result (λ difference. difference < S.meaning.wires s.new) }
{
    let size = new_bits_by(s, scratch, W / CHUNKS)?;
    set_sign(&mut scratch.a, equal, above);
    size.set_number(&mut scratch.b);
    scratch.b.plus(F::ONE, Wire(0));
    times_by(s, scratch)
}

// Makes `lc` 1 where `above` is 1, 0 where `equal` is 1, and -1 where both are 0.
fn set_sign(lc: &mut Lc, equal: Wire, above: Wire)
    ensures { lc.new ≡ sign equal above }
{
    lc.clear();
    lc.plus(F::of(2), above);
    lc.plus(F::ONE, equal);
    lc.plus(-F::ONE, Wire(0));
}

// Makes a wire for whether the first word is greater, from whether it is above and the words' sign
// bits.
fn greater<const W: u32, S: Sink>(
    s: &mut S,
    scratch: &mut Scratch,
    above: Wire,
    x: &Bits,
    y: &Bits,
) -> Put<Wire>
    requires width { IsWidth W }
    requires room { Room S.meaning s.old 1 1 }
    requires x_made { x.now.first + W ≤ S.meaning.wires s.old }
    requires y_made { y.now.first + W ≤ S.meaning.wires s.old }
    requires above_made { above < S.meaning.wires s.old }
    ensures emits { Emits S.meaning s.old s.new (greater_of W above x.now y.now) 1 1 result }
    ensures below { IfOk result (λ greater. greater < S.meaning.wires s.new) }
{
    let (x, y) = (x.first.offset(W - 1), y.first.offset(W - 1));
    set_but_for_signs(&mut scratch.a, above, x, y);
    kept_by(s, scratch)
}

// Makes `lc` the sum of `above` and `y`, less `x`.
fn set_but_for_signs(lc: &mut Lc, above: Wire, x: Wire, y: Wire)
    ensures { lc.new ≡ but_for_signs above x y }
{
    lc.set_wire(above);
    lc.plus(F::ONE, y);
    lc.plus(-F::ONE, x);
}

/// Assigns the `W / 4 + 6` values of the wires that `compare` makes for two words of `W` bits.
pub fn fill_compare<const W: u32, V: Values>(v: &mut V, x: u32, y: u32) -> Put<()>
    requires width { IsWidth W }
    requires x_word { x < 2 ^ W }
    requires y_word { y < 2 ^ W }
    requires whole { V.giving.broken v.old ≡ false }
    ensures gives { GivesIn V.giving v.old v.new (compare_values W x y) result }
    ensures whole { OnOk result (V.giving.broken v.new ≡ false) }
{
    let (size, difference) = sizes::<W>(x, y);
    give_values(v, &[F::from(x == y), F::from(x > y)])?;
    fill_bits(v, size, W / CHUNKS)?;
    v.give(difference)?;
    fill_prefix_difference(
        v,
        u64::from(x),
        u64::from(y),
        difference,
        W / CHUNKS,
        CHUNKS,
    )?;
    v.give(F::from(is_greater::<W>(x, y)))
}

// Returns how far the shortest prefixes that differ are apart, less 1, and how far the first is
// above the second.
fn sizes<const W: u32>(x: u32, y: u32) -> (F, F)
    requires { IsWidth W }
    ensures size { result.0 ≡ size W x y - 1 }
    ensures signed { result.1 ≡ signed_size W x y }
{
    let (x, y) = (u64::from(x), u64::from(y));
    let above = first_difference(x, y, W / CHUNKS, CHUNKS);
    let below = first_difference(y, x, W / CHUNKS, CHUNKS);
    let size = (above + below).saturating_sub(1);
    (F::of(size), F::of(above) - F::of(below))
}

fn is_greater<const W: u32>(x: u32, y: u32) -> bool
    requires width { IsWidth W }
    requires x_word { x < 2 ^ W }
    requires y_word { y < 2 ^ W }
    ensures { result ≡ int_lt (signed W y) (signed W x) }
{
    signed_word::<W>(x) > signed_word::<W>(y)
}

/// The laws of `compare`:
/// - `sound`: where an assignment satisfies the constraints of `compare` for the bits of two words
///   of `W` bits, the wires that it returned hold how the words compare.
/// - `complete`: where wires hold the bits of two words and an assignment has the values that
///   `fill_compare` assigns for them, it satisfies the constraints of `compare`.
/// - `sizes`: which wires `compare` returns and how many it makes, whatever the next wire is, and
///   that `fill_compare` assigns one value to each of them, below P.
pub fn compare_laws()
    ensures sound { CompareIsSound }
    ensures complete { CompareIsComplete }
    ensures sizes { CompareSizes }
{}
