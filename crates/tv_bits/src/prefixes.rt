//! The order of two numbers, by a difference of their prefixes.
ghost use Rattle.std.specs.Prelude.{◌≡◌, ◌+◌, ◌-◌, ◌*◌, ◌≤◌, ◌<◌, ◌^◌, false, length, max};
ghost use Rattle.std.specs.Prelude.{min, OnOk};
ghost use Rattle.tv_bits.specs.Order.{first_difference};
ghost use Rattle.tv_bits.specs.Prefixes.{prefix_less, prefix_less_in, prefix_difference_of};
ghost use Rattle.tv_bits.specs.Prefixes.{prefix_difference_values, PrefixDifferenceIsSound};
ghost use Rattle.tv_bits.specs.Prefixes.{PrefixDifferenceIsComplete, PrefixDifferenceSizes};
ghost use Rattle.tv_core.specs.Combinations.{top};
ghost use Rattle.tv_core.specs.Values.{GivesIn};
ghost use Rattle.tv_core.specs.Sinks.{Emits, Room};

use crate::bit_wires::Bits;
use crate::products::times_by;
use tv_core::{F, Lc, Put, Scratch, Sink, Values};

/// Cuts `x` and `y` into `count` chunks of `chunk` bits, at least 2 chunks, and constrains `d` to
/// the difference of two prefixes: what is left of `x` less what is left of `y`, once the same
/// number of lowest chunks, from none to `count - 1`, is dropped from both. So with `d` from 1 to
/// 2^`chunk` the number of `x` is above that of `y`. The numbers have at least
/// `chunk * (count - 1)` bits and at most 63 each, and `x`, `y` and `d` at most 128 terms together.
/// It makes `count - 2` wires and `count - 1` constraints.
pub fn prefix_difference_by<S: Sink>(
    s: &mut S,
    scratch: &mut Scratch,
    x: &Bits,
    y: &Bits,
    d: &Lc,
    chunk: u32,
    count: u32,
) -> Put<()>
    requires room { Room S.meaning s.old (count - 2) (count - 1) }
    requires chunks { 2 ≤ count }
    requires long { chunk * (count - 1) ≤ min x.now.n y.now.n }
    requires short { max x.now.n y.now.n ≤ 63 }
    requires d_short { x.now.n + y.now.n + length d.now ≤ 128 }
    requires made { max (max (x.now.first + x.now.n) (y.now.first + y.now.n)) (top d.now)
        ≤ S.meaning.wires s.old }
    ensures emits { Emits S.meaning s.old s.new
        (prefix_difference_of x.now y.now d.now chunk count) (count - 2) (count - 1) result }
{
    set_prefix_less(&mut scratch.a, x, y, d, 0);
    for i in 0..count - 2 {
        set_prefix_less(&mut scratch.b, x, y, d, chunk * (i + 1));
        let w = times_by(s, scratch)?;
        scratch.a.set_wire(w);
    }
    set_prefix_less(&mut scratch.b, x, y, d, chunk * (count - 1));
    scratch.c.clear();
    s.put(&scratch.a, &scratch.b, &scratch.c)
}

// Makes `lc` the difference of the prefixes from place `from` on, less `d`.
fn set_prefix_less(lc: &mut Lc, x: &Bits, y: &Bits, d: &Lc, from: u32)
    requires long { from ≤ min x.now.n y.now.n }
    requires short { max x.now.n y.now.n ≤ 63 }
    requires d_short { x.now.n + y.now.n + length d.now ≤ 128 }
    requires within { max (x.now.first + x.now.n) (y.now.first + y.now.n) < 2 ^ 32 }
    ensures terms { lc.new ≡ prefix_less x.now y.now d.now from }
    ensures top { top lc.new ≤ max (max (x.now.first + x.now.n) (y.now.first + y.now.n))
        (top d.now) }
{
    lc.clear();
    x.above(from).plus_to(lc, F::ONE);
    y.above(from).plus_to(lc, -F::ONE);
    lc.minus(d);
}

/// Assigns the values of the wires that `prefix_difference_by` makes for the numbers `x` and `y`,
/// both below 2^63, and for `d`; `count` is at least 2, and `chunk * (count - 1)` below 64.
pub fn fill_prefix_difference<V: Values>(
    v: &mut V,
    x: u64,
    y: u64,
    d: F,
    chunk: u32,
    count: u32,
) -> Put<()>
    requires whole { V.giving.broken v.old ≡ false }
    requires chunks { 2 ≤ count }
    requires short { chunk * (count - 1) < 64 }
    requires x_short { x < 2 ^ 63 }
    requires y_short { y < 2 ^ 63 }
    ensures gives { GivesIn V.giving v.old v.new (prefix_difference_values x y d chunk count)
        result }
    ensures whole { OnOk result (V.giving.broken v.new ≡ false) }
{
    let mut product = prefix_less_in(x, y, d, 0);
    for i in 0..count - 2 {
        product = product * prefix_less_in(x, y, d, chunk * (i + 1));
        v.give(product)?;
    }
    Ok(())
}

fn prefix_less_in(x: u64, y: u64, d: F, from: u32) -> F
    requires within { from < 64 }
    requires x_short { x < 2 ^ 63 }
    requires y_short { y < 2 ^ 63 }
    ensures { result ≡ prefix_less_in x y d from }
{
    F::of(x >> from) - F::of(y >> from) - d
}

/// Returns by how much `x` is above `y` in the shortest prefix in which they differ, the two being
/// cut into `count` chunks of `chunk` bits; 0 where none differs and where `x` is below `y`. It is
/// what a caller of `prefix_difference_by` chooses as `d` where `x` is above: at least 1 there, and
/// for numbers of at most `count * chunk` bits at most 2^`chunk` - 1.
pub fn first_difference(x: u64, y: u64, chunk: u32, count: u32) -> u64
    requires short { chunk * (count - 1) < 64 }
    ensures { result ≡ first_difference chunk count x y }
{
    let mut difference = 0;
    for i in 0..count {
        let (x, y) = (x >> (chunk * i), y >> (chunk * i));
        if x != y {
            difference = x.saturating_sub(y);
        }
    }
    difference
}

/// The laws of `prefix_difference_by`:
/// - `sound`: where an assignment satisfies the constraints of `prefix_difference_by` for the bits
///   of two numbers, `d` is the difference of some prefixes of the two.
/// - `complete`: where `d` is the difference of some prefixes, and an assignment has the values
///   that `fill_prefix_difference` assigns, it satisfies the constraints of `prefix_difference_by`.
/// - `sizes`: says where `prefix_difference_by` ends, and that `fill_prefix_difference` assigns one
///   number to each wire that it makes.
pub fn prefix_difference_laws()
    ensures sound { PrefixDifferenceIsSound }
    ensures complete { PrefixDifferenceIsComplete }
    ensures sizes { PrefixDifferenceSizes }
{}
