//! Numbers that wires represent, also in two's complement, and the bits of a number.
ghost use Rattle.std.specs.Prelude.{◌≡◌, ◌+◌, ◌*◌, ◌≤◌, ◌<◌, ◌^◌, false, OnOk};
ghost use Rattle.tv_bits.specs.Bits.{bits_combination};
ghost use Rattle.tv_core.specs.Combinations.{top};
ghost use Rattle.tv_core.specs.Values.{GivesIn};
ghost use Rattle.tv_muldiv.specs.Weighed.{weighed, signed_combination, halves_values};
ghost use Rattle.tv_word.specs.Widths.{IsWidth};

use tv_bits::{Bits, fill_bits};
use tv_core::{F, Lc, Put, Values, Wire};

// Makes `lc` `n` wires from a first one on, each times its power of 2, but the last times a weight.
fn set_weighed(lc: &mut Lc, first: Wire, n: u32, weight: F)
    requires some { 1 ≤ n }
    requires short { n ≤ 64 }
    requires within { first + n < 2 ^ 32 }
    ensures terms { lc.new ≡ weighed first n weight }
    ensures top { top lc.new ≤ first + n }
{
    let last = n - 1;
    Bits { first, n: last }.set_number(lc);
    lc.plus(weight, first.offset(last));
}

/// Sets `lc` to the number that `n` wires from a first one on represent in two's complement, `n`
/// from 1 to 64.
pub(crate) fn set_signed_number(lc: &mut Lc, first: Wire, n: u32)
    requires some { 1 ≤ n }
    requires short { n ≤ 64 }
    requires within { first + n < 2 ^ 32 }
    ensures terms { lc.new ≡ signed_combination first n }
    ensures top { top lc.new ≤ first + n }
{
    set_weighed(lc, first, n, -F::of(1 << (n - 1)));
}

/// Sets `lc` to the number that `2 W` wires from a first one on represent.
pub(crate) fn set_long_number<const W: u32>(lc: &mut Lc, first: Wire)
    requires width { IsWidth W }
    requires within { first + 2 * W < 2 ^ 32 }
    ensures terms { lc.new ≡ bits_combination first (2 * W) }
    ensures top { top lc.new ≤ first + 2 * W }
{
    set_weighed(lc, first, 2 * W, F::of(1 << (2 * W - 1)));
}

/// Assigns the `2 W` bits of a number, lowest first.
pub(crate) fn fill_halves<const W: u32, V: Values>(v: &mut V, number: u64) -> Put<()>
    requires width { IsWidth W }
    requires small { number < 2 ^ (2 * W) }
    requires whole { V.giving.broken v.old ≡ false }
    ensures gives { GivesIn V.giving v.old v.new (halves_values W number) result }
    ensures whole { OnOk result (V.giving.broken v.new ≡ false) }
{
    fill_bits(v, F::of(number % (1 << W)), W)?;
    fill_bits(v, F::of(number >> W), W)
}
