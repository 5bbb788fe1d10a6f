//! Two to the power of a distance, by which a word is multiplied or divided in a shift.
ghost use Rattle.std.specs.Prelude.{◌≡◌, ◌+◌, ◌*◌, ◌/◌, ◌%◌, ◌^◌, ◌≤◌, ◌<◌, false, IfOk, OnOk};
ghost use Rattle.std.specs.Prelude.{max};
ghost use Rattle.tv_core.specs.Combinations.{top};
ghost use Rattle.tv_core.specs.Values.{GivesIn};
ghost use Rattle.tv_core.specs.Sinks.{Emits, Room};
ghost use Rattle.tv_rows.specs.Power.{factor_by, pair_power, low_power_of, wide_power_of};
ghost use Rattle.tv_rows.specs.Power.{shift_power_of, shift_power_made, shift_power_values};
ghost use Rattle.tv_rows.specs.Power.{low_power_values, wide_power_values, ShiftPowerIsSound};
ghost use Rattle.tv_rows.specs.Power.{ShiftPowerIsComplete, ShiftPowerSizes, ShiftPowerCosts};
ghost use Rattle.tv_word.specs.Widths.{IsWidth};

use tv_bits::{Bits, times_by};
use tv_core::{F, Lc, Put, Scratch, Sink, Values, Wire, give_values};
use tv_word::arithmetic::power;

/// Two to the power of a distance's remainder by the width of a word.
#[derive(Clone, Copy)]
pub struct ShiftPower {
    /// The product of the distance's two lowest bits.
    pub both: Wire,
    /// The power.
    pub power: Wire,
}

/// Makes a wire that is 2^(`y` mod `W`), from the lowest bits of the word `y`. It makes 4 wires and
/// constraints at 32 bits, of 18 terms, and 3 at 16, of 14.
pub fn shift_power<const W: u32, S: Sink>(
    s: &mut S,
    scratch: &mut Scratch,
    y: &Bits,
) -> Put<ShiftPower>
    requires width { IsWidth W }
    requires room { Room S.meaning s.old (shift_power_made W) (shift_power_made W) }
    requires y_made { y.now.first + W ≤ S.meaning.wires s.old }
    ensures emits { Emits S.meaning s.old s.new
        (shift_power_of W y.now) (shift_power_made W) (shift_power_made W) result }
    ensures both_below { IfOk result (λ made. made.both < S.meaning.wires s.new) }
    ensures power_below { IfOk result (λ made. made.power < S.meaning.wires s.new) }
{
    if W == 16 {
        low_power(s, scratch, y.first)
    } else {
        wide_power(s, scratch, y.first)
    }
}

// By the four bits from `y` on. It makes 3 wires and 3 constraints.
fn low_power<S: Sink>(s: &mut S, scratch: &mut Scratch, y: Wire) -> Put<ShiftPower>
    requires room { Room S.meaning s.old 3 3 }
    requires y_made { y + 4 ≤ S.meaning.wires s.old }
    ensures emits { Emits S.meaning s.old s.new (low_power_of y) 3 3 result }
    ensures both_below { IfOk result (λ made. made.both < S.meaning.wires s.new) }
    ensures power_below { IfOk result (λ made. made.power < S.meaning.wires s.new) }
{
    scratch.a.set_wire(y);
    scratch.b.set_wire(y.offset(1));
    let both = times_by(s, scratch)?;
    set_factor(&mut scratch.a, 16, y.offset(2));
    set_factor(&mut scratch.b, 256, y.offset(3));
    let middle = times_by(s, scratch)?;
    set_pair_power(&mut scratch.a, y, both);
    scratch.b.set_wire(middle);
    let power = times_by(s, scratch)?;
    Ok(ShiftPower { both, power })
}

// By the five bits from `y` on. It makes 4 wires and 4 constraints.
fn wide_power<S: Sink>(s: &mut S, scratch: &mut Scratch, y: Wire) -> Put<ShiftPower>
    requires room { Room S.meaning s.old 4 4 }
    requires y_made { y + 5 ≤ S.meaning.wires s.old }
    ensures emits { Emits S.meaning s.old s.new (wide_power_of y) 4 4 result }
    ensures both_below { IfOk result (λ made. made.both < S.meaning.wires s.new) }
    ensures power_below { IfOk result (λ made. made.power < S.meaning.wires s.new) }
{
    let low = low_power(s, scratch, y)?;
    scratch.a.set_wire(low.power);
    set_factor(&mut scratch.b, 65536, y.offset(4));
    let power = times_by(s, scratch)?;
    Ok(ShiftPower {
        both: low.both,
        power,
    })
}

// Makes `lc` a combination that is `k` where the bit `b` is 1, and else 1.
fn set_factor(lc: &mut Lc, k: u32, b: Wire)
    requires { 1 ≤ k }
    ensures terms { lc.new ≡ factor_by k b }
    ensures top { top lc.new ≡ b + 1 }
{
    lc.set_wire(Wire(0));
    lc.plus(F::from(k - 1), b);
}

// Makes `lc` two to the power of what the bit `y` and the next one represent, `product` being
// theirs.
fn set_pair_power(lc: &mut Lc, y: Wire, product: Wire)
    requires { y + 1 < 2 ^ 32 }
    ensures terms { lc.new ≡ pair_power y (y + 1) product }
    ensures top { top lc.new ≡ max (y + 2) (product + 1) }
{
    lc.set_wire(Wire(0));
    lc.plus(F::ONE, y);
    lc.plus(F::of(3), y.offset(1));
    lc.plus(F::of(3), product);
}

/// Assigns the values of the wires that `shift_power` makes for the word `y`.
pub fn fill_shift_power<const W: u32, V: Values>(v: &mut V, y: u32) -> Put<()>
    requires { V.giving.broken v.old ≡ false }
    ensures gives { GivesIn V.giving v.old v.new (shift_power_values W y) result }
    ensures whole { OnOk result (V.giving.broken v.new ≡ false) }
{
    if W == 16 {
        give_values(v, &low_values(y))
    } else {
        give_values(v, &wide_values(y))
    }
}

fn low_values(y: u32) -> [F; 3]
    ensures { result ≡ low_power_values y }
{
    [
        F::from(y % 2 * (y / 2 % 2)),
        F::from(power(4 * (y / 4 % 4))),
        F::from(power(y % 16)),
    ]
}

fn wide_values(y: u32) -> [F; 4]
    ensures { result ≡ wide_power_values y }
{
    let [both, middle, low] = low_values(y);
    [both, middle, low, F::from(power(y % 32))]
}

/// The laws of `shift_power`:
/// - `sound`: in an assignment that satisfies the constraints of `shift_power` for bits that
///   represent a word, the wire holds the word's power.
/// - `complete`: where bits represent a word and an assignment has the values that
///   `fill_shift_power` assigns for it, it satisfies the constraints of `shift_power`.
/// - `sizes`: which wires `shift_power` returns and how many it makes, whatever the next wire is,
///   and that `fill_shift_power` assigns one value to each of them, below P.
/// - `costs`: how many constraints and terms `shift_power` puts.
pub fn shift_power_laws()
    ensures sound { ShiftPowerIsSound }
    ensures complete { ShiftPowerIsComplete }
    ensures sizes { ShiftPowerSizes }
    ensures costs { ShiftPowerCosts }
{}
