//! The values of a shift's wires.
ghost use Rattle.std.specs.Prelude.{◌≡◌, ◌/◌, ◌%◌, ◌<◌, ◌^◌, ◌==◌, false, OnOk};
ghost use Rattle.std.specs.Int.{bit_at};
ghost use Rattle.tv_core.specs.Values.{GivesIn};
ghost use Rattle.tv_shift.specs.Halves.{chosen_half, other_half};
ghost use Rattle.tv_shift.specs.Masks.{half_log};
ghost use Rattle.tv_shift.specs.Shift.{parts_values, ends_values};
ghost use Rattle.tv_shift.specs.Shift.{shift_values};
ghost use Rattle.tv_word.specs.Widths.{IsWidth};

use crate::masks::{Part, fill_masked, half_log};
use crate::thermometer::fill_thermometer;
use tv_bits::{fill_bits, fill_zero};
use tv_core::{F, Put, Values, give_values};
use tv_word::arithmetic::{shifted_left, shifted_right};

/// Assigns the values of the wires that `shift` makes for the words `x` and `y` of `W` bits.
pub fn fill_shift<const W: u32, V: Values>(v: &mut V, x: u32, y: u32) -> Put<()>
    requires width { IsWidth W }
    requires x_word { x < 2 ^ W }
    requires y_word { y < 2 ^ W }
    requires whole { V.giving.broken v.old ≡ false }
    ensures gives { GivesIn V.giving v.old v.new (shift_values W x y) result }
    ensures whole { OnOk result (V.giving.broken v.new ≡ false) }
{
    fill_parts::<W, V>(v, x, y)?;
    give_values(v, &ends_values::<W>(x, y))?;
    fill_zero(v, F::from(y >> (half_log::<W>() + 1)))?;
    let ends = [
        F::from(shifted_left::<W>(x, y)),
        F::from(shifted_right::<W>(x, y)),
    ];
    give_values(v, &ends)
}

fn fill_parts<const W: u32, V: Values>(v: &mut V, x: u32, y: u32) -> Put<()>
    requires width { IsWidth W }
    requires whole { V.giving.broken v.old ≡ false }
    ensures gives { GivesIn V.giving v.old v.new (parts_values W x y) result }
    ensures whole { OnOk result (V.giving.broken v.new ≡ false) }
{
    let (chosen, other) = chosen_and_other::<W>(x, y);
    fill_bits(v, F::from(chosen), W / 2)?;
    fill_thermometer(v, half_log::<W>(), y)?;
    fill_masked::<W, V>(v, Part::Low, chosen, rest_of::<W>(y))?;
    fill_masked::<W, V>(v, Part::High, other, rest_of::<W>(y))
}

// Whether the distance has a half of the word in it.
fn has_half<const W: u32>(y: u32) -> bool
    requires width { IsWidth W }
    ensures { result ≡ (bit_at y (half_log W) == 1) }
{
    (y >> half_log::<W>()) % 2 == 1
}

// What the distance has beside halves of a word.
fn rest_of<const W: u32>(y: u32) -> u32
    requires width { IsWidth W }
    ensures { result ≡ y % 2 ^ half_log W }
{
    y % (W / 2)
}

// The half of the word that the distance chooses, and the other one.
fn chosen_and_other<const W: u32>(x: u32, y: u32) -> (u32, u32)
    requires width { IsWidth W }
    ensures chosen { result.0 ≡ chosen_half (W / 2) (bit_at y (half_log W)) x }
    ensures other { result.1 ≡ other_half (W / 2) (bit_at y (half_log W)) x }
{
    let (low, high) = (x % (1 << (W / 2)), x >> (W / 2));
    if has_half::<W>(y) {
        (high, low)
    } else {
        (low, high)
    }
}

// The word shifted by the half of a word or by nothing, and then by the distance's low bits too.
fn ends_values<const W: u32>(x: u32, y: u32) -> [F; 4]
    requires width { IsWidth W }
    requires word { x < 2 ^ W }
    ensures { result ≡ ends_values W x y }
{
    let by_half = if has_half::<W>(y) { W / 2 } else { 0 };
    let (left, right) = (
        shifted_left::<W>(x, by_half),
        shifted_right::<W>(x, by_half),
    );
    [
        F::from(left),
        F::from(right),
        F::from(shifted_left::<W>(left, rest_of::<W>(y))),
        F::from(shifted_right::<W>(right, rest_of::<W>(y))),
    ]
}
