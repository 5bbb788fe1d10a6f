//! What `shift_power` holds at both widths, and `zero_sign`, in vectors from outside, and that
//! other numbers fail.
ghost use Rattle.tv_word.specs.Widths.{IsWidth};

use crate::assignments::{add_one, at, failing};
use crate::gadgets::bits;
use std::alloc::Global;
use std::test::Fail;
use tv_bits::{fill_bits, fill_zero_sign, zero_sign};
use tv_core::{F, ListValues, Put, Scratch, TestSink, Values, Wire, give_values};
use tv_rows::{fill_shift_power, shift_power};

// How many constraints of `shift_power` fail, and what its two wires hold. The bits of the distance
// follow wire 0.
fn powers<const W: u32>(z: &[F]) -> Put<(u32, F, F)>
    requires width { IsWidth W }
{
    let mut tests = TestSink::over(z, 33);
    let made = shift_power::<W, TestSink<'_>>(&mut tests, &mut Scratch::new(), &bits(1, 32))?;
    Ok((failing(&tests), at(z, made.both.0), at(z, made.power.0)))
}

// Whether a distance has this product of its two lowest bits and this power, and fails if the last
// wire is altered.
fn has_power<const W: u32>(alloc: Global, y: u32, both: u64, power: u64) -> Result<bool, Fail>
    requires width { IsWidth W }
{
    let mut values = ListValues::new(alloc);
    values.give(F::ONE)?;
    fill_bits(&mut values, F::from(y), 32)?;
    fill_shift_power::<W, ListValues>(&mut values, y)?;
    let mut z = values.as_slice().to_vec(alloc)?;
    let made = powers::<W>(&z)?;
    if let Some(last) = z.last_mut() {
        *last = *last + F::ONE;
    }
    Ok(made == (0, F::of(both), F::of(power)) && powers::<W>(&z)?.0 > 0)
}

// A distance, the product of its two lowest bits, and its power at 32 bits and at 16.
static POWERS: [(u32, u64, u64, u64); 8] = [
    (0, 0, 1, 1),
    (1, 0, 2, 2),
    (15, 1, 32_768, 32_768),
    (16, 0, 65_536, 1),
    (31, 1, 2_147_483_648, 32_768),
    (32, 0, 1, 1),
    (35, 1, 8, 8),
    (0xffff_fffe, 0, 1_073_741_824, 16_384),
];

#[test]
fn a_power_is_that_of_the_lowest_bits(rt: HostRuntime) -> Result<(), Fail> {
    for (y, both, power, power_16) in &POWERS {
        let wide = has_power::<32>(rt.alloc(), *y, *both, *power)?;
        let narrow = has_power::<16>(rt.alloc(), *y, *both, *power_16)?;
        assert!(rt; wide && narrow, "{y}");
    }
    Ok(())
}

// Wire 1 is the number, wire 2 the sign where it is 0, and the sign is wire 3 less wire 4.
fn sign_failing(z: &[F]) -> Put<u32> {
    let mut tests = TestSink::over(z, 5);
    let sign = [(F::ONE, Wire(3)), (-F::ONE, Wire(4))];
    zero_sign(&mut tests, &mut Scratch::new(), Wire(1), Wire(2), &sign)?;
    Ok(failing(&tests))
}

// A number, the wires of the sign, and the sign where the number is 0, as residues.
const P_LESS_1: u64 = 18_446_744_069_414_584_320;

static SIGNS: [[u64; 4]; 6] = [
    [0, 1, 0, 1],
    [0, 0, 1, P_LESS_1],
    [0, 0, 0, 0],
    [1, 1, 0, 0],
    [0xffff_ffff, 0, 1, 0],
    [P_LESS_1, 0, 0, 0],
];

// Whether the values hold, and another sign where the number is 0 fails.
fn is_sign(alloc: Global, [y, plus, minus, f]: [u64; 4]) -> Result<bool, Fail> {
    let mut values = ListValues::new(alloc);
    give_values(&mut values, &[1, y, f, plus, minus].map(F::of))?;
    fill_zero_sign(&mut values, F::of(y), F::of(plus) - F::of(minus))?;
    let mut z = values.as_slice().to_vec(alloc)?;
    let made = sign_failing(&z)?;
    add_one(&mut z, 2);
    Ok(made == 0 && sign_failing(&z)? > 0)
}

#[test]
fn a_sign_is_that_where_the_number_is_zero(rt: HostRuntime) -> Result<(), Fail> {
    for row in &SIGNS {
        assert!(rt; is_sign(rt.alloc(), *row)?, "{row:?}");
    }
    Ok(())
}
