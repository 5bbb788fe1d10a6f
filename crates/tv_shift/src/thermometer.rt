//! Marks of a number: which numbers are below it.
ghost use Rattle.std.specs.Prelude.{◌≡◌, ◌+◌, ◌-◌, ◌*◌, ◌≤◌, ◌<◌, ◌^◌, ◌++◌, length, max};
ghost use Rattle.std.specs.Prelude.{false, IfOk, OnOk};
ghost use Rattle.tv_core.specs.Combinations.{top};
ghost use Rattle.tv_core.specs.Values.{GivesIn};
ghost use Rattle.tv_core.specs.Sinks.{Emits, Room};
ghost use Rattle.tv_shift.specs.Thermometer.{products_below, both, mark, bit_level_of};
ghost use Rattle.tv_shift.specs.Thermometer.{thermometer_of};
ghost use Rattle.tv_shift.specs.Thermometer.{level_value, level_values, thermometer_values};
ghost use Rattle.tv_shift.specs.Thermometer.{power_of};

use tv_bits::times_by;
use tv_core::{F, Lc, Put, Scratch, Sink, Values, Wire};
use tv_word::arithmetic::power;

// Wires of marks: of the bits that they are of, and of the products that they need.
#[derive(Clone, Copy)]
pub(crate) struct Marks {
    pub bits: Wire,
    pub products: Wire,
}

impl Marks {
    // Makes `lc` mark `j` of the `k` low bits.
    pub fn set_mark(&self, lc: &mut Lc, k: u32, j: u32)
        requires few { k ≤ 4 }
        requires there { j < 2 ^ k }
        requires bits_made { self.now.bits + k < 2 ^ 32 }
        requires products_made { self.now.products + products_below k < 2 ^ 32 }
        ensures terms { lc.new ≡ mark self.now.bits self.now.products k j }
        ensures len { length lc.new ≤ 2 * k }
        ensures top { top lc.new ≤ max (self.now.bits + k) (self.now.products + products_below k) }
    {
        lc.clear();
        self.plus_mark(lc, k, j);
    }

    // Appends mark `j` of the `k` low bits.
    fn plus_mark(&self, lc: &mut Lc, k: u32, j: u32)
        requires few { k ≤ 4 }
        requires there { j < 2 ^ k }
        requires short { length lc.old + 2 * k ≤ 128 }
        requires bits_made { self.now.bits + k < 2 ^ 32 }
        requires products_made { self.now.products + products_below k < 2 ^ 32 }
        ensures terms { lc.new ≡ lc.old ++ mark self.now.bits self.now.products k j }
        ensures len { length lc.new ≤ length lc.old + 2 * k }
        ensures top { top lc.new ≤ max (top lc.old)
            (max (self.now.bits + k) (self.now.products + products_below k)) }
    {
        if k == 0 {
            return;
        }
        let half = power(k - 1);
        if j < half {
            lc.plus(F::ONE, self.bits.offset(k - 1));
            self.plus_both(lc, -F::ONE, k - 1, j);
            self.plus_mark(lc, k - 1, j);
        } else {
            self.plus_both(lc, F::ONE, k - 1, j - half);
        }
    }

    // Appends `c` times the product of bit `k` and mark `j` of the bits below it.
    fn plus_both(&self, lc: &mut Lc, c: F, k: u32, j: u32)
        requires few { k < 4 }
        requires there { j < 2 ^ k }
        requires short { length lc.old < 128 }
        requires products_made { self.now.products + products_below (k + 1) < 2 ^ 32 }
        ensures terms { lc.new ≡ lc.old ++ both self.now.products c k j }
        ensures len { length lc.new ≤ length lc.old + 1 }
        ensures top { top lc.new ≤ max (top lc.old) (self.now.products + products_below (k + 1)) }
    {
        let marks = power(k);
        if j + 1 < marks {
            lc.plus(c, self.products.offset(marks - 1 - k + j));
        }
    }
}

// Makes `lc` 2^s, s being the number that the `k` low bits represent; `one_mark` is overwritten.
pub(crate) fn set_mark_power(lc: &mut Lc, one_mark: &mut Lc, marks: &Marks, k: u32)
    requires few { k ≤ 4 }
    requires bits_made { marks.now.bits + k < 2 ^ 32 }
    requires products_made { marks.now.products + products_below k < 2 ^ 32 }
    ensures terms { lc.new ≡ power_of (mark marks.now.bits marks.now.products k) (2 ^ k - 1) }
    ensures top { top lc.new ≤ max 1 (max (marks.now.bits + k)
        (marks.now.products + products_below k)) }
{
    lc.set_wire(Wire(0));
    let mut coefficient = F::ONE;
    for i in 0..power(k) - 1 {
        marks.set_mark(one_mark, k, i);
        lc.plus_scaled(coefficient, one_mark.terms());
        coefficient = coefficient + coefficient;
    }
}

// The first of the products that the marks of `k` bits need. It makes 2^k - 1 - k wires and
// constraints.
pub(crate) fn thermometer<S: Sink>(
    s: &mut S,
    scratch: &mut Scratch,
    k: u32,
    bits: Wire,
) -> Put<Wire>
    requires room { Room S.meaning s.old (products_below k) (products_below k) }
    requires few { k ≤ 4 }
    requires bits_made { bits + k ≤ S.meaning.wires s.old }
    ensures emits { Emits S.meaning s.old s.new
        (thermometer_of k bits) (products_below k) (products_below k) result }
    ensures below { IfOk result (λ products. products + products_below k ≤ S.meaning.wires s.new) }
{
    let marks = Marks {
        bits,
        products: Wire(s.wires()),
    };
    for i in 0..k {
        level(s, scratch, &marks, i)?;
    }
    Ok(marks.products)
}

// The products of bit `k` with the marks of the bits below it.
fn level<S: Sink>(s: &mut S, scratch: &mut Scratch, marks: &Marks, k: u32) -> Put<()>
    requires room { Room S.meaning s.old (2 ^ k - 1) (2 ^ k - 1) }
    requires few { k ≤ 4 }
    requires bits_made { marks.now.bits + k < S.meaning.wires s.old }
    requires products_made { marks.now.products + products_below k ≤ S.meaning.wires s.old }
    ensures emits { Emits S.meaning s.old s.new
        (bit_level_of marks.now.bits marks.now.products k) (2 ^ k - 1) (2 ^ k - 1) result }
{
    for j in 0..power(k) - 1 {
        scratch.a.set_wire(marks.bits.offset(k));
        marks.set_mark(&mut scratch.b, k, j);
        times_by(s, scratch)?;
    }
    Ok(())
}

// Assigns the values of the wires that `thermometer` makes for bits that represent `y`.
pub(crate) fn fill_thermometer<V: Values>(v: &mut V, k: u32, y: u32) -> Put<()>
    requires whole { V.giving.broken v.old ≡ false }
    requires few { k ≤ 4 }
    ensures gives { GivesIn V.giving v.old v.new (thermometer_values k y) result }
    ensures whole { OnOk result (V.giving.broken v.new ≡ false) }
{
    for i in 0..k {
        fill_level(v, i, y)?;
    }
    Ok(())
}

fn fill_level<V: Values>(v: &mut V, k: u32, y: u32) -> Put<()>
    requires whole { V.giving.broken v.old ≡ false }
    requires few { k ≤ 4 }
    ensures gives { GivesIn V.giving v.old v.new (level_values y k) result }
    ensures whole { OnOk result (V.giving.broken v.new ≡ false) }
{
    for j in 0..power(k) - 1 {
        v.give(F::of(level_value(y, k, j)))?;
    }
    Ok(())
}

fn level_value(y: u32, k: u32, j: u32) -> u64
    requires { k ≤ 4 }
    ensures value { result ≡ level_value y k j }
    ensures bit { result < 2 }
{
    if j < y % power(k) {
        u64::from((y >> k) % 2)
    } else {
        0
    }
}
