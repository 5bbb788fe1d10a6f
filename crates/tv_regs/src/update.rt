//! The registers, one of which is written by its number.
ghost use Rattle.std.specs.Prelude.{◌≡◌, ◌+◌, ◌-◌, ◌++◌, ◌≤◌, ◌<◌, ◌^◌, false, length};
ghost use Rattle.std.specs.Prelude.{max, IfOk, OnOk};
ghost use Rattle.tv_bits.specs.OneHot.{row_sum};
ghost use Rattle.tv_core.specs.Combinations.{scaled, top};
ghost use Rattle.tv_core.specs.Values.{GivesIn};
ghost use Rattle.tv_core.specs.Sinks.{Emits, Room};
ghost use Rattle.tv_core.specs.declared.field.TheConstants.{P};
ghost use Rattle.tv_bits.specs.Wires.{wires_top};
ghost use Rattle.tv_regs.specs.Update.{number_less, rise, stays_of, update_of, IsWriteMade};
ghost use Rattle.tv_regs.specs.Update.{UpdateIsSound, UpdateIsComplete, UpdateSizes};
ghost use Rattle.tv_regs.specs.Update.{UpdateCosts};
ghost use Rattle.tv_regs.specs.Writes.{written_regs};

use crate::writes::{set_sum, wires_from, written_regs};
use tv_bits::plus_row;
use tv_core::{F, Lc, Put, Scratch, Sink, Values, Wire, give_words};

/// The wires of a write to one register. Contracts see their numbers.
#[derive(Clone, Copy)]
pub struct Write {
    /// 1 where the register is written, 0 where none is.
    pub on: Wire,
    /// The register's number.
    pub dest: Wire,
    /// The word that stands in the register.
    pub word: Wire,
    /// The word that is written.
    pub value: Wire,
}

/// Constrains new registers: where `on` is 1, the register whose number `dest` has becomes
/// `value`, and where it is 0 none changes. It makes 16 wires and 17 constraints, of 98 terms.
pub fn update_register<S: Sink>(
    s: &mut S,
    scratch: &mut Scratch,
    write: &Write,
    regs: &[Wire; 16],
) -> Put<[Wire; 16]>
    requires room { Room S.meaning s.old 16 17 }
    requires made { IsWriteMade (S.meaning.wires s.old) write.now }
    requires regs_made { wires_top regs.now ≤ S.meaning.wires s.old }
    ensures emits { Emits S.meaning s.old s.new
        (update_of write.now.on write.now.dest write.now.word write.now.value regs.now)
        16 17 result }
    ensures below { IfOk result (λ made. wires_top made ≤ S.meaning.wires s.new) }
{
    let first = Wire(s.wires());
    for i in 0..16 {
        stays(s, scratch, write.dest, regs[i as usize], i)?;
    }
    set_sum(&mut scratch.a, regs);
    set_sum_rise(&mut scratch.c, &scratch.a, first);
    set_rise(&mut scratch.b, write.word, write.value);
    scratch.a.set_wire(write.on);
    s.put(&scratch.a, &scratch.b, &scratch.c)?;
    Ok(wires_from(first))
}

// A wire that is the register, unless `dest` holds `i`.
fn stays<S: Sink>(s: &mut S, scratch: &mut Scratch, dest: Wire, reg: Wire, i: u32) -> Put<()>
    requires room { Room S.meaning s.old 1 1 }
    requires within { i < 16 }
    requires dest_made { dest < S.meaning.wires s.old }
    requires reg_made { reg < S.meaning.wires s.old }
    ensures emits { Emits S.meaning s.old s.new (stays_of dest reg i) 1 1 result }
{
    let new = s.fresh();
    set_number_less(&mut scratch.a, dest, i);
    set_rise(&mut scratch.b, reg, new);
    scratch.c.clear();
    s.put(&scratch.a, &scratch.b, &scratch.c)
}

// Makes `lc` the number that `dest` holds less `i`.
fn set_number_less(lc: &mut Lc, dest: Wire, i: u32)
    requires within { i < 16 }
    ensures terms { lc.new ≡ number_less dest i }
    ensures top { top lc.new ≤ dest + 1 }
{
    lc.clear();
    if i > 0 {
        lc.plus(-F::from(i), Wire(0));
    }
    lc.plus(F::ONE, dest);
}

// Makes `lc` the wire `new` less the wire `old`.
fn set_rise(lc: &mut Lc, old: Wire, new: Wire)
    ensures terms { lc.new ≡ rise old new }
    ensures top { top lc.new ≡ max (old + 1) (new + 1) }
{
    lc.clear();
    lc.plus(-F::ONE, old);
    lc.plus(F::ONE, new);
}

// Makes `lc` the sum of sixteen wires that follow each other, less `sum`.
fn set_sum_rise(lc: &mut Lc, sum: &Lc, first: Wire)
    requires within { first + 16 < 2 ^ 32 }
    requires short { length sum.now ≤ 64 }
    ensures terms { lc.new ≡ scaled (P - 1) sum.now ++ row_sum first 16 }
    ensures top { top lc.new ≤ max (top sum.now) (first + 16) }
{
    lc.clear();
    lc.minus(sum);
    plus_row(lc, first, 16);
}

/// Assigns the 16 values of the wires that `update_register` makes: the registers after the write
/// of `x` to the one with this number, below 16.
pub fn fill_update<V: Values>(v: &mut V, dest: u32, on: bool, x: u32, regs: &[u32; 16]) -> Put<()>
    requires within { dest < 16 }
    requires whole { V.giving.broken v.old ≡ false }
    ensures gives { GivesIn V.giving v.old v.new (written_regs on x dest regs.now) result }
    ensures whole { OnOk result (V.giving.broken v.new ≡ false) }
{
    give_words(v, &written_regs(on, x, dest, regs))
}

/// The laws of `update`:
/// - `sound`: where an assignment has a bit at `on`, the number of a register at `dest` and its
///   word at `word`, and satisfies the constraints of `update_register`, the returned wires are the
///   registers after the write.
/// - `complete`: where an assignment has such inputs, and the values that `fill_update` assigns, it
///   satisfies the constraints of `update_register`.
/// - `sizes`: which wires `update_register` returns and how many it makes, whatever the next wire
///   is, and that `fill_update` assigns one number of the field to each of them.
/// - `costs`: how many constraints and terms `update_register` emits.
pub fn update_laws()
    ensures sound { UpdateIsSound }
    ensures complete { UpdateIsComplete }
    ensures sizes { UpdateSizes }
    ensures costs { UpdateCosts }
{}
