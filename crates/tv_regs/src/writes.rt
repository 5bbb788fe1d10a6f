//! The registers, one of which is written by the row of its number.
ghost use Rattle.std.specs.Prelude.{◌≡◌, ◌+◌, ◌≤◌, ◌<◌, ◌^◌, false, length, max, IfOk};
ghost use Rattle.std.specs.Prelude.{OnOk};
ghost use Rattle.std.specs.List.{range_with_len};
ghost use Rattle.tv_core.specs.Combinations.{top};
ghost use Rattle.tv_core.specs.Values.{GivesIn};
ghost use Rattle.tv_core.specs.Sinks.{Emits, Room};
ghost use Rattle.tv_bits.specs.Wires.{wires_top};
ghost use Rattle.tv_regs.specs.Writes.{tie_of, regs_sum, written_regs, write_reg_of};
ghost use Rattle.tv_regs.specs.Writes.{write_reg_values, WriteRegIsSound, WriteRegIsComplete};
ghost use Rattle.tv_regs.specs.Writes.{WriteRegSizes};

use tv_bits::{plus_row, select_wires};
use tv_core::{F, Lc, Put, Scratch, Sink, Values, Wire, give_words};

/// Constrains new registers: where the bit `on` is 1, the register whose number the one-hot row of
/// 16 wires from `sel` on has becomes `x`, and where it is 0 none changes. It makes 17 wires and
/// 17 constraints, of 146 terms and those of `x`, at most 64.
pub fn write_reg<S: Sink>(
    s: &mut S,
    sel: Wire,
    on: Wire,
    x: &Lc,
    regs: &[Wire; 16],
) -> Put<[Wire; 16]>
    requires room { Room S.meaning s.old 17 17 }
    requires sel_made { sel + 16 ≤ S.meaning.wires s.old }
    requires on_made { on < S.meaning.wires s.old }
    requires x_short { length x.now ≤ 64 }
    requires made { max (top x.now) (wires_top regs.now) ≤ S.meaning.wires s.old }
    ensures emits { Emits S.meaning s.old s.new (write_reg_of sel on x.now regs.now) 17 17 result }
    ensures below { IfOk result (λ made. wires_top made ≤ S.meaning.wires s.new) }
{
    let mut scratch = Scratch::new();
    let v = s.fresh();
    let first = Wire(s.wires());
    for i in 0..16 {
        select_wires(s, &mut scratch, sel.offset(i), v, regs[i as usize])?;
    }
    tie(s, &mut scratch, on, x, v, first, regs)?;
    Ok(wires_from(first))
}

// Holds `v` to `x` where `on` is 1, and the sum of the registers to what it was where `on` is 0.
fn tie<S: Sink>(
    s: &mut S,
    scratch: &mut Scratch,
    on: Wire,
    x: &Lc,
    v: Wire,
    first: Wire,
    regs: &[Wire; 16],
) -> Put<()>
    requires room { Room S.meaning s.old 0 1 }
    requires on_made { on < S.meaning.wires s.old }
    requires v_made { v < S.meaning.wires s.old }
    requires x_short { length x.now ≤ 64 }
    requires new_made { first + 16 ≤ S.meaning.wires s.old }
    requires made { max (top x.now) (wires_top regs.now) ≤ S.meaning.wires s.old }
    ensures emits { Emits S.meaning s.old s.new (tie_of on x.now v first regs.now) 0 1 result }
{
    set_sum(&mut scratch.a, regs);
    scratch.c.clear();
    plus_row(&mut scratch.c, first, 16);
    scratch.c.minus(&scratch.a);
    scratch.b.clear();
    scratch.b.plus_terms(x.terms());
    plus_row(&mut scratch.b, first, 16);
    scratch.b.plus(-F::ONE, v);
    scratch.b.minus(&scratch.a);
    scratch.a.set_wire(on);
    s.put(&scratch.a, &scratch.b, &scratch.c)
}

// Makes `lc` the sum of the registers.
pub(crate) fn set_sum(lc: &mut Lc, regs: &[Wire; 16])
    ensures terms { lc.new ≡ regs_sum regs.now }
    ensures len { length lc.new ≡ 16 }
    ensures top { top lc.new ≤ wires_top regs.now }
{
    lc.clear();
    for i in 0..16 {
        lc.plus(F::ONE, regs[i]);
    }
}

/// Sixteen wires in a row, as `write_reg` makes them for the registers.
pub fn wires_from(first: Wire) -> [Wire; 16]
    requires within { first + 16 < 2 ^ 32 }
    ensures wires { result ≡ range_with_len first 16 }
    ensures top { wires_top result ≤ first + 16 }
{
    let mut made = [first; 16];
    for i in 0..16 {
        made[i as usize] = first.offset(i);
    }
    made
}

/// Assigns the 17 values of the wires that `write_reg` makes: the register with this number, below
/// 16, after the write, and then all registers.
pub fn fill_write_reg<V: Values>(v: &mut V, sel: u32, on: bool, x: u32, regs: &[u32; 16]) -> Put<()>
    requires within { sel < 16 }
    requires whole { V.giving.broken v.old ≡ false }
    ensures gives { GivesIn V.giving v.old v.new (write_reg_values on x sel regs.now) result }
    ensures whole { OnOk result (V.giving.broken v.new ≡ false) }
{
    let written = written_regs(on, x, sel, regs);
    v.give(F::from(written[sel as usize]))?;
    give_words(v, &written)
}

// The registers after a write.
pub(crate) fn written_regs(on: bool, x: u32, sel: u32, regs: &[u32; 16]) -> [u32; 16]
    requires within { sel < 16 }
    ensures { result ≡ written_regs on x sel regs.now }
{
    let mut written = *regs;
    if on {
        written[sel as usize] = x;
    }
    written
}

/// The laws of `write_reg`:
/// - `sound`: where an assignment has a one-hot row and a bit and satisfies the constraints of
///   `write_reg`, the returned wires are the registers after the write.
/// - `complete`: where an assignment has a one-hot row and a bit, and the values that
///   `fill_write_reg` assigns for them, it satisfies the constraints of `write_reg`.
/// - `sizes`: which wires `write_reg` returns and how many it makes, whatever the next wire is, and
///   that `fill_write_reg` assigns one value to each of them, below P.
pub fn write_reg_laws()
    ensures sound { WriteRegIsSound }
    ensures complete { WriteRegIsComplete }
    ensures sizes { WriteRegSizes }
{}
