//! A register, read by the row of its number.
ghost use Rattle.std.specs.Prelude.{◌≡◌, ◌+◌, ◌≤◌, ◌<◌, false, IfOk, OnOk};
ghost use Rattle.tv_core.specs.Values.{GivesIn};
ghost use Rattle.tv_core.specs.Sinks.{Emits, Room};
ghost use Rattle.tv_bits.specs.Wires.{wires_top};
ghost use Rattle.tv_regs.specs.Reads.{read_of, read_reg_of, read_reg_values};
ghost use Rattle.tv_regs.specs.Reads.{ReadRegIsSound, ReadRegIsComplete, ReadRegSizes};

use tv_core::{F, Put, Scratch, Sink, Values, Wire};

/// Returns a wire that is constrained to the register whose number the one-hot row of 16 wires from
/// `sel` on has. It makes 1 wire and 16 constraints, of 48 terms.
pub fn read_reg<S: Sink>(s: &mut S, sel: Wire, regs: &[Wire; 16]) -> Put<Wire>
    requires room { Room S.meaning s.old 1 16 }
    requires sel_made { sel + 16 ≤ S.meaning.wires s.old }
    requires regs_made { wires_top regs.now ≤ S.meaning.wires s.old }
    ensures emits { Emits S.meaning s.old s.new (read_reg_of sel regs.now) 1 16 result }
    ensures below { IfOk result (λ w. w < S.meaning.wires s.new) }
{
    let mut scratch = Scratch::new();
    let w = s.fresh();
    for i in 0..16 {
        read(s, &mut scratch, w, sel.offset(i), regs[i as usize])?;
    }
    Ok(w)
}

// Holds `w` to a register where a wire of the row is 1.
fn read<S: Sink>(s: &mut S, scratch: &mut Scratch, w: Wire, sel: Wire, reg: Wire) -> Put<()>
    requires room { Room S.meaning s.old 0 1 }
    requires w_made { w < S.meaning.wires s.old }
    requires sel_made { sel < S.meaning.wires s.old }
    requires reg_made { reg < S.meaning.wires s.old }
    ensures emits { Emits S.meaning s.old s.new (read_of w sel reg) 0 1 result }
{
    scratch.a.set_wire(sel);
    scratch.b.set_difference(w, reg);
    scratch.c.clear();
    s.put(&scratch.a, &scratch.b, &scratch.c)
}

/// Assigns the value of the wire that `read_reg` makes: the register with this number, below 16.
pub fn fill_read_reg<V: Values>(v: &mut V, sel: u32, regs: &[u32; 16]) -> Put<()>
    requires within { sel < 16 }
    requires whole { V.giving.broken v.old ≡ false }
    ensures gives { GivesIn V.giving v.old v.new (read_reg_values sel regs.now) result }
    ensures whole { OnOk result (V.giving.broken v.new ≡ false) }
{
    v.give(F::from(regs[sel as usize]))
}

/// The laws of `read_reg`:
/// - `sound`: where an assignment has a one-hot row and satisfies the constraints of `read_reg`,
///   the returned wire has the value of the register that the row selects.
/// - `complete`: where an assignment has a one-hot row and the value that `fill_read_reg` assigns
///   for it, it satisfies the constraints of `read_reg`.
/// - `sizes`: which wire `read_reg` returns, whatever the next wire is, and that `fill_read_reg`
///   assigns it one value, below P.
pub fn read_reg_laws()
    ensures sound { ReadRegIsSound }
    ensures complete { ReadRegIsComplete }
    ensures sizes { ReadRegSizes }
{}
