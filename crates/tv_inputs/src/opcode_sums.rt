//! Sums over the row of the opcodes that are used.
ghost use Rattle.std.specs.Prelude.{◌≡◌, ◌+◌, ◌≤◌, ◌<◌, ◌^◌, ◌++◌, All, length, max};
ghost use Rattle.tv_core.specs.Combinations.{top};
ghost use Rattle.tv_isa.specs.Opcodes.{place_of};
ghost use Rattle.tv_inputs.specs.OpcodeSums.{opcode_terms, opcode_sum};
ghost use Rattle.tv_inputs.specs.OpcodeSums.{OpcodeSumIsSound};

use tv_core::{F, Lc, Wire};
use tv_isa::opcode::place;

/// Returns the wire of an opcode in the row of the used ones from `op` on.
pub fn opcode_wire(op: Wire, k: u8) -> Wire
    requires within { op + 29 ≤ 2 ^ 32 }
    requires opcode { k < 32 }
    ensures { result ≡ op + place_of k }
{
    op.offset(place(k))
}

/// Appends `factor` times the sum of the wires of these opcodes in the row from `op` on.
pub fn plus_opcodes(lc: &mut Lc, factor: F, op: Wire, ops: &[u8])
    requires within { op + 29 ≤ 2 ^ 32 }
    requires opcodes { All (λ k. k < 32) ops.now }
    requires room { length lc.old + length ops.now ≤ 128 }
    ensures terms { lc.new ≡ lc.old ++ opcode_terms factor op ops.now }
    ensures top { top lc.new ≤ max (top lc.old) (op + 29) }
    ensures len { length lc.new ≡ length lc.old + length ops.now }
{
    for k in ops {
        lc.plus(factor, opcode_wire(op, *k));
    }
}

/// Sets `lc` to the sum of the wires of these opcodes in the row from `op` on.
pub fn set_opcodes(lc: &mut Lc, op: Wire, ops: &[u8])
    requires within { op + 29 ≤ 2 ^ 32 }
    requires opcodes { All (λ k. k < 32) ops.now }
    requires few { length ops.now ≤ 32 }
    ensures terms { lc.new ≡ opcode_sum op ops.now }
    ensures top { top lc.new ≤ op + 29 }
    ensures len { length lc.new ≡ length ops.now }
{
    lc.clear();
    plus_opcodes(lc, F::ONE, op, ops);
}

/// In an assignment whose row is that of an opcode the sum is 1 if the opcode is one of these,
/// else 0.
#[tactic(auto, using(crate::proofs::OpcodeLaws::opcode_sum_sound))]
pub fn opcode_sum_is_sound()
    ensures { OpcodeSumIsSound }
{}
