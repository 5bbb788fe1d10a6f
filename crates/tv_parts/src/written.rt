//! The registers after a step.
ghost use Rattle.std.specs.Prelude.{◌≡◌, ◌+◌, ◌≤◌, ◌<◌, ◌^◌, ◌==◌, if◌then◌else◌, false};
ghost use Rattle.std.specs.Prelude.{IfOk, OnOk, [], ◌∷◌};
ghost use Rattle.tv_core.specs.Combinations.{wire};
ghost use Rattle.tv_inputs.specs.Accumulation.{accumulated_of};
ghost use Rattle.tv_inputs.specs.OpcodeSums.{opcode_sum};
ghost use Rattle.tv_core.specs.Values.{GivesIn};
ghost use Rattle.tv_core.specs.Sinks.{Emits, Room};
ghost use Rattle.tv_parts.specs.Written.{written_of};
ghost use Rattle.tv_inputs.specs.States.{StateUnder};
ghost use Rattle.tv_parts.specs.Written.{TripleUnder};
ghost use Rattle.tv_inputs.specs.Traced.{traced_view, AreNumbers};
ghost use Rattle.tv_parts.specs.Written.{written_values, WrittenIsSound, WrittenIsComplete};
ghost use Rattle.tv_parts.specs.Written.{WrittenSizes, WrittenCosts};
ghost use Rattle.tv_isa.specs.Opcodes.{among, chosen, writer_ops};
ghost use Rattle.tv_isa.specs.declared.opcode.TheConstants.{CMOV};
ghost use Rattle.tv_numbers.specs.Numbers.{result_in};
ghost use Rattle.tv_numbers.specs.Tables.{results};
ghost use Rattle.tv_bits.specs.Wires.{wires_top};
ghost use Rattle.tv_word.specs.Widths.{IsWidth};
ghost use Rattle.tv_word.specs.Word.{flag_of};

use tv_core::{F, Put, Scratch, Sink, Values, Wire};
use tv_inputs::{StateWires, StepNumbers, accumulated, byte_of, opcode_wire, plus_opcodes};
use tv_isa::opcode::{
    ADD, AND, CMOV, LOAD_B, LOAD_W, MOV, MULL, NOT, OR, READ, SHL, SHR, SMULH, SUB, UDIV, UMOD,
    UMULH, XOR,
};
use tv_regs::{Triple, Write, fill_update, update_register};
use tv_step::TraceState;
use tv_word::arithmetic::{
    both, difference, differing, either, high_product, high_signed, inverted, low_product,
    quotient, remainder, shifted_left, shifted_right, sum,
};

/// Constrains the registers after a step: `op` is the row of its opcode, `regs` the registers that
/// it reads, and `result` its result. It makes 17 wires and 18 constraints.
pub fn put_written<S: Sink>(
    s: &mut S,
    scratch: &mut Scratch,
    op: Wire,
    state: &StateWires,
    regs: &Triple,
    result_word: Wire,
) -> Put<[Wire; 16]>
    requires room { Room S.meaning s.old 17 18 }
    requires op_made { op + 29 ≤ S.meaning.wires s.old }
    requires state_made { StateUnder (S.meaning.wires s.old) state.now }
    requires regs_made { TripleUnder (S.meaning.wires s.old) regs.now }
    requires result_made { result_word < S.meaning.wires s.old }
    ensures emits { Emits S.meaning s.old s.new
        (written_of op state.now regs.now result_word) 17 18 result }
    ensures below { IfOk result (λ made. wires_top made ≤ S.meaning.wires s.new) }
{
    let on = put_on(s, scratch, op, state.flag)?;
    let write = Write {
        on,
        dest: regs.dest,
        word: regs.dest_word,
        value: result_word,
    };
    update_register(s, scratch, &write, &state.regs)
}

// Constrains whether the destination is written.
#[inline]
fn put_on<S: Sink>(s: &mut S, scratch: &mut Scratch, op: Wire, flag: Wire) -> Put<Wire>
    requires room { Room S.meaning s.old 1 1 }
    requires op_made { op + 29 ≤ S.meaning.wires s.old }
    requires flag_made { flag < S.meaning.wires s.old }
    ensures emits { Emits S.meaning s.old s.new
        (accumulated_of (opcode_sum op writer_ops) (opcode_sum op (CMOV ∷ [])) (wire flag))
        1 1 result }
    ensures below { IfOk result (λ w. w < S.meaning.wires s.new) }
{
    scratch.a.set_wire(opcode_wire(op, CMOV));
    scratch.b.set_wire(flag);
    scratch.c.clear();
    plus_opcodes(
        &mut scratch.c,
        -F::ONE,
        op,
        &[
            AND, OR, XOR, NOT, ADD, SUB, MULL, UMULH, SMULH, UDIV, UMOD, SHL, SHR, MOV, LOAD_B,
            LOAD_W, READ,
        ],
    );
    accumulated(s, scratch)
}

/// Assigns the 17 values of the wires that `put_written` makes.
pub fn fill_written<const W: u32, V: Values>(
    v: &mut V,
    state: &TraceState,
    step: &StepNumbers,
) -> Put<()>
    requires width { IsWidth W }
    requires step { AreNumbers W (traced_view state.now) step.now }
    requires whole { V.giving.broken v.old ≡ false }
    ensures gives { GivesIn V.giving v.old v.new
        (written_values W step.now.n (traced_view state.now) step.now.instr step.now.low
        step.now.aux) result }
    ensures whole { OnOk result (V.giving.broken v.new ≡ false) }
{
    let word = result_of::<W>(state, step);
    let on = writes(step.instr.op, state.flag);
    v.give(F::from(on))?;
    fill_update(v, u32::from(step.instr.dest), on, word, &state.regs)
}

// The result of a step.
fn result_of<const W: u32>(state: &TraceState, step: &StepNumbers) -> u32
    requires width { IsWidth W }
    requires step { AreNumbers W (traced_view state.now) step.now }
    ensures { result ≡ result_in W step.now.n (traced_view state.now) step.now.instr step.now.low
        step.now.aux }
{
    let _state = state;
    result_word::<W>(
        step.instr.op,
        step.other,
        step.operand,
        step.low,
        step.found,
    )
}

// The result of an instruction, where `x` is the other word, `a` the operand, and `o` the data
// word; `found` says whether a read finds it.
fn result_word<const W: u32>(op: u8, x: u32, a: u32, o: u32, found: bool) -> u32
    requires width { IsWidth W }
    requires x_word { x < 2 ^ W }
    requires a_word { a < 2 ^ W }
    ensures { result ≡ chosen (results W x a o found) op }
{
    match op {
        AND => both::<W>(x, a),
        OR => either::<W>(x, a),
        XOR => differing::<W>(x, a),
        NOT => inverted::<W>(a),
        ADD => sum::<W>(x, a),
        SUB => difference::<W>(x, a),
        MULL => low_product::<W>(x, a),
        UMULH => high_product::<W>(x, a),
        SMULH => high_signed::<W>(x, a).0,
        UDIV => quotient::<W>(x, a),
        UMOD => remainder::<W>(x, a),
        SHL => shifted_left::<W>(x, a),
        SHR => shifted_right::<W>(x, a),
        MOV | CMOV => a,
        LOAD_B => byte_of(o, a % (W / 8)),
        LOAD_W => o,
        READ if found => o,
        _ => 0,
    }
}

// Whether an instruction writes its destination register.
fn writes(op: u8, flag: bool) -> bool
    ensures { result ≡ (if op == CMOV then flag_of flag == 1 else among writer_ops op) }
{
    match op {
        AND..=SHR | MOV | LOAD_B | LOAD_W | READ => true,
        CMOV => flag,
        _ => false,
    }
}

/// The laws of the registers written. An assignment that meets the constraints has the registers
/// after the step, and one that has them meets the constraints. They also say which wires
/// `put_written` returns, that `fill_written` assigns one number to each wire that it makes, and how
/// many constraints and terms the registers cost.
pub fn written_laws()
    ensures sound { WrittenIsSound }
    ensures complete { WrittenIsComplete }
    ensures sizes { WrittenSizes }
    ensures costs { WrittenCosts }
{}
