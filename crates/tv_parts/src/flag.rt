//! The flag after a step.
ghost use Rattle.std.specs.Prelude.{◌≡◌, ◌+◌, ◌-◌, ◌≤◌, ◌<◌, ◌^◌, ◌%◌};
ghost use Rattle.std.specs.Prelude.{false, [], ◌∷◌, length, max, IfOk, OnOk};
ghost use Rattle.std.specs.Int.{bit_at};
ghost use Rattle.tv_bits.specs.Times.{times_of};
ghost use Rattle.tv_core.specs.Combinations.{scaled, top, wire};
ghost use Rattle.tv_core.specs.Values.{GivesIn};
ghost use Rattle.tv_core.specs.Sinks.{Emits, Room};
ghost use Rattle.tv_core.specs.declared.field.TheConstants.{P};
ghost use Rattle.tv_parts.specs.Flag.{tested_in, next_flag_of, FlagIsSound, FlagIsComplete};
ghost use Rattle.tv_parts.specs.Flag.{FlagSizes, FlagCosts, flag_values};
ghost use Rattle.tv_inputs.specs.States.{FlagUnder};
ghost use Rattle.tv_inputs.specs.Traced.{traced_view, traced_input, AreNumbers};
ghost use Rattle.tv_isa.specs.Opcodes.{chosen};
ghost use Rattle.tv_numbers.specs.Tables.{flags};
ghost use Rattle.tv_word.specs.Widths.{IsWidth};
ghost use Rattle.tv_word.specs.Word.{flag_of};

use tv_bits::{Bits, times_by};
use tv_core::{F, Lc, Put, Scratch, Sink, Values, Wire, give_values};
use tv_inputs::{
    StateWires, StepNumbers, TapeWires, accumulated, opcode_wire, plus_opcodes, set_minus,
    set_opcodes, set_rise,
};
use tv_isa::opcode::{
    ADD, AND, ANSWER, CJMP, CMOV, CMPA, CMPAE, CMPE, CMPG, CMPGE, CNJMP, JMP, LOAD_B, LOAD_W, MOV,
    MULL, NOT, OR, READ, SHL, SHR, SMULH, STORE_B, STORE_W, SUB, UDIV, UMOD, UMULH, XOR,
};
use tv_step::TraceState;
use tv_word::arithmetic::{
    both, carries, differing, either, high_signed, inverted, is_wide, sign_bit, signed_word,
};

/// Constrains the flag after a step: `op` is the row of its opcode, `x` the bits of its other word,
/// and `f` its test. It makes 3 wires and 3 constraints.
pub fn put_flag<const W: u32, S: Sink>(
    s: &mut S,
    scratch: &mut Scratch,
    state: &StateWires,
    op: Wire,
    x: &Bits,
    f: Wire,
    tapes: &TapeWires,
) -> Put<Wire>
    requires width { IsWidth W }
    requires room { Room S.meaning s.old 3 3 }
    requires from_made { FlagUnder W (S.meaning.wires s.old) (record {
      state = state.now;
      op = op;
      x = x.now;
      f = f;
      tapes = tapes.now;
    }) }
    ensures emits { Emits S.meaning s.old s.new
        (next_flag_of W state.now op x.now f tapes.now) 3 3 result }
    ensures below { IfOk result (λ w. w < S.meaning.wires s.new) }
{
    let highest = x.first.offset(W - 1);
    let left = put_shifted(s, scratch, opcode_wire(op, SHL), f, highest)?;
    let right = put_shifted(s, scratch, opcode_wire(op, SHR), f, x.first)?;
    set_opcodes(
        &mut scratch.a,
        op,
        &[
            MOV, CMOV, JMP, CJMP, CNJMP, STORE_B, LOAD_B, STORE_W, LOAD_W, ANSWER,
        ],
    );
    scratch.b.set_wire(state.flag);
    set_tested(
        &mut scratch.c,
        state.taken_of_primary,
        op,
        f,
        tapes,
        left,
        right,
    );
    accumulated(s, scratch)
}

// Constrains a bit less the test where the opcode's wire is 1.
fn put_shifted<S: Sink>(
    s: &mut S,
    scratch: &mut Scratch,
    opcode: Wire,
    f: Wire,
    bit: Wire,
) -> Put<Wire>
    requires room { Room S.meaning s.old 1 1 }
    requires wires_made { max opcode (max f bit) < S.meaning.wires s.old }
    ensures emits { Emits S.meaning s.old s.new
        (times_of (wire opcode) ((P - 1, f) ∷ (1, bit) ∷ [])) 1 1 result }
    ensures below { IfOk result (λ w. w < S.meaning.wires s.new) }
{
    scratch.a.set_wire(opcode);
    set_rise(&mut scratch.b, f, bit);
    times_by(s, scratch)
}

// Sets `lc` to the flag where it isn't kept, with its coefficients negated.
fn set_tested(
    lc: &mut Lc,
    before: Wire,
    op: Wire,
    f: Wire,
    tapes: &TapeWires,
    left: Wire,
    right: Wire,
)
    requires within { op + 29 ≤ 2 ^ 32 }
    ensures terms { lc.new ≡ scaled (P - 1) (tested_in before op f tapes.now left right) }
    ensures top { top lc.new ≤ max (max (before + 1) (op + 29)) (max (f + 1) (max
        (max (tapes.now.taken + 1) (tapes.now.takes + 1)) (max (left + 1) (right + 1)))) }
    ensures len { length lc.new ≡ 15 }
{
    let minus = -F::ONE;
    set_minus(lc, before);
    plus_opcodes(
        lc,
        minus,
        op,
        &[ADD, MULL, UMULH, SMULH, CMPA, CMPAE, CMPG, CMPGE, READ],
    );
    lc.plus_scaled(
        minus,
        &[
            (F::ONE, f),
            (minus, tapes.taken),
            (minus, tapes.takes),
            (F::ONE, left),
            (F::ONE, right),
        ],
    );
}

/// Assigns the 3 values of the wires that `put_flag` makes, `f` being the value of the test.
pub fn fill_flag<const W: u32, V: Values>(
    v: &mut V,
    state: &TraceState,
    step: &StepNumbers,
    f: F,
) -> Put<()>
    requires width { IsWidth W }
    requires step { AreNumbers W (traced_view state.now) step.now }
    requires whole { V.giving.broken v.old ≡ false }
    ensures gives { GivesIn V.giving v.old v.new
        (flag_values W (traced_input state.now step.now) step.now.aux f) result }
    ensures whole { OnOk result (V.giving.broken v.new ≡ false) }
{
    give_values(v, &flag_values::<W>(state, step, f))
}

// The values of the wires that `put_flag` makes.
fn flag_values<const W: u32>(state: &TraceState, step: &StepNumbers, f: F) -> [F; 3]
    requires width { IsWidth W }
    requires step { AreNumbers W (traced_view state.now) step.now }
    ensures { result ≡ flag_values W (traced_input state.now step.now) step.now.aux f }
{
    let op = step.instr.op;
    let x = step.other;
    let left = if op == SHL {
        bit::<W>(x, W - 1) - f
    } else {
        F::ZERO
    };
    let right = if op == SHR {
        bit::<W>(x, 0) - f
    } else {
        F::ZERO
    };
    let flag = flag_after::<W>(op, x, step.operand, step.found, state.flag);
    [left, right, F::from(flag)]
}

// A bit of a word.
fn bit<const W: u32>(x: u32, i: u32) -> F
    requires width { IsWidth W }
    requires within { i < W }
    ensures { result ≡ bit_at x i }
{
    F::from((x >> i) % 2)
}

// The flag after an instruction, where `x` is the other word and `a` the operand; `found` says
// whether a read finds a word.
fn flag_after<const W: u32>(op: u8, x: u32, a: u32, found: bool, flag: bool) -> bool
    requires width { IsWidth W }
    requires x_word { x < 2 ^ W }
    requires a_word { a < 2 ^ W }
    ensures { flag_of result ≡ chosen (flags W x a found (flag_of flag)) op }
{
    match op {
        AND => both::<W>(x, a) == 0,
        OR => either::<W>(x, a) == 0,
        XOR => differing::<W>(x, a) == 0,
        NOT => inverted::<W>(a) == 0,
        ADD => carries::<W>(x, a),
        SUB => x < a,
        MULL | UMULH => is_wide::<W>(x, a),
        SMULH => high_signed::<W>(x, a).1,
        UDIV | UMOD => a == 0,
        SHL => sign_bit::<W>(x),
        SHR => x % 2 == 1,
        CMPE => x == a,
        CMPA => x > a,
        CMPAE => x >= a,
        CMPG => signed_word::<W>(x) > signed_word::<W>(a),
        CMPGE => signed_word::<W>(x) >= signed_word::<W>(a),
        READ => !found,
        MOV..=CNJMP | STORE_B..=LOAD_W | ANSWER => flag,
        _ => false,
    }
}

/// The laws of the flag. An assignment that satisfies the constraints has the flag after the step,
/// and one that has it meets the constraints. They also say which wire `put_flag` returns, that
/// `fill_flag` assigns one number to each wire that it makes, and how many constraints and terms
/// the flag costs.
pub fn flag_laws()
    ensures sound { FlagIsSound }
    ensures complete { FlagIsComplete }
    ensures sizes { FlagSizes }
    ensures costs { FlagCosts }
{}
