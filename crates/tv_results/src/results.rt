//! The result of a step, and the number whose test for 0 is its flag.
ghost use Rattle.std.specs.Prelude.{◌≡◌, ◌+◌, ◌-◌, ◌*◌, ◌/◌, ◌%◌, ◌≤◌, ◌<◌, ◌^◌, ◌==◌};
ghost use Rattle.std.specs.Prelude.{[], ◌∷◌, ◌++◌, if◌then◌else◌, All, length, max, IfOk};
ghost use Rattle.std.specs.Int.{bit_at};
ghost use Rattle.tv_core.specs.Circuits.{put};
ghost use Rattle.tv_core.specs.Combinations.{scaled, top, wire};
ghost use Rattle.tv_core.specs.Sinks.{Emits, Room};
ghost use Rattle.tv_core.specs.declared.field.TheConstants.{P};
ghost use Rattle.tv_inputs.specs.Results.{parts_in, signs_in, result_of, tested_of, results_of};
ghost use Rattle.tv_inputs.specs.Results.{sign_of};
ghost use Rattle.tv_inputs.specs.Results.{ResultsAreSound, ResultsAreComplete, ResultsSizes};
ghost use Rattle.tv_inputs.specs.Results.{ResultsCosts};
ghost use Rattle.tv_inputs.specs.Inputs.{taped_of};
ghost use Rattle.tv_inputs.specs.OpcodeSums.{opcode_sum};
ghost use Rattle.tv_inputs.specs.Operand.{upper_of};
ghost use Rattle.tv_inputs.specs.TestNumbers.{place_bits};
ghost use Rattle.tv_inputs.specs.States.{TapedUnder, OperationUnder, SourcesUnder};
ghost use Rattle.tv_inputs.specs.States.{ResultUnder};
ghost use Rattle.tv_inputs.specs.Results.{low_ops, low_part, high_part, moved_part};
ghost use Rattle.tv_inputs.specs.Results.{tested_number, results_values};
ghost use Rattle.tv_isa.specs.Opcodes.{place_of};
ghost use Rattle.tv_isa.specs.declared.opcode.TheConstants.{NOT, MOV, CMOV, LOAD_B, SMULH};
ghost use Rattle.tv_isa.specs.declared.opcode.TheConstants.{SHL, SHR};
ghost use Rattle.tv_mem.specs.Bytes.{byte_of};
ghost use Rattle.tv_step.specs.Rows.{word_size};
ghost use Rattle.tv_word.specs.Widths.{IsWidth};

use tv_bits::times_by;
use tv_core::{F, Lc, Put, Scratch, Sink, Wire};
use tv_inputs::{
    OperandWires, ResultWires, Sources, StateWires, StepNumbers, TapeWires, accumulated, byte_of,
    opcode_wire, plus_opcodes, plus_upper, set_minus, set_negated, set_opcodes, set_rise,
    set_terms,
};
use tv_isa::opcode::{
    ADD, AND, CMOV, CMPA, CMPAE, CMPE, CMPG, CMPGE, LOAD_B, LOAD_W, MOV, MULL, NOT, OR, SHL, SHR,
    SMULH, SUB, UDIV, UMOD, UMULH, XOR,
};
use tv_word::arithmetic::sign_bit;

/// Constrains the result of a step, and the number whose test for 0 is its flag: `op` is the row of
/// its opcode, and `a` its operand. It makes 5 wires and 8 constraints.
pub fn put_results<const W: u32, S: Sink>(
    s: &mut S,
    scratch: &mut Scratch,
    state: &StateWires,
    op: Wire,
    a: &OperandWires,
    from: &Sources,
    tapes: &TapeWires,
) -> Put<ResultWires>
    requires width { IsWidth W }
    requires room { Room S.meaning s.old 5 8 }
    requires step_made { TapedUnder W (S.meaning.wires s.old)
        (taped_of state.now op a.now tapes.now) }
    requires from_made { SourcesUnder (S.meaning.wires s.old) from.now }
    ensures emits { Emits S.meaning s.old s.new
        (results_of W state.now op a.now from.now tapes.now) 5 8 result }
    ensures below { IfOk result (λ made. ResultUnder (S.meaning.wires s.new) made) }
{
    let word = put_result::<W, S>(s, scratch, state, op, a, from, tapes)?;
    let tested = put_tested::<W, S>(s, scratch, op, a, from, word)?;
    Ok(ResultWires { word, tested })
}

// Constrains the result.
fn put_result<const W: u32, S: Sink>(
    s: &mut S,
    scratch: &mut Scratch,
    state: &StateWires,
    op: Wire,
    a: &OperandWires,
    from: &Sources,
    tapes: &TapeWires,
) -> Put<Wire>
    requires width { IsWidth W }
    requires room { Room S.meaning s.old 4 4 }
    requires step_made { TapedUnder W (S.meaning.wires s.old)
        (taped_of state.now op a.now tapes.now) }
    requires from_made { SourcesUnder (S.meaning.wires s.old) from.now }
    ensures emits { Emits S.meaning s.old s.new
        (result_of W state.now op a.now from.now tapes.now) 4 4 result }
    ensures below { IfOk result (λ w. w < S.meaning.wires s.new) }
{
    let not = opcode_wire(op, NOT);
    set_low_gate(&mut scratch.a, op, state.taken_of_primary, tapes);
    scratch.b.set_wire(from.low);
    let low = times_by(s, scratch)?;
    set_opcodes(&mut scratch.a, op, &[OR, XOR, UMULH, SMULH, UDIV, SHR]);
    scratch.b.set_wire(from.high);
    let high = times_by(s, scratch)?;
    set_moved_gate(&mut scratch.a, op);
    scratch.b.set_wire(a.word);
    let moved = times_by(s, scratch)?;
    scratch.a.set_wire(opcode_wire(op, LOAD_B));
    scratch.b.set_wire(from.byte);
    set_parts::<W>(&mut scratch.c, not, low, high, moved);
    accumulated(s, scratch)
}

// Sets `lc` to the opcodes of which the low half is a part of the result, and what is taken of a
// tape.
fn set_low_gate(lc: &mut Lc, op: Wire, before: Wire, tapes: &TapeWires)
    requires within { op + 29 ≤ 2 ^ 32 }
    ensures terms { lc.new ≡ (P - 1, before) ∷ (opcode_sum op low_ops
        ++ (1, tapes.now.taken) ∷ (1, tapes.now.takes) ∷ []) }
    ensures top { top lc.new ≤ max (max (before + 1) (op + 29))
        (max (tapes.now.taken + 1) (tapes.now.takes + 1)) }
{
    set_minus(lc, before);
    plus_opcodes(
        lc,
        F::ONE,
        op,
        &[AND, OR, ADD, SUB, MULL, UMOD, SHL, CMPE, LOAD_W],
    );
    lc.plus(F::ONE, tapes.taken);
    lc.plus(F::ONE, tapes.takes);
}

// Sets `lc` to the opcodes of which the operand is the result, less not's, which negates it.
fn set_moved_gate(lc: &mut Lc, op: Wire)
    requires within { op + 29 ≤ 2 ^ 32 }
    ensures terms { lc.new ≡ (P - 1, op + place_of NOT) ∷ opcode_sum op (MOV ∷ CMOV ∷ []) }
    ensures top { top lc.new ≤ op + 29 }
{
    set_minus(lc, opcode_wire(op, NOT));
    plus_opcodes(lc, F::ONE, op, &[MOV, CMOV]);
}

// The greatest word of `W` bits.
fn greatest_word<const W: u32>() -> F
    requires width { IsWidth W }
    ensures { result ≡ 2 ^ W - 1 }
{
    F::of((1 << W) - 1)
}

// Sets `lc` to the parts of the result but the byte, with their coefficients negated.
fn set_parts<const W: u32>(lc: &mut Lc, not: Wire, low: Wire, high: Wire, moved: Wire)
    requires width { IsWidth W }
    ensures terms { lc.new ≡ scaled (P - 1) (parts_in W not low high moved) }
    ensures top { top lc.new ≤ max (max (not + 1) (low + 1)) (max (high + 1) (moved + 1)) }
    ensures len { length lc.new ≡ 4 }
{
    set_negated(
        lc,
        &[
            (greatest_word::<W>(), not),
            (F::ONE, low),
            (F::ONE, high),
            (F::ONE, moved),
        ],
    );
}

// Sets `lc` to what is 0 where `y` is what smulh tests.
fn set_signs<const W: u32>(lc: &mut Lc, sign: Wire, high: Wire, y: Wire)
    requires width { IsWidth W }
    ensures terms { lc.new ≡ signs_in W sign high y }
    ensures top { top lc.new ≤ max (sign + 1) (max (high + 1) (y + 1)) }
    ensures len { length lc.new ≡ 3 }
{
    let greatest = greatest_word::<W>();
    set_terms(lc, &[(greatest, sign), (-F::ONE, high), (F::ONE, y)]);
}

// Constrains the number that is tested.
fn put_tested<const W: u32, S: Sink>(
    s: &mut S,
    scratch: &mut Scratch,
    op: Wire,
    a: &OperandWires,
    from: &Sources,
    word: Wire,
) -> Put<Wire>
    requires width { IsWidth W }
    requires room { Room S.meaning s.old 1 4 }
    requires operation_made { OperationUnder W (S.meaning.wires s.old) op a.now }
    requires from_made { SourcesUnder (S.meaning.wires s.old) from.now }
    requires result_made { word < S.meaning.wires s.old }
    ensures emits { Emits S.meaning s.old s.new (tested_of W op a.now from.now word) 1 4 result }
    ensures below { IfOk result (λ w. w < S.meaning.wires s.new) }
{
    let y = s.fresh();
    put_same(s, scratch, op, &[AND, OR, XOR, NOT, CMPE], word, y)?;
    let carrying = [ADD, SUB, MULL, UMULH, CMPA, CMPAE, CMPG, CMPGE];
    put_same(s, scratch, op, &carrying, from.high, y)?;
    put_signs::<W, S>(s, scratch, op, from, y)?;
    put_places::<W, S>(s, scratch, op, a, y)?;
    Ok(y)
}

// Holds `y` to the wire `x` at these opcodes.
fn put_same<S: Sink>(
    s: &mut S,
    scratch: &mut Scratch,
    op: Wire,
    ops: &[u8],
    x: Wire,
    y: Wire,
) -> Put<()>
    requires room { Room S.meaning s.old 0 1 }
    requires op_made { op + 29 ≤ S.meaning.wires s.old }
    requires wires_made { max x y < S.meaning.wires s.old }
    requires opcodes { All (λ k. k < 32) ops.now }
    requires few { length ops.now ≤ 32 }
    ensures emits { Emits S.meaning s.old s.new
        (put (opcode_sum op ops.now) ((P - 1, x) ∷ (1, y) ∷ []) []) 0 1 result }
{
    set_opcodes(&mut scratch.a, op, ops);
    set_rise(&mut scratch.b, x, y);
    scratch.c.clear();
    s.put(&scratch.a, &scratch.b, &scratch.c)
}

// Holds `y` to what smulh tests.
fn put_signs<const W: u32, S: Sink>(
    s: &mut S,
    scratch: &mut Scratch,
    op: Wire,
    from: &Sources,
    y: Wire,
) -> Put<()>
    requires width { IsWidth W }
    requires room { Room S.meaning s.old 0 1 }
    requires op_made { op + 29 ≤ S.meaning.wires s.old }
    requires from_made { SourcesUnder (S.meaning.wires s.old) from.now }
    requires y_made { y < S.meaning.wires s.old }
    ensures emits { Emits S.meaning s.old s.new
        (put (opcode_sum op (SMULH ∷ [])) (signs_in W from.now.top from.now.high y) []) 0 1 result }
{
    scratch.a.set_wire(opcode_wire(op, SMULH));
    set_signs::<W>(&mut scratch.b, from.top, from.high, y);
    scratch.c.clear();
    s.put(&scratch.a, &scratch.b, &scratch.c)
}

// Holds `y` at a shift to the operand's bits above those that select a place in a word.
fn put_places<const W: u32, S: Sink>(
    s: &mut S,
    scratch: &mut Scratch,
    op: Wire,
    a: &OperandWires,
    y: Wire,
) -> Put<()>
    requires width { IsWidth W }
    requires room { Room S.meaning s.old 0 1 }
    requires operation_made { OperationUnder W (S.meaning.wires s.old) op a.now }
    requires y_made { y < S.meaning.wires s.old }
    ensures emits { Emits S.meaning s.old s.new
        (put (opcode_sum op (SHL ∷ SHR ∷ [])) (upper_of (P - 1) a.now (place_bits W) ++ wire y) [])
        0 1 result }
{
    set_opcodes(&mut scratch.a, op, &[SHL, SHR]);
    scratch.b.clear();
    plus_upper(&mut scratch.b, -F::ONE, a, W / 16 + 3);
    scratch.b.plus(F::ONE, y);
    scratch.c.clear();
    s.put(&scratch.a, &scratch.b, &scratch.c)
}

/// Sets `lc` to the sign of the flag's test.
pub fn set_sign(lc: &mut Lc, op: Wire)
    requires within { op + 29 ≤ 2 ^ 32 }
    ensures terms { lc.new ≡ sign_of op }
    ensures top { top lc.new ≤ op + 29 }
    ensures len { length lc.new ≡ 18 }
{
    let minus = -F::ONE;
    set_opcodes(lc, op, &[AND, OR, XOR, NOT]);
    plus_opcodes(lc, minus, op, &[ADD]);
    plus_opcodes(lc, F::ONE, op, &[SUB]);
    plus_opcodes(lc, minus, op, &[MULL, UMULH, SMULH]);
    plus_opcodes(lc, F::ONE, op, &[UDIV, UMOD, SHL, SHR, CMPE]);
    plus_opcodes(lc, minus, op, &[CMPA, CMPAE, CMPG, CMPGE]);
}

/// Returns the values of the wires that `put_results` makes; the last is the number that is tested.
pub fn results_values<const W: u32>(step: &StepNumbers) -> [F; 5]
    requires width { IsWidth W }
    requires operand { step.now.operand < 2 ^ W }
    requires low { step.now.low < 2 ^ W }
    requires high { step.now.high < 2 ^ W }
    ensures { result ≡ results_values W step.now.instr.op step.now.operand step.now.low
        step.now.high step.now.found }
{
    let op = step.instr.op;
    let low = low_part(op, step.low, step.found);
    let high = high_part(op, step.high);
    let moved = moved_part(op, step.operand);
    let rest = rest_part::<W>(op, step.operand, step.low);
    let result = low + high + moved + rest;
    let tested = tested_number::<W>(op, step.operand, step.low, step.high, result);
    [low, high, moved, result, tested]
}

// The low half of the row where the result has it as a part, else 0.
fn low_part(op: u8, low: u32, found: bool) -> F
    ensures { result ≡ low_part op low found }
{
    match op {
        AND | OR | ADD | SUB | MULL | UMOD | SHL | CMPE | LOAD_W => F::from(low),
        _ if found => F::from(low),
        _ => F::ZERO,
    }
}

// The high half of the row where the result has it as a part, else 0.
fn high_part(op: u8, high: u32) -> F
    ensures { result ≡ high_part op high }
{
    match op {
        OR | XOR | UMULH | SMULH | UDIV | SHR => F::from(high),
        _ => F::ZERO,
    }
}

// The operand where the result has it as a part, negated at not, else 0.
fn moved_part(op: u8, a: u32) -> F
    ensures { result ≡ moved_part op a }
{
    match op {
        NOT => -F::from(a),
        MOV | CMOV => F::from(a),
        _ => F::ZERO,
    }
}

// The greatest word at not, and the byte at a load of one, else 0.
fn rest_part<const W: u32>(op: u8, a: u32, low: u32) -> F
    requires width { IsWidth W }
    ensures { result ≡ (if op == NOT then 2 ^ W - 1 else if op == LOAD_B then byte_of low (a %
        word_size W) else 0) }
{
    match op {
        NOT => greatest_word::<W>(),
        LOAD_B => F::from(byte_of(low, a % (W / 8))),
        _ => F::ZERO,
    }
}

// The number that is tested, which is the operand at a division.
fn tested_number<const W: u32>(op: u8, a: u32, low: u32, high: u32, word: F) -> F
    requires width { IsWidth W }
    ensures { result ≡ tested_number W op a low high word }
{
    match op {
        UDIV | UMOD => F::from(a),
        AND | OR | XOR | NOT | CMPE => word,
        ADD | SUB | MULL | UMULH | CMPA | CMPAE | CMPG | CMPGE => F::from(high),
        SMULH => signs::<W>(low, high),
        SHL | SHR => F::from(a >> (W / 16 + 3)),
        _ => F::ZERO,
    }
}

// The high half less 2^W - 1 times the low half's top bit.
fn signs<const W: u32>(low: u32, high: u32) -> F
    requires width { IsWidth W }
    ensures { result ≡ (high + (P - (2 ^ W - 1) * bit_at low (W - 1))) % P }
{
    if sign_bit::<W>(low) {
        F::from(high) - greatest_word::<W>()
    } else {
        F::from(high)
    }
}

/// The laws of the result. An assignment that meets the constraints has the result, and the number
/// that is tested, and one that has these meets the constraints. They also say which wires
/// `put_results` returns, that `results_values` returns one number for each wire that it makes, and
/// how many constraints and terms the result costs.
pub fn results_laws()
    ensures sound { ResultsAreSound }
    ensures complete { ResultsAreComplete }
    ensures sizes { ResultsSizes }
    ensures costs { ResultsCosts }
{}
