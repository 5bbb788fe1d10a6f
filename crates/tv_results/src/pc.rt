//! The program counter after a step.
ghost use Rattle.std.specs.Prelude.{◌≡◌, ◌+◌, ◌-◌, ◌*◌, ◌/◌, ◌≤◌, ◌<◌, ◌^◌, ◌%◌, ◌==◌};
ghost use Rattle.std.specs.Prelude.{[], ◌∷◌, if◌then◌else◌, false, length, max, IfOk, OnOk};
ghost use Rattle.tv_bits.specs.Times.{times_of};
ghost use Rattle.tv_core.specs.Combinations.{scaled, top, wire};
ghost use Rattle.tv_core.specs.Sinks.{Emits, Room};
ghost use Rattle.tv_core.specs.declared.field.TheConstants.{P};
ghost use Rattle.tv_results.specs.Pc.{from_last, after_in, jump_in, pc_of, PcIsSound};
ghost use Rattle.tv_results.specs.Pc.{PcIsComplete, PcSizes, PcCosts, pc_values};
ghost use Rattle.tv_inputs.specs.Traced.{traced_view, AreNumbers};
ghost use Rattle.tv_isa.specs.Opcodes.{chosen, place_of};
ghost use Rattle.tv_isa.specs.declared.opcode.TheConstants.{JMP, CJMP, CNJMP};
ghost use Rattle.tv_inputs.specs.Tapes.{if_zero_of};
ghost use Rattle.tv_numbers.specs.Tables.{next_pc, target, pcs};
ghost use Rattle.tv_core.specs.Values.{GivesIn};
ghost use Rattle.tv_inputs.specs.States.{StateUnder, OperandUnder};
ghost use Rattle.tv_word.specs.Widths.{IsWidth};
ghost use Rattle.tv_word.specs.Word.{flag_of};

use tv_bits::times_by;
use tv_core::{F, Lc, Put, Scratch, Sink, Values, Wire, give_values};
use tv_inputs::{
    OperandWires, StateWires, StepNumbers, accumulated, if_zero, inverse_where, opcode_wire,
    plus_upper, set_negated, set_terms,
};
use tv_isa::opcode::{AND, ANSWER, CJMP, CMOV, CNJMP, JMP, READ, STORE_B};
use tv_step::TraceState;
use tv_word::arithmetic::sum;

/// Constrains the program counter after a step: `op` is the row of its opcode, and `a` its
/// operand. It makes 4 wires and 4 constraints.
pub fn put_pc<const W: u32, S: Sink>(
    s: &mut S,
    scratch: &mut Scratch,
    state: &StateWires,
    op: Wire,
    a: &OperandWires,
) -> Put<Wire>
    requires width { IsWidth W }
    requires room { Room S.meaning s.old 4 4 }
    requires state_made { StateUnder (S.meaning.wires s.old) state.now }
    requires op_made { op + 29 ≤ S.meaning.wires s.old }
    requires operand_made { OperandUnder W (S.meaning.wires s.old) a.now }
    ensures emits { Emits S.meaning s.old s.new (pc_of W state.now op a.now) 4 4 result }
    ensures below { IfOk result (λ w. w < S.meaning.wires s.new) }
{
    let answers = opcode_wire(op, ANSWER);
    let wraps = put_wraps::<W, S>(s, scratch, state.pc, answers)?;
    let by_flag = put_by_flag(s, scratch, op, state.flag)?;
    set_taken(&mut scratch.a, op, by_flag);
    set_jump::<W>(&mut scratch.b, state.pc, answers, a, wraps);
    set_after::<W>(&mut scratch.c, state.pc, answers, wraps);
    accumulated(s, scratch)
}

// Constrains whether the program counter wraps.
fn put_wraps<const W: u32, S: Sink>(
    s: &mut S,
    scratch: &mut Scratch,
    pc: Wire,
    answers: Wire,
) -> Put<Wire>
    requires width { IsWidth W }
    requires room { Room S.meaning s.old 2 2 }
    requires wires_made { max pc answers < S.meaning.wires s.old }
    ensures emits { Emits S.meaning s.old s.new
        (if_zero_of ((1, 0) ∷ (P - 1, answers) ∷ []) (from_last W pc)) 2 2 result }
    ensures below { IfOk result (λ w. w < S.meaning.wires s.new) }
{
    let goes = [(F::ONE, Wire(0)), (-F::ONE, answers)];
    set_from_last::<W>(&mut scratch.a, pc);
    if_zero(s, scratch, &goes)
}

// Constrains whether a jump is taken by the flag, less whether it is one where the flag is clear.
fn put_by_flag<S: Sink>(s: &mut S, scratch: &mut Scratch, op: Wire, flag: Wire) -> Put<Wire>
    requires room { Room S.meaning s.old 1 1 }
    requires op_made { op + 29 ≤ S.meaning.wires s.old }
    requires flag_made { flag < S.meaning.wires s.old }
    ensures emits { Emits S.meaning s.old s.new
        (times_of (wire flag) ((1, op + place_of CJMP) ∷ (P - 1, op + place_of CNJMP) ∷ []))
        1 1 result }
    ensures below { IfOk result (λ w. w < S.meaning.wires s.new) }
{
    scratch.a.set_wire(flag);
    scratch
        .b
        .set_difference(opcode_wire(op, CJMP), opcode_wire(op, CNJMP));
    times_by(s, scratch)
}

// Sets `lc` to whether a jump is taken.
fn set_taken(lc: &mut Lc, op: Wire, by_flag: Wire)
    requires within { op + 29 ≤ 2 ^ 32 }
    ensures terms { lc.new ≡ (1, op + place_of JMP) ∷ (1, op + place_of CNJMP) ∷ (1, by_flag) ∷ [] }
    ensures top { top lc.new ≤ max (op + 29) (by_flag + 1) }
{
    lc.set_wire(opcode_wire(op, JMP));
    lc.plus(F::ONE, opcode_wire(op, CNJMP));
    lc.plus(F::ONE, by_flag);
}

// The place of the last instruction.
fn last_place<const W: u32>() -> F
    requires width { IsWidth W }
    ensures { result ≡ 2 ^ W - W / 4 }
{
    F::of((1 << W) - u64::from(W / 4))
}

// The number of words of `W` bits.
fn word_count<const W: u32>() -> F
    requires width { IsWidth W }
    ensures { result ≡ 2 ^ W }
{
    F::of(1 << W)
}

// Sets `lc` to the program counter less the last instruction's.
fn set_from_last<const W: u32>(lc: &mut Lc, pc: Wire)
    requires width { IsWidth W }
    ensures terms { lc.new ≡ from_last W pc }
    ensures top { top lc.new ≡ pc + 1 }
{
    set_terms(lc, &[(-last_place::<W>(), Wire(0)), (F::ONE, pc)]);
}

// Sets `lc` to the place to which a jump goes less the place after the instruction.
fn set_jump<const W: u32>(lc: &mut Lc, pc: Wire, answers: Wire, a: &OperandWires, wraps: Wire)
    requires width { IsWidth W }
    requires within { a.now.bits.first + W < 2 ^ 32 }
    ensures terms { lc.new ≡ jump_in W pc answers a.now wraps }
    ensures top { top lc.new ≤ max (max (pc + 1) (answers + 1))
        (max (max (a.now.word + 1) (a.now.bits.first + W)) (wraps + 1)) }
{
    let size = F::from(W / 4);
    set_terms(lc, &[(-size, Wire(0)), (-F::ONE, pc), (size, answers)]);
    plus_upper(lc, size, a, W / 16 + 1);
    lc.plus(word_count::<W>(), wraps);
}

// Sets `lc` to the place after the instruction, with its coefficients negated.
fn set_after<const W: u32>(lc: &mut Lc, pc: Wire, answers: Wire, wraps: Wire)
    requires width { IsWidth W }
    ensures terms { lc.new ≡ scaled (P - 1) (after_in W pc answers wraps) }
    ensures top { top lc.new ≤ max (max (pc + 1) (answers + 1)) (wraps + 1) }
    ensures len { length lc.new ≡ 4 }
{
    let size = F::from(W / 4);
    set_negated(
        lc,
        &[
            (size, Wire(0)),
            (F::ONE, pc),
            (-size, answers),
            (-word_count::<W>(), wraps),
        ],
    );
}

/// Assigns the 4 values of the wires that `put_pc` makes.
pub fn fill_pc<const W: u32, V: Values>(
    v: &mut V,
    state: &TraceState,
    step: &StepNumbers,
) -> Put<()>
    requires width { IsWidth W }
    requires step { AreNumbers W (traced_view state.now) step.now }
    requires whole { V.giving.broken v.old ≡ false }
    ensures gives { GivesIn V.giving v.old v.new (pc_values W (traced_view state.now)
        step.now.instr) result }
    ensures whole { OnOk result (V.giving.broken v.new ≡ false) }
{
    give_values(v, &pc_values::<W>(state, step))
}

// The values of the wires that `put_pc` makes.
fn pc_values<const W: u32>(state: &TraceState, step: &StepNumbers) -> [F; 4]
    requires width { IsWidth W }
    requires step { AreNumbers W (traced_view state.now) step.now }
    ensures { result ≡ pc_values W (traced_view state.now) step.now.instr }
{
    let op = step.instr.op;
    let from = less_last::<W>(state.pc);
    let by_flag = F::from(op == CJMP) - F::from(op == CNJMP);
    [
        F::from(from == F::ZERO && op != ANSWER),
        inverse_where(from, op != ANSWER),
        F::from(state.flag) * by_flag,
        F::from(pc_after::<W>(op, state.pc, step.operand, state.flag)),
    ]
}

// The program counter less the last instruction's.
fn less_last<const W: u32>(pc: u32) -> F
    requires width { IsWidth W }
    ensures { result ≡ (pc + (P - (2 ^ W - W / 4))) % P }
{
    F::from(pc) - last_place::<W>()
}

// The place after an instruction, which is the first one after the last.
fn place_after<const W: u32>(pc: u32) -> u32
    requires width { IsWidth W }
    ensures { result ≡ next_pc W pc }
{
    sum::<W>(pc, W / 4)
}

// The place to which a jump goes.
fn target<const W: u32>(a: u32) -> u32
    requires width { IsWidth W }
    ensures { result ≡ target W a }
{
    a - a % (W / 4)
}

// The place to which a jump goes where the flag is set, and else the place after it.
fn jumped<const W: u32>(pc: u32, a: u32, flag: bool) -> u32
    requires width { IsWidth W }
    ensures { result ≡ (if flag_of flag == 1 then target W a else next_pc W pc) }
{
    if flag {
        target::<W>(a)
    } else {
        place_after::<W>(pc)
    }
}

// The program counter after an instruction.
fn pc_after<const W: u32>(op: u8, pc: u32, a: u32, flag: bool) -> u32
    requires width { IsWidth W }
    ensures { result ≡ chosen (pcs W pc a (flag_of flag)) op }
{
    match op {
        JMP => target::<W>(a),
        CJMP => jumped::<W>(pc, a, flag),
        CNJMP => jumped::<W>(pc, a, !flag),
        ANSWER => pc,
        AND..=CMOV | STORE_B..=READ => place_after::<W>(pc),
        _ => 0,
    }
}

/// The laws of the program counter. An assignment that meets the constraints has the program
/// counter after the step, and one that has it meets the constraints. They also say which wire
/// `put_pc` returns, that `fill_pc` assigns one number to each wire that it makes, and how many
/// constraints and terms the program counter costs.
pub fn pc_laws()
    ensures sound { PcIsSound }
    ensures complete { PcIsComplete }
    ensures sizes { PcSizes }
    ensures costs { PcCosts }
{}
