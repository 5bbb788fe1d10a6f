//! What a step does to the tapes.
ghost use Rattle.std.specs.Prelude.{◌≡◌, ◌+◌, ◌-◌, ◌*◌, ◌%◌, ◌≤◌, ◌<◌, false, length};
ghost use Rattle.std.specs.Prelude.{IfOk, OnOk, [], ◌∷◌, max};
ghost use Rattle.tv_core.specs.Circuits.{put};
ghost use Rattle.tv_core.specs.Combinations.{top, wire, one_less};
ghost use Rattle.tv_core.specs.Values.{GivesIn};
ghost use Rattle.tv_core.specs.Inverse.{inverse_of};
ghost use Rattle.tv_core.specs.declared.field.TheConstants.{P};
ghost use Rattle.tv_core.specs.Sinks.{Emits, Room};
ghost use Rattle.tv_isa.specs.declared.opcode.TheConstants.{READ};
ghost use Rattle.tv_inputs.specs.OpcodeSums.{opcode_sum};
ghost use Rattle.tv_inputs.specs.Operand.{upper_of};
ghost use Rattle.tv_inputs.specs.States.{StateUnder, OperandUnder, TapesUnder};
ghost use Rattle.tv_inputs.specs.Tapes.{if_zero_of, left_in, primary_of, auxiliary_of};
ghost use Rattle.tv_inputs.specs.Tapes.{tapes_of};
ghost use Rattle.tv_inputs.specs.Tapes.{TapesAreSound, TapesAreComplete, TapesSizes, TapesCosts};
ghost use Rattle.tv_inputs.specs.Tapes.{tapes_values};
ghost use Rattle.tv_inputs.specs.Traced.{traced_view, AreNumbers};
ghost use Rattle.tv_numbers.specs.Numbers.{stepped};
ghost use Rattle.tv_word.specs.Widths.{IsWidth};
ghost use Rattle.tv_word.specs.Word.{flag_of};

use crate::opcode_sums::opcode_wire;
use crate::operand::plus_upper;
use crate::records::{OperandWires, StateWires, TapeWires};
use crate::step_numbers::StepNumbers;
use crate::terms::set_rise;
use tv_bits::{times_by, zero_cases};
use tv_core::{F, Lc, Put, Scratch, Sink, Values, Wire, give_values};
use tv_isa::opcode::READ;
use tv_step::TraceState;

/// Constrains what a step does to the tapes: `n` is the number of the primary tape's words, `op`
/// the row of its opcode, and `a` its operand. It makes 7 wires and 7 constraints.
pub fn put_tapes<const W: u32, S: Sink>(
    s: &mut S,
    scratch: &mut Scratch,
    n: u32,
    state: &StateWires,
    op: Wire,
    a: &OperandWires,
) -> Put<TapeWires>
    requires width { IsWidth W }
    requires room { Room S.meaning s.old 7 7 }
    requires state_made { StateUnder (S.meaning.wires s.old) state.now }
    requires op_made { op + 29 ≤ S.meaning.wires s.old }
    requires operand_made { OperandUnder W (S.meaning.wires s.old) a.now }
    ensures emits { Emits S.meaning s.old s.new (tapes_of W n state.now op a.now) 7 7 result }
    ensures below { IfOk result (λ made. TapesUnder (S.meaning.wires s.new) made) }
{
    let reads = put_reads::<W, S>(s, scratch, op, a)?;
    scratch.a.set_wire(reads);
    scratch.b.set_wire(a.bits.first);
    let aux = times_by(s, scratch)?;
    let taken = primary(s, scratch, n, state.taken_of_primary, reads, aux)?;
    auxiliary(s, scratch, taken, aux, state.aux_ended)
}

// Constrains whether a step reads a tape.
fn put_reads<const W: u32, S: Sink>(
    s: &mut S,
    scratch: &mut Scratch,
    op: Wire,
    a: &OperandWires,
) -> Put<Wire>
    requires width { IsWidth W }
    requires room { Room S.meaning s.old 2 2 }
    requires op_made { op + 29 ≤ S.meaning.wires s.old }
    requires operand_made { OperandUnder W (S.meaning.wires s.old) a.now }
    ensures emits { Emits S.meaning s.old s.new
        (if_zero_of (opcode_sum op (READ ∷ [])) (upper_of 1 a.now 1)) 2 2 result }
    ensures below { IfOk result (λ w. w < S.meaning.wires s.new) }
{
    scratch.a.clear();
    plus_upper(&mut scratch.a, F::ONE, a, 1);
    let read = [(F::ONE, opcode_wire(op, READ))];
    if_zero(s, scratch, &read)
}

/// Returns a wire that is `g` where `scratch.a`, which stays there, is 0, and 0 where it isn't. It
/// makes 2 wires and 2 constraints.
pub fn if_zero<S: Sink>(s: &mut S, scratch: &mut Scratch, g: &[(F, Wire)]) -> Put<Wire>
    requires room { Room S.meaning s.old 2 2 }
    requires g_made { top g.now ≤ S.meaning.wires s.old }
    requires g_short { length g.now ≤ 64 }
    requires x_made { top scratch.old.a ≤ S.meaning.wires s.old }
    ensures emits { Emits S.meaning s.old s.new (if_zero_of g.now scratch.old.a) 2 2 result }
    ensures below { IfOk result (λ w. w < S.meaning.wires s.new) }
    ensures a { scratch.new.a ≡ scratch.old.a }
{
    let w = s.fresh();
    scratch.c.clear();
    scratch.c.plus_terms(g);
    scratch.c.plus(-F::ONE, w);
    zero_cases(s, scratch, &[(F::ONE, w)])?;
    Ok(w)
}

// Constrains how many words of the primary tape are taken after the step.
fn primary<S: Sink>(
    s: &mut S,
    scratch: &mut Scratch,
    n: u32,
    before: Wire,
    reads: Wire,
    aux: Wire,
) -> Put<Wire>
    requires room { Room S.meaning s.old 2 2 }
    requires before_made { before < S.meaning.wires s.old }
    requires reads_made { reads < S.meaning.wires s.old }
    requires aux_made { aux < S.meaning.wires s.old }
    ensures emits { Emits S.meaning s.old s.new (primary_of n before reads aux) 2 2 result }
    ensures below { IfOk result (λ w. w < S.meaning.wires s.new) }
{
    let minus = -F::ONE;
    let taken = s.fresh();
    set_left(&mut scratch.a, n, before);
    set_rise(&mut scratch.c, before, taken);
    let other = [
        (F::ONE, before),
        (F::ONE, reads),
        (minus, aux),
        (minus, taken),
    ];
    zero_cases(s, scratch, &other)?;
    Ok(taken)
}

// Sets `lc` to how many of `n` words are left after those before.
fn set_left(lc: &mut Lc, n: u32, before: Wire)
    ensures terms { lc.new ≡ left_in n before }
    ensures top { top lc.new ≤ before + 1 }
{
    lc.clear();
    if n > 0 {
        lc.plus(F::from(n), Wire(0));
    }
    lc.plus(-F::ONE, before);
}

// Constrains whether a word of the auxiliary tape is taken, and the ended bit after the step.
fn auxiliary<S: Sink>(
    s: &mut S,
    scratch: &mut Scratch,
    taken: Wire,
    aux: Wire,
    before: Wire,
) -> Put<TapeWires>
    requires room { Room S.meaning s.old 2 2 }
    requires taken_made { taken < S.meaning.wires s.old }
    requires aux_made { aux < S.meaning.wires s.old }
    requires before_made { before < S.meaning.wires s.old }
    ensures emits { Emits S.meaning s.old s.new (auxiliary_of taken aux before) 2 2 result }
    ensures below { IfOk result (λ made. TapesUnder (S.meaning.wires s.new) made) }
{
    let takes = s.fresh();
    let ended = s.fresh();
    put_asked(s, scratch, aux, before, takes, ended)?;
    scratch.a.set_wire(takes);
    set_rise(&mut scratch.b, before, ended);
    scratch.c.clear();
    s.put(&scratch.a, &scratch.b, &scratch.c)?;
    Ok(TapeWires {
        taken,
        takes,
        ended,
    })
}

// Constrains that where a word is asked for it is taken or the tape has ended.
fn put_asked<S: Sink>(
    s: &mut S,
    scratch: &mut Scratch,
    aux: Wire,
    before: Wire,
    takes: Wire,
    ended: Wire,
) -> Put<()>
    requires room { Room S.meaning s.old 0 1 }
    requires wires_made { max (max aux before) (max takes ended) < S.meaning.wires s.old }
    ensures emits { Emits S.meaning s.old s.new
        (put (wire aux) (one_less before) ((P - 1, before) ∷ (1, takes) ∷ (1, ended) ∷ []))
        0 1 result }
{
    scratch.a.set_wire(aux);
    scratch.b.set_difference(Wire(0), before);
    set_rise(&mut scratch.c, before, takes);
    scratch.c.plus(F::ONE, ended);
    s.put(&scratch.a, &scratch.b, &scratch.c)
}

/// Assigns the 7 values of the wires that `put_tapes` makes.
pub fn fill_tapes<const W: u32, V: Values>(
    v: &mut V,
    state: &TraceState,
    step: &StepNumbers,
) -> Put<()>
    requires step { AreNumbers W (traced_view state.now) step.now }
    requires taken { state.now.primary ≤ step.now.n }
    requires whole { V.giving.broken v.old ≡ false }
    ensures gives { GivesIn V.giving v.old v.new
        (tapes_values W step.now.n (traced_view state.now) step.now.instr step.now.low step.now.aux)
        result }
    ensures whole { OnOk result (V.giving.broken v.new ≡ false) }
{
    give_values(v, &tapes_values::<W>(state, step))
}

// The values of the wires that `put_tapes` makes.
fn tapes_values<const W: u32>(state: &TraceState, step: &StepNumbers) -> [F; 7]
    requires step { AreNumbers W (traced_view state.now) step.now }
    requires taken { state.now.primary ≤ step.now.n }
    ensures { result ≡ tapes_values W step.now.n (traced_view state.now) step.now.instr step.now.low
        step.now.aux }
{
    let reads = step.instr.op == READ;
    let reads_aux = reads && step.operand == 1;
    [
        F::from(step.operand / 2 == 0 && reads),
        inverse_where(F::from(step.operand / 2), reads),
        F::from(reads_aux),
        F::from(taken_after::<W>(state, step)),
        inverse_where(F::from(step.n - state.primary), reads && step.operand == 0),
        F::from(step.aux),
        F::from(ended_after::<W>(state, step)),
    ]
}

/// The inverse of an element, or 0 where it isn't asked for.
pub fn inverse_where(x: F, asked: bool) -> F
    ensures { result ≡ inverse_of x * flag_of asked % P }
{
    if asked { x.inverse_or_zero() } else { F::ZERO }
}

// How many words of the primary tape are taken after a step.
fn taken_after<const W: u32>(state: &TraceState, step: &StepNumbers) -> u32
    requires step { AreNumbers W (traced_view state.now) step.now }
    ensures { result ≡ (stepped W step.now.n (traced_view state.now) step.now.instr step.now.low
        step.now.aux).taken }
{
    if step.primary {
        state.primary + 1
    } else {
        state.primary
    }
}

// The ended bit after a step: it was set, or the step finds nothing on the auxiliary tape.
fn ended_after<const W: u32>(state: &TraceState, step: &StepNumbers) -> bool
    requires step { AreNumbers W (traced_view state.now) step.now }
    ensures { flag_of result ≡ (stepped W step.now.n (traced_view state.now) step.now.instr
        step.now.low step.now.aux).ended }
{
    state.ended || step.instr.op == READ && step.operand == 1 && !step.aux
}

/// The laws of the tapes. An assignment that meets the constraints has what the instruction does to
/// the tapes, and one that has it meets the constraints. They also say which wires `put_tapes`
/// returns, that `fill_tapes` assigns one number to each wire that it makes, and how many
/// constraints and terms the tapes cost.
pub fn tapes_laws()
    ensures sound { TapesAreSound }
    ensures complete { TapesAreComplete }
    ensures sizes { TapesSizes }
    ensures costs { TapesCosts }
{}
