//! The data line of a step, and the bytes of its word.
ghost use Rattle.std.specs.Prelude.{◌≡◌, ◌+◌, ◌-◌, ◌*◌, ◌/◌, ◌%◌, ◌≤◌, ◌<◌, ◌^◌, false};
ghost use Rattle.std.specs.Prelude.{[], ◌∷◌, ◌++◌, max, IfOk, OnOk};
ghost use Rattle.tv_bits.specs.Bits.{bits_combination};
ghost use Rattle.tv_bits.specs.Times.{times_of};
ghost use Rattle.tv_core.specs.Combinations.{constant, top, wire};
ghost use Rattle.tv_core.specs.declared.field.TheConstants.{P};
ghost use Rattle.tv_core.specs.declared.limits.TheConstants.{TAPE_CELLS, NULL_CELL};
ghost use Rattle.tv_inputs.specs.Accumulation.{accumulated_of};
ghost use Rattle.tv_inputs.specs.OpcodeSums.{opcode_sum};
ghost use Rattle.tv_inputs.specs.Operand.{upper_of};
ghost use Rattle.tv_core.specs.Values.{GivesIn};
ghost use Rattle.tv_core.specs.Sinks.{Emits, Room};
ghost use Rattle.tv_parts.specs.Memory.{located_line, byte_of_pair, byte_of_four, byte_at_of};
ghost use Rattle.tv_parts.specs.Memory.{power_in, new_of, memory_of};
ghost use Rattle.tv_parts.specs.Memory.{MemoryIsSound, MemoryIsComplete, MemorySizes, MemoryCosts};
ghost use Rattle.tv_inputs.specs.Inputs.{taped_of};
ghost use Rattle.tv_inputs.specs.States.{TapedUnder, DataUnder, LineUnder, StoreUnder};
ghost use Rattle.tv_inputs.specs.States.{OperandUnder};
ghost use Rattle.tv_parts.specs.Memory.{line_values, byte_values, gained, new_values};
ghost use Rattle.tv_parts.specs.Memory.{memory_values};
ghost use Rattle.tv_inputs.specs.Traced.{traced_view, traced_input, AreNumbers};
ghost use Rattle.tv_isa.specs.Opcodes.{among, memory_ops};
ghost use Rattle.tv_isa.specs.declared.opcode.TheConstants.{STORE_B, STORE_W};
ghost use Rattle.tv_mem.specs.Bytes.{byte_of};
ghost use Rattle.tv_numbers.specs.Numbers.{with_byte_in};
ghost use Rattle.tv_word.specs.Widths.{IsWidth};

use tv_bits::{Bits, times_by};
use tv_core::limits::{NULL_CELL, TAPE_CELLS};
use tv_core::{F, Lc, Put, Scratch, Sink, Values, Wire, give_values};
use tv_inputs::{
    DataWires, LineWires, OperandWires, StateWires, StepNumbers, StoreWires, TapeWires,
    accumulated, byte_of, byte_power, opcode_wire, plus_opcodes, plus_upper, set_minus,
    set_opcodes, set_rise,
};
use tv_isa::opcode::{LOAD_B, LOAD_W, STORE_B, STORE_W};
use tv_step::TraceState;

// The opcodes that load or store.
const MEMORY_OPS: [u8; 4] = [STORE_B, LOAD_B, STORE_W, LOAD_W];

/// Constrains the data line of a step and the byte at its operand's address: `op` is the row of its
/// opcode, and `a` its operand. Makes 9 wires and 9 constraints for words of 32 bits, and 7 of each
/// for words of 16 bits.
pub fn put_memory<const W: u32, S: Sink>(
    s: &mut S,
    scratch: &mut Scratch,
    state: &StateWires,
    op: Wire,
    a: &OperandWires,
    d: &DataWires,
    tapes: &TapeWires,
) -> Put<StoreWires>
    requires width { IsWidth W }
    requires room { Room S.meaning s.old (W / 8 + 5) (W / 8 + 5) }
    requires step_made { TapedUnder W (S.meaning.wires s.old)
        (taped_of state.now op a.now tapes.now) }
    requires data_made { DataUnder W (S.meaning.wires s.old) d.now }
    ensures emits { Emits S.meaning s.old s.new
        (memory_of W state.now op a.now d.now tapes.now) (W / 8 + 5) (W / 8 + 5) result }
    ensures below { IfOk result (λ made. StoreUnder (S.meaning.wires s.new) made) }
{
    let line = put_line::<W, S>(s, scratch, state, op, a, d.word, tapes)?;
    let byte = byte_at::<W, S>(s, scratch, d.bits, a.bits.first)?;
    let new = put_new::<W, S>(s, scratch, op, d, a, &line, byte)?;
    Ok(StoreWires { line, byte, new })
}

// Constrains the cell of the data line, and the word in it before the step.
fn put_line<const W: u32, S: Sink>(
    s: &mut S,
    scratch: &mut Scratch,
    state: &StateWires,
    op: Wire,
    a: &OperandWires,
    word: Wire,
    tapes: &TapeWires,
) -> Put<LineWires>
    requires width { IsWidth W }
    requires room { Room S.meaning s.old 3 3 }
    requires step_made { TapedUnder W (S.meaning.wires s.old)
        (taped_of state.now op a.now tapes.now) }
    requires word_made { word < S.meaning.wires s.old }
    ensures emits { Emits S.meaning s.old s.new
        (located_line W state.now op a.now word tapes.now) 3 3 result }
    ensures below { IfOk result (λ made. LineUnder (S.meaning.wires s.new) made) }
{
    let before = state.taken_of_primary;
    let located = put_located::<W, S>(s, scratch, op, a)?;
    let cell = put_cell(s, scratch, before, located, tapes.taken)?;
    let old = put_old(s, scratch, op, before, tapes.taken, word)?;
    Ok(LineWires { cell, old })
}

// Constrains the word in the cell before the step: `word`, or 0 where the step has no cell.
#[inline]
fn put_old<S: Sink>(
    s: &mut S,
    scratch: &mut Scratch,
    op: Wire,
    before: Wire,
    taken: Wire,
    word: Wire,
) -> Put<Wire>
    requires room { Room S.meaning s.old 1 1 }
    requires op_made { op + 29 ≤ S.meaning.wires s.old }
    requires wires_made { max before (max taken word) < S.meaning.wires s.old }
    ensures emits { Emits S.meaning s.old s.new
        (times_of ((P - 1, before) ∷ (opcode_sum op memory_ops ++ wire taken)) (wire word))
        1 1 result }
    ensures below { IfOk result (λ w. w < S.meaning.wires s.new) }
{
    set_minus(&mut scratch.a, before);
    plus_opcodes(&mut scratch.a, F::ONE, op, &MEMORY_OPS);
    scratch.a.plus(F::ONE, taken);
    scratch.b.set_wire(word);
    times_by(s, scratch)
}

// Constrains the cell of a load or store.
fn put_located<const W: u32, S: Sink>(
    s: &mut S,
    scratch: &mut Scratch,
    op: Wire,
    a: &OperandWires,
) -> Put<Wire>
    requires width { IsWidth W }
    requires room { Room S.meaning s.old 1 1 }
    requires op_made { op + 29 ≤ S.meaning.wires s.old }
    requires operand_made { OperandUnder W (S.meaning.wires s.old) a.now }
    ensures emits { Emits S.meaning s.old s.new
        (accumulated_of (constant NULL_CELL) (opcode_sum op memory_ops)
        ((P - NULL_CELL, 0) ∷ upper_of 1 a.now (W / 16)))
        1 1 result }
    ensures below { IfOk result (λ w. w < S.meaning.wires s.new) }
{
    let null = -F::from(NULL_CELL);
    set_opcodes(&mut scratch.a, op, &MEMORY_OPS);
    scratch.b.clear();
    scratch.b.plus(null, Wire(0));
    plus_upper(&mut scratch.b, F::ONE, a, W / 16);
    scratch.c.clear();
    scratch.c.plus(null, Wire(0));
    accumulated(s, scratch)
}

// Constrains the cell, which is that of the next word of tape 0 where one is taken.
fn put_cell<S: Sink>(
    s: &mut S,
    scratch: &mut Scratch,
    before: Wire,
    located: Wire,
    taken: Wire,
) -> Put<Wire>
    requires room { Room S.meaning s.old 1 1 }
    requires wires_made { max before (max located taken) < S.meaning.wires s.old }
    ensures emits { Emits S.meaning s.old s.new
        (accumulated_of (wire located) ((P - 1, before) ∷ (1, taken) ∷ [])
        ((TAPE_CELLS, 0) ∷ (1, before) ∷ (P - 1, located) ∷ []))
        1 1 result }
    ensures below { IfOk result (λ w. w < S.meaning.wires s.new) }
{
    set_rise(&mut scratch.a, before, taken);
    scratch.b.clear();
    scratch.b.plus(F::from(TAPE_CELLS), Wire(0));
    scratch.b.plus(F::ONE, before);
    scratch.b.plus(-F::ONE, located);
    set_minus(&mut scratch.c, located);
    accumulated(s, scratch)
}

// Constrains the byte of a word that the lowest bits of an address choose.
fn byte_at<const W: u32, S: Sink>(
    s: &mut S,
    scratch: &mut Scratch,
    bits: Wire,
    a: Wire,
) -> Put<Wire>
    requires width { IsWidth W }
    requires room { Room S.meaning s.old (W / 8 - 1) (W / 8 - 1) }
    requires bits_made { bits + W ≤ S.meaning.wires s.old }
    requires a_made { a + W ≤ S.meaning.wires s.old }
    ensures emits { Emits S.meaning s.old s.new
        (byte_at_of W bits a) (W / 8 - 1) (W / 8 - 1) result }
    ensures below { IfOk result (λ w. w < S.meaning.wires s.new) }
{
    if W == 16 {
        byte_of_pair(s, scratch, bits, a)
    } else {
        byte_of_four(s, scratch, bits, a)
    }
}

// Of the two bytes of 8 wires each from `bits` on the one that a bit chooses.
fn byte_of_pair<S: Sink>(s: &mut S, scratch: &mut Scratch, bits: Wire, bit: Wire) -> Put<Wire>
    requires room { Room S.meaning s.old 1 1 }
    requires bits_made { bits + 16 ≤ S.meaning.wires s.old }
    requires bit_made { bit < S.meaning.wires s.old }
    ensures emits { Emits S.meaning s.old s.new (byte_of_pair bits bit) 1 1 result }
    ensures below { IfOk result (λ w. w < S.meaning.wires s.new) }
{
    let minus = -F::ONE;
    let low = Bits { first: bits, n: 8 };
    let high = Bits {
        first: bits.offset(8),
        n: 8,
    };
    scratch.a.set_wire(bit);
    scratch.b.clear();
    low.plus_to(&mut scratch.b, minus);
    high.plus_to(&mut scratch.b, F::ONE);
    scratch.c.clear();
    low.plus_to(&mut scratch.c, minus);
    accumulated(s, scratch)
}

// Of four bytes the one that two bits choose.
fn byte_of_four<S: Sink>(s: &mut S, scratch: &mut Scratch, bits: Wire, a: Wire) -> Put<Wire>
    requires room { Room S.meaning s.old 3 3 }
    requires bits_made { bits + 32 ≤ S.meaning.wires s.old }
    requires a_made { a + 2 ≤ S.meaning.wires s.old }
    ensures emits { Emits S.meaning s.old s.new (byte_of_four bits a) 3 3 result }
    ensures below { IfOk result (λ w. w < S.meaning.wires s.new) }
{
    let low = byte_of_pair(s, scratch, bits, a)?;
    let high = byte_of_pair(s, scratch, bits.offset(16), a)?;
    scratch.a.set_wire(a.offset(1));
    set_rise(&mut scratch.b, low, high);
    set_minus(&mut scratch.c, low);
    accumulated(s, scratch)
}

// Constrains the word in the cell after the step.
fn put_new<const W: u32, S: Sink>(
    s: &mut S,
    scratch: &mut Scratch,
    op: Wire,
    d: &DataWires,
    a: &OperandWires,
    line: &LineWires,
    byte: Wire,
) -> Put<Wire>
    requires width { IsWidth W }
    requires room { Room S.meaning s.old 3 3 }
    requires wires_made { max (op + 29) (a.now.bits.first + W) ≤ S.meaning.wires s.old }
    requires data_made { DataUnder W (S.meaning.wires s.old) d.now }
    requires read_made { max line.now.old byte < S.meaning.wires s.old }
    ensures emits { Emits S.meaning s.old s.new (new_of W op d.now a.now line.now byte) 3 3 result }
    ensures below { IfOk result (λ w. w < S.meaning.wires s.new) }
{
    let change = put_change::<W, S>(s, scratch, d, a.bits.first, byte)?;
    let changed = put_changed(s, scratch, op, change)?;
    put_after(s, scratch, op, d, line.old, changed)
}

// Constrains what the word gains at store.b, else 0.
#[inline]
fn put_changed<S: Sink>(s: &mut S, scratch: &mut Scratch, op: Wire, change: Wire) -> Put<Wire>
    requires room { Room S.meaning s.old 1 1 }
    requires op_made { op + 29 ≤ S.meaning.wires s.old }
    requires change_made { change < S.meaning.wires s.old }
    ensures emits { Emits S.meaning s.old s.new
        (times_of (opcode_sum op (STORE_B ∷ [])) (wire change)) 1 1 result }
    ensures below { IfOk result (λ w. w < S.meaning.wires s.new) }
{
    scratch.a.set_wire(opcode_wire(op, STORE_B));
    scratch.b.set_wire(change);
    times_by(s, scratch)
}

// Constrains the word after the step: the other word at store.w, else what it was and gains.
#[inline]
fn put_after<S: Sink>(
    s: &mut S,
    scratch: &mut Scratch,
    op: Wire,
    d: &DataWires,
    old: Wire,
    changed: Wire,
) -> Put<Wire>
    requires room { Room S.meaning s.old 1 1 }
    requires op_made { op + 29 ≤ S.meaning.wires s.old }
    requires wires_made { max (max d.now.other d.now.word) (max old changed)
        < S.meaning.wires s.old }
    ensures emits { Emits S.meaning s.old s.new
        (accumulated_of (wire old ++ wire changed) (opcode_sum op (STORE_W ∷ []))
        ((1, d.now.other) ∷ (P - 1, d.now.word) ∷ []))
        1 1 result }
    ensures below { IfOk result (λ w. w < S.meaning.wires s.new) }
{
    scratch.a.set_wire(opcode_wire(op, STORE_W));
    scratch.b.set_difference(d.other, d.word);
    set_minus(&mut scratch.c, old);
    scratch.c.plus(-F::ONE, changed);
    accumulated(s, scratch)
}

// Constrains what the word gains by the lowest byte of `d.x` in place of its byte.
fn put_change<const W: u32, S: Sink>(
    s: &mut S,
    scratch: &mut Scratch,
    d: &DataWires,
    address: Wire,
    byte: Wire,
) -> Put<Wire>
    requires width { IsWidth W }
    requires room { Room S.meaning s.old 1 1 }
    requires data_made { DataUnder W (S.meaning.wires s.old) d.now }
    requires address_made { address + W ≤ S.meaning.wires s.old }
    requires byte_made { byte < S.meaning.wires s.old }
    ensures emits { Emits S.meaning s.old s.new
        (times_of (power_in W address d.now.both)
        (bits_combination d.now.x.first 8 ++ (P - 1, byte) ∷ []))
        1 1 result }
    ensures below { IfOk result (λ w. w < S.meaning.wires s.new) }
{
    set_power::<W>(&mut scratch.a, address, d.both);
    let lowest = Bits {
        first: d.x.first,
        n: 8,
    };
    lowest.set_number(&mut scratch.b);
    scratch.b.plus(-F::ONE, byte);
    times_by(s, scratch)
}

// Sets `lc` to 256 to the power of the number that the lowest bits of an address represent.
fn set_power<const W: u32>(lc: &mut Lc, a: Wire, both: Wire)
    requires width { IsWidth W }
    requires within { a + 2 < 2 ^ 32 }
    ensures terms { lc.new ≡ power_in W a both }
    ensures top { top lc.new ≤ max (a + 2) (both + 1) }
{
    lc.set_wire(Wire(0));
    lc.plus(F::from(255), a);
    if W == 32 {
        lc.plus(F::from(65_535), a.offset(1));
        lc.plus(F::from(16_711_425), both);
    }
}

/// Assigns the values of the wires that `put_memory` makes.
pub fn fill_memory<const W: u32, V: Values>(
    v: &mut V,
    state: &TraceState,
    step: &StepNumbers,
) -> Put<()>
    requires width { IsWidth W }
    requires step { AreNumbers W (traced_view state.now) step.now }
    requires short { step.now.n < 2 ^ 29 }
    requires taken { state.now.primary ≤ step.now.n }
    requires whole { V.giving.broken v.old ≡ false }
    ensures gives { GivesIn V.giving v.old v.new
        (memory_values W (traced_input state.now step.now) step.now.decomposed) result }
    ensures whole { OnOk result (V.giving.broken v.new ≡ false) }
{
    give_values(v, &line_values::<W>(state, step))?;
    fill_bytes::<W, V>(v, step.low, step.operand)?;
    give_values(v, &new_values::<W>(state, step))
}

// The values of the wires that `put_line` makes.
fn line_values<const W: u32>(state: &TraceState, step: &StepNumbers) -> [F; 3]
    requires width { IsWidth W }
    requires step { AreNumbers W (traced_view state.now) step.now }
    requires short { step.now.n < 2 ^ 29 }
    requires taken { state.now.primary ≤ step.now.n }
    ensures { result ≡ line_values W step.now.n (traced_view state.now) step.now.instr
        step.now.low }
{
    let located = if touches(step.instr.op) {
        step.operand / (W / 8)
    } else {
        NULL_CELL
    };
    let cell = if step.primary {
        TAPE_CELLS + state.primary
    } else {
        located
    };
    [F::from(located), F::from(cell), F::from(step.old)]
}

/// Says whether an instruction loads or stores.
pub fn touches(op: u8) -> bool
    ensures { result ≡ among memory_ops op }
{
    matches!(op, STORE_B | LOAD_B | STORE_W | LOAD_W)
}

// Assigns the values of the wires that `byte_at` makes, for a word and an address.
fn fill_bytes<const W: u32, V: Values>(v: &mut V, word: u32, at: u32) -> Put<()>
    requires whole { V.giving.broken v.old ≡ false }
    ensures gives { GivesIn V.giving v.old v.new (byte_values W word at) result }
    ensures whole { OnOk result (V.giving.broken v.new ≡ false) }
{
    if W == 16 {
        give_values(v, &[F::from(byte_of(word, at % 2))])
    } else {
        give_values(
            v,
            &[
                F::from(byte_of(word, at % 2)),
                F::from(byte_of(word, 2 + at % 2)),
                F::from(byte_of(word, at % 4)),
            ],
        )
    }
}

// The values of the wires that `put_new` makes.
fn new_values<const W: u32>(state: &TraceState, step: &StepNumbers) -> [F; 3]
    requires width { IsWidth W }
    requires step { AreNumbers W (traced_view state.now) step.now }
    ensures { result ≡ new_values W (traced_input state.now step.now) step.now.decomposed }
{
    let change = gained(step.low, step.operand % (W / 8), step.decomposed % 256);
    let changed = if step.instr.op == STORE_B {
        change
    } else {
        F::ZERO
    };
    let new = if step.instr.op == STORE_W {
        step.other
    } else if step.instr.op == STORE_B {
        with_byte::<W>(step.low, step.operand % (W / 8), step.other % 256)
    } else {
        step.old
    };
    [change, changed, F::from(new)]
}

// What a word gains by another byte in place of its byte number `j`.
fn gained(word: u32, j: u32, byte: u32) -> F
    requires { j < 4 }
    ensures { result ≡ gained word j byte }
{
    F::from(byte_power(j)) * (F::from(byte) - F::from(byte_of(word, j)))
}

// A word with another byte in place of its byte number `j`.
fn with_byte<const W: u32>(word: u32, j: u32, byte: u32) -> u32
    requires width { IsWidth W }
    requires fits { word < 2 ^ W }
    requires place { j < W / 8 }
    requires byte { byte < 256 }
    ensures { result ≡ with_byte_in word j byte }
{
    let power = u64::from(byte_power(j));
    let old = u64::from(byte_of(word, j));
    (u64::from(word) + u64::from(byte) * power - old * power) as u32
}

/// The laws of the data line. An assignment that meets the constraints has the data line of the
/// step, and the byte, and one that has these meets the constraints. They also say which wires
/// `put_memory` returns, that `fill_memory` assigns one number to each wire that it makes, and how
/// many constraints and terms memory costs.
pub fn memory_laws()
    ensures sound { MemoryIsSound }
    ensures complete { MemoryIsComplete }
    ensures sizes { MemorySizes }
    ensures costs { MemoryCosts }
{}
