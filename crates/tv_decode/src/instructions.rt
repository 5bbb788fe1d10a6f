//! An instruction's two words, with a one-hot row of the used opcodes.
//!
//! The row is the range of the opcode too: no other combination of its bits has the sum 1, so an
//! opcode that isn't used has no wire, and no words that decode to it meet the constraints.
ghost use Rattle.std.specs.Prelude.{◌≡◌, ◌+◌, ◌-◌, ◌*◌, ◌%◌, ◌≤◌, ◌<◌, ◌^◌, ◌++◌, false};
ghost use Rattle.std.specs.Prelude.{length, max, IfOk, OnOk};
ghost use Rattle.tv_bits.specs.OneHot.{row_sum};
ghost use Rattle.tv_core.specs.Below.{weighted};
ghost use Rattle.tv_core.specs.Circuits.{put};
ghost use Rattle.tv_core.specs.Combinations.{constant, top};
ghost use Rattle.tv_core.specs.Values.{GivesIn};
ghost use Rattle.tv_core.specs.Sinks.{Emits, Room};
ghost use Rattle.tv_decode.specs.Instructions.{opcode_weight};
ghost use Rattle.tv_decode.specs.Instructions.{opcode_values, instruction_of};
ghost use Rattle.tv_decode.specs.Instructions.{instruction_wires, instruction_values};
ghost use Rattle.tv_decode.specs.Instructions.{source_bits, dest_bits, register_bits, imm_wire};
ghost use Rattle.tv_decode.specs.Instructions.{InstructionIsSound, InstructionIsComplete};
ghost use Rattle.tv_decode.specs.Instructions.{InstructionSizes, InstructionCosts};
ghost use Rattle.tv_decode.specs.Instructions.{OpcodeWireIsRight};
ghost use Rattle.tv_isa.specs.Instruction.{decode};
ghost use Rattle.tv_isa.specs.Opcodes.{opcodes};
ghost use Rattle.tv_word.specs.Widths.{IsWidth};

use crate::records::InstructionWires;
use tv_bits::{Bits, fill_bits, kept_by, new_bits_by, plus_row};
use tv_core::{F, Lc, Put, Scratch, Sink, Values, Wire, give_words};
use tv_isa::decode;
use tv_isa::opcode::{USED, at_place, place};

// How many opcodes are used: the wires of the row.
const OPCODES: u32 = USED.len() as u32;

/// Constrains the two words of an instruction of `W` bits whose opcode is used. Of the first word
/// it makes the bits below the opcode and a one-hot row of the 29 used opcodes, of the second all
/// bits, and a wire for each word. It makes `2 W + 26` wires and `2 W + 27` constraints, of
/// `8 W + 130` terms: 90, 91 and 386 at 32 bits.
pub fn instruction<const W: u32, S: Sink>(s: &mut S, scratch: &mut Scratch) -> Put<InstructionWires>
    requires width { IsWidth W }
    requires room { Room S.meaning s.old (2 * W + 26) (2 * W + 27) }
    ensures emits { Emits S.meaning s.old s.new
        (instruction_of W) (2 * W + 26) (2 * W + 27) result }
    ensures places { IfOk result (λ made. made ≡ instruction_wires W (S.meaning.wires s.old)) }
{
    let low = new_bits_by(s, scratch, W - 5)?;
    let row = new_bits_by(s, scratch, OPCODES)?;
    let second = new_bits_by(s, scratch, W)?;
    one_opcode(s, scratch, row.first)?;
    low.set_number(&mut scratch.a);
    plus_opcodes::<W>(&mut scratch.a, row.first);
    let head = kept_by(s, scratch)?;
    second.set_number(&mut scratch.a);
    let tail = kept_by(s, scratch)?;
    Ok(InstructionWires {
        low,
        op: row.first,
        second,
        head,
        tail,
    })
}

// Constrains the sum of the row to 1.
fn one_opcode<S: Sink>(s: &mut S, scratch: &mut Scratch, op: Wire) -> Put<()>
    requires room { Room S.meaning s.old 0 1 }
    requires op_made { op + opcodes ≤ S.meaning.wires s.old }
    ensures emits { Emits S.meaning s.old s.new
        (put (row_sum op opcodes) (constant 1) (constant 1)) 0 1 result }
{
    scratch.a.clear();
    plus_row(&mut scratch.a, op, OPCODES);
    scratch.b.set_wire(Wire(0));
    s.put(&scratch.a, &scratch.b, &scratch.b)
}

// Appends the opcodes of the row, each times its wire, above the other bits of a word.
fn plus_opcodes<const W: u32>(lc: &mut Lc, op: Wire)
    requires width { IsWidth W }
    requires within { op + opcodes < 2 ^ 32 }
    requires room { length lc.old ≤ 64 }
    ensures terms { lc.new
        ≡ lc.old ++ weighted (op + 1) (opcodes - 1) (λ j. opcode_weight W (j + 1)) }
    ensures top { top lc.new ≤ max (top lc.old) (op + opcodes) }
{
    let second = op.offset(1);
    for i in 0..OPCODES - 1 {
        lc.plus(F::from(opcode_weight::<W>(i + 1)), second.offset(i));
    }
}

// The opcode at a place of the row, as the highest bits of a word.
fn opcode_weight<const W: u32>(j: u32) -> u32
    requires width { IsWidth W }
    requires within { j < opcodes }
    ensures { result ≡ opcode_weight W j }
{
    at_place(j) * (1 << (W - 5))
}

impl InstructionWires {
    /// Returns the bits that name the source register.
    pub fn source<const W: u32>(&self) -> Bits
        requires width { IsWidth W }
        requires low { self.now.low.n ≡ W - 5 }
        requires within { self.now.low.first + W < 2 ^ 32 }
        ensures { result ≡ source_bits W self.now }
    {
        self.low.part(W - 14, 4)
    }

    /// Returns the bits that name the destination register.
    pub fn dest<const W: u32>(&self) -> Bits
        requires width { IsWidth W }
        requires low { self.now.low.n ≡ W - 5 }
        requires within { self.now.low.first + W < 2 ^ 32 }
        ensures { result ≡ dest_bits W self.now }
    {
        self.low.part(W - 10, 4)
    }

    /// Returns the bits of the second word that name a register.
    pub fn register<const W: u32>(&self) -> Bits
        requires width { IsWidth W }
        requires second { self.now.second.n ≡ W }
        requires within { self.now.second.first + W < 2 ^ 32 }
        ensures { result ≡ register_bits self.now }
    {
        self.second.part(0, 4)
    }

    /// Returns the immediate bit.
    pub fn imm<const W: u32>(&self) -> Wire
        requires width { IsWidth W }
        requires within { self.now.low.first + W < 2 ^ 32 }
        ensures { result ≡ imm_wire W self.now }
    {
        self.low.first.offset(W - 6)
    }
}

/// Assigns the `2 W + 26` values of the wires that `instruction` makes for two words.
pub fn fill_instruction<const W: u32, V: Values>(v: &mut V, head: u32, tail: u32) -> Put<()>
    requires width { IsWidth W }
    requires whole { V.giving.broken v.old ≡ false }
    ensures gives { GivesIn V.giving v.old v.new (instruction_values W head tail) result }
    ensures whole { OnOk result (V.giving.broken v.new ≡ false) }
{
    fill_bits(v, F::from(below_opcode::<W>(head)), W - 5)?;
    fill_row(v, decode::<W>(head, tail).op)?;
    fill_bits(v, F::from(tail), W)?;
    give_words(v, &[head, tail])
}

// The bits of a first word below its opcode.
fn below_opcode<const W: u32>(head: u32) -> u32
    requires width { IsWidth W }
    ensures { result ≡ head % 2 ^ (W - 5) }
{
    head % (1 << (W - 5))
}

// Assigns the row of an opcode.
fn fill_row<V: Values>(v: &mut V, k: u8) -> Put<()>
    requires within { k < 32 }
    requires whole { V.giving.broken v.old ≡ false }
    ensures gives { GivesIn V.giving v.old v.new (opcode_values k) result }
    ensures whole { OnOk result (V.giving.broken v.new ≡ false) }
{
    let hot = place(k);
    for i in 0..OPCODES {
        v.give(F::from(i == hot))?;
    }
    Ok(())
}

/// The laws of `instruction`:
/// - `sound`: where an assignment satisfies the constraints of `instruction`, the wires hold two
///   words of `W` bits and the fields of their instruction, whose opcode is used.
/// - `complete`: where an assignment has the values that `fill_instruction` assigns for two words
///   of `W` bits with a used opcode, it satisfies the constraints of `instruction`, and the wires
///   hold these words.
/// - `sizes`: which wires `instruction` returns and how many it makes, whatever the next wire is,
///   and that `fill_instruction` assigns one value to each of them, below P.
/// - `costs`: how many constraints and terms `instruction` puts.
#[tactic(auto, using(crate::proofs::InstructionLaws::instruction_laws))]
pub fn instruction_laws()
    ensures sound { InstructionIsSound }
    ensures complete { InstructionIsComplete }
    ensures sizes { InstructionSizes }
    ensures costs { InstructionCosts }
{}

/// The wire of an opcode is 1 exactly where it is the instruction's, and else 0.
#[tactic(auto, using(crate::proofs::InstructionLaws::opcode_wire))]
pub fn opcode_wire_is_right()
    ensures { OpcodeWireIsRight }
{}
