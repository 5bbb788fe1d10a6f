//! The operand of an instruction.
ghost use Rattle.std.specs.Prelude.{◌≡◌, ◌+◌, ◌-◌, ◌≤◌, ◌<◌, ◌^◌, ◌++◌, false, length, max, IfOk};
ghost use Rattle.std.specs.Prelude.{OnOk, [], ◌∷◌};
ghost use Rattle.tv_bits.specs.Bits.{bits_combination};
ghost use Rattle.tv_core.specs.Circuits.{put};
ghost use Rattle.tv_core.specs.Combinations.{constant, top, wire};
ghost use Rattle.tv_core.specs.Values.{GivesIn};
ghost use Rattle.tv_core.specs.Sinks.{Emits, Room};
ghost use Rattle.tv_core.specs.declared.field.TheConstants.{P};
ghost use Rattle.tv_inputs.specs.Accumulation.{accumulated_of};
ghost use Rattle.tv_inputs.specs.Operand.{operand_of, operand_values, power_inverse, upper_of};
ghost use Rattle.tv_inputs.specs.Operand.{OperandIsSound, OperandIsComplete, OperandSizes};
ghost use Rattle.tv_inputs.specs.Operand.{OperandCosts};
ghost use Rattle.tv_inputs.specs.States.{OperandUnder};
ghost use Rattle.tv_word.specs.Widths.{IsWidth};

use crate::accumulation::accumulated;
use crate::records::OperandWires;
use crate::terms::set_minus;
use tv_bits::{Bits, fill_bits, new_bits_by};
use tv_core::{F, Lc, P, Put, Scratch, Sink, Values, Wire};

/// Constrains the operand of an instruction, with its bits: the second word `tail` where the
/// immediate bit `imm` is 1, else the register that this names. It makes `W + 1` wires and `W + 2`
/// constraints, of `4 W + 7` terms.
pub fn put_operand<const W: u32, S: Sink>(
    s: &mut S,
    scratch: &mut Scratch,
    imm: Wire,
    tail: Wire,
    register: Wire,
) -> Put<OperandWires>
    requires width { IsWidth W }
    requires room { Room S.meaning s.old (W + 1) (W + 2) }
    requires imm_made { imm < S.meaning.wires s.old }
    requires tail_made { tail < S.meaning.wires s.old }
    requires register_made { register < S.meaning.wires s.old }
    ensures emits { Emits S.meaning s.old s.new
        (operand_of W imm tail register) (W + 1) (W + 2) result }
    ensures below { IfOk result (λ made. OperandUnder W (S.meaning.wires s.new) made) }
{
    let word = put_word(s, scratch, imm, tail, register)?;
    let bits = new_bits_by(s, scratch, W)?;
    put_number(s, scratch, &bits, word)?;
    Ok(OperandWires { word, bits })
}

// Holds a word to the number of its bits.
#[inline]
fn put_number<S: Sink>(s: &mut S, scratch: &mut Scratch, bits: &Bits, word: Wire) -> Put<()>
    requires room { Room S.meaning s.old 0 1 }
    requires short { bits.now.n ≤ 63 }
    requires bits_made { bits.now.first + bits.now.n ≤ S.meaning.wires s.old }
    requires word_made { word < S.meaning.wires s.old }
    ensures emits { Emits S.meaning s.old s.new
        (put (bits_combination bits.now.first bits.now.n) (constant 1) (wire word)) 0 1 result }
{
    bits.set_number(&mut scratch.a);
    scratch.b.set_wire(Wire(0));
    scratch.c.set_wire(word);
    s.put(&scratch.a, &scratch.b, &scratch.c)
}

// Constrains the word of an operand.
fn put_word<S: Sink>(
    s: &mut S,
    scratch: &mut Scratch,
    imm: Wire,
    tail: Wire,
    register: Wire,
) -> Put<Wire>
    requires room { Room S.meaning s.old 1 1 }
    requires wires_made { max imm (max tail register) < S.meaning.wires s.old }
    ensures emits { Emits S.meaning s.old s.new
        (accumulated_of (wire register) (wire imm) ((1, tail) ∷ (P - 1, register) ∷ []))
        1 1 result }
    ensures below { IfOk result (λ w. w < S.meaning.wires s.new) }
{
    scratch.a.set_wire(imm);
    scratch.b.set_difference(tail, register);
    set_minus(&mut scratch.c, register);
    accumulated(s, scratch)
}

/// Appends `factor` times the number of the operand's bits from number `k` on, `k` being at most
/// 32, as `k + 1` terms: the operand's wire less its `k` lowest bits, times `factor` and the
/// inverse of 2^`k`.
pub fn plus_upper(lc: &mut Lc, factor: F, a: &OperandWires, k: u32)
    requires few { k ≤ 32 }
    requires within { a.now.bits.first + k < 2 ^ 32 }
    requires room { length lc.old + (k + 1) ≤ 128 }
    ensures terms { lc.new ≡ lc.old ++ upper_of factor a.now k }
    ensures top { top lc.new ≤ max (top lc.old) (max (a.now.word + 1) (a.now.bits.first + k)) }
    ensures len { length lc.new ≡ length lc.old + (k + 1) }
{
    let coefficient = factor * power_inverse(k);
    let low = Bits {
        first: a.bits.first,
        n: k,
    };
    lc.plus(coefficient, a.word);
    low.plus_to(lc, -coefficient);
}

// The inverse of 2^`k`, which divides P - 1.
fn power_inverse(k: u32) -> F
    requires { k ≤ 32 }
    ensures { result ≡ power_inverse k }
{
    F::of(P - ((P - 1) >> k))
}

/// Assigns the `W + 1` values of the wires that `put_operand` makes for an operand.
pub fn fill_operand<const W: u32, V: Values>(v: &mut V, a: u32) -> Put<()>
    requires width { IsWidth W }
    requires whole { V.giving.broken v.old ≡ false }
    ensures gives { GivesIn V.giving v.old v.new (operand_values W a) result }
    ensures whole { OnOk result (V.giving.broken v.new ≡ false) }
{
    v.give(F::from(a))?;
    fill_bits(v, F::from(a), W)
}

/// The laws of the operand. An assignment that satisfies the constraints has the operand and its
/// bits, and one that has these meets the constraints. They also say which wires `put_operand`
/// returns, that `fill_operand` assigns one number to each wire that it makes, and how many
/// constraints and terms the operand costs.
pub fn operand_laws()
    ensures sound { OperandIsSound }
    ensures complete { OperandIsComplete }
    ensures sizes { OperandSizes }
    ensures costs { OperandCosts }
{}
