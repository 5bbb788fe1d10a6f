//! The fields of an instruction, from the bits of its two words.
ghost use Rattle.std.specs.Prelude.{◌≡◌, ◌+◌, ◌^◌, ◌≤◌, ◌<◌, false, max, IfOk, OnOk};
ghost use Rattle.tv_bits.specs.Bits.{AreBitsBelow, part};
ghost use Rattle.tv_bits.specs.OneHot.{onehot_of};
ghost use Rattle.tv_core.specs.Values.{GivesIn};
ghost use Rattle.tv_core.specs.Sinks.{Emits, Room};
ghost use Rattle.tv_decode.specs.Fields.{fields_of, fields_values, FieldsAreSound};
ghost use Rattle.tv_decode.specs.Fields.{FieldsAreComplete, FieldsSizes};
ghost use Rattle.tv_isa.specs.Instruction.{decode};
ghost use Rattle.tv_word.specs.Widths.{IsWidth};

use crate::records::Fields;
use tv_bits::{Bits, fill_onehot, onehot_by};
use tv_core::{Put, Scratch, Sink, Values, Wire};
use tv_isa::decode;

/// Returns the fields of the instruction in the bits of two words of `W` bits, as constrained
/// wires. Of the first word, from the highest bit down, five bits are the opcode, one is `imm`,
/// four are the destination and four the source; the others are free. It makes 80 wires and 84
/// constraints, of 600 terms.
pub fn fields<const W: u32, S: Sink>(s: &mut S, h: &Bits, a: &Bits) -> Put<Fields>
    requires width { IsWidth W }
    requires room { Room S.meaning s.old 80 84 }
    requires h_word { AreBitsBelow (S.meaning.wires s.old) W h.now }
    requires a_word { AreBitsBelow (S.meaning.wires s.old) W a.now }
    ensures emits { Emits S.meaning s.old s.new (fields_of W h.now a.now) 80 84 result }
    ensures op_below { IfOk result (λ made. max (made.op + 32) (made.imm + 1)
        ≤ S.meaning.wires s.new) }
    ensures registers_below { IfOk result (λ made. max made.dest (max made.source made.reg) + 16
        ≤ S.meaning.wires s.new) }
{
    let mut scratch = Scratch::new();
    let op = row_of::<W, S>(s, &mut scratch, h, W - 5, 5)?;
    let dest = row_of::<W, S>(s, &mut scratch, h, W - 10, 4)?;
    let source = row_of::<W, S>(s, &mut scratch, h, W - 14, 4)?;
    let reg = row_of::<W, S>(s, &mut scratch, a, 0, 4)?;
    Ok(Fields {
        op,
        imm: h.first.offset(W - 6),
        dest,
        source,
        reg,
    })
}

// The row of `n` bits of a word, from place `low` on.
fn row_of<const W: u32, S: Sink>(
    s: &mut S,
    scratch: &mut Scratch,
    word: &Bits,
    low: u32,
    n: u32,
) -> Put<Wire>
    requires room { Room S.meaning s.old (2 ^ n) (2 ^ n + 1) }
    requires short { n ≤ 5 }
    requires enough { low + n ≤ W }
    requires word { AreBitsBelow (S.meaning.wires s.old) W word.now }
    ensures emits { Emits S.meaning s.old s.new
        (onehot_of (part word.now low n)) (2 ^ n) (2 ^ n + 1) result }
    ensures below { IfOk result (λ first. first + 2 ^ n ≤ S.meaning.wires s.new) }
{
    onehot_by(s, scratch, &word.part(low, n))
}

/// Assigns the 80 values of the wires that `fields` makes for bits that represent `h` and `a`.
pub fn fill_fields<const W: u32, V: Values>(v: &mut V, h: u32, a: u32) -> Put<()>
    requires width { IsWidth W }
    requires whole { V.giving.broken v.old ≡ false }
    ensures gives { GivesIn V.giving v.old v.new (fields_values (decode W h a)) result }
    ensures whole { OnOk result (V.giving.broken v.new ≡ false) }
{
    let instr = decode::<W>(h, a);
    fill_onehot(v, u32::from(instr.op), 5)?;
    fill_onehot(v, u32::from(instr.dest), 4)?;
    fill_onehot(v, u32::from(instr.source), 4)?;
    fill_onehot(v, instr.a % 16, 4)
}

/// The laws of `fields`:
/// - `sound`: where bits represent two words of `W` bits and an assignment satisfies the
///   constraints of `fields`, the rows and the bit that it returned are the fields of these words'
///   instruction.
/// - `complete`: where bits represent two words and an assignment has the values that `fill_fields`
///   assigns for them, it satisfies the constraints of `fields`.
/// - `sizes`: which wires `fields` returns and how many it makes, whatever the next wire is, and
///   that `fill_fields` assigns one value to each of them, below P.
pub fn fields_laws()
    ensures sound { FieldsAreSound }
    ensures complete { FieldsAreComplete }
    ensures sizes { FieldsSizes }
{}
