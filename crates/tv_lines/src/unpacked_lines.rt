//! Packed lines expanded to bits.
ghost use Rattle.std.specs.Prelude.{◌≡◌, ◌+◌, ◌≤◌, ◌<◌, ◌^◌, false, IfOk, OnOk};
ghost use Rattle.tv_core.specs.Combinations.{top};
ghost use Rattle.tv_core.specs.Values.{GivesIn};
ghost use Rattle.tv_core.specs.Sinks.{Emits, Room};
ghost use Rattle.tv_lines.specs.PackedLines.{UnpackUndoesPack};
ghost use Rattle.tv_lines.specs.UnpackedLines.{IsLineBelow, line_bits, unpack_of, unpack_values};
ghost use Rattle.tv_lines.specs.UnpackedLines.{UnpackIsSound, UnpackIsComplete, UnpackSizes};

use crate::rows::LineBits;
use tv_bits::{Bits, bits_by, fill_bits};
use tv_core::limits::{CELL_BITS, TIME_BITS};
use tv_core::{Pair, PairNum, Put, Scratch, Sink, Values, Wire};

// The bits of a word, which stand below those of the cell or of the time.
const WORD_BITS: u32 = 32;

/// Emits the constraints of the bits of the line that a pair packs, and returns the bits: its cell
/// is below 2^31, its time below 2^20 and its words below 2^32. It makes 115 wires and 117
/// constraints, of 462 terms beside those of the pair.
pub fn unpack<S: Sink>(s: &mut S, pair: &Pair) -> Put<LineBits>
    requires room { Room S.meaning s.old 115 117 }
    requires first_made { top pair.now.first ≤ S.meaning.wires s.old }
    requires second_made { top pair.now.second ≤ S.meaning.wires s.old }
    ensures emits { Emits S.meaning s.old s.new (unpack_of pair.now) 115 117 result }
    ensures below { IfOk result (λ line. IsLineBelow (S.meaning.wires s.new) line) }
{
    let mut scratch = Scratch::new();
    let first = bits_by(s, &mut scratch, &pair.first, WORD_BITS + CELL_BITS)?;
    let second = bits_by(s, &mut scratch, &pair.second, WORD_BITS + TIME_BITS)?;
    Ok(line_bits(first.first, second.first))
}

/// Returns the bits of a line that stand in two rows: from wire `first` on those of the old word
/// and then of the cell, and from wire `second` on those of the new word and then of the time.
pub fn line_bits(first: Wire, second: Wire) -> LineBits
    requires first_within { first + 63 < 2 ^ 32 }
    requires second_within { second + 52 < 2 ^ 32 }
    ensures { result ≡ line_bits first second }
{
    LineBits {
        cell: Bits {
            first: first.offset(WORD_BITS),
            n: CELL_BITS,
        },
        time: Bits {
            first: second.offset(WORD_BITS),
            n: TIME_BITS,
        },
        old: Bits {
            first,
            n: WORD_BITS,
        },
        new: Bits {
            first: second,
            n: WORD_BITS,
        },
    }
}

/// Assigns the values of the wires that `unpack` makes: the lowest 63 bits of the first number and
/// the lowest 52 of the second, lowest first.
pub fn fill_unpack<V: Values>(v: &mut V, pair: &PairNum) -> Put<()>
    requires { V.giving.broken v.old ≡ false }
    ensures gives { GivesIn V.giving v.old v.new (unpack_values pair.now) result }
    ensures whole { OnOk result (V.giving.broken v.new ≡ false) }
{
    fill_bits(v, pair.first, WORD_BITS + CELL_BITS)?;
    fill_bits(v, pair.second, WORD_BITS + TIME_BITS)
}

/// The laws of `unpack`:
/// - `sound`: in an assignment that satisfies the constraints of `unpack`, the bits represent the
///   line that the pair stands for.
/// - `complete`: where the pair packs a line in range, an assignment that has the values that
///   `fill_unpack` assigns satisfies the constraints of `unpack`.
/// - `sizes`: `fill_unpack` assigns one value below P to each wire that `unpack` makes.
pub fn unpack_laws()
    ensures sound { UnpackIsSound }
    ensures complete { UnpackIsComplete }
    ensures sizes { UnpackSizes }
{}

/// The line that the pair of a packed line stands for is that line, where it is in range.
#[tactic(auto, using(crate::proofs::PackingLaws::unpack_packed))]
pub fn unpack_undoes_pack()
    ensures { UnpackUndoesPack }
{}
