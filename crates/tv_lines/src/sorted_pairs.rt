//! Two lines that follow each other in address order.
ghost use Rattle.std.specs.Prelude.{◌≡◌, ◌<◌, [], false, IfOk, OnOk};
ghost use Rattle.tv_core.specs.Values.{GivesIn};
ghost use Rattle.tv_core.specs.Sinks.{Emits, Room};
ghost use Rattle.tv_lines.specs.PackedLines.{line_of_numbers};
ghost use Rattle.tv_lines.specs.SortedPair.{apart_of, carried_of, size_of, size_values};
ghost use Rattle.tv_lines.specs.SortedPair.{sorted_pair_of, sorted_pair_values, first_line_of};
ghost use Rattle.tv_lines.specs.SortedPair.{SortedPairIsSound, SortedPairIsComplete};
ghost use Rattle.tv_lines.specs.SortedPair.{SortedPairSizes, FirstLineIsSound, FirstLineIsComplete};
ghost use Rattle.tv_lines.specs.SortedPair.{FirstLineSizes, NeighboursAreOrdered};
ghost use Rattle.tv_lines.specs.UnpackedLines.{IsLineBelow};

use crate::keys::{CHUNK, fill_rises, rises, size};
use crate::rows::LineBits;
use tv_bits::{fill_bits, fill_zero, kept_by, new_bits_by, zero_by};
use tv_core::{F, Lc, LineNum, Put, Scratch, Sink, Values, Wire};

/// Constrains two lines to follow each other in address order: the cell of the second is above that
/// of the first, or in the same cell its time; its old word is the first's new one where the cells
/// are the same, and else 0. It makes 18 wires and 20 constraints, of 312 terms.
pub fn sorted_pair<S: Sink>(s: &mut S, before: &LineBits, after: &LineBits) -> Put<()>
    requires room { Room S.meaning s.old 18 20 }
    requires before_line { IsLineBelow (S.meaning.wires s.old) before.now }
    requires after_line { IsLineBelow (S.meaning.wires s.old) after.now }
    ensures emits { Emits S.meaning s.old s.new (sorted_pair_of before.now after.now) 18 20 result }
{
    let mut scratch = Scratch::new();
    let apart = cells_apart(s, &mut scratch, before, after)?;
    carried(s, &mut scratch, apart, before, after)?;
    let size = new_size(s, &mut scratch)?;
    rises(s, &mut scratch, apart, size, before, after)
}

// A new wire: by how much the second cell is above the first.
fn cells_apart<S: Sink>(
    s: &mut S,
    scratch: &mut Scratch,
    before: &LineBits,
    after: &LineBits,
) -> Put<Wire>
    requires room { Room S.meaning s.old 1 1 }
    requires before_line { IsLineBelow (S.meaning.wires s.old) before.now }
    requires after_line { IsLineBelow (S.meaning.wires s.old) after.now }
    ensures emits { Emits S.meaning s.old s.new (apart_of before.now after.now) 1 1 result }
    ensures below { IfOk result (λ apart. apart < S.meaning.wires s.new) }
{
    after.cell.set_number(&mut scratch.a);
    before.cell.plus_to(&mut scratch.a, -F::ONE);
    kept_by(s, scratch)
}

// The second line's old word is the first's new one where the cells are not apart, and else 0.
fn carried<S: Sink>(
    s: &mut S,
    scratch: &mut Scratch,
    apart: Wire,
    before: &LineBits,
    after: &LineBits,
) -> Put<()>
    requires room { Room S.meaning s.old 2 3 }
    requires before_line { IsLineBelow (S.meaning.wires s.old) before.now }
    requires after_line { IsLineBelow (S.meaning.wires s.old) after.now }
    requires apart_made { apart < S.meaning.wires s.old }
    ensures emits { Emits S.meaning s.old s.new (carried_of apart before.now after.now) 2 3 result }
{
    scratch.a.set_wire(apart);
    let same = zero_by(s, scratch)?;
    scratch.a.set_wire(same);
    before.new.set_number(&mut scratch.b);
    after.old.set_number(&mut scratch.c);
    s.put(&scratch.a, &scratch.b, &scratch.c)
}

// A new wire that is from 1 to 2^11.
fn new_size<S: Sink>(s: &mut S, scratch: &mut Scratch) -> Put<Wire>
    requires room { Room S.meaning s.old 12 12 }
    ensures emits { Emits S.meaning s.old s.new (size_of 11) 12 12 result }
    ensures below { IfOk result (λ size. size < S.meaning.wires s.new) }
{
    let bits = new_bits_by(s, scratch, CHUNK)?;
    bits.set_number(&mut scratch.a);
    scratch.a.plus(F::ONE, Wire(0));
    kept_by(s, scratch)
}

/// Constrains the old word of the first line in address order to 0. It makes no wire and 1
/// constraint, of 33 terms.
pub fn first_line<S: Sink>(s: &mut S, line: &LineBits) -> Put<()>
    requires room { Room S.meaning s.old 0 1 }
    requires line { IsLineBelow (S.meaning.wires s.old) line.now }
    ensures emits { Emits S.meaning s.old s.new (first_line_of line.now) 0 1 result }
{
    s.put(&line.old.lc(), &Lc::constant(F::ONE), &Lc::empty())
}

/// Assigns the values of the wires that `sorted_pair` makes for these lines.
pub fn fill_sorted_pair<V: Values>(v: &mut V, before: &LineNum, after: &LineNum) -> Put<()>
    requires { V.giving.broken v.old ≡ false }
    ensures gives { GivesIn V.giving v.old v.new
        (sorted_pair_values (line_of_numbers before.now) (line_of_numbers after.now)) result }
    ensures whole { OnOk result (V.giving.broken v.new ≡ false) }
{
    let apart = after.cell - before.cell;
    let size = size(before, after);
    v.give(apart)?;
    fill_zero(v, apart)?;
    fill_size(v, size)?;
    fill_rises(v, before, after)
}

// Assigns the bits of `size` less 1, and `size`.
fn fill_size<V: Values>(v: &mut V, size: F) -> Put<()>
    requires { V.giving.broken v.old ≡ false }
    ensures gives { GivesIn V.giving v.old v.new (size_values size) result }
    ensures whole { OnOk result (V.giving.broken v.new ≡ false) }
{
    fill_bits(v, F::of(size.number().saturating_sub(1)), CHUNK)?;
    v.give(size)
}

/// Assigns nothing, since `first_line` makes no wire.
pub fn fill_first_line<V: Values>(v: &mut V, _line: &LineNum) -> Put<()>
    requires { V.giving.broken v.old ≡ false }
    ensures gives { GivesIn V.giving v.old v.new [] result }
    ensures whole { OnOk result (V.giving.broken v.new ≡ false) }
{
    Ok(())
}

/// The laws of `sorted_pair`:
/// - `sound`: in an assignment that satisfies the constraints of `sorted_pair` for bits that
///   represent two lines, the second follows the first.
/// - `complete`: where the second line follows the first, an assignment that has the values that
///   `fill_sorted_pair` assigns satisfies the constraints of `sorted_pair`.
/// - `sizes`: `fill_sorted_pair` assigns one value to each wire that `sorted_pair` makes, and for
///   lines in range each is below P.
pub fn sorted_pair_laws()
    ensures sound { SortedPairIsSound }
    ensures complete { SortedPairIsComplete }
    ensures sizes { SortedPairSizes }
{}

/// The laws of `first_line`:
/// - `sound`: in an assignment that satisfies the constraints of `first_line` for bits that
///   represent a line, its old word is 0.
/// - `complete`: an assignment in which bits represent a line with an old word of 0 satisfies the
///   constraints of `first_line`.
/// - `sizes`: `first_line` makes no wire.
pub fn first_line_laws()
    ensures sound { FirstLineIsSound }
    ensures complete { FirstLineIsComplete }
    ensures sizes { FirstLineSizes }
{}

/// Along a list of lines, `first_line` on the first and `sorted_pair` on each two neighbours
/// constrain them to be in address order.
pub fn neighbours_are_ordered()
    ensures { NeighboursAreOrdered }
{}
