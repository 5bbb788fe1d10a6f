//! A line checked, at its own place in time order, against its predecessor in address order.
ghost use Rattle.std.specs.Prelude.{◌≡◌, ◌+◌, ◌-◌, ◌≤◌, ◌<◌, ◌^◌, [], false, length, max};
ghost use Rattle.std.specs.Prelude.{OnOk};
ghost use Rattle.tv_core.specs.Combinations.{top, wire};
ghost use Rattle.tv_core.specs.Values.{GivesIn};
ghost use Rattle.tv_core.specs.Sinks.{Emits, Room};
ghost use Rattle.tv_lines.specs.PackedLines.{unpacked};
ghost use Rattle.tv_lines.specs.Predecessor.{IsLineMade, IsItemMade, follows_of, follows_values};
ghost use Rattle.tv_lines.specs.Predecessor.{cell_excess, excess, cell_difference};
ghost use Rattle.tv_lines.specs.Predecessor.{time_difference, either_of, follows_terms};
ghost use Rattle.tv_lines.specs.Predecessor.{reach_between, excess_between};
ghost use Rattle.tv_lines.specs.Predecessor.{FollowsIsSound, FollowsIsComplete, FollowsSizes};
ghost use Rattle.tv_lines.specs.Predecessor.{FollowsIsNormal};
ghost use Rattle.tv_lines.specs.Predecessor.{FollowsCosts, FollowsReaches, FollowsRises};
ghost use Rattle.tv_lines.specs.Compact.{cell_lc, line_lc, word_lc};

use crate::compact::{CompactLine, SHIFT, subtract_number_above};
use crate::packed_lines::unpack_item;
use tv_bits::{Bits, fill_bits, kept_by, new_bits_by};
use tv_core::{F, Lc, Line, Pair, PairNum, Put, Scratch, Sink, Values, Wire};

/// Constrains `line` to follow the line of `item` in address order, at a distance of `m` bits, at
/// most 31. The distance is that of the cells, or of the times where the cells are the same. It
/// makes `m + 1` wires and `m + 3` constraints: each bit is 0 or 1, and
///
/// - `[2^32 (1 + reach) + item.first - old - 2^32 cell] [1] = [e]`
/// - `[e] [item.first - 2^32 cell] = [0]`
/// - `[e] [e + item.second - 2^32 time] = [0]`
///
/// With 32 bits of reach a wrong old word would wrap modulo P.
pub fn follows<S: Sink>(
    s: &mut S,
    scratch: &mut Scratch,
    m: u32,
    line: &CompactLine,
    item: &Pair,
) -> Put<()>
    requires short { m ≤ 31 }
    requires room { Room S.meaning s.old (m + 1) (m + 3) }
    requires line { IsLineMade (S.meaning.wires s.old) line.now }
    requires item { IsItemMade (S.meaning.wires s.old) item.now }
    ensures emits { Emits S.meaning s.old s.new
        (follows_of m (line_lc line.now) item.now) (m + 1) (m + 3) result }
{
    let reach = new_bits_by(s, scratch, m)?;
    set_excess(&mut scratch.a, &reach, line, item);
    let e = kept_by(s, scratch)?;
    either(s, scratch, e, line, item)
}

// Writes 2^32 times 1 and the item's cell, less the old word and 2^32 times the cell.
fn set_cell_excess(lc: &mut Lc, line: &CompactLine, first: &[(F, Wire)])
    requires first_short { length first.now ≤ 32 }
    ensures terms { lc.new ≡ cell_excess (line_lc line.now) first.now }
    ensures len { length lc.new ≤ length first.now + 4 }
    ensures top { top lc.new ≤ max (max (max 1 (top first.now)) (top (word_lc line.now.old)))
        (top (cell_lc line.now.cell)) }
{
    lc.clear();
    lc.plus(F::of(SHIFT), Wire(0));
    lc.add_terms(first);
    line.old.subtract_from(lc);
    line.cell.subtract_above(lc);
}

// Sets `lc` to what the wire `e` equals.
fn set_excess(lc: &mut Lc, reach: &Bits, line: &CompactLine, item: &Pair)
    requires short { reach.now.n ≤ 31 }
    requires within { reach.now.first + reach.now.n < 2 ^ 32 }
    requires first_short { length item.now.first ≤ 32 }
    ensures terms { lc.new ≡ excess reach.now (line_lc line.now) item.now }
    ensures top { top lc.new ≤ max (reach.now.first + reach.now.n) (max 1
        (max (top (cell_lc line.now.cell))
        (max (top (word_lc line.now.old)) (top item.now.first)))) }
{
    set_cell_excess(lc, line, item.first.terms());
    reach.plus_to(lc, F::of(SHIFT));
}

// Constrains `e` to be 0, or the cells to be the same and the times to differ by it.
fn either<S: Sink>(
    s: &mut S,
    scratch: &mut Scratch,
    e: Wire,
    line: &CompactLine,
    item: &Pair,
) -> Put<()>
    requires room { Room S.meaning s.old 0 2 }
    requires e_made { e < S.meaning.wires s.old }
    requires line { IsLineMade (S.meaning.wires s.old) line.now }
    requires item { IsItemMade (S.meaning.wires s.old) item.now }
    ensures emits { Emits S.meaning s.old s.new
        (either_of e (line_lc line.now) item.now) 0 2 result }
{
    set_either(scratch, e, line, item);
    s.put(&scratch.a, &scratch.b, &scratch.c)?;
    set_times(&mut scratch.b, e, line, item);
    s.put(&scratch.a, &scratch.b, &scratch.c)
}

// Writes the factors `e` and the difference of the cells, and the product 0.
fn set_either(scratch: &mut Scratch, e: Wire, line: &CompactLine, item: &Pair)
    requires first_short { length item.now.first ≤ 32 }
    ensures a { scratch.new.a ≡ wire e }
    ensures b { scratch.new.b ≡ cell_difference (line_lc line.now) item.now }
    ensures c { scratch.new.c ≡ [] }
    ensures top { top scratch.new.b ≤ max (top (cell_lc line.now.cell)) (top item.now.first) }
{
    scratch.a.set_wire(e);
    scratch.b.clear();
    scratch.b.add_terms(item.first.terms());
    line.cell.subtract_above(&mut scratch.b);
    scratch.c.clear();
}

// Writes the difference of the times, and `e`.
fn set_times(lc: &mut Lc, e: Wire, line: &CompactLine, item: &Pair)
    requires second_short { length item.now.second ≤ 32 }
    ensures terms { lc.new ≡ time_difference e (line_lc line.now) item.now }
    ensures top { top lc.new ≤ max (e + 1) (max 1 (top item.now.second)) }
{
    lc.clear();
    lc.add_terms(item.second.terms());
    subtract_number_above(lc, line.time);
    lc.plus(F::ONE, e);
}

/// Returns how many terms the constraints of `follows` have where the item is two wires after those
/// of the line, as a network's outputs are. Reuses the caller's scratch combination.
pub fn follows_terms(scratch: &mut Lc, m: u32, line: &CompactLine) -> u32
    requires short { m ≤ 31 }
    ensures is { result ≡ follows_terms m (line_lc line.now) }
    ensures few { result ≤ 2 ^ 8 }
{
    set_cell_excess(scratch, line, &[]);
    let excess = scratch.terms().len();
    scratch.clear();
    line.cell.subtract_above(scratch);
    let cell = scratch.terms().len();
    scratch.clear();
    subtract_number_above(scratch, line.time);
    let time = scratch.terms().len();
    4 * m + 8 + (excess + cell + time) as u32
}

/// Assigns the wires of `follows` for a line and the item of its predecessor: the bits of the
/// reach, lowest first, and the excess `e`. The line's new word is not read.
pub fn fill_follows<V: Values>(v: &mut V, m: u32, item: &PairNum, line: &Line) -> Put<()>
    requires whole { V.giving.broken v.old ≡ false }
    requires short { m ≤ 31 }
    ensures gives { GivesIn V.giving v.old v.new (follows_values m (unpacked item.now) line.now)
        result }
    ensures whole { OnOk result (V.giving.broken v.new ≡ false) }
{
    let before = unpack_item(item);
    fill_bits(v, F::from(reach_between(&before, line)), m)?;
    v.give(F::of(excess_between(&before, line)))
}

// How far `after` is after `before`, less 1.
fn reach_between(before: &Line, after: &Line) -> u32
    ensures { result ≡ reach_between before.now after.now }
{
    if before.cell == after.cell {
        after.time.saturating_sub(before.time).saturating_sub(1)
    } else {
        after.cell.saturating_sub(before.cell).saturating_sub(1)
    }
}

// The excess.
fn excess_between(before: &Line, after: &Line) -> u64
    ensures is { result ≡ excess_between before.now after.now }
    ensures below { result < 2 ^ 64 - 2 ^ 32 + 1 }
{
    if before.cell == after.cell {
        (SHIFT * u64::from(after.time.saturating_sub(before.time))).saturating_sub(u64::from(
            after.old,
        ))
    } else {
        0
    }
}

/// The laws of `follows`:
/// - `sound`: in an assignment that satisfies the constraints of `follows`, the line follows that
///   of the item: its cell is above, or its time in the same cell, and its old word is the other's
///   new word where the cells are the same, and else 0.
/// - `complete`: where the line follows that of the item at a distance of `m` bits, an assignment
///   with the values of `fill_follows` meets the constraints of `follows`.
/// - `normal`: the constraints of `follows` are normal, whatever the line's combinations are.
/// - `sizes`: `fill_follows` assigns one value to each wire that `follows` makes, below P for lines
///   in range.
/// - `costs`: the constraints of `follows`, and their terms where the item is two wires after those
///   of the line: 137 at 31 bits where cell, time and old word are wires of their own.
pub fn follows_laws()
    ensures sound { FollowsIsSound }
    ensures complete { FollowsIsComplete }
    ensures normal { FollowsIsNormal }
    ensures sizes { FollowsSizes }
    ensures costs { FollowsCosts }
{}

/// 31 bits of reach suffice for lines in range; `k` bits suffice for times below 2^k where the cell
/// is at most the one after the predecessor's.
#[tactic(auto, using(crate::proofs::PredecessorReach::follows_reaches))]
pub fn follows_reaches()
    ensures { FollowsReaches }
{}

/// The key, the cell above the time, rises from a line to one that follows it.
#[tactic(auto, using(crate::proofs::PredecessorReach::follows_rises))]
pub fn follows_rises()
    ensures { FollowsRises }
{}
