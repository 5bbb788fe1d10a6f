//! A double line checked, at its own place in time order, against its successor in address order.
ghost use Rattle.std.specs.Prelude.{◌≡◌, ◌+◌, ◌-◌, ◌*◌, ◌%◌, ◌≤◌, ◌<◌, ◌^◌, [], false, length, max};
ghost use Rattle.std.specs.Prelude.{OnOk};
ghost use Rattle.tv_core.specs.Combinations.{top, wire};
ghost use Rattle.tv_core.specs.Values.{GivesIn};
ghost use Rattle.tv_core.specs.Sinks.{Emits, Room};
ghost use Rattle.tv_core.specs.declared.field.TheConstants.{P};
ghost use Rattle.tv_double_checks.specs.Items.{AreWordsMade, IsItemMade, line_of};
ghost use Rattle.tv_double_checks.specs.Within.{within_of, within_values, within_terms};
ghost use Rattle.tv_double_checks.specs.Within.{place_difference, either_of};
ghost use Rattle.tv_double_checks.specs.Within.{WithinIsSound, WithinIsComplete};
ghost use Rattle.tv_double_checks.specs.Within.{WithinSizes, WithinCosts, WithinIsNormal};
ghost use Rattle.tv_doubles.specs.Within.{reach_between, excess_between};
ghost use Rattle.tv_word.specs.Widths.{IsWidth};

use crate::differences::{minus_unit, set_cell_difference, set_cells_after, set_excess};
use crate::double_lines::DoubleLine;
use crate::items::CellWords;
use tv_bits::{fill_bits, kept_by, new_bits_by};
use tv_core::{F, Lc, Pair, Put, Scratch, Sink, Values, Wire};

/// Constrains the line of `item` to succeed the line that leaves the words `own`, by a reach of `m`
/// bits, at most 30. The reach is how many double cells it is above, or in the same double cell how
/// many places later, less 1. It makes `m + 1` wires and `m + 3` constraints: each bit is 0 or 1,
/// and, b being 2^`W`,
///
/// - `[item.first - 2 b (cell + 1 + reach)] [1] = [g]`
/// - `[g] [item.first - 2 b cell - sum] = [0]`
/// - `[g] [2 item.second + g - 2 b place - sum - 2 second] = [0]`
///
/// With 31 bits of reach a wrong old sum would wrap modulo P.
pub fn within<const W: u32, S: Sink>(
    s: &mut S,
    scratch: &mut Scratch,
    m: u32,
    own: &CellWords,
    item: &Pair,
) -> Put<()>
    requires width { IsWidth W }
    requires short { m ≤ 30 }
    requires room { Room S.meaning s.old (m + 1) (m + 3) }
    requires own { AreWordsMade (S.meaning.wires s.old) own.now }
    requires item { IsItemMade (S.meaning.wires s.old) item.now }
    ensures emits { Emits S.meaning s.old s.new
        (within_of (2 ^ W) m own.now item.now) (m + 1) (m + 3) result }
{
    let reach = new_bits_by(s, scratch, m)?;
    set_excess::<W>(&mut scratch.a, &reach, own, item);
    let g = kept_by(s, scratch)?;
    either::<W, S>(s, scratch, g, own, item)
}

// Constrains `g` to be 0, or the numbers of the item to be those of a successor in the same cell.
fn either<const W: u32, S: Sink>(
    s: &mut S,
    scratch: &mut Scratch,
    g: Wire,
    own: &CellWords,
    item: &Pair,
) -> Put<()>
    requires width { IsWidth W }
    requires room { Room S.meaning s.old 0 2 }
    requires g_made { g < S.meaning.wires s.old }
    requires own { AreWordsMade (S.meaning.wires s.old) own.now }
    requires item { IsItemMade (S.meaning.wires s.old) item.now }
    ensures emits { Emits S.meaning s.old s.new
        (either_of (2 ^ W) g own.now item.now) 0 2 result }
{
    scratch.a.set_wire(g);
    set_cell_difference::<W>(&mut scratch.b, own, item.first.terms());
    scratch.c.clear();
    s.put(&scratch.a, &scratch.b, &scratch.c)?;
    set_place_difference::<W>(&mut scratch.b, own, item.second.terms());
    scratch.b.plus(F::ONE, g);
    s.put(&scratch.a, &scratch.b, &scratch.c)
}

// Writes twice the item's second number less 2^(W + 1) times the place, the sum, and twice the
// second word.
fn set_place_difference<const W: u32>(lc: &mut Lc, own: &CellWords, second: &[(F, Wire)])
    requires width { IsWidth W }
    requires sum_short { length own.now.sum ≤ 32 }
    requires own_short { length own.now.second ≤ 32 }
    requires second_short { length second.now ≤ 32 }
    ensures terms { lc.new ≡ place_difference (2 ^ W) own.now second.now }
    ensures len { length lc.new ≤ 97 }
    ensures top { top lc.new ≤ max (max (max 1 (top second.now)) (top own.now.sum))
        (top own.now.second) }
{
    lc.clear();
    lc.add_scaled(F::of(2), second);
    lc.add(minus_unit::<W>() * F::from(own.place), Wire(0));
    lc.add_scaled(-F::ONE, own.sum.terms());
    lc.add_scaled(-F::of(2), own.second.terms());
}

/// Returns how many terms the constraints of `within` have where the item is two wires after those
/// of the own line, as a network's outputs are. Reuses the caller's scratch combination.
pub fn within_terms<const W: u32>(scratch: &mut Lc, m: u32, own: &CellWords) -> u32
    requires width { IsWidth W }
    requires short { m ≤ 30 }
    requires cell_short { length own.now.cell ≤ 32 }
    requires sum_short { length own.now.sum ≤ 32 }
    requires second_short { length own.now.second ≤ 32 }
    ensures is { result ≡ within_terms (2 ^ W) m own.now }
    ensures few { result ≤ 2 ^ 9 }
{
    set_cells_after::<W>(scratch, own, &[]);
    let after = scratch.terms().len();
    set_cell_difference::<W>(scratch, own, &[]);
    let cells = scratch.terms().len();
    set_place_difference::<W>(scratch, own, &[]);
    let places = scratch.terms().len();
    4 * m + 8 + (after + cells + places) as u32
}

/// Assigns the wires of `within` for the own line at its place and the line of the item at its
/// place, below 2^20: the bits of the reach, lowest first, and the excess. Of the own line's pairs
/// only the new one is read, and of the item's none.
pub fn fill_within<const W: u32, V: Values>(
    v: &mut V,
    m: u32,
    own: &DoubleLine,
    place: u32,
    next: &DoubleLine,
    next_place: u32,
) -> Put<()>
    requires width { IsWidth W }
    requires whole { V.giving.broken v.old ≡ false }
    requires short { m ≤ 30 }
    requires placed { next_place < 2 ^ 20 }
    ensures gives { GivesIn V.giving v.old v.new
        (within_values (2 ^ W) m (line_of own.now) place (line_of next.now) next_place) result }
    ensures whole { OnOk result (V.giving.broken v.new ≡ false) }
{
    fill_bits(v, F::from(reach_between(own, place, next, next_place)), m)?;
    v.give(excess_between::<W>(own, place, next, next_place))
}

// How far `next` is after `own`, less 1.
fn reach_between(own: &DoubleLine, place: u32, next: &DoubleLine, next_place: u32) -> u32
    ensures { result ≡ reach_between (line_of own.now) place (line_of next.now) next_place }
{
    if own.cell == next.cell {
        next_place.saturating_sub(place).saturating_sub(1)
    } else {
        next.cell.saturating_sub(own.cell).saturating_sub(1)
    }
}

// The excess.
fn excess_between<const W: u32>(
    own: &DoubleLine,
    place: u32,
    next: &DoubleLine,
    next_place: u32,
) -> F
    requires width { IsWidth W }
    requires placed { next_place < 2 ^ 20 }
    ensures { result ≡ excess_between (2 ^ W) (line_of own.now) place (line_of next.now)
        next_place }
{
    if own.cell == next.cell {
        F::from(own.new.first)
            + F::from(own.new.second)
            + minus_unit::<W>() * F::from(next_place.saturating_sub(place))
    } else {
        F::ZERO
    }
}

/// The laws of `within`:
/// - `sound`: in an assignment that satisfies the constraints of `within`, the line of the item
///   succeeds the own line: it is in a double cell above and its old pair is (0, 0), or it is in
///   the same double cell at a later place, and its old pair is the own line's new one.
/// - `complete`: where it does by a reach of `m` bits, an assignment with the values of
///   `fill_within` meets the constraints of `within`.
/// - `normal`: the constraints of `within` are normal, whatever the own line's combinations are.
/// - `sizes`: `fill_within` assigns one value below P to each wire that `within` makes.
/// - `costs`: the constraints of `within`, and their terms where the item is two wires after those
///   of the own line.
pub fn within_laws()
    ensures sound { WithinIsSound }
    ensures complete { WithinIsComplete }
    ensures normal { WithinIsNormal }
    ensures sizes { WithinSizes }
    ensures costs { WithinCosts }
{}
