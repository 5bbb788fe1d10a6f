//! A guard: a line of a double cell that leaves (0, 0), so that the next line is near.
ghost use Rattle.std.specs.Prelude.{◌≡◌, ◌+◌, ◌≤◌, ◌^◌, [], false, length, OnOk};
ghost use Rattle.tv_core.specs.Values.{GivesIn};
ghost use Rattle.tv_core.specs.Sinks.{Emits, Room};
ghost use Rattle.tv_double_checks.specs.Guard.{guard_of, guard_values, guard_terms};
ghost use Rattle.tv_double_checks.specs.Guard.{GuardIsSound, GuardIsComplete, GuardIsNormal};
ghost use Rattle.tv_double_checks.specs.Guard.{GuardSizes, GuardCosts};
ghost use Rattle.tv_double_checks.specs.Items.{AreWordsMade, IsItemMade, line_of};
ghost use Rattle.tv_doubles.specs.Within.{cells_between};
ghost use Rattle.tv_word.specs.Widths.{IsWidth};

use crate::differences::{set_cell_difference, set_cells_after, set_excess};
use crate::double_lines::DoubleLine;
use crate::items::CellWords;
use tv_bits::{fill_bits, new_bits_by};
use tv_core::{F, Lc, Pair, Put, Scratch, Sink, Values};

/// Constrains the line of `item` to begin at (0, 0), in the double cell `own` or in one above, by a
/// reach of `m` bits, at most 30: how many double cells above it is, less 1. The own pair has to be
/// (0, 0). It makes `m` wires and `m + 1` constraints: each bit is 0 or 1, and, b being 2^`W`,
/// `[item.first - 2 b cell - sum] [item.first - 2 b (cell + 1 + reach)] = [0]`.
pub fn guard<const W: u32, S: Sink>(
    s: &mut S,
    scratch: &mut Scratch,
    m: u32,
    own: &CellWords,
    item: &Pair,
) -> Put<()>
    requires width { IsWidth W }
    requires short { m ≤ 30 }
    requires room { Room S.meaning s.old m (m + 1) }
    requires own { AreWordsMade (S.meaning.wires s.old) own.now }
    requires item { IsItemMade (S.meaning.wires s.old) item.now }
    ensures emits { Emits S.meaning s.old s.new
        (guard_of (2 ^ W) m own.now item.now) m (m + 1) result }
{
    let reach = new_bits_by(s, scratch, m)?;
    set_cell_difference::<W>(&mut scratch.a, own, item.first.terms());
    set_excess::<W>(&mut scratch.b, &reach, own, item);
    scratch.c.clear();
    s.put(&scratch.a, &scratch.b, &scratch.c)
}

/// Returns how many terms the constraints of `guard` have where the item is two wires after those
/// of the own line. Reuses the caller's scratch combination.
pub fn guard_terms<const W: u32>(scratch: &mut Lc, m: u32, own: &CellWords) -> u32
    requires width { IsWidth W }
    requires short { m ≤ 30 }
    requires cell_short { length own.now.cell ≤ 32 }
    requires sum_short { length own.now.sum ≤ 32 }
    ensures is { result ≡ guard_terms (2 ^ W) m own.now }
    ensures few { result ≤ 2 ^ 9 }
{
    set_cells_after::<W>(scratch, own, &[]);
    let after = scratch.terms().len();
    set_cell_difference::<W>(scratch, own, &[]);
    4 * m + 2 + (after + scratch.terms().len()) as u32
}

/// Assigns the wires of `guard` for the own line and the line of the item: the bits of the reach,
/// lowest first. Only the double cells are read.
pub fn fill_guard<V: Values>(v: &mut V, m: u32, own: &DoubleLine, next: &DoubleLine) -> Put<()>
    requires whole { V.giving.broken v.old ≡ false }
    requires short { m ≤ 30 }
    ensures gives { GivesIn V.giving v.old v.new
        (guard_values m (line_of own.now) (line_of next.now)) result }
    ensures whole { OnOk result (V.giving.broken v.new ≡ false) }
{
    fill_bits(v, F::from(cells_between(own, next)), m)
}

// How many double cells `next` is above `own`, less 1.
fn cells_between(own: &DoubleLine, next: &DoubleLine) -> u32
    ensures { result ≡ cells_between (line_of own.now) (line_of next.now) }
{
    if own.cell == next.cell {
        0
    } else {
        next.cell.saturating_sub(own.cell).saturating_sub(1)
    }
}

/// The laws of `guard`:
/// - `sound`: in an assignment that satisfies the constraints of `guard`, the line of the item
///   begins at (0, 0), in the own double cell or in one above.
/// - `complete`: where it succeeds the own line by a reach of `m` bits, an assignment with the
///   values of `fill_guard` meets the constraints of `guard`.
/// - `normal`: the constraints of `guard` are normal, whatever the own line's combinations are.
/// - `sizes`: `fill_guard` assigns one value below P to each wire that `guard` makes.
/// - `costs`: the constraints of `guard`, and their terms where the item is two wires after those
///   of the own line: 4 `m` + 4 where the double cell is a constant other than 0.
pub fn guard_laws()
    ensures sound { GuardIsSound }
    ensures complete { GuardIsComplete }
    ensures normal { GuardIsNormal }
    ensures sizes { GuardSizes }
    ensures costs { GuardCosts }
{}
