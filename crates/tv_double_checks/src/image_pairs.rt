//! An image pair: a line of a double cell whose next double cell is in use too.
ghost use Rattle.std.specs.Prelude.{◌≡◌, ◌+◌, ◌-◌, ◌≤◌, ◌<◌, ◌^◌, [], false, length, max, OnOk};
ghost use Rattle.tv_core.specs.Combinations.{top};
ghost use Rattle.tv_core.specs.Values.{GivesIn};
ghost use Rattle.tv_core.specs.Sinks.{Emits, Room};
ghost use Rattle.tv_core.specs.declared.field.TheConstants.{P};
ghost use Rattle.tv_double_checks.specs.Image.{places_after, place_excess, image_pair_of};
ghost use Rattle.tv_double_checks.specs.Image.{image_pair_values, image_pair_terms};
ghost use Rattle.tv_double_checks.specs.Image.{ImagePairIsSound, ImagePairIsComplete};
ghost use Rattle.tv_double_checks.specs.Image.{ImagePairIsNormal, ImagePairSizes, ImagePairCosts};
ghost use Rattle.tv_double_checks.specs.Items.{AreWordsMade, IsItemMade, line_of};
ghost use Rattle.tv_doubles.specs.Within.{time_between};
ghost use Rattle.tv_word.specs.Widths.{IsWidth};

use crate::differences::{set_cell_difference, set_cells_after};
use crate::double_lines::DoubleLine;
use crate::items::{CellWords, word_count};
use tv_bits::{Bits, fill_bits, new_bits_by};
use tv_core::{F, Lc, Pair, Put, Scratch, Sink, Values, Wire};

/// Constrains the line of `item` to begin at (0, 0) in the double cell after that of `own`, or to
/// succeed in the same one the line that leaves the words `own`, by a reach of `m` bits, at most
/// 30: how many places later it is, less 1. It makes `m` wires and `m + 2` constraints: each bit is
/// 0 or 1, and, b being 2^`W`,
///
/// - `[item.first - 2 b (cell + 1)] [item.first - 2 b cell - sum] = [0]`
/// - `[item.first - 2 b (cell + 1)] [item.second - b (place + 1 + reach) - second] = [0]`
pub fn image_pair<const W: u32, S: Sink>(
    s: &mut S,
    scratch: &mut Scratch,
    m: u32,
    own: &CellWords,
    item: &Pair,
) -> Put<()>
    requires width { IsWidth W }
    requires short { m ≤ 30 }
    requires room { Room S.meaning s.old m (m + 2) }
    requires own { AreWordsMade (S.meaning.wires s.old) own.now }
    requires item { IsItemMade (S.meaning.wires s.old) item.now }
    ensures emits { Emits S.meaning s.old s.new
        (image_pair_of (2 ^ W) m own.now item.now) m (m + 2) result }
{
    let reach = new_bits_by(s, scratch, m)?;
    set_cells_after::<W>(&mut scratch.a, own, item.first.terms());
    set_cell_difference::<W>(&mut scratch.b, own, item.first.terms());
    scratch.c.clear();
    s.put(&scratch.a, &scratch.b, &scratch.c)?;
    set_place_excess::<W>(&mut scratch.b, &reach, own, item.second.terms());
    s.put(&scratch.a, &scratch.b, &scratch.c)
}

// 2^W, by which a place stands above a word, negated.
fn minus_word_count<const W: u32>() -> F
    requires width { IsWidth W }
    ensures { result ≡ P - 2 ^ W }
{
    -word_count::<W>()
}

// Writes the item's second number less 2^W times 1 + the place, and the second word.
fn set_places_after<const W: u32>(lc: &mut Lc, own: &CellWords, second: &[(F, Wire)])
    requires width { IsWidth W }
    requires own_short { length own.now.second ≤ 32 }
    requires second_short { length second.now ≤ 32 }
    ensures terms { lc.new ≡ places_after (2 ^ W) own.now second.now }
    ensures len { length lc.new ≤ 65 }
    ensures top { top lc.new ≤ max (max 1 (top second.now)) (top own.now.second) }
{
    lc.clear();
    lc.add_terms(second);
    lc.add(
        minus_word_count::<W>() * (F::from(own.place) + F::ONE),
        Wire(0),
    );
    lc.add_scaled(-F::ONE, own.second.terms());
}

// Writes the same less 2^W times the reach.
fn set_place_excess<const W: u32>(lc: &mut Lc, reach: &Bits, own: &CellWords, second: &[(F, Wire)])
    requires width { IsWidth W }
    requires short { reach.now.n ≤ 30 }
    requires within { reach.now.first + reach.now.n < 2 ^ 32 }
    requires own_short { length own.now.second ≤ 32 }
    requires second_short { length second.now ≤ 32 }
    ensures terms { lc.new ≡ place_excess (2 ^ W) reach.now own.now second.now }
    ensures top { top lc.new ≤ max (reach.now.first + reach.now.n)
        (max (max 1 (top second.now)) (top own.now.second)) }
{
    set_places_after::<W>(lc, own, second);
    reach.plus_to(lc, minus_word_count::<W>());
}

/// Returns how many terms the constraints of `image_pair` have where the item is two wires after
/// those of the own line. Reuses the caller's scratch combination.
pub fn image_pair_terms<const W: u32>(scratch: &mut Lc, m: u32, own: &CellWords) -> u32
    requires width { IsWidth W }
    requires short { m ≤ 30 }
    requires cell_short { length own.now.cell ≤ 32 }
    requires sum_short { length own.now.sum ≤ 32 }
    requires second_short { length own.now.second ≤ 32 }
    ensures is { result ≡ image_pair_terms (2 ^ W) m own.now }
    ensures few { result ≤ 2 ^ 9 }
{
    set_cells_after::<W>(scratch, own, &[]);
    let after = scratch.terms().len();
    set_cell_difference::<W>(scratch, own, &[]);
    let cells = scratch.terms().len();
    set_places_after::<W>(scratch, own, &[]);
    4 * m + 4 + (2 * after + cells + scratch.terms().len()) as u32
}

/// Assigns the wires of `image_pair` for the own line at its place and the line of the item at its
/// place: the bits of the reach, lowest first. No words are read.
pub fn fill_image_pair<V: Values>(
    v: &mut V,
    m: u32,
    own: &DoubleLine,
    place: u32,
    next: &DoubleLine,
    next_place: u32,
) -> Put<()>
    requires whole { V.giving.broken v.old ≡ false }
    requires short { m ≤ 30 }
    ensures gives { GivesIn V.giving v.old v.new
        (image_pair_values m (line_of own.now) place (line_of next.now) next_place) result }
    ensures whole { OnOk result (V.giving.broken v.new ≡ false) }
{
    fill_bits(v, F::from(time_between(own, place, next, next_place)), m)
}

// How many places `next` is after `own` in the same double cell, less 1.
fn time_between(own: &DoubleLine, place: u32, next: &DoubleLine, next_place: u32) -> u32
    ensures { result ≡ time_between (line_of own.now) place (line_of next.now) next_place }
{
    if own.cell == next.cell {
        next_place.saturating_sub(place).saturating_sub(1)
    } else {
        0
    }
}

/// The laws of `image_pair`:
/// - `sound`: in an assignment that satisfies the constraints of `image_pair`, the line of the item
///   succeeds the own line.
/// - `complete`: where it does, in the same double cell by a reach of `m` bits or in the next one,
///   an assignment with the values of `fill_image_pair` meets the constraints of `image_pair`.
/// - `normal`: the constraints of `image_pair` are normal, whatever the own line's combinations
///   are.
/// - `sizes`: `fill_image_pair` assigns one value below P to each wire that `image_pair` makes.
/// - `costs`: the constraints of `image_pair`, and their terms where the item is two wires after
///   those of the own line: 4 `m` + 8 where the own numbers are constants, and none vanishes.
pub fn image_pair_laws()
    ensures sound { ImagePairIsSound }
    ensures complete { ImagePairIsComplete }
    ensures normal { ImagePairIsNormal }
    ensures sizes { ImagePairSizes }
    ensures costs { ImagePairCosts }
{}
