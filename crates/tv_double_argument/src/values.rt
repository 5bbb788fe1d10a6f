//! The values of the argument's wires.
ghost use Rattle.std.specs.Prelude.{◌≡◌, ℕ, ◌-◌, ◌^◌, ◌<◌, ◌≤◌, false, length, OnOk};
ghost use Rattle.tv_core.specs.Below.{joined_below};
ghost use Rattle.tv_core.specs.Values.{GivesIn};
ghost use Rattle.tv_double_argument.specs.Checks.{AreShort, check_values, reach_bits};
ghost use Rattle.tv_double_argument.specs.Order.{argument_values, items_in, line_read};
ghost use Rattle.tv_double_argument.specs.Order.{place_read, IsItem, routed_check, successors};
ghost use Rattle.tv_double_checks.specs.Items.{line_of};
ghost use Rattle.tv_doubles.specs.Within.{DoubleInRange};
ghost use Rattle.tv_network.specs.Filling.{pair_at};
ghost use Rattle.tv_stages.specs.Settings.{settings_of};
ghost use Rattle.tv_word.specs.Widths.{IsWidth};

use crate::argument::network_on;
use crate::kinds::Kind;
use crate::lines::DoubleNumbers;
use tv_core::{PairNum, Put, Values};
use tv_double_checks::{DoubleLine, WordPair, fill_guard, fill_image_pair, fill_within};
use tv_network::fill_network;
use tv_stages::Net;

/// Assigns the wires of `memory` for 1 to 2^20 lines in time order. `items` are the lines' items,
/// and `bits` the settings that bring to each place the item of its successor. The items are moved
/// in place; their order is unspecified afterwards. It asks `lines` for each line. It takes time
/// linear in the number of wires, and no memory.
pub fn fill_argument<const W: u32, V: Values, L: DoubleNumbers>(
    v: &mut V,
    net: Net,
    items: &mut [PairNum],
    bits: &[bool],
    lines: &L,
) -> Put<()>
    requires width { IsWidth W }
    requires whole { V.giving.broken v.old ≡ false }
    requires few { (L.numbers lines.now).count ≤ 2 ^ 20 }
    requires short { AreShort (L.numbers lines.now).kind (L.numbers lines.now).count }
    requires in_range { (i : ℕ) → i < (L.numbers lines.now).count
        → DoubleInRange (2 ^ W) ((L.numbers lines.now).line i) }
    requires items { items.old ≡ items_in (2 ^ W) (L.numbers lines.now) }
    requires bits { bits.now ≡ settings_of net
        (successors (L.numbers lines.now).count (L.numbers lines.now).line) }
    ensures gives { GivesIn V.giving v.old v.new
        (argument_values net (2 ^ W) (L.numbers lines.now)) result }
    ensures whole { OnOk result (V.giving.broken v.new ≡ false) }
{
    fill_network(v, network_on(net, items.len() as u32), items, bits)?;
    fill_checks::<W, V, L>(v, items, lines)
}

// Assigns the wires of the checks of all lines but the last, against the items at their places.
fn fill_checks<const W: u32, V: Values, L: DoubleNumbers>(
    v: &mut V,
    items: &[PairNum],
    lines: &L,
) -> Put<()>
    requires width { IsWidth W }
    requires whole { V.giving.broken v.old ≡ false }
    requires few { length items.now ≤ 2 ^ 20 }
    requires many { length items.now ≡ (L.numbers lines.now).count }
    requires short { AreShort (L.numbers lines.now).kind (L.numbers lines.now).count }
    requires read { (i : ℕ) → i < length items.now → IsItem (2 ^ W) (pair_at items.now i) }
    ensures gives { GivesIn V.giving v.old v.new (joined_below (length items.now - 1)
        (λ i. routed_check (2 ^ W) (L.numbers lines.now) (pair_at items.now) i)) result }
    ensures whole { OnOk result (V.giving.broken v.new ≡ false) }
{
    for i in 0..items.len().saturating_sub(1) {
        let place = i as u32;
        fill_check::<W, V>(v, lines.kind(place), &lines.line(place), place, &items[i])?;
    }
    Ok(())
}

// Assigns the wires of the check of a line at a place, against an item.
fn fill_check<const W: u32, V: Values>(
    v: &mut V,
    kind: Kind,
    line: &DoubleLine,
    place: u32,
    item: &PairNum,
) -> Put<()>
    requires width { IsWidth W }
    requires whole { V.giving.broken v.old ≡ false }
    requires short { reach_bits kind ≤ 30 }
    requires read { IsItem (2 ^ W) item.now }
    ensures gives { GivesIn V.giving v.old v.new
        (check_values (2 ^ W) kind (line_of line.now) place (line_read (2 ^ W) item.now)
        (place_read (2 ^ W) item.now)) result }
    ensures whole { OnOk result (V.giving.broken v.new ≡ false) }
{
    let next = line_read::<W>(item);
    let next_place = place_read::<W>(item);
    match kind {
        Kind::Within(bits) => fill_within::<W, V>(v, bits, line, place, &next, next_place),
        Kind::Image(bits) => fill_image_pair(v, bits, line, place, &next, next_place),
        Kind::Tape => Ok(()),
        Kind::Guard(bits) => fill_guard(v, bits, line, &next),
    }
}

// The line of an item, by its double cell alone.
fn line_read<const W: u32>(item: &PairNum) -> DoubleLine
    requires width { IsWidth W }
    requires read { IsItem (2 ^ W) item.now }
    ensures { line_of result ≡ line_read (2 ^ W) item.now }
{
    let none = WordPair {
        first: 0,
        second: 0,
    };
    DoubleLine {
        cell: (item.first.number() >> (W + 1)) as u32,
        old: none,
        new: none,
    }
}

// The place of an item.
fn place_read<const W: u32>(item: &PairNum) -> u32
    requires width { IsWidth W }
    requires read { IsItem (2 ^ W) item.now }
    ensures { result ≡ place_read (2 ^ W) item.now }
{
    (item.second.number() >> W) as u32
}
