//! The values of the argument's wires.
ghost use Rattle.std.specs.Prelude.{◌≡◌, ◌^◌, ◌≤◌, false, length, OnOk};
ghost use Rattle.tv_core.specs.Values.{GivesIn};
ghost use Rattle.tv_lines.specs.PackedLines.{unpacked};
ghost use Rattle.tv_argument.specs.Checks.{AreShort, IsShortKind, check_values};
ghost use Rattle.tv_argument.specs.Memory.{checks_values, routed_values};
ghost use Rattle.tv_network.specs.Filling.{pair_at};
ghost use Rattle.tv_stages.specs.Stages.{bit_in};

use crate::argument::network_on;
use crate::kinds::Kind;
use crate::lines::LineNumbers;
use tv_core::{Line, PairNum, Put, Values};
use tv_lines::fill_follows;
use tv_network::fill_network;
use tv_stages::Net;

/// Assigns the wires of `memory` for at most 2^20 lines in time order. `items` are the lines'
/// items, and the settings `bits` send them through the network; the values meet the constraints
/// where the lines are honest and the settings bring to each the item of its predecessor. The items
/// are moved in place; their order is unspecified afterwards. It asks `lines` for each line. It
/// takes time linear in the number of wires, and no memory.
pub fn fill_argument<V: Values, L: LineNumbers>(
    v: &mut V,
    net: Net,
    items: &mut [PairNum],
    bits: &[bool],
    lines: &L,
) -> Put<()>
    requires whole { V.giving.broken v.old ≡ false }
    requires few { length items.old ≤ 2 ^ 20 }
    requires items { length items.old ≡ length (L.lines lines.now) }
    requires checks { AreShort (L.checks lines.now) (length (L.lines lines.now)) }
    ensures gives { GivesIn V.giving v.old v.new (routed_values net (L.checks lines.now)
        (bit_in net (length items.old) bits.now) items.old (L.lines lines.now)) result }
    ensures whole { OnOk result (V.giving.broken v.new ≡ false) }
{
    fill_network(v, network_on(net, items.len() as u32), items, bits)?;
    fill_checks(v, items, lines)
}

// Assigns the wires of the checks, against the items at the lines' places.
fn fill_checks<V: Values, L: LineNumbers>(v: &mut V, items: &[PairNum], lines: &L) -> Put<()>
    requires whole { V.giving.broken v.old ≡ false }
    requires few { length items.now ≤ 2 ^ 20 }
    requires items { length items.now ≡ length (L.lines lines.now) }
    requires checks { AreShort (L.checks lines.now) (length (L.lines lines.now)) }
    ensures gives { GivesIn V.giving v.old v.new
        (checks_values (L.checks lines.now) (pair_at items.now) (L.lines lines.now)) result }
    ensures whole { OnOk result (V.giving.broken v.new ≡ false) }
{
    for (i, item) in items.iter().enumerate() {
        let i = i as u32;
        fill_check(v, lines.kind(i), item, &lines.line(i))?;
    }
    Ok(())
}

// Assigns the wires of one check.
fn fill_check<V: Values>(v: &mut V, kind: Kind, item: &PairNum, line: &Line) -> Put<()>
    requires whole { V.giving.broken v.old ≡ false }
    requires short { IsShortKind kind }
    ensures gives { GivesIn V.giving v.old v.new
        (check_values kind (unpacked item.now) line.now) result }
    ensures whole { OnOk result (V.giving.broken v.new ≡ false) }
{
    match kind {
        Kind::ZeroOld | Kind::Least | Kind::Boot(_) => Ok(()),
        Kind::Within(bits) => fill_follows(v, bits, item, line),
    }
}
