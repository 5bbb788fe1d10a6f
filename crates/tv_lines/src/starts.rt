//! Lines that begin a cell: boot lines, and the least line of all.
ghost use Rattle.std.specs.Prelude.{◌≡◌, ◌^◌, ◌≤◌, length, max};
ghost use Rattle.tv_core.specs.Combinations.{top, constant};
ghost use Rattle.tv_core.specs.Sinks.{Emits, Room};
ghost use Rattle.tv_lines.specs.Predecessor.{IsLineMade, IsItemMade, less_above};
ghost use Rattle.tv_lines.specs.Starts.{boot_line_of, BootLineIsSound, BootLineIsComplete};
ghost use Rattle.tv_lines.specs.Starts.{BootLineSizes, boot_line_terms, least_line_of};
ghost use Rattle.tv_lines.specs.Starts.{LeastLineIsSound, least_line_terms};
ghost use Rattle.tv_lines.specs.Starts.{LeastLineIsComplete, LeastLineSizes};
ghost use Rattle.tv_lines.specs.Compact.{line_lc};

use crate::compact::{CompactLine, subtract_number_above};
use tv_core::{Lc, Pair, Put, Scratch, Sink, Wire};

/// Constrains the line of `item` to be of cell `c`. Then a boot line of cell `c + 1`, whose old
/// word is the constant 0, follows it. It makes no wire and 1 constraint,
/// `[item.first - 2^32 c] [1] = [0]`.
pub fn boot_line<S: Sink>(s: &mut S, scratch: &mut Scratch, c: u32, item: &Pair) -> Put<()>
    requires room { Room S.meaning s.old 0 1 }
    requires item { IsItemMade (S.meaning.wires s.old) item.now }
    ensures emits { Emits S.meaning s.old s.new (boot_line_of c item.now) 0 1 result }
{
    set_cells(&mut scratch.a, c, item);
    scratch.b.set_wire(Wire(0));
    scratch.c.clear();
    s.put(&scratch.a, &scratch.b, &scratch.c)
}

// Writes the item's cell less `c`, 2^32 times.
fn set_cells(lc: &mut Lc, c: u32, item: &Pair)
    requires first_short { length item.now.first ≤ 32 }
    ensures terms { lc.new ≡ less_above item.now.first (constant c) }
    ensures top { top lc.new ≤ max 1 (top item.now.first) }
{
    lc.clear();
    lc.add_terms(item.first.terms());
    subtract_number_above(lc, c);
}

/// Returns how many terms the constraint of `boot_line` has where the item is two wires. Reuses the
/// caller's scratch combination.
pub fn boot_line_terms(scratch: &mut Lc, c: u32) -> u32
    ensures is { result ≡ boot_line_terms c }
    ensures few { result ≤ 2 ^ 8 }
{
    scratch.clear();
    subtract_number_above(scratch, c);
    scratch.terms().len() as u32 + 2
}

/// Constrains the old word of `line` to be 0, as that of the least line is. It makes no wire and 1
/// constraint, `[old] [1] = [0]`.
pub fn least_line<S: Sink>(s: &mut S, scratch: &mut Scratch, line: &CompactLine) -> Put<()>
    requires room { Room S.meaning s.old 0 1 }
    requires line { IsLineMade (S.meaning.wires s.old) line.now }
    ensures emits { Emits S.meaning s.old s.new (least_line_of (line_lc line.now)) 0 1 result }
{
    scratch.a.clear();
    line.old.add_to(&mut scratch.a);
    scratch.b.set_wire(Wire(0));
    scratch.c.clear();
    s.put(&scratch.a, &scratch.b, &scratch.c)
}

/// Returns how many terms the constraint of `least_line` has. Reuses the caller's scratch
/// combination.
pub fn least_line_terms(scratch: &mut Lc, line: &CompactLine) -> u32
    ensures is { result ≡ least_line_terms (line_lc line.now) }
    ensures few { result ≤ 2 ^ 8 }
{
    scratch.clear();
    line.old.add_to(scratch);
    scratch.terms().len() as u32 + 1
}

/// The laws of `boot_line`:
/// - `sound`: in an assignment that meets the constraint of `boot_line`, a line of the next cell
///   whose old word is 0 follows that of the item.
/// - `complete`: where the item is of that cell, an assignment meets the constraint of `boot_line`.
/// - `sizes`: `boot_line` makes no wire, and one constraint, which is normal.
pub fn boot_line_laws()
    ensures sound { BootLineIsSound }
    ensures complete { BootLineIsComplete }
    ensures sizes { BootLineSizes }
{}

/// The laws of `least_line`:
/// - `sound`: in an assignment that meets the constraint of `least_line`, the line's old word is 0.
/// - `complete`: where the line's old word is 0, an assignment meets the constraint of
///   `least_line`.
/// - `sizes`: `least_line` makes no wire, and one constraint, which is normal.
pub fn least_line_laws()
    ensures sound { LeastLineIsSound }
    ensures complete { LeastLineIsComplete }
    ensures sizes { LeastLineSizes }
{}
