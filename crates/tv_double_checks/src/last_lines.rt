//! The greatest line in address order, which has no successor.
ghost use Rattle.tv_core.specs.Sinks.{Emits, Room};
ghost use Rattle.tv_double_checks.specs.Items.{IsItemMade};
ghost use Rattle.tv_double_checks.specs.Last.{last_line_of, LastLineIsSound};
ghost use Rattle.tv_double_checks.specs.Last.{LastLineIsComplete, LastLineSizes};

use tv_core::{Pair, Put, Scratch, Sink, Wire};

/// Constrains the line of `item` to begin at (0, 0) in double cell 0, as the least line of all
/// does. It makes no wire and 1 constraint, `[item.first] [1] = [0]`.
pub fn last_line<S: Sink>(s: &mut S, scratch: &mut Scratch, item: &Pair) -> Put<()>
    requires room { Room S.meaning s.old 0 1 }
    requires item { IsItemMade (S.meaning.wires s.old) item.now }
    ensures emits { Emits S.meaning s.old s.new (last_line_of item.now) 0 1 result }
{
    scratch.a.clear();
    scratch.a.add_terms(item.first.terms());
    scratch.b.set_wire(Wire(0));
    scratch.c.clear();
    s.put(&scratch.a, &scratch.b, &scratch.c)
}

/// The laws of `last_line`:
/// - `sound`: in an assignment that meets the constraint of `last_line`, the line of the item is in
///   double cell 0, and its old pair is (0, 0).
/// - `complete`: where it is, an assignment meets the constraint of `last_line`.
/// - `sizes`: `last_line` makes no wire, and one constraint, which is normal; it has 2 terms where
///   the item is two wires.
pub fn last_line_laws()
    ensures sound { LastLineIsSound }
    ensures complete { LastLineIsComplete }
    ensures sizes { LastLineSizes }
{}
