//! A tape word: a line of a double cell whose second word is 0, and whose next double cell is in
//! use too.
ghost use Rattle.std.specs.Prelude.{◌≡◌, ◌≤◌, ◌^◌, [], length};
ghost use Rattle.tv_core.specs.Sinks.{Emits, Room};
ghost use Rattle.tv_double_checks.specs.Items.{AreWordsMade, IsItemMade};
ghost use Rattle.tv_double_checks.specs.Tape.{tape_word_of, tape_word_terms, TapeWordSizes};
ghost use Rattle.tv_double_checks.specs.Tape.{TapeWordIsSound, TapeWordIsComplete};
ghost use Rattle.tv_word.specs.Widths.{IsWidth};

use crate::differences::{set_cell_difference, set_cells_after};
use crate::items::CellWords;
use tv_core::{Lc, Pair, Put, Scratch, Sink};

/// Constrains the line of `item` to begin at (0, 0) in the double cell after that of `own`, or to
/// begin in the same one with the words `own`, of which the second one is 0. It makes no wire and 1
/// constraint, `[item.first - 2 b (cell + 1)] [item.first - 2 b cell - sum] = [0]`, b being 2^`W`.
pub fn tape_word<const W: u32, S: Sink>(
    s: &mut S,
    scratch: &mut Scratch,
    own: &CellWords,
    item: &Pair,
) -> Put<()>
    requires width { IsWidth W }
    requires room { Room S.meaning s.old 0 1 }
    requires own { AreWordsMade (S.meaning.wires s.old) own.now }
    requires item { IsItemMade (S.meaning.wires s.old) item.now }
    ensures emits { Emits S.meaning s.old s.new
        (tape_word_of (2 ^ W) own.now item.now) 0 1 result }
{
    set_cells_after::<W>(&mut scratch.a, own, item.first.terms());
    set_cell_difference::<W>(&mut scratch.b, own, item.first.terms());
    scratch.c.clear();
    s.put(&scratch.a, &scratch.b, &scratch.c)
}

/// Returns how many terms the constraint of `tape_word` has where the item is two wires after those
/// of the own line. Reuses the caller's scratch combination.
pub fn tape_word_terms<const W: u32>(scratch: &mut Lc, own: &CellWords) -> u32
    requires width { IsWidth W }
    requires cell_short { length own.now.cell ≤ 32 }
    requires sum_short { length own.now.sum ≤ 32 }
    ensures is { result ≡ tape_word_terms (2 ^ W) own.now }
    ensures few { result ≤ 2 ^ 9 }
{
    set_cells_after::<W>(scratch, own, &[]);
    let after = scratch.terms().len();
    set_cell_difference::<W>(scratch, own, &[]);
    (after + scratch.terms().len()) as u32 + 2
}

/// The laws of `tape_word`:
/// - `sound`: in an assignment that meets the constraint of `tape_word`, the line of the item
///   begins at (0, 0) in the next double cell, or in the same one with the own words, where both
///   second words are 0.
/// - `complete`: where it succeeds the own line, at most in the next double cell, an assignment
///   meets the constraint of `tape_word`.
/// - `sizes`: `tape_word` makes no wire, and one constraint, which is normal; its terms where the
///   item is two wires after those of the own line: 5 where the double cell is a constant other
///   than 0, and the word a wire.
pub fn tape_word_laws()
    ensures sound { TapeWordIsSound }
    ensures complete { TapeWordIsComplete }
    ensures sizes { TapeWordSizes }
{}
