//! A line held to the latest earlier line of its cell.
ghost use Rattle.std.specs.Prelude.{◌≡◌, ◌+◌, ◌*◌, ◌≤◌, ◌<◌, ◌∷◌, ◌++◌, ◌==◌, [], false};
ghost use Rattle.std.specs.Prelude.{if◌then◌else◌, length, map, All, IfOk, OnOk};
ghost use Rattle.tv_bits.specs.Zero.{zero_values};
ghost use Rattle.tv_core.specs.Combinations.{top};
ghost use Rattle.tv_core.specs.Values.{GivesIn};
ghost use Rattle.tv_core.specs.Sinks.{Emits, Room};
ghost use Rattle.tv_lines.specs.PackedLines.{line_of_numbers};
ghost use Rattle.tv_scan.specs.Scan.{IsMade, look_of, scan_of, scan_values, ScanIsSound};
ghost use Rattle.tv_scan.specs.Scan.{ScanIsComplete, ScanSizes};

use tv_bits::{fill_zero, select, zero};
use tv_core::{F, Lc, LineLc, LineNum, Put, Sink, Values, Wire};

/// Constrains a line's old word to the new one of the latest earlier line of its cell, or to 0
/// where there is none. The combinations of cells and of new words have at most 64 terms. Makes 3
/// wires and 3 constraints for each earlier line, and 1 constraint.
pub fn scan<S: Sink>(s: &mut S, earlier: &[LineLc], line: &LineLc) -> Put<()>
    requires room { Room S.meaning s.old (3 * length earlier.now) (3 * length earlier.now + 1) }
    requires earlier_made { All (IsMade (S.meaning.wires s.old)) earlier.now }
    requires line_made { IsMade (S.meaning.wires s.old) line.now }
    ensures emits { Emits S.meaning s.old s.new
        (scan_of earlier.now line.now)
        (3 * length earlier.now) (3 * length earlier.now + 1) result }
{
    let mut word = Lc::empty();
    for before in earlier {
        let w = look(s, before, line, &word)?;
        word.set_wire(w);
    }
    s.put(&word, &Lc::constant(F::ONE), &line.old)
}

// A wire that is the new word of an earlier line where that has the line's cell, and else `word`.
fn look<S: Sink>(s: &mut S, before: &LineLc, line: &LineLc, word: &Lc) -> Put<Wire>
    requires room { Room S.meaning s.old 3 3 }
    requires before_made { IsMade (S.meaning.wires s.old) before.now }
    requires line_made { IsMade (S.meaning.wires s.old) line.now }
    requires word_made { top word.now ≤ S.meaning.wires s.old }
    requires word_short { length word.now ≤ 64 }
    ensures emits { Emits S.meaning s.old s.new (look_of before.now line.now word.now) 3 3 result }
    ensures below { IfOk result (λ w. w < S.meaning.wires s.new) }
{
    let mut apart = Lc::from_terms(line.cell.terms());
    apart.minus(&before.cell);
    let same = zero(s, &apart)?;
    select(s, same, &before.new, word)
}

/// Assigns the values of the wires that `scan` makes for these lines.
pub fn fill_scan<V: Values>(v: &mut V, earlier: &[LineNum], line: &LineNum) -> Put<()>
    requires { V.giving.broken v.old ≡ false }
    ensures gives { GivesIn V.giving v.old v.new
        (scan_values (map line_of_numbers earlier.now) (line_of_numbers line.now)) result }
    ensures whole { OnOk result (V.giving.broken v.new ≡ false) }
{
    let mut word = F::ZERO;
    for before in earlier {
        word = left(before, line, word);
        fill_look(v, line.cell - before.cell, word)?;
    }
    Ok(())
}

// What a line leaves in another's cell, where `word` was in it.
fn left(before: &LineNum, line: &LineNum, word: F) -> F
    ensures { result ≡ (if before.now.cell == line.now.cell then before.now.new else word) }
{
    if before.cell == line.cell {
        before.new
    } else {
        word
    }
}

// Assigns the values of the wires that `look` makes, `apart` being what the cells are apart.
fn fill_look<V: Values>(v: &mut V, apart: F, word: F) -> Put<()>
    requires { V.giving.broken v.old ≡ false }
    ensures gives { GivesIn V.giving v.old v.new (zero_values apart ++ word ∷ []) result }
    ensures whole { OnOk result (V.giving.broken v.new ≡ false) }
{
    fill_zero(v, apart)?;
    v.give(word)
}

/// The laws of `scan`:
/// - `sound`: in an assignment that satisfies the constraints of `scan`, the old word is the new
///   one of the latest earlier line of the cell, or 0 where there is none.
/// - `complete`: where the line's old word is that one, an assignment that has the values that
///   `fill_scan` assigns satisfies the constraints of `scan`.
/// - `sizes`: `fill_scan` assigns as many values as `scan` makes wires, each below P.
pub fn scan_laws()
    ensures sound { ScanIsSound }
    ensures complete { ScanIsComplete }
    ensures sizes { ScanSizes }
{}
