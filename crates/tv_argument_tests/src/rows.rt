//! Eight honest lines of four cells.
ghost use Rattle.std.specs.Prelude.{◌≡◌, length, map, IfOk};
ghost use Rattle.tv_lines.specs.PackedLines.{unpacked};
ghost use Rattle.tv_lines.specs.Placed.{LinesFrom};

use std::alloc::Global;
use std::test::Fail;
use tv_core::{F, Line, LineNum, PairNum};
use tv_lines::pack_item;

/// A line.
pub fn line(cell: u32, time: u32, old: u32, new: u32) -> Line
    ensures cell { result.cell ≡ cell }
    ensures time { result.time ≡ time }
{
    Line {
        cell,
        time,
        old,
        new,
    }
}

/// A line's cell, time, old word and new word.
pub type Numbers = (u32, u32, u32, u32);

/// The line of these numbers.
pub fn line_of(numbers: &Numbers) -> Line {
    let (cell, time, old, new) = *numbers;
    line(cell, time, old, new)
}

/// Honest lines in time order: two words of an image, and lines of three steps, the last of a cell
/// far above.
pub fn honest() -> [Line; 8] {
    [
        line(0, 0, 0, 5),
        line(1, 1, 0, 7),
        line(0, 2, 5, 5),
        line(1, 3, 7, 7),
        line(9, 4, 0, 6),
        line(0, 5, 5, 5),
        line(9, 6, 6, 2),
        line(1_610_612_736, 7, 0, 0),
    ]
}

/// In address order these are the lines 0, 2, 5, then 1, 3, then 4, 6, then 7: the place of each
/// one's predecessor.
pub const PREDECESSORS: [u32; 8] = [7, 5, 0, 1, 3, 2, 4, 6];

/// A line's numbers.
pub fn numbers(line: &Line) -> LineNum {
    LineNum {
        cell: F::from(line.cell),
        time: F::from(line.time),
        old: F::from(line.old),
        new: F::from(line.new),
    }
}

/// The items of lines, each of which has its place for its time.
pub fn items(alloc: Global, lines: &[Line; 8]) -> Result<Vec<PairNum>, Fail>
    ensures many { IfOk result (λ items. length items.items ≡ 8) }
    ensures times { IfOk result (λ items. LinesFrom 0 (map unpacked items.items)) }
{
    let mut items = Vec::new(alloc);
    for time in 0..8 {
        let cell = lines[time as usize].cell;
        if cell >= 1 << 31 {
            return Err(Fail::from("no cell"));
        }
        let new = lines[time as usize].new;
        items.push(pack_item(&line(cell, time, 0, new)))?;
    }
    Ok(items)
}
