//! Lines in numbers, and the orders in which they are listed.
ghost use Rattle.std.specs.Prelude.{◌≡◌};
ghost use Rattle.tv_listing.specs.Row.{row_line};
ghost use Rattle.tv_lines.specs.PackedLines.{line_value};

use tv_core::{F, Line, LineLc};

/// The order in which lines are listed.
#[derive(Clone, Copy, PartialEq, Eq, Debug)]
pub enum By {
    /// As they follow each other in time.
    Time,
    /// By cell, and those of one cell by time, then by old and by new word.
    Cell,
}

/// A line in numbers, which may be any of the field; rows compare in the order of these.
#[derive(Clone, Copy, PartialEq, Eq, PartialOrd, Ord)]
pub(crate) struct ListedLine {
    pub(crate) cell: u64,
    pub(crate) time: u64,
    pub(crate) old: u64,
    pub(crate) new: u64,
}

impl ListedLine {
    /// Returns the line that an assignment has.
    pub(crate) fn valued(line: &LineLc, z: &[F]) -> ListedLine
        ensures { row_line result ≡ line_value z.now line.now }
    {
        ListedLine {
            cell: line.cell.value_in(z).number(),
            time: line.time.value_in(z).number(),
            old: line.old.value_in(z).number(),
            new: line.new.value_in(z).number(),
        }
    }

    /// Returns a line of a trace.
    pub(crate) fn of(line: &Line) -> ListedLine
        ensures { row_line result ≡ line.now }
    {
        ListedLine {
            cell: u64::from(line.cell),
            time: u64::from(line.time),
            old: u64::from(line.old),
            new: u64::from(line.new),
        }
    }
}
