//! Eight lines at the wires from 1 on.
ghost use Rattle.std.specs.Prelude.{◌≡◌, ◌<◌, false, IfOk};
ghost use Rattle.tv_argument_tests.specs.Wired.{eight_lines, eight_checks, kind_at};

use std::alloc::Global;
use tv_argument::{CompactLines, Kind, LineNumbers};
use tv_core::{F, Line, ListValues, Put, Values, Wire};
use tv_lines::{Cell, CompactLine, Word};

/// The first wire after the lines.
pub const FIRST: u32 = 25;

/// Eight lines, three wires each.
#[derive(Clone, Copy)]
pub struct Wired;

/// The numbers of eight lines.
#[derive(Clone, Copy)]
pub struct Numbered<'a> {
    pub lines: &'a [Line],
}

fn kind(i: u32) -> Kind
    ensures { result ≡ kind_at i }
{
    match i {
        0 => Kind::Least,
        1 => Kind::Boot(0),
        3 => Kind::Within(3),
        _ => Kind::Within(31),
    }
}

impl CompactLines for Wired {
    ghost lines = { λ _. eight_lines };

    ghost checks = { λ _. eight_checks };

    fn line(&self, i: u32) -> CompactLine {
        let first = 3 * i + 1;
        CompactLine {
            cell: Cell::Multiple(F::ONE, Wire(first)),
            time: i,
            old: Word::Wired(Wire(first + 1)),
            new: Word::Wired(Wire(first + 2)),
        }
    }

    fn count(&self) -> u32 {
        8
    }

    fn kind(&self, i: u32) -> Kind {
        kind(i)
    }
}

impl<'a> LineNumbers for Numbered<'a> {
    ghost lines = { λ n. n.lines.now };

    ghost checks = { λ _. eight_checks };

    fn line(&self, i: u32) -> Line {
        self.lines[i as usize]
    }

    fn kind(&self, i: u32) -> Kind {
        kind(i)
    }
}

/// 1, and the numbers of lines.
pub fn wires_of(alloc: Global, lines: &[Line]) -> Put<ListValues>
    ensures { IfOk result (λ values. values.broken ≡ false) }
{
    let mut values = ListValues::new(alloc);
    values.give(F::ONE)?;
    for line in lines {
        values.give(F::from(line.cell))?;
        values.give(F::from(line.old))?;
        values.give(F::from(line.new))?;
    }
    Ok(values)
}
