//! A line against the item of its predecessor.
ghost use Rattle.std.specs.Prelude.{◌≤◌};

use crate::rows::{Numbers, line_of};
use std::alloc::Global;
use std::test::Fail;
use tv_core::{F, Lc, Line, ListValues, Pair, PairNum, Scratch, TestSink, Wire, give_values};
use tv_lines::{Cell, CompactLine, Word, fill_follows, follows};

// How many of the constraints for a line after another fail over the values for both. The line's
// cell and old word are wires 1 and 2, the item of the other one is wires 3 and 4.
fn failing(alloc: Global, bits: u32, before: &Line, after: &Line) -> Result<u32, Fail>
    requires short { bits ≤ 31 }
{
    let item = PairNum {
        first: F::of(u64::from(before.cell) << 32),
        second: F::of((u64::from(before.time) << 32) + u64::from(before.new)),
    };
    let mut values = ListValues::new(alloc);
    let (cell, old) = (F::from(after.cell), F::from(after.old));
    give_values(&mut values, &[F::ONE, cell, old, item.first, item.second])?;
    fill_follows(&mut values, bits, &item, after)?;
    let line = CompactLine {
        cell: Cell::Multiple(F::ONE, Wire(1)),
        time: after.time,
        old: Word::Wired(Wire(2)),
        new: Word::Nothing,
    };
    let wires = Pair {
        first: Lc::wire(Wire(3)),
        second: Lc::wire(Wire(4)),
    };
    let mut tests = TestSink::over(values.as_slice(), 5);
    follows(&mut tests, &mut Scratch::new(), bits, &line, &wires)?;
    Ok(tests.tested().saturating_sub(tests.held()))
}

const LOW: Numbers = (0, 1, 0, 0xffff_ffff);

const HIGH: Numbers = (0x7fff_ffff, 0, 0, 5);

const LAST: Numbers = (0x7fff_ffff, 1, 5, 5);

// How many bits a reach has, a line and one after it, and whether that may be.
static PAIRS: [(u32, Numbers, Numbers, bool); 9] = [
    // the same cell, as far as times reach; cells as far apart as they are; neighbours in time
    (31, LOW, (0, 0xf_ffff, 0xffff_ffff, 0), true),
    (31, LOW, HIGH, true),
    (31, HIGH, LAST, true),
    (1, HIGH, LAST, true),
    // another old word; the same time; an old word in a new cell; a cell below; too short a reach
    (31, LOW, (0, 0xf_ffff, 0, 0), false),
    (31, LOW, (0, 1, 0xffff_ffff, 0), false),
    (31, LOW, (1, 0xf_ffff, 0xffff_ffff, 0), false),
    (31, HIGH, LOW, false),
    (30, LOW, HIGH, false),
];

#[test]
fn lines_at_the_ends_of_the_ranges(rt: HostRuntime) -> Result<(), Fail> {
    for (bits, before, after, holds) in &PAIRS {
        let (first, second) = (line_of(before), line_of(after));
        let failing = failing(rt.alloc(), (*bits).min(31), &first, &second)?;
        assert!(rt; (failing == 0) == *holds, "{before:?} {after:?}");
    }
    Ok(())
}
