//! The scan over lines of one cell among others.
ghost use Rattle.std.specs.Prelude.{ℕ, ◌≤◌};
ghost use Rattle.tv_core.specs.Sinks.{Room};
ghost use Rattle.tv_scan.specs.Scan.{IsMade};

use crate::rows::{honest, numbers};
use std::alloc::Global;
use std::test::Fail;
use tv_core::{F, Lc, Line, LineLc, ListValues, Put, Sink, TestSink, Values};
use tv_scan::{fill_scan, scan};

fn constants(line: &Line) -> LineLc
    ensures { (wires : ℕ) → 1 ≤ wires → IsMade wires result }
{
    LineLc {
        cell: Lc::constant(F::from(line.cell)),
        time: Lc::constant(F::from(line.time)),
        old: Lc::constant(F::from(line.old)),
        new: Lc::constant(F::from(line.new)),
    }
}

// The scan of the last line after the three before it.
fn put<S: Sink>(s: &mut S, lines: &[Line; 4]) -> Put<()>
    requires { Room S.meaning s.old 9 10 }
{
    let [a, b, c, last] = lines;
    let earlier = [constants(a), constants(b), constants(c)];
    scan(s, &earlier, &constants(last))
}

// Whether the old word of the last line is what the three before it left.
fn holds(alloc: Global, lines: &[Line; 4]) -> Put<bool> {
    let [a, b, c, last] = lines;
    let mut values = ListValues::new(alloc);
    values.give(F::ONE)?;
    let earlier = [numbers(a), numbers(b), numbers(c)];
    fill_scan(&mut values, &earlier, &numbers(last))?;
    let mut tests = TestSink::over(values.as_slice(), 1);
    put(&mut tests, lines)?;
    Ok(tests.held() == 10 && tests.tested() == 10)
}

#[test]
fn the_latest_word_of_a_cell_is_found(rt: HostRuntime) -> Result<(), Fail> {
    let [a, b, c, d, e, f, g, _] = honest();
    for lines in [
        [a, b, c, d],
        [a, b, c, e],
        [b, c, d, f],
        [a, b, c, f],
        [a, c, e, g],
    ] {
        assert!(rt; holds(rt.alloc(), &lines)?);
    }
    Ok(())
}
