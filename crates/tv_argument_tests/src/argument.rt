//! The memory argument over eight lines.
ghost use Rattle.std.specs.Prelude.{◌≤◌};
ghost use Rattle.tv_core.specs.Sinks.{Room};

use crate::rows::{Numbers, PREDECESSORS, honest, items, line_of};
use crate::wired::{FIRST, Numbered, Wired, wires_of};
use std::alloc::Global;
use std::test::Fail;
use tv_argument::{fill_argument, memory, predecessors};
use tv_core::{F, Line, ListValues, Put, Sink, TestSink};
use tv_route::is_permutation;
use tv_stages::{Net, settings_for};

fn put<S: Sink>(s: &mut S, net: Net) -> Put<()>
    requires room { Room S.meaning s.old 400 400 }
    requires lines { 25 ≤ S.meaning.wires s.old }
{
    memory(s, net, &Wired)
}

// 1, the lines, and the values for their predecessors, of which each is at its place.
fn assignment(
    alloc: Global,
    net: Net,
    lines: &[Line; 8],
    before: &[u32],
) -> Result<ListValues, Fail> {
    let mut pairs = items(alloc, lines)?;
    let mut values = wires_of(alloc, lines)?;
    if before.len() != 8 || !is_permutation(alloc, before)? {
        return Err(Fail::from("no permutation"));
    }
    let settings = settings_for(alloc, net, before)?;
    let lines = Numbered { lines };
    fill_argument(&mut values, net, &mut pairs, settings.as_slice(), &lines)?;
    Ok(values)
}

// How many constraints there are, and how many of them these values meet.
fn held(z: &[F], net: Net) -> Put<(u32, u32)> {
    let mut tests = TestSink::over(z, FIRST);
    put(&mut tests, net)?;
    Ok((tests.tested(), tests.held()))
}

#[test]
fn a_sort_finds_the_predecessors(rt: HostRuntime) -> Result<(), Fail> {
    let found = predecessors(rt.alloc(), &items(rt.alloc(), &honest())?)?;
    assert!(rt; found.as_slice() == PREDECESSORS.as_slice());
    Ok(())
}

#[test]
fn honest_lines_meet_it(rt: HostRuntime) -> Result<(), Fail> {
    for (net, made, added) in [(Net::Benes, 240, 254), (Net::Waksman, 233, 247)] {
        let values = assignment(rt.alloc(), net, &honest(), &PREDECESSORS)?;
        let met = (values.as_slice().len(), held(values.as_slice(), net)?);
        assert_eq!(rt; met, (25 + made, (added, added)));
    }
    Ok(())
}

// The wire of an old word that no constraint reads: that of line 1, a boot line, which is 0 by the
// kind of the line.
const UNREAD: usize = 5;

// Each other wire is pinned, be it a line's, a switch's bit, a number after a switch or a bit of a
// reach: with another value there, and the rest as it was, a constraint fails.
#[test]
fn an_altered_value_fails(rt: HostRuntime) -> Result<(), Fail> {
    let values = assignment(rt.alloc(), Net::Waksman, &honest(), &PREDECESSORS)?;
    let mut z = Vec::from_slice(rt.alloc(), values.as_slice())?;
    for i in 1..z.len() {
        let kept = z[i];
        z[i] = F::ONE - kept;
        let fails = held(&z, Net::Waksman)?.1 < 247;
        assert!(rt; fails != (i == UNREAD), "{i}");
        z[i] = kept;
    }
    Ok(())
}

// How many constraints are met where the line of a time is this one, by the values for the new
// order.
fn held_with(alloc: Global, other: Line) -> Result<u32, Fail> {
    let mut lines = honest();
    if let Some(place) = lines.get_mut(other.time as usize) {
        *place = other;
    }
    let before = predecessors(alloc, &items(alloc, &lines)?)?;
    let values = assignment(alloc, Net::Benes, &lines, &before)?;
    Ok(held(values.as_slice(), Net::Benes)?.1)
}

// The numbers of false lines.
static DISHONEST: [Numbers; 9] = [
    (0, 0, 1, 5),
    (1, 1, 0, 8),
    (0, 2, 0, 5),
    (1, 3, 5, 7),
    (9, 4, 6, 6),
    (9, 4, 0, 7),
    (2, 5, 5, 5),
    (9, 6, 0, 2),
    (8, 6, 6, 2),
];

// One line is another one, and the values are those for the new order: a constraint fails.
#[test]
fn dishonest_lines_fail(rt: HostRuntime) -> Result<(), Fail> {
    for numbers in &DISHONEST {
        let held = held_with(rt.alloc(), line_of(numbers))?;
        assert!(rt; held < 254, "{numbers:?}");
    }
    Ok(())
}
