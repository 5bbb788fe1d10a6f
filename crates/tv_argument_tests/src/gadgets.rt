//! Lines that are packed, unpacked and constrained to follow each other.
ghost use Rattle.std.specs.Prelude.{◌≤◌};
ghost use Rattle.tv_core.specs.Combinations.{top};

use crate::rows::{line, numbers};
use std::alloc::Global;
use std::test::Fail;
use tv_core::{F, Lc, Line, LineLc, ListValues, Pair, PairNum, Put, TestSink, Wire, give_values};
use tv_lines::{
    Cell, CompactLine, Word, fill_first_line, fill_sorted_pair, fill_unpack, first_line, pack,
    pack_item, sorted_pair, unpack, unpack_item,
};

#[test]
fn a_line_and_its_item_are_packed_by_powers_of_two(rt: HostRuntime) {
    let wires = LineLc {
        cell: Lc::wire(Wire(1)),
        time: Lc::wire(Wire(2)),
        old: Lc::wire(Wire(3)),
        new: Lc::wire(Wire(4)),
    };
    let (whole, second) = (line(3, 5, 7, 9), F::of(21_474_836_489));
    let first = F::of(12_884_901_895);
    let packed = PairNum { first, second };
    let z = [1, 3, 5, 7, 9].map(F::of);
    assert!(rt; values_in(&pack(&wires), &z) == packed && pair_of(&whole) == packed);
    let first = F::of(12_884_901_888);
    let item = PairNum { first, second };
    assert!(rt; pack_item(&whole) == item && unpack_item(&item) == line(3, 5, 0, 9));
}

/// The numbers of a pair over values of its wires.
pub fn values_in(pair: &Pair, z: &[F]) -> PairNum {
    PairNum {
        first: pair.first.value_in(z),
        second: pair.second.value_in(z),
    }
}

// An item is written over a pair that has terms already.
#[test]
fn an_item_is_written_in_place(rt: HostRuntime) {
    let first = CompactLine {
        cell: Cell::Multiple(F::of(2), Wire(1)),
        time: 4,
        old: Word::Number(9),
        new: Word::Wired(Wire(2)),
    };
    let second = CompactLine {
        cell: Cell::After(F::of(2), Wire(1)),
        time: 5,
        old: Word::Nothing,
        new: Word::Wired(Wire(3)),
    };
    let z = [1, 3, 5, 7].map(F::of);
    let mut pair = pack(&first.lc());
    let packed = values_in(&pair, &z);
    second.item(&mut pair);
    let item = values_in(&pair, &z);
    let (first, second) = (F::of(25_769_803_785), F::of(17_179_869_189));
    assert!(rt; packed == PairNum { first, second });
    let (first, second) = (F::of(30_064_771_072), F::of(21_474_836_487));
    assert!(rt; item == PairNum { first, second });
}

// A pair at a wire and the one after it.
fn pair(first: u32) -> Pair
    requires { first ≤ 3 }
    ensures first { top result.first ≤ 5 }
    ensures second { top result.second ≤ 5 }
{
    Pair {
        first: Lc::wire(Wire(first)),
        second: Lc::wire(Wire(first + 1)),
    }
}

// The numbers of a packed line: the cell above the old word, and the time above the new word.
fn pair_of(line: &Line) -> PairNum {
    let above = F::of(1 << 32);
    PairNum {
        first: above * F::from(line.cell) + F::from(line.old),
        second: above * F::from(line.time) + F::from(line.new),
    }
}

// 1, the packed numbers of two lines, and the values for the first line of a cell and one after it.
fn sorted_values(alloc: Global, before: &Line, after: &Line) -> Put<ListValues> {
    let (a, b) = (pair_of(before), pair_of(after));
    let mut values = ListValues::new(alloc);
    give_values(&mut values, &[F::ONE, a.first, a.second, b.first, b.second])?;
    fill_unpack(&mut values, &a)?;
    fill_unpack(&mut values, &b)?;
    fill_first_line(&mut values, &numbers(before))?;
    fill_sorted_pair(&mut values, &numbers(before), &numbers(after))?;
    Ok(values)
}

// How many of the constraints there are, and how many hold.
fn sorted_constraints(z: &[F]) -> Put<(u32, u32)> {
    let mut tests = TestSink::over(z, 5);
    let first = unpack(&mut tests, &pair(1))?;
    let second = unpack(&mut tests, &pair(3))?;
    first_line(&mut tests, &first)?;
    sorted_pair(&mut tests, &first, &second)?;
    Ok((tests.tested(), tests.held()))
}

#[test]
fn lines_that_follow_are_sorted(rt: HostRuntime) -> Result<(), Fail> {
    let values = sorted_values(rt.alloc(), &line(3, 2047, 0, 7), &line(3, 2048, 7, 1))?;
    let constraints = sorted_constraints(values.as_slice())?;
    assert!(rt; values.as_slice().len() == 253 && constraints == (255, 255));
    Ok(())
}
