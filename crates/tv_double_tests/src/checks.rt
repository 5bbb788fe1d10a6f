//! A double line against the item of its successor, at the ends of the ranges.
ghost use Rattle.std.specs.Prelude.{◌≤◌, ◌<◌, ◌^◌, ◌+◌, ◌≡◌, false};
ghost use Rattle.tv_core.specs.Sinks.{Room};
ghost use Rattle.tv_double_checks.specs.Items.{AreWordsMade, IsItemMade};
ghost use Rattle.tv_word.specs.Widths.{IsWidth};

use std::alloc::Global;
use std::test::Fail;
use tv_core::{F, Lc, ListValues, Pair, Put, Scratch, Sink, TestSink, Values, Wire, give_values};
use tv_double_checks::{
    CellWords, DoubleLine, WordPair, fill_guard, fill_image_pair, fill_within, guard, image_pair,
    last_line, pack_item, tape_word, within,
};

// Which check a line has.
#[derive(Clone, Copy, Debug)]
enum Check {
    Within,
    Image,
    Guard,
    Tape,
    Last,
}

// A double cell, its two words, and a place.
type Numbers = (u32, u32, u32, u32);

// The greatest word of `W` bits, and the greatest double cell.
const MOST: u32 = 0xffff_ffff;

const NULL: u32 = 0x2002_0000;

// A word of W bits.
fn word<const W: u32>(number: u32) -> u32
    requires width { IsWidth W }
{
    if W == 16 { number % 65_536 } else { number }
}

// A line of the double cell whose pair is the same before and after, in the ranges.
fn line<const W: u32>(numbers: &Numbers) -> DoubleLine
    requires width { IsWidth W }
    ensures { result.cell ≤ 2 ^ 29 + 2 ^ 17 }
{
    let pair = WordPair {
        first: word::<W>(numbers.1),
        second: word::<W>(numbers.2),
    };
    DoubleLine {
        cell: numbers.0.min(NULL),
        old: pair,
        new: pair,
    }
}

// The own words: those of wires 1, 2 and 3, or constants, or a tape word on wire 2.
fn own_words(check: Check, own: &DoubleLine, place: u32) -> CellWords
    ensures { AreWordsMade 6 result }
{
    let mut words = CellWords::empty();
    match check {
        Check::Within => {
            words.cell.set_wire(Wire(1));
            words.sum.set_wire(Wire(2));
            words.second.set_wire(Wire(3));
            words.place = place;
        }
        Check::Tape => words.set_tape(own.cell, Wire(2), place),
        _ => words.set_known(own.cell, &own.new, place),
    }
    words
}

fn put<const W: u32, S: Sink>(
    s: &mut S,
    check: Check,
    m: u32,
    own: &CellWords,
    item: &Pair,
) -> Put<()>
    requires width { IsWidth W }
    requires short { m ≤ 30 }
    requires room { Room S.meaning s.old 31 33 }
    requires own { AreWordsMade (S.meaning.wires s.old) own.now }
    requires item { IsItemMade (S.meaning.wires s.old) item.now }
{
    let mut scratch = Scratch::new();
    match check {
        Check::Within => within::<W, S>(s, &mut scratch, m, own, item),
        Check::Image => image_pair::<W, S>(s, &mut scratch, m, own, item),
        Check::Guard => guard::<W, S>(s, &mut scratch, m, own, item),
        Check::Tape => tape_word::<W, S>(s, &mut scratch, own, item),
        Check::Last => last_line(s, &mut scratch, item),
    }
}

fn fill<const W: u32, V: Values>(
    v: &mut V,
    check: Check,
    m: u32,
    own: &DoubleLine,
    place: u32,
    next: &DoubleLine,
    next_place: u32,
) -> Put<()>
    requires width { IsWidth W }
    requires whole { V.giving.broken v.old ≡ false }
    requires short { m ≤ 30 }
    requires placed { next_place < 2 ^ 20 }
{
    match check {
        Check::Within => fill_within::<W, V>(v, m, own, place, next, next_place),
        Check::Image => fill_image_pair(v, m, own, place, next, next_place),
        Check::Guard => fill_guard(v, m, own, next),
        _ => Ok(()),
    }
}

// How many constraints fail of the check of a line against the item of another, over the values
// for both.
fn failing<const W: u32>(
    alloc: Global,
    check: Check,
    m: u32,
    own: &Numbers,
    next: &Numbers,
) -> Result<u32, Fail>
    requires width { IsWidth W }
    requires short { m ≤ 30 }
{
    let (own_line, next_line) = (line::<W>(own), line::<W>(next));
    let (place, next_place) = (own.3.min(0xf_ffff), next.3.min(0xf_ffff));
    let item = pack_item::<W>(&next_line, next_place);
    let second = F::from(own_line.new.second);
    let sum = F::from(own_line.new.first) + second;
    let numbers = [
        F::ONE,
        F::from(own_line.cell),
        sum,
        second,
        item.first,
        item.second,
    ];
    let mut values = ListValues::new(alloc);
    give_values(&mut values, &numbers)?;
    fill::<W, ListValues>(
        &mut values,
        check,
        m,
        &own_line,
        place,
        &next_line,
        next_place,
    )?;
    let words = own_words(check, &own_line, place);
    let wires = Pair {
        first: Lc::wire(Wire(4)),
        second: Lc::wire(Wire(5)),
    };
    let mut tests = TestSink::over(values.as_slice(), 6);
    put::<W, TestSink>(&mut tests, check, m, &words, &wires)?;
    Ok(tests.tested().saturating_sub(tests.held()))
}

// A check, how many bits a reach has, a line and another, and whether that one may be next.
static PAIRS: [(Check, u32, Numbers, Numbers, bool); 24] = [
    // the same double cell, as far as places reach; double cells as far apart as they are
    (
        Check::Within,
        30,
        (NULL, MOST, MOST, 0),
        (NULL, MOST, MOST, 0xf_ffff),
        true,
    ),
    (Check::Within, 0, (0, 0, 1, 7), (0, 0, 1, 8), true),
    (Check::Within, 30, (0, MOST, MOST, 9), (NULL, 0, 0, 8), true),
    // another word, the same sum; the same place; one before; a word in a new cell; a cell below
    (Check::Within, 30, (5, 3, 4, 1), (5, 3, 5, 2), false),
    (Check::Within, 30, (5, 3, 4, 1), (5, 4, 3, 2), false),
    (Check::Within, 30, (5, 3, 4, 1), (5, 3, 4, 1), false),
    (Check::Within, 30, (5, 3, 4, 2), (5, 3, 4, 1), false),
    (Check::Within, 30, (5, 0, 1, 1), (6, 0, 1, 2), false),
    (Check::Within, 30, (5, 0, 0, 1), (4, 0, 0, 2), false),
    // too short a reach
    (Check::Within, 3, (5, 0, 0, 1), (14, 0, 0, 2), false),
    (Check::Within, 3, (5, 0, 0, 1), (13, 0, 0, 2), true),
    // an image pair: the next double cell, or the same; not the one after, nor a time before
    (
        Check::Image,
        20,
        (NULL, MOST, MOST, 0),
        (NULL, MOST, MOST, 0xf_ffff),
        true,
    ),
    (Check::Image, 20, (5, 3, 4, 1), (6, 0, 0, 0), true),
    (Check::Image, 20, (5, 3, 4, 1), (7, 0, 0, 2), false),
    (Check::Image, 20, (5, 3, 4, 2), (5, 3, 4, 1), false),
    (Check::Image, 20, (5, 3, 4, 1), (5, 4, 3, 2), false),
    // a guard: the same double cell or one above, with (0, 0)
    (Check::Guard, 30, (0, 0, 0, 1), (NULL, 0, 0, 0), true),
    (Check::Guard, 30, (5, 0, 0, 1), (5, 0, 0, 1), true),
    (Check::Guard, 30, (5, 0, 0, 1), (5, 1, 0, 2), false),
    // a tape word: the same double cell or the next one
    (Check::Tape, 0, (5, MOST, 0, 1), (5, MOST, 0, 2), true),
    (Check::Tape, 0, (5, MOST, 0, 1), (6, 0, 0, 2), true),
    (Check::Tape, 0, (5, MOST, 0, 1), (7, 0, 0, 2), false),
    // the greatest line: the least begins at (0, 0) in double cell 0
    (Check::Last, 0, (5, 0, 0, 9), (0, 0, 0, 3), true),
    (Check::Last, 0, (5, 0, 0, 9), (0, 0, 1, 3), false),
];

#[test]
fn lines_at_the_ends_of_the_ranges(rt: HostRuntime) -> Result<(), Fail> {
    for (check, bits, own, next, holds) in &PAIRS {
        let m = (*bits).min(30);
        let wide = failing::<32>(rt.alloc(), *check, m, own, next)?;
        assert!(rt; (wide == 0) == *holds, "32: {check:?} {own:?} {next:?}");
        let narrow = failing::<16>(rt.alloc(), *check, m, own, next)?;
        assert!(rt; (narrow == 0) == *holds, "16: {check:?} {own:?} {next:?}");
    }
    Ok(())
}
