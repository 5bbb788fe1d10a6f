//! The lines of systems by their positions: of the program `answer 0` at 32 bits.
ghost use Rattle.std.specs.Prelude.{◌<◌};

use tv_core::limits::{NULL_CELL, TAPE_CELLS};
use tv_core::{F, Lc, LineLc, Wire};
use tv_layout::line;

const IMAGE: [u32; 2] = [0xfc00_0000, 0];

// Line i of the 16 of two steps on a tape of one word. The tape's word is wire 2, its bits are 3 to
// 34, and the first state's wires 35 to 54. A step has 311 wires: the first from 55 on, the second
// from 366 on. The words of an instruction are the last of its 90 wires, and the program counter of
// the next state is the step's last wire.
#[tactic(auto, unfolding(tv_layout::specs::Places::log_of))]
fn line_at(i: u32) -> LineLc
    requires { i < 16 }
{
    line::<32>(&IMAGE, 1, 2, i)
}

// The inverse of 4 modulo P, (3 P + 1) / 4.
const QUARTER: u64 = 13_835_058_052_060_938_241;

// The terms of a combination, numbers and wires.
type Terms = &'static [(u64, u32)];

// A line's place, which is its time, and the terms of its cell, its old and its new word. Those of
// the image and of the tape stand first. A step has three. The lines from 9 on are padding: of the
// null cell, and writing nothing.
static LINES: [(u32, Terms, Terms, Terms); 10] = [
    (0, &[(0, 0)], &[], &[(0xfc00_0000, 0)]),
    (1, &[(1, 0)], &[], &[(0, 0)]),
    (2, &[(TAPE_CELLS as u64, 0)], &[], &[(1, 2)]),
    (3, &[(QUARTER, 35)], &[(1, 143)], &[(1, 143)]),
    (4, &[(QUARTER, 35), (1, 0)], &[(1, 144)], &[(1, 144)]),
    (5, &[(1, 328)], &[(1, 329)], &[(1, 335)]),
    (6, &[(QUARTER, 365)], &[(1, 454)], &[(1, 454)]),
    (8, &[(1, 639)], &[(1, 640)], &[(1, 646)]),
    (9, &[(NULL_CELL as u64, 0)], &[], &[]),
    (15, &[(NULL_CELL as u64, 0)], &[], &[]),
];

fn has_terms(lc: &Lc, terms: &[(u64, u32)]) -> bool {
    for (found, (number, wire)) in lc.terms().iter().zip(terms) {
        if *found != (F::of(*number), Wire(*wire)) {
            return false;
        }
    }
    lc.terms().len() == terms.len()
}

#[test]
fn lines_stand_at_their_places(rt: HostRuntime) {
    for (i, cell, old, new) in &LINES {
        let made = line_at(*i % 16);
        let words = has_terms(&made.old, old) && has_terms(&made.new, new);
        let place = has_terms(&made.cell, cell) && has_terms(&made.time, &[(u64::from(*i), 0)]);
        assert!(rt; words && place, "{i}");
    }
}
