//! How a run ends, and traces of runs.

use std::test::Fail;
use tv_core::Line;
use tv_step::{End, Machine, TraceFault, TraceState, trace};
use tv_word::Words;

/// read r1, 1; read r2, 1; sub r3, r1, r2; answer r3
const TWO_READS: [[u32; 2]; 4] = [
    [0xf440_0000, 1],
    [0xf480_0000, 1],
    [0x28c4_0000, 2],
    [0xf800_0000, 3],
];

/// read r1, 0; read r2, 0; read r3, 2; answer r1
const THREE_READS: [[u32; 2]; 4] = [
    [0xf440_0000, 0],
    [0xf480_0000, 0],
    [0xf4c0_0000, 2],
    [0xf800_0000, 1],
];

/// mov r1, 0xfc000000; store.w 16, r1; and 0 twice, which the store makes an answer
const STORE: [u32; 6] = [0x9440_0000, 0xfc00_0000, 0xe440_0000, 16, 0, 0];

/// A line's place in a trace, its cell, its old and its new word; its time is its place after the
/// words of the image and of the primary tape.
type Entry = (u32, u32, u32, u32);

/// A state's program counter, the words taken of the primary and of the auxiliary tape, and the
/// ended bit.
type State = (u32, u32, u32, bool);

// Whether lines of a trace, whose first line has the time `first`, are these.
fn has_lines(lines: &[Line], first: u32, entries: &[Entry]) -> bool {
    for (place, cell, old, new) in entries {
        let time = first.saturating_add(*place);
        let Some(line) = lines.get(*place as usize) else {
            return false;
        };
        if (line.cell, line.time, line.old, line.new) != (*cell, time, *old, *new) {
            return false;
        }
    }
    true
}

// Whether the states of a trace are these.
fn has_states(found: &[TraceState], states: &[State]) -> bool {
    for (state, wanted) in found.iter().zip(states) {
        if (state.pc, state.primary, state.aux, state.ended) != *wanted {
            return false;
        }
    }
    found.len() == states.len()
}

#[test]
fn a_store_is_seen_by_the_fetch_after_it(rt: HostRuntime) -> Result<(), Fail> {
    let trace = trace::<32>(rt.alloc(), &STORE, &[], &[], 3)?;
    let lines = [
        (0, 0, 0x9440_0000, 0x9440_0000),
        (1, 1, 0xfc00_0000, 0xfc00_0000),
        (2, 1_610_612_736, 0, 0),
        (3, 2, 0xe440_0000, 0xe440_0000),
        (4, 3, 16, 16),
        (5, 4, 0, 0xfc00_0000),
        (6, 4, 0xfc00_0000, 0xfc00_0000),
        (7, 5, 0, 0),
        (8, 1_610_612_736, 0, 0),
    ];
    let states = [
        (0, 0, 0, false),
        (8, 0, 0, false),
        (16, 0, 0, false),
        (16, 0, 0, false),
    ];
    let is_so = trace.lines.as_slice().len() == 9 && has_lines(trace.lines.as_slice(), 6, &lines);
    assert!(rt; is_so && has_states(trace.states.as_slice(), &states));
    Ok(())
}

// answer 0
#[test]
fn an_answering_step_comes_again_and_changes_nothing(rt: HostRuntime) -> Result<(), Fail> {
    let trace = trace::<32>(rt.alloc(), &[0xfc00_0000, 0], &[], &[], 2)?;
    let lines = [
        (0, 0, 0xfc00_0000, 0xfc00_0000),
        (1, 1, 0, 0),
        (2, 1_610_612_736, 0, 0),
        (3, 0, 0xfc00_0000, 0xfc00_0000),
        (4, 1, 0, 0),
        (5, 1_610_612_736, 0, 0),
    ];
    let is_so = trace.lines.as_slice().len() == 6 && has_lines(trace.lines.as_slice(), 2, &lines);
    assert!(rt; is_so && has_states(trace.states.as_slice(), &[(0, 0, 0, false); 3]));
    for state in trace.states.as_slice() {
        assert!(rt; state.regs == [0; 16] && !state.flag);
    }
    Ok(())
}

// A read that finds nothing sets the ended bit, and takes no word.
#[test]
fn words_taken_are_counted(rt: HostRuntime) -> Result<(), Fail> {
    for (aux, taken, ended, answer) in [([9, 9, 7].as_slice(), 2, false, 0), (&[9], 1, true, 9)] {
        let trace = trace::<32>(rt.alloc(), TWO_READS.as_flattened(), &[], aux, 4)?;
        let states = [
            (0, 0, 0, false),
            (8, 0, 1, false),
            (16, 0, taken, ended),
            (24, 0, taken, ended),
            (24, 0, taken, ended),
        ];
        assert!(rt; trace.answer == answer && has_states(trace.states.as_slice(), &states));
    }
    Ok(())
}

#[test]
fn a_word_of_the_primary_tape_has_a_cell(rt: HostRuntime) -> Result<(), Fail> {
    let trace = trace::<32>(rt.alloc(), THREE_READS.as_flattened(), &[u32::MAX], &[], 4)?;
    let lines = [(2, 1 << 30, u32::MAX, u32::MAX), (5, 1_610_612_736, 0, 0)];
    let states = [
        (0, 0, 0, false),
        (8, 1, 0, false),
        (16, 1, 0, false),
        (24, 1, 0, false),
        (24, 1, 0, false),
    ];
    let has_lines = has_lines(trace.lines.as_slice(), 9, &lines);
    assert!(rt; has_lines && has_states(trace.states.as_slice(), &states));
    Ok(())
}

#[test]
fn a_run_ends_in_its_answer(rt: HostRuntime) -> Result<(), Fail> {
    let aux = Words::from(Vec::from_slice(rt.alloc(), &[9, 9, 7])?);
    let (image, tape) = (TWO_READS.as_flattened(), Words::new(rt.alloc()));
    let mut machine = Machine::<32>::start(rt.alloc(), image, tape, aux)?;
    assert!(rt; machine.run(4)? == End::Answer { value: 0, step: 4 });
    Ok(())
}

#[test]
fn a_run_that_answers_nothing_has_no_trace(rt: HostRuntime) {
    let ends = [
        ([0xb800_0000, 0], End::Undefined { op: 23, step: 1 }),
        ([0xa400_0000, 0], End::Silent { steps: 2 }),
    ];
    for (image, end) in ends {
        let fault = trace::<32>(rt.alloc(), &image, &[], &[], 2).err();
        assert!(rt; fault == Some(TraceFault::NoRun { end }));
    }
}
