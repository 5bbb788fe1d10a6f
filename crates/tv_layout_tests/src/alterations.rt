//! Values of which one is altered, and a system of which a line is: a constraint fails; and the run
//! that values have.
ghost use Rattle.std.specs.Prelude.{◌≤◌, length};
ghost use Rattle.tv_step.specs.Range.{AreWords};

use std::alloc::Global;
use std::test::Fail;
use tv_core::{F, ListValues, Put, TestSink};
use tv_extract::extract;
use tv_fill::fill_system;
use tv_layout::{emit_system, wires};
use tv_stages::Net;

// `answer 0`, and `answer 1`.
const IMAGE: [u32; 2] = [0xfc00_0000, 0];

const OTHER: [u32; 2] = [0xfc00_0000, 1];

// The values of the run of `answer 0` in one step, on a tape that has the word 5.
fn values_of_run(alloc: Global) -> Result<Vec<F>, Fail> {
    let mut values = ListValues::new(alloc);
    fill_system::<32, ListValues>(alloc, &IMAGE, &[5], &[], 1, Net::Benes, &mut values)?;
    Ok(Vec::from_slice(alloc, values.as_slice())?)
}

// The first constraint of an image's system, for one step and a tape of one word, that fails.
fn first_failed(image: &[u32], z: &[F]) -> Put<Option<u32>>
    requires words { AreWords 32 image.now }
    requires short { length image.now ≤ 2 }
{
    let mut tests = TestSink::over(z, 3);
    emit_system::<32, TestSink>(image, 1, 1, Net::Benes, &mut tests)?;
    Ok(tests.first_failed())
}

/// Wires, and the first constraint that fails where one has 1 less its value. The tape's word has
/// 32 bits, at wires 3 to 34, and then their sum, constraint 32. The 20 wires of the first state,
/// from wire 35 on, have one constraint each, from 33 on. After the 311 wires and 324 constraints
/// of the step, the second of two constraints binds the answer. The network's wires begin at 366
/// and have one constraint each, from 379 on. A switch of its first or last stage has five: its bit,
/// which is still one if it is altered, and the numbers that it passes. Of six lines, the stages
/// have 3, 2, 2, 2 and 3 switches, and the last one's wires begin at 399, after 15 of the first
/// stage and 6 of each stage between.
static ALTERED: [(&str, usize, u32); 11] = [
    ("answer", 1, 378),
    ("word of the tape", 2, 32),
    ("first wire of the first state", 35, 33),
    ("last wire of the first state", 54, 52),
    ("bit of a switch", 366, 380),
    ("cell after a switch", 367, 380),
    ("time and word after a switch", 368, 381),
    ("cell after the network", 410, 423),
    ("time and word after the network", 411, 424),
    ("next cell after the network", 412, 425),
    ("next time and word after the network", 413, 426),
];

// The first constraint of its system that fails where a wire has 1 less its value.
fn failed_with(alloc: Global, z: &[F], wire: usize) -> Result<Option<u32>, Fail> {
    let mut altered = z.to_vec(alloc)?;
    if let Some(value) = altered.get_mut(wire) {
        *value = F::ONE - *value;
    }
    Ok(first_failed(&IMAGE, &altered)?)
}

#[test]
fn an_altered_wire_fails_its_constraint(rt: HostRuntime) -> Result<(), Fail> {
    let z = values_of_run(rt.alloc())?;
    for (name, wire, failed) in &ALTERED {
        let found = failed_with(rt.alloc(), &z, *wire)?;
        assert!(rt; found == Some(*failed), "{name}");
    }
    Ok(())
}

// The step reads 0 where the other image has 1. So its second line is dishonest, and nothing but
// the memory argument can find that: first, the switch that takes the image's two words.
#[test]
fn a_dishonest_line_fails(rt: HostRuntime) -> Result<(), Fail> {
    let z = values_of_run(rt.alloc())?;
    let own = first_failed(&IMAGE, &z)?;
    let failed = first_failed(&OTHER, &z)?.unwrap_or(0);
    assert!(rt; own.is_none() && 379 <= failed && failed < 384, "{failed}");
    Ok(())
}

// Zeros, as many as the system of one step on a tape of one word has wires, and 5 as that word.
fn zeros(alloc: Global) -> Result<Vec<F>, Fail> {
    let wires = wires::<32>(&IMAGE, 1, 1, Net::Benes) as usize;
    let mut values = vec![in alloc; F::ZERO; wires]?;
    values[2] = F::of(5);
    Ok(values)
}

#[test]
fn a_run_is_extracted(rt: HostRuntime) -> Result<(), Fail> {
    let alloc = rt.alloc();
    let run = extract::<32>(alloc, &IMAGE, 1, 1, Net::Benes, &zeros(alloc)?)?;
    let tapes = run.tape.as_slice() == [5].as_slice() && run.aux.as_slice().is_empty();
    assert!(rt; tapes && (run.answer, run.step) == (0, 1));
    Ok(())
}
