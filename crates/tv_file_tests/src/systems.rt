//! The worked system and the worked assignment as files: read where memory is ample, and written.
//! What `check` says of the system, and of it with faults, is `tests/commands.sh`.

use crate::calls::files_of;
use std::alloc::Global;
use std::test::Fail;
use tv_core::{Counts, F, Lc, Put, Sink, SinkFault, Wire, give_values};
use tv_files::MemFiles;
use tv_r1cs_read::{Row, SystemReader};
use tv_r1cs_write::StreamSink;
use tv_wtns::{FileValues, read_first_values, read_values};

// Four wires, wire 1 public, and the constraint that wire 1 times wire 2 is wire 3.
const SYSTEM: [u8; 168] = [
    0x72, 0x31, 0x63, 0x73, 1, 0, 0, 0, 3, 0, 0, 0, // the front
    1, 0, 0, 0, 40, 0, 0, 0, 0, 0, 0, 0, // section 1
    8, 0, 0, 0, 1, 0, 0, 0, 0xff, 0xff, 0xff, 0xff, //
    4, 0, 0, 0, 0, 0, 0, 0, 1, 0, 0, 0, 0, 0, 0, 0, //
    4, 0, 0, 0, 0, 0, 0, 0, 1, 0, 0, 0, //
    2, 0, 0, 0, 48, 0, 0, 0, 0, 0, 0, 0, // section 2
    1, 0, 0, 0, 1, 0, 0, 0, 1, 0, 0, 0, 0, 0, 0, 0, //
    1, 0, 0, 0, 2, 0, 0, 0, 1, 0, 0, 0, 0, 0, 0, 0, //
    1, 0, 0, 0, 3, 0, 0, 0, 1, 0, 0, 0, 0, 0, 0, 0, //
    3, 0, 0, 0, 32, 0, 0, 0, 0, 0, 0, 0, // section 3
    0, 0, 0, 0, 0, 0, 0, 0, 1, 0, 0, 0, 0, 0, 0, 0, //
    2, 0, 0, 0, 0, 0, 0, 0, 3, 0, 0, 0, 0, 0, 0, 0,
];

// What it counts.
const COUNTS: Counts = Counts {
    wires: 4,
    outputs: 0,
    inputs: 1,
    constraints: 1,
    terms: 3,
};

// A reader of the system, before its first row.
fn reader_of<'a>(
    alloc: Global,
    files: &'a mut MemFiles,
) -> Result<SystemReader<'a, MemFiles>, Fail> {
    match SystemReader::begin(alloc, files, "file") {
        Ok(reader) => Ok(reader),
        Err(unread) => Err(Fail::new(unread.why)),
    }
}

// Whether a row is the system's constraint.
fn is_the_constraint(row: &Row) -> bool {
    row.a.as_slice() == [(1, F::ONE)].as_slice()
        && row.b.as_slice() == [(2, F::ONE)].as_slice()
        && row.c.as_slice() == [(3, F::ONE)].as_slice()
}

#[test]
fn a_system_is_read_row_by_row(rt: HostRuntime) -> Result<(), Fail> {
    let mut files = files_of(rt.alloc(), &SYSTEM)?;
    let mut reader = reader_of(rt.alloc(), &mut files)?;
    let begins = reader.counts() == Counts { terms: 0, ..COUNTS };
    let row = reader.next()?.ok_or_else(|| Fail::new("no row"))?;
    let ends = reader.next()?.is_none() && reader.counts() == COUNTS;
    assert!(rt; begins && is_the_constraint(&row) && ends);
    Ok(())
}

// Writes the system, with the labels 0, 1, 2 and 3.
fn write_system(files: &mut MemFiles) -> Put<()> {
    let mut sink = match StreamSink::begin(files, "file", COUNTS) {
        Ok(sink) => sink,
        Err(refused) => return Err(refused.why),
    };
    let x = sink.fresh();
    let y = sink.fresh();
    sink.put(&Lc::wire(Wire(1)), &Lc::wire(x), &Lc::wire(y))?;
    sink.finish()
}

// Writes the system, with these labels out of five.
fn write_labelled(files: &mut MemFiles, labels: &[u32; 4]) -> Put<()> {
    let mut sink = match StreamSink::begin_labelled(files, "file", COUNTS, 5) {
        Ok(sink) => sink,
        Err(refused) => return Err(refused.why),
    };
    let x = sink.fresh();
    let y = sink.fresh();
    sink.put(&Lc::wire(Wire(1)), &Lc::wire(x), &Lc::wire(y))?;
    sink.finish_labelled(labels)
}

// Writes the system, with the labels below 5 but for 3.
#[tactic(auto, unfolding(tv_r1cs_write::specs::Bytes::others))]
fn write_without(files: &mut MemFiles) -> Put<()> {
    let mut sink = match StreamSink::begin_labelled(files, "file", COUNTS, 5) {
        Ok(sink) => sink,
        Err(refused) => return Err(refused.why),
    };
    let x = sink.fresh();
    let y = sink.fresh();
    sink.put(&Lc::wire(Wire(1)), &Lc::wire(x), &Lc::wire(y))?;
    sink.finish_without(&[3])
}

#[test]
fn a_system_is_written_as_another_writer_does(rt: HostRuntime) -> Result<(), Fail> {
    let mut files = MemFiles::new(rt.alloc());
    write_system(&mut files)?;
    assert_eq!(rt; files.bytes_of("file"), Some(SYSTEM.as_slice()));
    write_without(&mut files)?;
    let mut labelled = SYSTEM;
    // how many labels there are, and the last one
    labelled[52] = 5;
    labelled[160] = 4;
    assert_eq!(rt; files.bytes_of("file"), Some(labelled.as_slice()));
    write_labelled(&mut files, &[0, 1, 4, 4])?;
    labelled[152] = 4;
    assert_eq!(rt; files.bytes_of("file"), Some(labelled.as_slice()));
    Ok(())
}

/// Writes a system of three wires and this many constraints: number i, from 0, is that i times wire
/// 1 is wire 2.
pub fn write_multiples(files: &mut MemFiles, count: u16) -> Put<()> {
    let counts = Counts {
        wires: 3,
        outputs: 1,
        inputs: 1,
        constraints: u32::from(count),
        terms: 3 * u64::from(count),
    };
    let mut sink = match StreamSink::begin(files, "file", counts) {
        Ok(sink) => sink,
        Err(refused) => return Err(refused.why),
    };
    for i in 0..count {
        let factor = Lc::constant(F::of(u64::from(i)));
        sink.put(&factor, &Lc::wire(Wire(1)), &Lc::wire(Wire(2)))?;
    }
    sink.finish()
}

// The values 1, 3, 5 and 15.
const ASSIGNMENT: [u8; 84] = [
    0x77, 0x74, 0x6e, 0x73, 2, 0, 0, 0, 2, 0, 0, 0, // the front
    1, 0, 0, 0, 16, 0, 0, 0, 0, 0, 0, 0, // section 1
    8, 0, 0, 0, 1, 0, 0, 0, 0xff, 0xff, 0xff, 0xff, 4, 0, 0, 0, //
    2, 0, 0, 0, 32, 0, 0, 0, 0, 0, 0, 0, // section 2
    1, 0, 0, 0, 0, 0, 0, 0, 3, 0, 0, 0, 0, 0, 0, 0, //
    5, 0, 0, 0, 0, 0, 0, 0, 15, 0, 0, 0, 0, 0, 0, 0,
];

#[test]
fn values_are_read_in_order(rt: HostRuntime) -> Result<(), Fail> {
    let mut files = files_of(rt.alloc(), &ASSIGNMENT)?;
    let values = read_values(rt.alloc(), &mut files, "file")?;
    assert_eq!(rt; values.as_slice(), [1, 3, 5, 15].map(F::of).as_slice());
    let first = read_first_values(rt.alloc(), &mut files, "file", 2)?;
    assert!(rt; first.count == 4 && first.values.as_slice() == [1, 3].map(F::of).as_slice());
    Ok(())
}

/// Writes values.
pub fn write_values(files: &mut MemFiles, values: &[F]) -> Put<()> {
    let Ok(count) = u32::try_from(values.len()) else {
        return Err(SinkFault::Failed);
    };
    let mut taker = match FileValues::begin(files, "file", count) {
        Ok(taker) => taker,
        Err(refused) => return Err(refused.why),
    };
    give_values(&mut taker, values)?;
    taker.finish()
}

#[test]
fn values_are_written_as_another_writer_does(rt: HostRuntime) -> Result<(), Fail> {
    let mut files = MemFiles::new(rt.alloc());
    write_values(&mut files, &[1, 3, 5, 15].map(F::of))?;
    assert_eq!(rt; files.bytes_of("file"), Some(ASSIGNMENT.as_slice()));
    Ok(())
}
