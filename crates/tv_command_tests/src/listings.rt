//! What `listing` and `trace_text` return of the values of a run and of the run itself.

use crate::calls::{call, files_of};
use std::alloc::{AllocError, Global};
use std::test::*;
use tv_core::F;
use tv_listing::{By, listing, trace_text};
use tv_step::trace;
use tv_wtns::read_values;

// `answer 0`.
const IMAGE: [u32; 2] = [0xfc00_0000, 0];

// The lines of `answer 0` in one step, in both orders.
const LINES: [(By, &str); 2] = [
    (
        By::Time,
        "0 0 0 4227858432\n1 1 0 0\n2 0 4227858432 4227858432\n3 1 0 0\n4 1610612736 0 0\n",
    ),
    (
        By::Cell,
        "0 0 0 4227858432\n2 0 4227858432 4227858432\n1 1 0 0\n3 1 0 0\n4 1610612736 0 0\n",
    ),
];

// Whether `listing` returns these lines of the values, and `trace_text` of the trace.
fn are_listed(alloc: Global, values: &[F], by: By, lines: &[u8]) -> Result<bool, AllocError> {
    let text = listing::<32>(alloc, &IMAGE, 0, 1, 1, values, by)?;
    let Ok(trace) = trace::<32>(alloc, &IMAGE, &[], &[], 2) else {
        return Ok(false);
    };
    let traced = trace_text(alloc, &IMAGE, &[], &trace, 1, by)?;
    Ok(text.as_slice() == lines && traced.as_slice() == lines)
}

#[test]
fn values_and_traces_are_listed(rt: HostRuntime) -> Result<(), Fail> {
    let alloc = rt.alloc();
    let mut files = files_of(alloc, "answer 0", "")?;
    let filled = call(alloc, &mut files, "witness text tape aux 1 witness")?;
    assert!(rt; filled.code() == 0);
    let Ok(values) = read_values(alloc, &mut files, "witness") else {
        return Err(Fail::from("no values"));
    };
    for (by, lines) in LINES {
        assert!(rt; are_listed(alloc, &values, by, lines.as_bytes())?);
    }
    Ok(())
}
