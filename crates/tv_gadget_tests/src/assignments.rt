//! Numbers of an assignment, and the constraints that fail over it.

use tv_core::{F, TestSink};

/// The number of a wire; past the end of an assignment, 0.
pub fn at(z: &[F], wire: u32) -> F {
    z.get(wire as usize).copied().unwrap_or(F::ZERO)
}

/// Sets the number of a wire, if the assignment has it.
pub fn set(z: &mut [F], wire: u32, number: F) {
    if let Some(place) = z.get_mut(wire as usize) {
        *place = number;
    }
}

/// Adds 1 to the number of a wire.
pub fn add_one(z: &mut [F], wire: u32) {
    let number = at(z, wire) + F::ONE;
    set(z, wire, number);
}

/// How many constraints of those that were tested fail.
pub fn failing(tests: &TestSink<'_>) -> u32 {
    tests.tested().saturating_sub(tests.held())
}
