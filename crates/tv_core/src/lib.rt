//! The prime field of P = 2^64 - 2^32 + 1, what a system of rank-1 constraints over it means, and
//! the sinks that take a system's constraints and the values of its wires.
//!
//! Contracts above see a field element as a number below P and a combination as the list of its
//! terms. They cite `Holds`, `Sat` and `Extends`, and never carry "P is prime" as a premise: it is
//! proved here. A gadget is first a circuit, a definition of its answer, constraints and wires. Its
//! function says by `Emits` that it puts that circuit into any `Sink`, and how many wires and
//! constraints that is; its generator, `fill_..`, says by `GivesIn` which values it assigns; its
//! laws are about assignments that `Meets` the circuit's constraints.
#![tactic(auto)]

mod combination;
mod count_sink;
mod field;
mod inverse;
mod limit_laws;
pub mod limits;
mod lines;
mod list_sink;
mod list_values;
mod numbers;
mod offset;
mod prime;
mod rows;
mod scratch;
mod sink;
mod test_sink;
mod values;
mod wire;

pub use combination::{Lc, TERMS};
pub use count_sink::CountSink;
pub use field::{F, P};
pub use limit_laws::limits_are_these;
pub use lines::{Counts, Line, LineLc, LineNum, Pair, PairNum};
pub use list_sink::ListSink;
pub use list_values::ListValues;
pub use prime::{p_cancels, p_is_prime, p_zero_product};
pub use scratch::Scratch;
pub use sink::{Put, Sink, SinkFault};
pub use test_sink::TestSink;
pub use values::{Values, give_values, give_words};
pub use wire::Wire;
