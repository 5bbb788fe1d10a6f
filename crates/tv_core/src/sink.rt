//! The trait of what takes a system's wires and constraints.
ghost use Rattle.std.specs.Prelude.{◌≡◌, ◌-◌, ◌^◌, ◌<◌, ◌≤◌, false, List, length};
ghost use Rattle.tv_core.specs.Constraints.{Constraint};
ghost use Rattle.tv_core.specs.Combinations.{top};
ghost use Rattle.tv_core.specs.Circuits.{fresh, put};

use crate::combination::Lc;
use crate::wire::Wire;
use thiserror::Error;

/// Why a sink, or a taker of values, refused.
#[derive(Clone, Copy, PartialEq, Eq, Debug, Error)]
pub enum SinkFault {
    /// What it writes to failed.
    #[error("the writing failed")]
    Failed,
    /// Memory ran out.
    #[error("out of memory")]
    Memory,
}

/// The result of a call that puts constraints or assigns values.
pub type Put<T> = Result<T, SinkFault>;

/// Takes the wires and constraints of a system, in order.
///
/// A sink records the list of constraints that were put into it. A refusal breaks it: then it
/// records no list, what it has tried is known, and no further call is made on it.
pub trait Sink {
    ghost use Rattle.tv_core.specs.Sinks.{Meaning, Emits, EmitsAll, Quiet};

    ghost meaning: { Meaning Self };

    /// Returns the number of the next wire.
    fn wires(&self) -> u32
        ensures { result ≡ meaning.wires self.now };

    /// Returns a new wire, which has the next number.
    fn fresh(&mut self) -> Wire
        requires whole { meaning.broken self.old ≡ false }
        requires room { meaning.wires self.old < 2 ^ 32 - 1 }
        ensures next { result ≡ meaning.wires self.old }
        ensures emits { EmitsAll meaning self.old self.new fresh 1 0 result }
        ensures quiet { Quiet meaning self.old self.new };

    /// Appends the constraint that `a` times `b` is `c`. Returns `Failed` only where the sink's
    /// count of faults rose, and `Memory` only where its count of allocation failures rose.
    fn put(&mut self, a: &Lc, b: &Lc, c: &Lc) -> Put<()>
        requires whole { meaning.broken self.old ≡ false }
        requires room { meaning.constraints self.old < 2 ^ 32 - 1 }
        requires a_made { top a.now ≤ meaning.wires self.old }
        requires b_made { top b.now ≤ meaning.wires self.old }
        requires c_made { top c.now ≤ meaning.wires self.old }
        ensures emits { Emits meaning self.old self.new (put a.now b.now c.now) 0 1 result };

    // the list has as many constraints as were put
    ghost counted: { (sink : Self) (list : List Constraint) → meaning.stands sink list
        → meaning.constraints sink ≡ length list };

    // a broken sink stands for no list
    ghost unbroken: { (sink : Self) (list : List Constraint) → meaning.stands sink list
        → meaning.broken sink ≡ false };
}
