//! Why a run has no values, or not all were passed.
ghost use Rattle.std.specs.Prelude.{◌≡◌};
ghost use Rattle.tv_fill.specs.Faults.{trace_fault, taker_fault};

use thiserror::Error;
use tv_core::SinkFault;
use tv_step::{End, TraceFault};

/// Why the values of a run were not assigned, or not all of them.
#[derive(Clone, Copy, PartialEq, Eq, Debug, Error)]
pub enum FillFault {
    /// The run doesn't answer within its steps; this is how it ends.
    #[error("no answer")]
    NoRun { end: End },
    /// What the values were written to failed.
    #[error("the writing failed")]
    Failed,
    /// Memory ran out.
    #[error("out of memory")]
    Memory,
}

impl From<TraceFault> for FillFault {
    ghost from_gives = { λ why fault. fault ≡ trace_fault why };

    fn from(why: TraceFault) -> FillFault {
        match why {
            TraceFault::NoRun { end } => FillFault::NoRun { end },
            TraceFault::Memory => FillFault::Memory,
        }
    }
}

impl From<SinkFault> for FillFault {
    ghost from_gives = { λ why fault. fault ≡ taker_fault why };

    fn from(why: SinkFault) -> FillFault {
        match why {
            SinkFault::Failed => FillFault::Failed,
            SinkFault::Memory => FillFault::Memory,
        }
    }
}
