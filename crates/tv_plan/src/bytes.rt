//! Whole files of a bounded number of bytes.
ghost use Rattle.std.specs.Prelude.{◌+◌, ◌<◌, ◌^◌, [], ◌∷◌, Ok};
ghost use Rattle.tv_plan.specs.Finds.{Finds, reading_of};
ghost use Rattle.tv_plan.specs.Flaws.{Flaw.{OverLimit}};
ghost use Rattle.tv_plan.specs.Plan.{input, named, within};

use crate::place::Place;
use crate::refusal::{Bad, Stop, What};
use std::alloc::Global;
use tv_files::{Files, Slurp, slurp};

/// The whole file of this name, which may have `most` bytes of this quantity.
#[tactic(auto, unfolding(crate::specs::Plan::input))]
pub(crate) fn limited_bytes<D: Files>(
    alloc: Global,
    files: &mut D,
    place: Place<'_>,
    what: What,
    most: u64,
) -> Result<Vec<u8>, Stop>
    requires { most + 1 < 2 ^ 64 }
    ensures { Finds (λ v. v.items)
        (reading_of (named place.entry) (OverLimit what ∷ [])
        (within what most (λ bytes. Ok bytes)))
        (D.seen files.old) (D.seen files.new) result }
{
    slurp(alloc, files, place.name, most).map_err(|why| match why {
        Slurp::TooLong { .. } => Stop::Contents(Bad::Limit {
            what,
            has: most + 1,
            most,
        }),
        Slurp::Fault => Stop::Fault { word: place.word },
        Slurp::Memory => Stop::Memory,
    })
}
