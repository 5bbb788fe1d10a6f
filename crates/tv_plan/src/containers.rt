//! Systems and assignments, each read from its file to the end.
ghost use Rattle.std.specs.Prelude.{◌≡◌, [], ◌∷◌};
ghost use Rattle.tv_plan.specs.Containers.{counts_in, firsts_in_witness, verdict_in};
ghost use Rattle.tv_plan.specs.Containers.{refusal_stop, system_bad};
ghost use Rattle.tv_plan.specs.Finds.{Finds, reading_of};
ghost use Rattle.tv_plan.specs.Flaws.{Flaw.{OfSystem, OfWitness}};
ghost use Rattle.tv_plan.specs.Plan.{named};
ghost use Rattle.tv_wtns.specs.Wtns.{firsts_in};

use crate::place::Place;
use crate::refusal::{Bad, Stop};
use std::alloc::Global;
use tv_check::{Verdict, check};
use tv_container::ReadRefusal;
use tv_core::{Counts, F};
use tv_files::Files;
use tv_r1cs_read::survey;
use tv_wtns::{FirstValues, read_first_values};

/// What a refused reading stops of the system whose name stands at this word.
fn system_stop(word: u32, why: ReadRefusal) -> Stop
    ensures { result ≡ refusal_stop word system_bad why }
{
    match why {
        ReadRefusal::Bad { at, why } => Stop::Contents(Bad::System { at, why }),
        ReadRefusal::Fault => Stop::Fault { word },
        ReadRefusal::Memory => Stop::Memory,
    }
}

/// What the system of this name counts, which is read to its end.
pub(crate) fn survey_system<D: Files>(
    alloc: Global,
    files: &mut D,
    place: Place<'_>,
) -> Result<Counts, Stop>
    ensures { Finds (λ counts. counts) (reading_of (named place.entry) (OfSystem ∷ []) counts_in)
        (D.seen files.old) (D.seen files.new) result }
{
    survey(alloc, files, place.name).map_err(|why| system_stop(place.word, why))
}

/// The first `most` values of the witness of this name, and how many it has.
pub fn read_first_witness<D: Files>(
    alloc: Global,
    files: &mut D,
    place: Place<'_>,
    most: u32,
) -> Result<FirstValues, Stop>
    ensures { Finds firsts_in (reading_of (named place.entry) (OfWitness ∷ [])
        (firsts_in_witness most))
        (D.seen files.old) (D.seen files.new) result }
{
    read_first_values(alloc, files, place.name, most).map_err(|refusal| match refusal {
        ReadRefusal::Bad { at, why } => Stop::Contents(Bad::Witness { at, why }),
        ReadRefusal::Fault => Stop::Fault { word: place.word },
        ReadRefusal::Memory => Stop::Memory,
    })
}

/// The verdict by the system of this name on these values and public numbers.
pub(crate) fn judge_system<D: Files>(
    alloc: Global,
    files: &mut D,
    place: Place<'_>,
    values: &[F],
    publics: &[F],
) -> Result<Verdict, Stop>
    ensures { Finds (λ verdict. verdict)
        (reading_of (named place.entry) (OfSystem ∷ [])
        (verdict_in values.now publics.now))
        (D.seen files.old) (D.seen files.new) result }
{
    check(alloc, files, place.name, values, publics).map_err(|why| system_stop(place.word, why))
}
