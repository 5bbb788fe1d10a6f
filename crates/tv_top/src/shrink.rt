//! `shrink SYSTEM OUT`: a system with fewer private wires and the same solutions.
ghost use Rattle.std.specs.Prelude.{[], ◌∷◌, refl};
ghost use Rattle.tv_plan.specs.Finds.{Finds, reading};
ghost use Rattle.tv_plan.specs.Plan.{named};
ghost use Rattle.tv_r1cs_write.specs.Shrunken.{Shrunken};
ghost use Rattle.tv_top.specs.Shrink.{shrink_asks, shrink_form, shrink_flaws, shrunk_look};

use std::alloc::Global;
use tv_core::TERMS;
use tv_files::Files;
use tv_plan::{Bad, Finish, Job, Place, Refusal, Stop, What, keep_apart, streamed};
use tv_shrink::{MOST_TERMS, ShrinkFault, Shrunk, shrink};

/// The words of `shrink`.
#[derive(Clone, Copy)]
pub(crate) struct ShrinkArgs<'a> {
    pub(crate) system: Place<'a>,
    pub(crate) out: Place<'a>,
}

impl<'a> Job<'a> for ShrinkArgs<'a> {
    ghost form = { shrink_form };

    ghost asks = { shrink_asks };

    fn read(words: &'a [String]) -> Result<ShrinkArgs<'a>, Refusal> {
        let [system, out] = words else {
            return Err(Refusal::Usage);
        };
        let (system, out) = (Place::at(1, system.as_str()), Place::at(2, out.as_str()));
        keep_apart(&[system], &[out])?;
        Ok(ShrinkArgs { system, out })
    }

    fn perform<D: Files>(self, alloc: Global, files: &mut D) -> Result<Finish, Stop> {
        let shrunk = read_shrunk(alloc, files, self.system)?;
        streamed(self.out.word, shrunk.write(files, self.out.name))?;
        Ok(Finish::Quiet)
    }

    ghost apart = { λ _. refl };
}

/// What is left of the system of this name.
fn read_shrunk<D: Files>(alloc: Global, files: &mut D, place: Place<'_>) -> Result<Shrunk, Stop>
    ensures { Finds (λ (s : Shrunken). s)
        (reading (place.entry.word ∷ []) shrink_flaws (shrunk_look (named place.entry)))
        (D.seen files.old) (D.seen files.new) result }
{
    shrink(alloc, files, place.name).map_err(|fault| match fault {
        ShrinkFault::Bad { at, why } => Stop::Contents(Bad::System { at, why }),
        ShrinkFault::Terms { has } => Stop::Contents(Bad::Limit {
            what: What::SystemTerms,
            has,
            most: MOST_TERMS,
        }),
        ShrinkFault::Combination { has } => Stop::Contents(Bad::Limit {
            what: What::CombinationTerms,
            has,
            most: TERMS as u64,
        }),
        ShrinkFault::Fault => Stop::Fault { word: place.word },
        ShrinkFault::Memory => Stop::Memory,
    })
}
