//! A system in a file, shrunk.
ghost use Rattle.std.specs.Prelude.{◌≡◌, Err, MatchResult};
ghost use Rattle.tv_container.specs.Reading.{Known, IsMissing};
ghost use Rattle.tv_shrink.specs.Answers.{HaltsBy, Shrinks, FaultMeans};
ghost use Rattle.tv_shrink.specs.declared.fault.ShrinkFault.{ShrinkFault};

use crate::fault::ShrinkFault;
use crate::normal_system::read;
use crate::shrunk::{Shrunk, settle};
use std::alloc::Global;
use tv_files::Files;
use tv_r1cs_read::survey;

/// The most terms of a system that is shrunk.
pub const MOST_TERMS: u64 = 4_194_304;

/// The number of that limit.
pub fn terms_are_limited()
    ensures { MOST_TERMS ≡ 4194304 }
{}

/// Shrinks the system in a file: one pass over its constraints, in which each linear one that has a
/// private wire is solved for its greatest and dropped, if all others keep to 128 terms.
///
/// `Bad` reports the file's first fault; `Terms` comes for a system of more than 4,194,304 terms,
/// and `Combination` for the first combination that has more than 128 once it is normal. `Fault`
/// comes only where a read failed, and a missing name is such a fault.
///
/// Reads the file twice: first to its end, for its first fault and its number of terms, which takes
/// no memory; then up to the first combination that is too wide.
///
/// Memory is taken for the constraints as the pass makes them, which may be longer than those that
/// were read, up to 128 terms a combination: 16 bytes for a term, 24 for a constraint, 16 for each
/// term of a private wire, 4 for each wire that is replaced; and 12 for each term that was read, or
/// for each wire where the file counts fewer. A constraint that has no wire but the constant one,
/// and holds, takes none. So memory is bounded by the terms, whatever wires and constraints there
/// are. What replacements leave over is cleared away after the turn with which there may be more of
/// it than of the rest, or than of constraints and terms.
///
/// A replacement costs as much as the constraints that it changes have terms, and a look at each
/// constraint with a wire whose number differs from its number by a multiple of the lists. A turn
/// that is given up costs as much as the constraints that it looks at, up to one that would have
/// too many terms; the wire's next turn looks at that one first.
pub fn shrink<D: Files>(alloc: Global, files: &mut D, name: &str) -> Result<Shrunk, ShrinkFault>
    ensures gives { Known (D.seen files.old) name.now (λ file. MatchResult result
        (λ shrunk. Shrinks shrunk file) (λ fault. FaultMeans fault file)) }
    ensures looks { HaltsBy (D.seen files.old) (D.seen files.new) name.now result }
    ensures missing { IsMissing (D.seen files.old) name.now → result ≡ Err ShrinkFault.Fault }
{
    let counts = survey(alloc, files, name)?;
    if counts.terms > MOST_TERMS {
        return Err(ShrinkFault::Terms { has: counts.terms });
    }
    let system = read(alloc, files, name)?;
    Ok(settle(alloc, system)?)
}
