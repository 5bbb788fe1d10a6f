//! The verdict on an assignment, by the system in a file.
ghost use Rattle.std.specs.Prelude.{◌≡◌, Ok, Err, MatchOption};
ghost use Rattle.tv_container.specs.Reading.{Looks, ReadsAs, IsMissing, Known};
ghost use Rattle.tv_container.specs.declared.why.ReadRefusal.{ReadRefusal};
ghost use Rattle.tv_check.specs.Verdict.{verdict_of};

use crate::publics::public_verdict;
use crate::verdict::Verdict;
use std::alloc::Global;
use tv_container::ReadRefusal;
use tv_core::F;
use tv_files::Files;
use tv_r1cs_read::SystemReader;

/// Returns the verdict on an assignment, `values`, and public numbers, by the system in a file:
/// first on the number of values, then on the public wires, then on each constraint.
///
/// The file is read to its end whatever the verdict: `Ok` comes exactly for a file that holds a
/// system, and `Bad` reports the first fault of another one. `Fault` comes only where a read
/// failed, and a missing name is such a fault. Takes one pass and no memory: `Memory` comes only
/// where the files ran out of it. Up to the first constraint that doesn't hold each term costs one
/// product; after it, or where no constraint decides, none.
pub fn check<D: Files>(
    alloc: Global,
    files: &mut D,
    system: &str,
    values: &[F],
    publics: &[F],
) -> Result<Verdict, ReadRefusal>
    ensures gives { Known (D.seen files.old) system.now
        (λ file. ReadsAs result (verdict_of file values.now publics.now)) }
    ensures looks { Looks (D.seen files.old) (D.seen files.new) system.now result }
    ensures missing { IsMissing (D.seen files.old) system.now → result ≡ Err ReadRefusal.Fault }
{
    let mut reader = match SystemReader::begin(alloc, files, system) {
        Ok(reader) => reader,
        Err(unread) => return Err(unread.why),
    };
    let mut verdict = public_verdict(&reader.counts(), values, publics);
    if let Verdict::Yes = verdict {
        match reader.first_failure(values) {
            Some(at) => verdict = Verdict::NoConstraint { at },
            None => return ended(&reader, verdict),
        }
    }
    reader.pass_rest();
    ended(&reader, verdict)
}

// The verdict at the end of the system, or why reading stopped before.
fn ended<D: Files>(reader: &SystemReader<'_, D>, verdict: Verdict) -> Result<Verdict, ReadRefusal>
    ensures { MatchOption reader.now.progress.stopped (result ≡ Ok verdict)
        (λ why. result ≡ Err why) }
{
    match reader.stopped() {
        Some(why) => Err(why),
        None => Ok(verdict),
    }
}
