//! The assignment of a whole file.

ghost use Rattle.std.specs.Prelude.{◌≡◌, ◌+◌, ◌*◌, ◌≤◌, ◌<◌, List, length, Ok, Err, IfOk, IfErr};
ghost use Rattle.std.specs.Prelude.{false, OnOk};
ghost use Rattle.std.specs.List.{All};
ghost use Rattle.tv_core.specs.declared.field.TheConstants.{P};
ghost use Rattle.tv_container.specs.Found.{first_of, AllEnd, AllFit};
ghost use Rattle.tv_container.specs.Places.{places};
ghost use Rattle.tv_container.specs.Reading.{LooksAndKeeps, ReadsAs, ReadsAsBy};
ghost use Rattle.tv_container.specs.Reading.{IsMissing, IsOwn, Known};
ghost use Rattle.tv_container.specs.Reading.{InPiece, ReadsIn};
ghost use Rattle.tv_container.specs.declared.sections.Section.{Section};
ghost use Rattle.tv_container.specs.declared.why.ReadRefusal.{ReadRefusal};
ghost use Rattle.tv_wtns.specs.Wtns.{assignment_in, assignment_of, counted, fills};
ghost use Rattle.tv_wtns.specs.Wtns.{firsts, firsts_in, AssignmentsAreBelow};

use crate::values::{FirstValues, read_all};
use std::alloc::Global;
use tv_container::{
    Form, Found, ReadRefusal, ReadWhy, Section, Window, find_sections, this_field, wanted,
};
use tv_core::F;
use tv_files::Files;

/// The form of an assignment's file: the text `wtns`, version 2, and one section of types 1 and 2.
pub(crate) const WTNS: Form = Form {
    magic: 0x736e_7477,
    version: 2,
    singles: 2,
};

/// How many bytes section 1, the header, has.
pub(crate) const HEADER_BYTES: u64 = 16;

/// Reads the assignment of a wtns file.
///
/// `Ok` comes exactly for a file that holds an assignment, and `Bad` reports the first fault of
/// another one. `Fault` comes only where a read failed, and a missing name is such a fault. It
/// takes one pass, and memory for the values alone, as each is read: a count without values after
/// it takes none.
pub fn read_values<D: Files>(
    alloc: Global,
    files: &mut D,
    name: &str,
) -> Result<Vec<F>, ReadRefusal>
    ensures gives { Known (D.seen files.old) name.now
        (λ file. ReadsAsBy result (λ values. values.items) (assignment_of file)) }
    ensures below { IfOk result (λ values. All (λ v. v < P) values.items) }
    ensures looks { LooksAndKeeps (D.seen files.old) (D.seen files.new) name.now result }
    ensures missing { IsMissing (D.seen files.old) name.now → result ≡ Err ReadRefusal.Fault }
{
    let first = read_first_values(alloc, files, name, u32::MAX)?;
    Ok(first.values)
}

/// Reads the first `most` values of the assignment of a wtns file, and counts them all.
///
/// All values are judged: it returns `Ok` and is refused exactly where `read_values` is. It takes
/// memory for the values alone that it keeps, as each is read.
#[tactic(auto, unfolding(crate::specs::Wtns::assignment_of))]
pub fn read_first_values<D: Files>(
    alloc: Global,
    files: &mut D,
    name: &str,
    most: u32,
) -> Result<FirstValues, ReadRefusal>
    ensures gives { Known (D.seen files.old) name.now
        (λ file. ReadsAsBy result firsts_in (firsts most (assignment_of file))) }
    ensures below { IfOk result (λ first. All (λ v. v < P) first.values.items) }
    ensures looks { LooksAndKeeps (D.seen files.old) (D.seen files.new) name.now result }
    ensures missing { IsMissing (D.seen files.old) name.now → result ≡ Err ReadRefusal.Fault }
{
    let mut window = Window::new();
    let (found, end) = find_sections(files, name, &mut window, &WTNS)?;
    read_assignment(alloc, files, name, &mut window, &found, end, most)
}

/// The values of the assignment that a file holds are below the prime.
#[tactic(auto, using(crate::proofs::ValueLaws::assignments_below))]
pub fn assignments_are_below_the_prime()
    ensures { AssignmentsAreBelow }
{}

// The first values of the assignment, from the sections.
#[tactic(auto, unfolding(crate::specs::Wtns::assignment_in))]
fn read_assignment<D: Files>(
    alloc: Global,
    files: &mut D,
    name: &str,
    window: &mut Window,
    found: &Found,
    end: u64,
    most: u32,
) -> Result<FirstValues, ReadRefusal>
    requires { AllEnd found.now }
    ensures gives { InPiece (D.seen files.old) name.now window.old
        (λ file. end ≡ length file → (sections : List Section) →
        found.now ≡ first_of sections → AllFit file sections →
        ReadsAsBy result firsts_in (firsts most (assignment_in file sections))) }
    ensures below { IfOk result (λ first. All (λ v. v < P) first.values.items) }
    ensures looks { LooksAndKeeps (D.seen files.old) (D.seen files.new) name.now result }
{
    let one = wanted(found.one, 1, end)?;
    let two = wanted(found.two, 2, end)?;
    this_field(files, name, window, &one, HEADER_BYTES)?;
    let count = read_count(files, name, window, &one)?;
    fills(count, &two)?;
    read_all(alloc, files, name, window, two.at, count, most)
}

// How many values section 1, of 16 bytes, counts.
fn read_count<D: Files>(
    files: &mut D,
    name: &str,
    window: &mut Window,
    one: &Section,
) -> Result<u32, ReadRefusal>
    ensures reads { ReadsIn (D.seen files.old) (D.seen files.new) name.now window.old window.new
        result
        (λ file. one.now.at + 16 ≤ places file → ReadsAs result (Ok (counted file one.now))) }
{
    window.fit(files, name, one.at, HEADER_BYTES as usize)?;
    Ok(window.word(one.at + 12))
}

// Section 2 has the size of `count` values.
fn fills(count: u32, two: &Section) -> Result<(), ReadRefusal>
    ensures gives { ReadsAs result (fills count two.now) }
    ensures size { OnOk result (two.now.size ≡ 8 * count) }
    ensures own { IfErr result (IsOwn false) }
{
    let wants = 8 * u64::from(count);
    if two.size != wants {
        return Err(ReadRefusal::Bad {
            at: two.at,
            why: ReadWhy::BadCount {
                has: two.size,
                wants,
            },
        });
    }
    Ok(())
}
