//! The field of a file: its size of numbers and its prime.
ghost use Rattle.std.specs.Prelude.{◌≡◌, ◌+◌, ◌≤◌, OnOk};
ghost use Rattle.tv_container.specs.Field.{this_field};
ghost use Rattle.tv_container.specs.Places.{places};
ghost use Rattle.tv_container.specs.Reading.{ReadsAs, ReadsIn};

use crate::sections::Section;
use crate::why::{ReadRefusal, ReadWhy};
use crate::window::Window;
use tv_core::P;
use tv_files::Files;

/// Whether section 1 is of this size, `wants`, and says that numbers are of this field: 8 bytes
/// each, and the prime.
#[tactic(auto, unfolding(crate::specs::Field::this_field))]
pub fn this_field<D: Files>(
    files: &mut D,
    name: &str,
    window: &mut Window,
    one: &Section,
    wants: u64,
) -> Result<(), ReadRefusal>
    requires room { 12 ≤ wants }
    ensures reads { ReadsIn (D.seen files.old) (D.seen files.new) name.now window.old window.new
        result
        (λ file. one.now.at + one.now.size ≤ places file
        → ReadsAs result (this_field file wants one.now)) }
    ensures size { OnOk result (one.now.size ≡ wants) }
{
    let miscounted = ReadRefusal::Bad {
        at: one.at,
        why: ReadWhy::BadCount {
            has: one.size,
            wants,
        },
    };
    let other_prime = ReadRefusal::Bad {
        at: one.at,
        why: ReadWhy::OtherPrime,
    };
    if one.size < 4 {
        return Err(miscounted);
    }
    window.fit(files, name, one.at, 4)?;
    if window.word(one.at) != 8 {
        return Err(other_prime);
    }
    if one.size != wants {
        return Err(miscounted);
    }
    window.fit(files, name, one.at, 12)?;
    if window.long(one.at + 4) != P {
        return Err(other_prime);
    }
    Ok(())
}
