//! The values of section 2.

ghost use Rattle.std.specs.Prelude.{◌≡◌, ℕ, ◌+◌, ◌-◌, ◌*◌, ◌≤◌, ◌<◌, ◌^◌, List, length};
ghost use Rattle.std.specs.Prelude.{true, Result, IfOk, IfErr, OnOk, MatchResult};
ghost use Rattle.std.specs.List.{All};
ghost use Rattle.tv_core.specs.declared.field.TheConstants.{P};
ghost use Rattle.tv_container.specs.Places.{Fault, places};
ghost use Rattle.tv_container.specs.Reading.{LooksAndKeeps, Refuses, ReadsAsBy, IsOwn, InPiece};
ghost use Rattle.tv_word.specs.Word.{little_endian};
ghost use Rattle.tv_wtns.specs.Values.{AreWords, IsAhead};
ghost use Rattle.tv_wtns.specs.Wtns.{firsts, firsts_in, values_at};

use std::alloc::Global;
use tv_container::{ReadRefusal, ReadWhy, Window};
use tv_core::F;
use tv_files::Files;

/// The bytes of a value.
const VALUE_BYTES: u64 = 8;

/// The first values of an assignment, and how many values it has.
#[derive(Drop)]
pub struct FirstValues {
    /// As many of its values as were asked for, in order from the first; all where it has no more.
    pub values: Vec<F>,
    /// How many values it has, those that weren't kept too.
    pub count: u32,
}

// Reads `count` values from a place on, a piece of the file at a time; the first are kept.
pub(crate) fn read_all<D: Files>(
    alloc: Global,
    files: &mut D,
    name: &str,
    window: &mut Window,
    at: u64,
    count: u32,
    most: u32,
) -> Result<FirstValues, ReadRefusal>
    requires { at + 8 * count < 2 ^ 64 }
    ensures gives { InPiece (D.seen files.old) name.now window.old
        (λ file. at + 8 * count ≤ places file →
        ReadsAsBy result firsts_in (firsts most (values_at file count at))) }
    ensures below { IfOk result (λ first. All (λ v. v < P) first.values.items) }
    ensures looks { LooksAndKeeps (D.seen files.old) (D.seen files.new) name.now result }
{
    let mut values = Vec::new(alloc);
    let mut at = at;
    let mut left = count;
    while left > 0 {
        window.fit(files, name, at, 8)?;
        let (words, _) = window.bytes_from(at).as_chunks::<8>();
        let some = words.len().min(left as usize);
        take_values(&words[..some], at, most, &mut values)?;
        at += VALUE_BYTES * some as u64;
        left -= some as u32;
    }
    Ok(FirstValues { values, count })
}

// Takes the values in words of eight bytes, the first of which stands at a place: those after the
// first `most` are judged and not kept.
fn take_values(
    words: &[[u8; 8]],
    at: u64,
    most: u32,
    values: &mut Vec<F>,
) -> Result<(), ReadRefusal>
    requires { at + 8 * length words.now < 2 ^ 64 }
    ensures gives { (file : List ℕ) → AreWords words.now file at → (answer : Result (List ℕ) Fault)
        → (n : ℕ) →
        length words.now ≤ n → IsAhead answer most values.old.items file n at → MatchResult result
        (λ _. IsAhead answer most values.new.items file (n - length words.now)
        (at + 8 * length words.now))
        (λ why. Refuses why answer) }
    ensures below { All (λ v. v < P) values.old.items
        → OnOk result (All (λ v. v < P) values.new.items) }
    ensures own { IfErr result (IsOwn true) }
{
    for (index, word) in words.iter().enumerate() {
        let Some(value) = F::canon(number_of(word)) else {
            return Err(ReadRefusal::Bad {
                at: at + VALUE_BYTES * index as u64,
                why: ReadWhy::NotCanonical,
            });
        };
        if values.len() < most as usize {
            values.push(value)?;
        }
    }
    Ok(())
}

// The number in eight bytes, the lowest first.
fn number_of(word: &[u8; 8]) -> u64
    ensures { result ≡ little_endian word.now }
{
    u64::from_le_bytes(*word)
}
