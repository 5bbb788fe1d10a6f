//! The names among the words, and names that are the same.
ghost use Rattle.std.specs.Prelude.{◌≡◌, map, Some, None, MatchResult};
ghost use Rattle.tv_plan.specs.Plan.{named, same_in, same_of};

use crate::refusal::Refusal;

/// A word that is a file's name.
#[derive(Clone, Copy)]
pub struct Place<'a> {
    pub word: u32,
    pub name: &'a str,
}

impl<'a> Place<'a> {
    /// The name at a word.
    pub fn at(word: u32, name: &'a str) -> Place<'a>
        ensures { result ≡ record { word = word; name = name.entry } }
    {
        Place { word, name }
    }
}

/// Refuses the first name that is the same as this one.
fn keep_from(one: Place<'_>, others: &[Place<'_>]) -> Result<(), Refusal>
    ensures { let same = same_in (named one.entry) (map named others.now) in
        MatchResult result (λ _. same ≡ None) (λ why. same ≡ Some why) }
{
    match others.iter().find(|other| other.name == one.name) {
        None => Ok(()),
        Some(other) => Err(Refusal::SameName {
            first: one.word,
            second: other.word,
        }),
    }
}

/// Refuses the first two words that are one name, of which the second is written.
pub fn keep_apart(reads: &[Place<'_>], writes: &[Place<'_>]) -> Result<(), Refusal>
    ensures { let same = same_of (map named reads.now) (map named writes.now) in
        MatchResult result (λ _. same ≡ None) (λ why. same ≡ Some why) }
{
    match (reads, writes) {
        ([], []) => Ok(()),
        ([], [one, rest @ ..]) => {
            keep_from(*one, rest)?;
            keep_apart(reads, rest)
        }
        ([one, rest @ ..], _) => {
            keep_from(*one, writes)?;
            keep_apart(rest, writes)
        }
    }
}
