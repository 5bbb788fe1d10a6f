//! A tape that is read from its front.
ghost use Rattle.std.specs.Prelude.{◌≡◌, [], ◌∷◌, None, IfSome, length, slice_get};

use std::marker::Model;
use tv_word::Words;

/// A tape that is read from its front. Contracts see the words that are left.
#[derive(Drop)]
pub struct Tape {
    words: Words,
    taken: usize,
}

impl Model for Tape {
    ghost use Rattle.std.specs.Prelude.{ℕ, List, drop, length, ◌≤◌};

    ghost Value = { List ℕ };

    ghost view = { λ tape. drop tape.taken tape.words };

    ghost invariant = { λ tape. tape.taken ≤ length tape.words };
}

impl Tape {
    /// Returns the tape of these words, none of which is taken.
    pub fn new(words: Words) -> Tape
        ensures { result ≡ words }
    {
        Tape { words, taken: 0 }
    }

    /// Takes the next word; `None` exactly at the end, where it stays. Takes constant time.
    pub fn next(&mut self) -> Option<u32>
        ensures word { IfSome result (λ word. self.old ≡ word ∷ self.new) }
        ensures end { result ≡ None → (self.old ≡ []) × (self.new ≡ []) }
    {
        let word = *self.words.as_slice().get(self.taken)?;
        self.taken += 1;
        Some(word)
    }

    /// Returns the next word, which stays; `None` exactly at the end. Takes constant time.
    pub fn first(&self) -> Option<u32>
        ensures { result ≡ slice_get self.now 0 }
    {
        self.words.as_slice().get(self.taken).copied()
    }

    /// Returns how many words are left. Takes constant time.
    pub fn left(&self) -> usize
        ensures { result ≡ length self.now }
    {
        self.words.as_slice().len() - self.taken
    }
}
