//! A list of words that grows, and reports an allocation failure.
ghost use Rattle.std.specs.Prelude.{◌≡◌, [], ◌∷◌, ◌++◌, OnOk, OnErr};

use std::alloc::{AllocError, Global};
use std::marker::Model;

/// A list of words that grows at its end.
#[derive(Drop)]
pub struct Words {
    items: Vec<u32>,
}

impl Model for Words {
    ghost use Rattle.std.specs.Prelude.{ℕ, List};

    ghost Value = { List ℕ };

    ghost view = { λ words. words.items.items };
}

impl Words {
    /// Returns an empty list; takes no memory.
    pub fn new(alloc: Global) -> Words
        ensures { result ≡ [] }
    {
        Words {
            items: Vec::new(alloc),
        }
    }

    /// Appends a word; on an allocation failure the words stay as they were. Amortised constant
    /// time.
    pub fn push(&mut self, word: u32) -> Result<(), AllocError>
        ensures ok { OnOk result (self.new ≡ self.old ++ word ∷ []) }
        ensures err { OnErr result (self.new ≡ self.old) }
    {
        self.items.push(word)?;
        Ok(())
    }

    /// Returns the words in order.
    pub fn as_slice(&self) -> &[u32]
        ensures { result.now ≡ self.now }
    {
        self.items.as_slice()
    }
}

impl From<Vec<u32>> for Words {
    ghost from_gives = { λ items words. words ≡ items.items };

    fn from(items: Vec<u32>) -> Words {
        Words { items }
    }
}

impl From<Words> for Vec<u32> {
    ghost from_gives = { λ words items. items.items ≡ words };

    fn from(words: Words) -> Vec<u32> {
        words.items
    }
}
