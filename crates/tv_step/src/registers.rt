//! The sixteen registers.
ghost use Rattle.std.specs.Prelude.{◌≡◌, ◌^◌, ◌<◌, replicate, slice_index, slice_set};
ghost use Rattle.tv_word.specs.Widths.{IsWidth};

use std::marker::Model;

/// Sixteen words. Contracts see the list.
#[derive(Drop)]
pub struct Registers<const W: u32> {
    words: [u32; 16],
}

impl<const W: u32> Model for Registers<W> {
    ghost use Rattle.std.specs.Prelude.{ℕ, List, ◌≡◌, ◌<◌, ◌^◌, length, All};

    ghost Value = { List ℕ };

    ghost view = { λ registers. registers.words };

    ghost invariant = { λ registers. (length registers.words ≡ 16)
        × All (λ v. v < 2 ^ W) registers.words };

    ghost inverse = { λ words. record { words = words } };
}

impl<const W: u32> Registers<W> {
    /// Returns registers that are all 0.
    pub fn new() -> Registers<W>
        requires width { IsWidth W }
        ensures { result ≡ replicate 16 0 }
    {
        Registers { words: [0; 16] }
    }

    /// Returns the word in a register.
    pub fn get(&self, i: u8) -> u32
        requires { i < 16 }
        ensures same { result ≡ slice_index self.now i }
        ensures small { result < 2 ^ W }
    {
        self.words[i as usize]
    }

    /// Puts a word into a register.
    pub fn set(&mut self, i: u8, word: u32)
        requires register { i < 16 }
        requires small { word < 2 ^ W }
        ensures { self.new ≡ slice_set self.old i word }
    {
        self.words[i as usize] = word;
    }

    /// Returns all registers.
    pub fn words(&self) -> [u32; 16]
        ensures { result ≡ self.now }
    {
        self.words
    }
}
