//! A memory of bytes, read and written by bytes and words.
ghost use Rattle.std.specs.Prelude.{◌≡◌, ◌+◌, ◌^◌, ◌<◌, ◌*◌, ◌/◌, ◌||◌, ◌==◌, false, OnOk, OnErr};
ghost use Rattle.std.specs.Prelude.{IsOk, IsTrue, ℕ};
ghost use Rattle.tv_word.specs.Widths.{IsWidth};
ghost use Rattle.tv_mem.specs.Bytes.{with_byte, with_word, word_in};
ghost use Rattle.tv_mem.specs.Pages.{bytes_in, is_held};

use crate::pages::{PAGE, Table, half_on, low_bytes, page, word_on, write};
use std::alloc::{AllocError, Global};
use tv_word::word_bytes;

/// A memory of 2^32 bytes, all 0 at first. It keeps those pages of 4,096 bytes that were written,
/// in a table of tables of 1,024 pages, so that a page is found in constant time.
#[derive(Drop)]
pub struct Memory {
    alloc: Global,
    tables: Vec<Table>,
}

impl Memory {
    /// Nothing but zeros; no page is held, and no memory taken.
    #[tactic(auto, unfolding(crate::specs::Pages::bytes_in, crate::specs::Pages::is_held))]
    pub fn new(alloc: Global) -> Memory
        ensures bytes { (at : ℕ) → bytes_in result at ≡ 0 }
        ensures held { (at : ℕ) → is_held result at ≡ false }
    {
        Memory {
            alloc,
            tables: Vec::new(alloc),
        }
    }

    /// Returns the byte at an address.
    #[tactic(auto, unfolding(crate::specs::Pages::bytes_in))]
    pub fn load_byte(&self, at: u32) -> u8
        ensures { result ≡ bytes_in self.now at }
    {
        match page(&self.tables, at / PAGE) {
            Some(page) => page[(at % PAGE) as usize],
            None => 0,
        }
    }

    /// Returns the word of `W` bits, 16 or 32, in which an address lies: two or four bytes, the
    /// lowest first.
    #[tactic(auto, unfolding(crate::specs::Pages::bytes_in))]
    pub fn load_word<const W: u32>(&self, at: u32) -> u32
        requires width { IsWidth W }
        ensures word { result ≡ word_in W (bytes_in self.now) (at / (W / 8)) }
        ensures small { result < 2 ^ W }
    {
        if W == 16 {
            self.load_half(at)
        } else {
            self.load_whole(at)
        }
    }

    // The word of 16 bits at an address.
    #[tactic(auto, unfolding(crate::specs::Pages::bytes_in))]
    fn load_half(&self, at: u32) -> u32
        ensures word { result ≡ word_in 16 (bytes_in self.now) (at / 2) }
        ensures small { result < 2 ^ 16 }
    {
        match page(&self.tables, at / PAGE) {
            Some(page) => half_on(page, (at % PAGE / 2 * 2) as usize),
            None => 0,
        }
    }

    // The word of 32 bits at an address.
    #[tactic(auto, unfolding(crate::specs::Pages::bytes_in))]
    fn load_whole(&self, at: u32) -> u32
        ensures { result ≡ word_in 32 (bytes_in self.now) (at / 4) }
    {
        match page(&self.tables, at / PAGE) {
            Some(page) => word_on(page, (at % PAGE / 4 * 4) as usize),
            None => 0,
        }
    }

    /// Returns the two words of the `W / 4` bytes in which an address lies, as an instruction has
    /// them. Their page is looked up once.
    pub fn load_pair<const W: u32>(&self, at: u32) -> (u32, u32)
        requires width { IsWidth W }
        ensures first { result.0 ≡ word_in W (bytes_in self.now) (at / (W / 4) * 2) }
        ensures second { result.1 ≡ word_in W (bytes_in self.now) (at / (W / 4) * 2 + 1) }
        ensures first_word { result.0 < 2 ^ W }
        ensures second_word { result.1 < 2 ^ W }
    {
        if W == 16 {
            self.load_halves(at)
        } else {
            self.load_wholes(at)
        }
    }

    // The two words of 16 bits of the four bytes in which an address lies.
    #[tactic(auto, unfolding(crate::specs::Pages::bytes_in))]
    fn load_halves(&self, at: u32) -> (u32, u32)
        ensures first { result.0 ≡ word_in 16 (bytes_in self.now) (at / 4 * 2) }
        ensures second { result.1 ≡ word_in 16 (bytes_in self.now) (at / 4 * 2 + 1) }
        ensures first_word { result.0 < 2 ^ 16 }
        ensures second_word { result.1 < 2 ^ 16 }
    {
        match page(&self.tables, at / PAGE) {
            Some(page) => {
                let place = (at % PAGE / 4 * 4) as usize;
                (half_on(page, place), half_on(page, place + 2))
            }
            None => (0, 0),
        }
    }

    // The two words of 32 bits of the eight bytes in which an address lies.
    #[tactic(auto, unfolding(crate::specs::Pages::bytes_in))]
    fn load_wholes(&self, at: u32) -> (u32, u32)
        ensures first { result.0 ≡ word_in 32 (bytes_in self.now) (at / 8 * 2) }
        ensures second { result.1 ≡ word_in 32 (bytes_in self.now) (at / 8 * 2 + 1) }
    {
        match page(&self.tables, at / PAGE) {
            Some(page) => {
                let place = (at % PAGE / 8 * 8) as usize;
                (word_on(page, place), word_on(page, place + 4))
            }
            None => (0, 0),
        }
    }

    /// Writes a byte. It allocates only for a page that isn't held; if that fails, nothing changes.
    #[tactic(auto, unfolding(crate::specs::Pages::is_held))]
    pub fn store_byte(&mut self, at: u32, value: u8) -> Result<(), AllocError>
        ensures ok { OnOk result (bytes_in self.new ≡ with_byte (bytes_in self.old) at value) }
        ensures err { OnErr result (bytes_in self.new ≡ bytes_in self.old) }
        ensures held { OnOk result ((page : ℕ) → is_held self.new page
            ≡ ((page / 4096 == at / 4096) || is_held self.old page)) }
        ensures kept { OnErr result ((page : ℕ) → is_held self.new page ≡ is_held self.old page) }
        ensures free { IsTrue (is_held self.old at) → IsOk result }
    {
        write(self.alloc, &mut self.tables, at, &[value])
    }

    /// Writes the word of `W` bits in which an address lies; of `word` the `W` lowest bits count.
    /// It allocates only for a page that isn't held; if that fails, nothing changes.
    #[tactic(auto, unfolding(crate::specs::Pages::is_held))]
    pub fn store_word<const W: u32>(&mut self, at: u32, word: u32) -> Result<(), AllocError>
        requires width { IsWidth W }
        ensures ok { OnOk result (bytes_in self.new
            ≡ with_word W (bytes_in self.old) (at / (W / 8)) word) }
        ensures err { OnErr result (bytes_in self.new ≡ bytes_in self.old) }
        ensures held { OnOk result ((page : ℕ) → is_held self.new page
            ≡ ((page / 4096 == at / 4096) || is_held self.old page)) }
        ensures kept { OnErr result ((page : ℕ) → is_held self.new page ≡ is_held self.old page) }
        ensures free { IsTrue (is_held self.old at) → IsOk result }
    {
        let size = W / 8;
        write(
            self.alloc,
            &mut self.tables,
            at / size * size,
            low_bytes::<W>(&word_bytes(word)),
        )
    }

    /// Returns whether the page with this address is held.
    #[tactic(auto, unfolding(crate::specs::Pages::is_held))]
    pub fn has_page(&self, at: u32) -> bool
        ensures { result ≡ is_held self.now at }
    {
        page(&self.tables, at / PAGE).is_some()
    }
}
