//! A buffer of bytes that are still to be appended.
ghost use Rattle.std.specs.Prelude.{◌≡◌, ◌≤◌, ◌<◌, ◌+◌, ◌*◌, [], ◌++◌, length, take, drop};
ghost use Rattle.std.specs.Prelude.{IsTrue, ◌↔◌};
ghost use Rattle.std.specs.List.{All};
ghost use Rattle.tv_core.specs.declared.field.TheConstants.{P};
ghost use Rattle.tv_container.specs.Bytes.{eight_bytes, four_bytes, terms_bytes};

use crate::place::{place, place_pair, place_terms};
use std::marker::Model;
use tv_core::{F, Wire};

/// The most bytes that one call appends.
const PIECE: usize = 4096;

/// At most 8,192 bytes that are still to be appended to a file. Contracts see the list of them.
///
/// Each method stores the end of the bytes once: to load it again would wait for the store.
#[derive(Drop)]
pub struct Buffer {
    bytes: [u8; 2 * PIECE],
    held: usize,
}

impl Model for Buffer {
    ghost use Rattle.std.specs.Prelude.{ℕ, List, take, ◌≤◌};

    ghost Value = { List ℕ };

    ghost view = { λ b. take b.held b.bytes };

    ghost invariant = { λ b. b.held ≤ 8192 };
}

impl Buffer {
    /// Returns an empty buffer.
    pub fn new() -> Buffer
        ensures { result ≡ [] }
    {
        Buffer {
            bytes: [0; 2 * PIECE],
            held: 0,
        }
    }

    /// Appends bytes to the buffer.
    #[inline]
    pub fn push(&mut self, more: &[u8])
        requires { length self.old + length more.now ≤ 8192 }
        ensures bytes { self.new ≡ self.old ++ more.now }
        ensures size { length self.new ≡ length self.old + length more.now }
    {
        let at = self.held;
        place(&mut self.bytes, at, more);
        self.held = at + more.len();
    }

    /// Takes a number in four bytes and one in eight.
    #[inline]
    pub fn push_pair(&mut self, short: u32, long: u64)
        requires { length self.old + 12 ≤ 8192 }
        ensures bytes { self.new ≡ self.old ++ (four_bytes short ++ eight_bytes long) }
        ensures size { length self.new ≡ length self.old + 12 }
    {
        let at = self.held;
        place_pair(&mut self.bytes, at, short, long);
        self.held = at + 12;
    }

    /// Takes terms, twelve bytes each.
    #[inline]
    pub fn push_terms(&mut self, terms: &[(F, Wire)])
        requires { length self.old + 12 * length terms.now ≤ 8192 }
        ensures bytes { self.new ≡ self.old ++ terms_bytes terms.now }
        ensures canonical { All (λ t. t.0 < P) terms.now }
    {
        self.held = place_terms(&mut self.bytes, self.held, terms);
    }

    // Whether none are held.
    pub(crate) fn is_empty(&self) -> bool
        ensures { IsTrue result ↔ (self.now ≡ []) }
    {
        self.held == 0
    }

    // Whether the bytes held make a piece.
    #[inline]
    pub(crate) fn is_full(&self) -> bool
        ensures { IsTrue result ↔ (4096 ≤ length self.now) }
    {
        self.held >= PIECE
    }

    // The first bytes held: a piece, or all where there are fewer.
    pub(crate) fn piece(&self) -> &[u8]
        ensures { result.now ≡ take 4096 self.now }
    {
        &self.bytes[..self.held.min(PIECE)]
    }

    // Lets these go, and moves the others to the front.
    pub(crate) fn drop_piece(&mut self)
        ensures rest { self.new ≡ drop 4096 self.old }
        ensures room { length self.new ≤ 4096 }
    {
        let size = self.held.min(PIECE);
        self.bytes.copy_within(size..self.held, 0);
        self.held -= size;
    }
}
