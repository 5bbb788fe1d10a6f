//! A window on a file: the piece of it that was read last.
ghost use Rattle.std.specs.Prelude.{◌≡◌, ℕ, ◌+◌, ◌*◌, ◌≤◌, ◌<◌, ◌^◌, true, nat_le, Ok, IfOk, OnOk};
ghost use Rattle.std.specs.Prelude.{MatchResult, ◌↔◌};
ghost use Rattle.std.specs.Prelude.{List, [], length, take, drop};
ghost use Rattle.tv_container.specs.Places.{fit, number, places};
ghost use Rattle.tv_container.specs.Reading.{Stopped, ReadsAs, Holds, IsMissing, IsPiece, Known};
ghost use Rattle.tv_container.specs.Reading.{ReadsIn};
ghost use Rattle.tv_container.specs.Refusals.{read_refusal};
ghost use Rattle.tv_word.specs.Word.{little_endian};

use crate::why::{ReadRefusal, ReadWhy};
use std::marker::Model;
use tv_files::{FileRefusal, Files};
use tv_word::word_at;

/// The most bytes that a window holds, and that one call reads.
const ROOM: usize = 65_536;

/// The piece of a file that was read last, at most 65,536 bytes. Contracts see it as its place in
/// the file and its bytes.
#[derive(Drop)]
pub struct Window {
    bytes: [u8; ROOM],
    held: usize,
    at: u64,
}

impl Model for Window {
    ghost use Rattle.std.specs.Prelude.{◌≤◌, take};
    ghost use Rattle.tv_container.specs.Reading.{Piece};

    ghost Value = { Piece };

    ghost view = { λ w. record { at = w.at; bytes = take w.held w.bytes } };

    ghost invariant = { λ w. w.held ≤ 65536 };
}

impl Window {
    /// Nothing was read.
    pub fn new() -> Window
        ensures none { result.bytes ≡ [] }
        ensures piece { (file : List ℕ) → IsPiece result file }
    {
        Window {
            bytes: [0; ROOM],
            held: 0,
            at: 0,
        }
    }

    /// Returns the 32-bit number at a place that the window holds, the lowest byte first.
    #[inline(always)]
    pub fn word(&self, at: u64) -> u32
        requires { Holds self.now at 4 }
        ensures { (file : List ℕ) → IsPiece self.now file → result ≡ number file 4 at }
    {
        word_at(&self.bytes, (at - self.at) as usize)
    }

    /// Returns the 64-bit number at a place that the window holds, the lowest byte first.
    #[inline(always)]
    pub fn long(&self, at: u64) -> u64
        requires { Holds self.now at 8 }
        ensures { (file : List ℕ) → IsPiece self.now file → result ≡ number file 8 at }
    {
        long_at(&self.bytes, (at - self.at) as usize)
    }

    /// Returns how many whole terms of 12 bytes the window has from a place to an end; it has the
    /// first of them.
    pub fn whole_terms(&self, at: u64, end: u64) -> u32
        requires held { Holds self.now at 12 }
        requires within { at + 12 ≤ end }
        ensures some { 0 < result }
        ensures held { Holds self.now at (12 * result) }
        ensures within { at + 12 * result ≤ end }
        ensures all { Holds self.now at (12 * (result + 1)) → end < at + 12 * (result + 1) }
    {
        let held = self.held as u64 - (at - self.at);
        (held.min(end - at) / 12) as u32
    }

    /// Returns the bytes of the window from a place on, which lies in it.
    pub fn bytes_from(&self, at: u64) -> &[u8]
        requires { Holds self.now at 0 }
        ensures all { at + length result.now ≡ self.now.at + length self.now.bytes }
        ensures few { length result.now ≤ 65536 }
        ensures bytes { (file : List ℕ) → IsPiece self.now file → result.now
            ≡ take (length result.now) (drop at file) }
    {
        &self.bytes[(at - self.at) as usize..self.held]
    }

    /// Returns whether the window holds this many bytes from a place on.
    #[inline(always)]
    pub fn holds(&self, at: u64, size: usize) -> bool
        ensures { (result ≡ true) ↔ Holds self.now at size }
    {
        at >= self.at
            && at - self.at <= self.held as u64
            && size as u64 <= self.held as u64 - (at - self.at)
    }

    /// Reads on to a place until the window holds this many bytes there, and returns whether the
    /// file has them. A call asks for all the bytes that there is room for.
    pub fn reach<D: Files>(
        &mut self,
        files: &mut D,
        name: &str,
        at: u64,
        size: usize,
    ) -> Result<bool, ReadRefusal>
        requires some { 0 < size }
        requires small { size ≤ 4096 }
        ensures held { IfOk result (λ there. there ≡ true → Holds self.new at size) }
        ensures place { IfOk result (λ there. there ≡ true → at + size < 2 ^ 64) }
        ensures reads { ReadsIn (D.seen files.old) (D.seen files.new) name.now self.old self.new
            result
            (λ file. ReadsAs result (Ok (nat_le (at + size) (places file)))) }
        ensures missing { IsMissing (D.seen files.old) name.now → self.old.bytes ≡ [] → at + size
            < 2 ^ 64 → result ≡ Err ReadRefusal.Fault }
    {
        if size as u64 > u64::MAX - at {
            return Ok(false);
        }
        if self.holds(at, size) {
            return Ok(true);
        }
        self.go(at);
        self.held = fill(files, name, at, self.held, size, &mut self.bytes)?;
        Ok(self.held >= size)
    }

    // Lets the bytes before a place go, and all of them where it is neither among them nor directly
    // after them.
    fn go(&mut self, at: u64)
        ensures at { self.new.at ≡ at }
        ensures piece { (file : List ℕ) → IsPiece self.old file → IsPiece self.new file }
        ensures none { self.old.bytes ≡ [] → self.new.bytes ≡ [] }
    {
        if self.holds(at, 0) {
            let from = (at - self.at) as usize;
            self.bytes.copy_within(from..self.held, 0);
            self.held -= from;
            self.at = at;
            return;
        }
        self.held = 0;
        self.at = at;
    }

    /// As `reach`; a file that ends before is `Truncated` at the place.
    pub fn fit<D: Files>(
        &mut self,
        files: &mut D,
        name: &str,
        at: u64,
        size: usize,
    ) -> Result<(), ReadRefusal>
        requires some { 0 < size }
        requires small { size ≤ 4096 }
        ensures held { OnOk result (Holds self.new at size) }
        ensures place { OnOk result (at + size < 2 ^ 64) }
        ensures reads { ReadsIn (D.seen files.old) (D.seen files.new) name.now self.old self.new
            result
            (λ file. ReadsAs result (fit size at (places file))) }
        ensures missing { IsMissing (D.seen files.old) name.now → self.old.bytes ≡ [] → at + size
            < 2 ^ 64 → result ≡ Err ReadRefusal.Fault }
    {
        if self.reach(files, name, at, size)? {
            return Ok(());
        }
        Err(ReadRefusal::Bad {
            at,
            why: ReadWhy::Truncated,
        })
    }
}

// Reads on at a place, where some bytes are held, until `size` are or the file ends, and returns
// how many are held then.
fn fill<D: Files>(
    files: &mut D,
    name: &str,
    at: u64,
    held: usize,
    size: usize,
    bytes: &mut [u8; ROOM],
) -> Result<usize, FileRefusal>
    requires small { size ≤ 4096 }
    requires most { held ≤ 65536 }
    requires place { at + size < 2 ^ 64 }
    ensures within { IfOk result (λ held. held ≤ 65536) }
    ensures piece { Known (D.seen files.old) name.now
        (λ file. take held bytes.old ≡ take held (drop at file)
        → IfOk result (λ held. take held bytes.new ≡ take held (drop at file))) }
    ensures end { Known (D.seen files.old) name.now
        (λ file. IfOk result (λ held. held < size → length file ≤ at + held)) }
    ensures looks { MatchResult result
        (λ _. D.seen files.new ≡ D.seen files.old)
        (λ why. Stopped (D.seen files.old) (D.seen files.new) name.now (read_refusal why)) }
    ensures missing { IsMissing (D.seen files.old) name.now → held < size
        → result ≡ Err FileRefusal.Failed }
{
    let mut held = held;
    while held < size {
        let count = files.read(name, at + held as u64, &mut bytes[held..])?;
        if count == 0 {
            return Ok(held);
        }
        held += count;
    }
    Ok(held)
}

// The number in the eight bytes from a place on, the lowest first.
#[inline(always)]
fn long_at(bytes: &[u8], at: usize) -> u64
    requires { at + 8 ≤ length bytes.now }
    ensures { result ≡ little_endian (take 8 (drop at bytes.now)) }
{
    u64::from_le_bytes([
        bytes[at],
        bytes[at + 1],
        bytes[at + 2],
        bytes[at + 3],
        bytes[at + 4],
        bytes[at + 5],
        bytes[at + 6],
        bytes[at + 7],
    ])
}
