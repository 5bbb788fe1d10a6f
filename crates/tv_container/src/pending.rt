//! Bytes appended to a file in pieces, and the first refusal kept.
ghost use Rattle.std.specs.Prelude.{◌≡◌, ◌≤◌, ◌<◌, [], ◌++◌, length, drop, Ok};
ghost use Rattle.std.specs.List.{All};
ghost use Rattle.tv_core.specs.declared.field.TheConstants.{P};
ghost use Rattle.tv_container.specs.Bytes.{eight_bytes, four_bytes, terms_bytes};
ghost use Rattle.tv_container.specs.Taking.{TakesBytes};

use crate::buffer::Buffer;
use crate::faults::sink_fault;
use crate::numbers::short_bytes;
use tv_core::{F, Put, Wire};
use tv_files::Files;

/// What a writer keeps of a file: the bytes that are still to be appended, at most 8,192, and
/// whether a call was refused. Each call appends 4,096 bytes, but for the last.
///
/// A refusal isn't returned at once but kept, in `outcome`: from then on nothing is appended, and
/// what is taken is lost.
#[derive(Drop)]
pub struct Pending {
    buffer: Buffer,
    /// Whether all calls succeeded, or the first refusal.
    pub outcome: Put<()>,
}

impl Pending {
    /// Begins with these bytes.
    pub fn begin(buffer: Buffer) -> Pending
        ensures { result ≡ record { buffer = buffer; outcome = Ok tt } }
    {
        Pending {
            buffer,
            outcome: Ok(()),
        }
    }

    /// Takes bytes.
    #[inline]
    pub fn put<D: Files>(&mut self, files: &mut D, name: &str, more: &[u8])
        requires { length more.now ≤ 4096 }
        ensures { TakesBytes name.now (D.seen files.old) self.old (D.seen files.new) self.new
            more.now }
    {
        self.make_room(files, name);
        self.buffer.push(more);
    }

    /// Takes a number in four bytes and one in eight.
    #[inline]
    pub fn put_pair<D: Files>(&mut self, files: &mut D, name: &str, short: u32, long: u64)
        ensures { TakesBytes name.now (D.seen files.old) self.old (D.seen files.new) self.new
            (four_bytes short ++ eight_bytes long) }
    {
        self.make_room(files, name);
        self.buffer.push_pair(short, long);
    }

    /// Takes how many terms there are, in four bytes, and the terms, twelve bytes each.
    #[inline]
    pub fn put_terms<D: Files>(&mut self, files: &mut D, name: &str, terms: &[(F, Wire)])
        requires { length terms.now ≤ 128 }
        ensures took { TakesBytes name.now (D.seen files.old) self.old (D.seen files.new) self.new
            (four_bytes (length terms.now) ++ terms_bytes terms.now) }
        ensures canonical { All (λ t. t.0 < P) terms.now }
    {
        self.make_room(files, name);
        self.buffer.push(&short_bytes(terms.len() as u32));
        self.buffer.push_terms(terms);
    }

    /// Appends all pending bytes; there is no call where there are none.
    pub fn flush<D: Files>(&mut self, files: &mut D, name: &str)
        ensures took { TakesBytes name.now (D.seen files.old) self.old (D.seen files.new) self.new
            [] }
        ensures none { self.new.buffer ≡ [] }
    {
        self.make_room(files, name);
        if !self.buffer.is_empty() {
            self.append_piece(files, name);
        }
    }

    // Appends a piece where a whole one is held.
    #[inline]
    fn make_room<D: Files>(&mut self, files: &mut D, name: &str)
        ensures took { TakesBytes name.now (D.seen files.old) self.old (D.seen files.new) self.new
            [] }
        ensures room { length self.new.buffer ≤ 4096 }
    {
        if self.buffer.is_full() {
            self.append_piece(files, name);
        }
    }

    // Appends a piece, or all bytes held where there are fewer.
    #[cold]
    #[inline(never)]
    fn append_piece<D: Files>(&mut self, files: &mut D, name: &str)
        ensures took { TakesBytes name.now (D.seen files.old) self.old (D.seen files.new) self.new
            [] }
        ensures rest { self.new.buffer ≡ drop 4096 self.old.buffer }
        ensures room { length self.new.buffer ≤ 4096 }
    {
        if self.outcome.is_ok() {
            let appended = files.append(name, self.buffer.piece());
            self.outcome = appended.map_err(|why| sink_fault(why));
        }
        self.buffer.drop_piece();
    }
}
