//! Bytes written over a part of other bytes.

ghost use Rattle.std.specs.Prelude.{◌≡◌, ◌≤◌, ◌<◌, ◌+◌, ◌*◌, ◌++◌, length, take};
ghost use Rattle.std.specs.List.{All};
ghost use Rattle.tv_core.specs.declared.field.TheConstants.{P};
ghost use Rattle.tv_container.specs.Bytes.{eight_bytes, four_bytes, terms_bytes};

use crate::numbers::{long_bytes, short_bytes};
use tv_core::{F, Wire};

// Puts bytes at a place, and leaves those before it.
#[inline]
pub(crate) fn place(bytes: &mut [u8], at: usize, more: &[u8])
    requires { at + length more.now ≤ length bytes.old }
    ensures { take (at + length more.now) bytes.new ≡ take at bytes.old ++ more.now }
{
    bytes[at..at + more.len()].copy_from_slice(more);
}

// Puts a number in four bytes and one in eight.
#[inline]
pub(crate) fn place_pair(bytes: &mut [u8], at: usize, short: u32, long: u64)
    requires { at + 12 ≤ length bytes.old }
    ensures { take (at + 12) bytes.new ≡ take at bytes.old ++ (four_bytes short
        ++ eight_bytes long) }
{
    place(bytes, at, &short_bytes(short));
    place(bytes, at + 4, &long_bytes(long));
}

// Puts terms, and returns the place after them.
#[inline]
pub(crate) fn place_terms(bytes: &mut [u8], start: usize, terms: &[(F, Wire)]) -> usize
    requires { start + 12 * length terms.now ≤ length bytes.old }
    ensures bytes { take result bytes.new ≡ take start bytes.old ++ terms_bytes terms.now }
    ensures end { result ≡ start + 12 * length terms.now }
    ensures canonical { All (λ t. t.0 < P) terms.now }
{
    let mut at = start;
    for (coefficient, wire) in terms {
        place_pair(bytes, at, wire.0, coefficient.number());
        at += 12;
    }
    at
}
