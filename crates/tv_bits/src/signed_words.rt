//! A word with its sign.
ghost use Rattle.std.specs.Prelude.{◌≡◌, ◌-◌};
ghost use Rattle.std.specs.Int.{bit_at};
ghost use Rattle.tv_word.specs.Widths.{IsWidth};

use tv_core::{F, Wire};

/// A word as a wire, and the wire of its highest bit, which is its sign.
#[derive(Clone, Copy, PartialEq, Eq, Debug)]
pub struct SignedWord {
    /// The word.
    pub word: Wire,
    /// Its highest bit.
    pub sign: Wire,
}

/// Returns the highest bit of a word of `W` bits: the value of its sign's wire.
pub fn sign_of<const W: u32>(word: u32) -> F
    requires width { IsWidth W }
    ensures { result ≡ bit_at word (W - 1) }
{
    F::from((word >> (W - 1)) % 2)
}
