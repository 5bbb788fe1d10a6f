//! A number in two parts.
ghost use Rattle.std.specs.Prelude.{◌≡◌, ◌+◌, ◌^◌, ◌<◌, ◌≤◌};
ghost use Rattle.tv_limb.specs.Split.{split_at};

use tv_bits::Bits;

/// A number in two parts.
#[derive(Clone, Copy, PartialEq, Eq, Debug)]
pub struct Split {
    /// The bits of the word.
    pub low: Bits,
    /// The bits above it.
    pub high: Bits,
}

// The lowest `W` of the bits, and those above.
pub(crate) fn split_at_word<const W: u32>(bits: Bits) -> Split
    requires long { W ≤ bits.n }
    requires within { bits.first + bits.n < 2 ^ 32 }
    ensures { result ≡ split_at W bits }
{
    Split {
        low: bits.part(0, W),
        high: bits.above(W),
    }
}
