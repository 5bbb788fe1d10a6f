//! Numbers as bytes, the lowest first.
ghost use Rattle.std.specs.Prelude.{◌≡◌};
ghost use Rattle.tv_container.specs.Bytes.{eight_bytes, four_bytes};

use tv_word::word_bytes;

/// Returns the four bytes of a number, the lowest first.
#[tactic(auto, unfolding(crate::specs::Bytes::four_bytes))]
pub fn short_bytes(number: u32) -> [u8; 4]
    ensures { result ≡ four_bytes number }
{
    word_bytes(number)
}

/// Returns the eight bytes of a number, the lowest first.
#[tactic(auto, unfolding(crate::specs::Bytes::eight_bytes))]
pub fn long_bytes(number: u64) -> [u8; 8]
    ensures { result ≡ eight_bytes number }
{
    number.to_le_bytes()
}
