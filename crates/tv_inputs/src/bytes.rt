//! The bytes of a word.
ghost use Rattle.std.specs.Prelude.{◌≡◌, ◌≤◌, ◌<◌, ◌^◌};
ghost use Rattle.tv_mem.specs.Bytes.{byte_of};

/// 256 to the power of a byte's number.
pub fn byte_power(j: u32) -> u32
    requires { j < 4 }
    ensures power { result ≡ 256 ^ j }
    ensures some { 1 ≤ result }
{
    match j {
        0 => 1,
        1 => 256,
        2 => 65_536,
        _ => 16_777_216,
    }
}

/// A byte of a word, by its number from the lowest on.
pub fn byte_of(word: u32, j: u32) -> u32
    requires { j < 4 }
    ensures { result ≡ byte_of word j }
{
    word / byte_power(j) % 256
}
