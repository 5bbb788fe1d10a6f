//! Words as signed numbers and as bytes.
ghost use Rattle.std.specs.Prelude.{◌≡◌, ◌≤◌, ◌<◌, ◌+◌, ◌^◌, length};
ghost use Rattle.tv_word.specs.Word.{signed, word_at, word_bytes};

/// Returns the word as a signed number in two's complement: itself below 2^31, else less 2^32.
pub fn signed(word: u32) -> i64
    ensures { result ≡ signed 32 word }
{
    i64::from(word.cast_signed())
}

/// Returns the word in the four bytes from place `at` on, the lowest first.
pub fn word_at(bytes: &[u8], at: usize) -> u32
    requires { at + 4 ≤ length bytes.now }
    ensures { result ≡ word_at 32 bytes.now at }
{
    u32::from_le_bytes([bytes[at], bytes[at + 1], bytes[at + 2], bytes[at + 3]])
}

/// Returns the four bytes of the word, the lowest first.
pub fn word_bytes(word: u32) -> [u8; 4]
    ensures bytes { result ≡ word_bytes 32 word }
    ensures back { word_at 32 result 0 ≡ word }
{
    word.to_le_bytes()
}

/// Returns a word of 16 bits as a signed number in two's complement: itself below 2^15, else less
/// 2^16.
pub fn signed16(word: u32) -> i64
    requires { word < 2 ^ 16 }
    ensures { result ≡ signed 16 word }
{
    let number = i64::from(word);
    if word < 0x8000 {
        number
    } else {
        number - 0x1_0000
    }
}

/// Returns the word of 16 bits in the two bytes from place `at` on, the lower first.
pub fn word16_at(bytes: &[u8], at: usize) -> u32
    requires { at + 2 ≤ length bytes.now }
    ensures word { result ≡ word_at 16 bytes.now at }
    ensures small { result < 2 ^ 16 }
{
    u32::from(u16::from_le_bytes([bytes[at], bytes[at + 1]]))
}

/// Returns the two bytes of a word of 16 bits, the lower first.
pub fn word16_bytes(word: u32) -> [u8; 2]
    requires { word < 2 ^ 16 }
    ensures bytes { result ≡ word_bytes 16 word }
    ensures back { word_at 16 result 0 ≡ word }
{
    (word as u16).to_le_bytes()
}
