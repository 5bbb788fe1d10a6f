//! Numbers written in decimal or in another base.
ghost use Rattle.std.specs.Prelude.{◌≡◌, ◌≤◌, ◌^◌};
ghost use Rattle.tv_word.specs.Numeral.{numeral};

/// Returns the value of decimal digits, leading zeros allowed. `None` exactly for no bytes, for
/// another byte than a digit, and for a number of 2^64 or more. Takes time linear in the text.
pub fn decimal_of(text: &[u8]) -> Option<u64>
    ensures { result ≡ numeral 10 (2 ^ 64) text.now }
{
    numeral_of(text, 10)
}

/// Like `decimal_of`, for digits of a base from 2 to 36, letters of either case.
pub fn numeral_of(text: &[u8], base: u32) -> Option<u64>
    requires least { 2 ≤ base }
    requires greatest { base ≤ 36 }
    ensures { result ≡ numeral base (2 ^ 64) text.now }
{
    let mut number = 0_u64;
    for byte in text {
        let digit = char::from(*byte).to_digit(base)?;
        number = number
            .checked_mul(u64::from(base))?
            .checked_add(u64::from(digit))?;
    }
    if text.is_empty() { None } else { Some(number) }
}
