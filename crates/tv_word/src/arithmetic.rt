//! Words that the machine's instructions make of words of `W` bits, 16 or 32, the flags of sums,
//! products and left shifts, signed words, and powers of 2.
ghost use Rattle.std.specs.Prelude.{◌≡◌, not, ◌*◌, ◌/◌, ◌%◌, ◌^◌, ◌<◌};
ghost use Rattle.tv_word.specs.Operations.{and_result, or_result, xor_result, not_result};
ghost use Rattle.tv_word.specs.Operations.{add_result, add_flag, sub_result, mull_result};
ghost use Rattle.tv_word.specs.Operations.{umulh_result, product_flag, smulh_result, smulh_flag};
ghost use Rattle.tv_word.specs.Operations.{udiv_result, umod_result, shl_result, shl_flag};
ghost use Rattle.tv_word.specs.Operations.{signed_product, shr_result};
ghost use Rattle.tv_word.specs.Twos.{twos, fits};
ghost use Rattle.tv_word.specs.Widths.{IsWidth};
ghost use Rattle.tv_word.specs.Word.{signed};

use crate::word::{signed, signed16};

/// 2^`k`, where `k` is below 32.
pub fn power(k: u32) -> u32
    requires { k < 32 }
    ensures { result ≡ 2 ^ k }
{
    1 << k
}

// The word that the lowest bits of a number are.
fn low<const W: u32>(number: u64) -> u32
    requires width { IsWidth W }
    ensures word { result ≡ number % 2 ^ W }
    ensures small { result < 2 ^ W }
{
    (number % (1 << W)) as u32
}

/// Returns the bits that are in both words.
pub fn both<const W: u32>(s: u32, a: u32) -> u32
    requires width { IsWidth W }
    requires s_word { s < 2 ^ W }
    ensures word { result ≡ and_result s a }
    ensures small { result < 2 ^ W }
{
    s & a
}

/// Returns the bits that are in either word.
pub fn either<const W: u32>(s: u32, a: u32) -> u32
    requires s_word { s < 2 ^ W }
    requires a_word { a < 2 ^ W }
    ensures word { result ≡ or_result s a }
    ensures small { result < 2 ^ W }
{
    s | a
}

/// Returns the bits in which two words differ.
pub fn differing<const W: u32>(s: u32, a: u32) -> u32
    requires s_word { s < 2 ^ W }
    requires a_word { a < 2 ^ W }
    ensures word { result ≡ xor_result s a }
    ensures small { result < 2 ^ W }
{
    s ^ a
}

/// Returns the bits that are not in a word.
pub fn inverted<const W: u32>(a: u32) -> u32
    requires width { IsWidth W }
    requires a_word { a < 2 ^ W }
    ensures word { result ≡ not_result W a }
    ensures small { result < 2 ^ W }
{
    low::<W>((1 << W) - 1 - u64::from(a))
}

/// Returns a sum modulo 2^W.
pub fn sum<const W: u32>(s: u32, a: u32) -> u32
    requires width { IsWidth W }
    ensures word { result ≡ add_result W s a }
    ensures small { result < 2 ^ W }
{
    low::<W>(u64::from(s) + u64::from(a))
}

/// Returns whether a sum needs more than a word.
pub fn carries<const W: u32>(s: u32, a: u32) -> bool
    requires width { IsWidth W }
    ensures { result ≡ add_flag W s a }
{
    u64::from(s) + u64::from(a) >= 1 << W
}

/// Returns a difference modulo 2^W.
pub fn difference<const W: u32>(s: u32, a: u32) -> u32
    requires width { IsWidth W }
    requires a_word { a < 2 ^ W }
    ensures word { result ≡ sub_result W s a }
    ensures small { result < 2 ^ W }
{
    low::<W>(u64::from(s) + ((1 << W) - u64::from(a)))
}

/// Returns the low word of a product.
pub fn low_product<const W: u32>(s: u32, a: u32) -> u32
    requires width { IsWidth W }
    ensures word { result ≡ mull_result W s a }
    ensures small { result < 2 ^ W }
{
    low::<W>(u64::from(s) * u64::from(a))
}

/// Returns the high word of a product.
#[tactic(auto, using(crate::proofs::ArithmeticLaws::high_small))]
pub fn high_product<const W: u32>(s: u32, a: u32) -> u32
    requires width { IsWidth W }
    requires s_word { s < 2 ^ W }
    requires a_word { a < 2 ^ W }
    ensures word { result ≡ umulh_result W s a }
    ensures small { result < 2 ^ W }
{
    ((u64::from(s) * u64::from(a)) >> W) as u32
}

/// Returns whether a product needs more than a word.
pub fn is_wide<const W: u32>(s: u32, a: u32) -> bool
    requires width { IsWidth W }
    ensures { result ≡ product_flag W s a }
{
    u64::from(s) * u64::from(a) >= 1 << W
}

/// Returns the high word of a signed product in two's complement, and whether the product is no
/// signed word.
pub fn high_signed<const W: u32>(s: u32, a: u32) -> (u32, bool)
    requires width { IsWidth W }
    requires s_word { s < 2 ^ W }
    requires a_word { a < 2 ^ W }
    ensures high { result.0 ≡ smulh_result W s a }
    ensures small { result.0 < 2 ^ W }
    ensures wide { result.1 ≡ smulh_flag W s a }
{
    if W == 16 {
        high_16(product_16(s, a))
    } else {
        high_32(product_32(s, a))
    }
}

// The product of signed words of 16 bits.
fn product_16(s: u32, a: u32) -> i64
    requires s_word { s < 2 ^ 16 }
    requires a_word { a < 2 ^ 16 }
    ensures { result ≡ signed_product 16 s a }
{
    signed16(s) * signed16(a)
}

// The same of words of 32 bits.
fn product_32(s: u32, a: u32) -> i64
    ensures { result ≡ signed_product 32 s a }
{
    signed(s) * signed(a)
}

// The high word of a product of words of 16 bits, and whether it is no signed word.
fn high_16(product: i64) -> (u32, bool)
    ensures high { result.0 ≡ twos 32 product / 2 ^ 16 }
    ensures small { result.0 < 2 ^ 16 }
    ensures wide { result.1 ≡ not (fits 16 product) }
{
    let high = ((product.cast_unsigned() >> 16) % (1 << 16)) as u32;
    (high, product < -0x8000 || product >= 0x8000)
}

// The same of words of 32 bits.
fn high_32(product: i64) -> (u32, bool)
    ensures high { result.0 ≡ twos 64 product / 2 ^ 32 }
    ensures small { result.0 < 2 ^ 32 }
    ensures wide { result.1 ≡ not (fits 32 product) }
{
    let high = (product.cast_unsigned() >> 32) as u32;
    (high, product < -0x8000_0000 || product >= 0x8000_0000)
}

/// Returns a quotient, rounded down; 0 where the divisor is 0.
pub fn quotient<const W: u32>(s: u32, a: u32) -> u32
    requires width { IsWidth W }
    requires s_word { s < 2 ^ W }
    ensures word { result ≡ udiv_result s a }
    ensures small { result < 2 ^ W }
{
    if a == 0 { 0 } else { s / a }
}

/// Returns a remainder; 0 where the divisor is 0.
pub fn remainder<const W: u32>(s: u32, a: u32) -> u32
    requires width { IsWidth W }
    requires a_word { a < 2 ^ W }
    ensures word { result ≡ umod_result s a }
    ensures small { result < 2 ^ W }
{
    if a == 0 { 0 } else { s % a }
}

/// Returns a word shifted left; 0 by `W` places and more.
#[tactic(auto, using(crate::proofs::ArithmeticLaws::far_left))]
pub fn shifted_left<const W: u32>(s: u32, a: u32) -> u32
    requires width { IsWidth W }
    ensures word { result ≡ shl_result W s a }
    ensures plain { result ≡ s * 2 ^ a % 2 ^ W }
    ensures small { result < 2 ^ W }
{
    if a < W {
        low::<W>(u64::from(s) << a)
    } else {
        0
    }
}

/// Returns a word shifted right; 0 by `W` places and more.
#[tactic(auto, using(crate::proofs::ArithmeticLaws::far_right))]
pub fn shifted_right<const W: u32>(s: u32, a: u32) -> u32
    requires width { IsWidth W }
    requires s_word { s < 2 ^ W }
    ensures word { result ≡ shr_result W s a }
    ensures plain { result ≡ s / 2 ^ a }
    ensures small { result < 2 ^ W }
{
    if a < W { s >> a } else { 0 }
}

/// Returns the sign bit of a word.
pub fn sign_bit<const W: u32>(s: u32) -> bool
    requires width { IsWidth W }
    ensures { result ≡ shl_flag W s }
{
    (s >> (W - 1)) % 2 == 1
}

/// Returns a word as a signed number in two's complement.
pub fn signed_word<const W: u32>(word: u32) -> i64
    requires width { IsWidth W }
    requires word { word < 2 ^ W }
    ensures { result ≡ signed W word }
{
    if W == 16 {
        signed16(word)
    } else {
        signed(word)
    }
}
