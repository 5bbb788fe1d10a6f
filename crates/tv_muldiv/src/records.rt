//! What the gadgets return.
use tv_bits::Bits;
use tv_core::Wire;

/// The product of two words.
#[derive(Clone, Copy, PartialEq, Eq, Debug)]
pub struct Product {
    /// The low word of the product, `W` bits.
    pub low: Bits,
    /// The high word, `W` bits.
    pub high: Bits,
    /// Whether the high word is another number than 0.
    pub over: Wire,
}

/// The high word of the signed product of two words.
#[derive(Clone, Copy, PartialEq, Eq, Debug)]
pub struct High {
    /// The high word of the product's `2 W` bits in two's complement, `W` bits.
    pub high: Bits,
    /// Whether the product is no signed number of `W` bits.
    pub over: Wire,
}

/// The quotient and the remainder of two words.
#[derive(Clone, Copy, PartialEq, Eq, Debug)]
pub struct Quot {
    /// The quotient, rounded down, `W` bits; 0 where the divisor is 0.
    pub quot: Bits,
    /// The remainder, `W` bits; 0 where the divisor is 0.
    pub rem: Bits,
    /// Whether the divisor is 0.
    pub by_zero: Wire,
}
