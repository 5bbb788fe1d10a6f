//! Gadgets that multiply and divide words of `W` bits, 16 or 32: the product of two words, the high
//! word of their signed product, and their quotient and remainder. Contracts above cite
//! `IsProduct`, `IsSignedHigh` and `IsQuotient`, which say in whole numbers what the wires' values
//! are, a word being the binary expansion in `W` wires.
#![tactic(auto)]

mod numbers;
mod products;
mod quotients;
mod records;
mod signed_products;

pub use products::{fill_product, product, product_laws};
pub use quotients::{fill_quotient, quotient, quotient_laws};
pub use records::{High, Product, Quot};
pub use signed_products::{fill_signed_high, signed_high, signed_high_laws};
