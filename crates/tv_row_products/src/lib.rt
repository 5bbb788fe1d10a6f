//! Gadgets that constrain a row of twice a word's width to the product of two words, to their
//! product as signed numbers, or to quotient and remainder, under a gate. A word has `W` bits, 16
//! or 32. Where the gate is 0 the row is free, so a step has one row for all operations.
#![tactic(auto)]

mod row_divisions;
mod row_products;
mod row_signed_products;

pub use row_divisions::{below_divisor, fill_row_division, row_division, row_division_laws};
pub use row_products::{fill_row_product, row_product, row_product_laws};
pub use row_signed_products::{
    fill_row_signed_product, product_twos, row_signed_product, row_signed_product_laws,
    signed_product_halves,
};
