//! The gadget that compares two words of `W` bits, 16 or 32: whether they are the same, and which
//! is above the other, as numbers and as signed numbers. Contracts above cite `IsCompared`.
#![tactic(auto)]

mod comparison;

pub use comparison::{Cmp, compare, compare_laws, fill_compare};
