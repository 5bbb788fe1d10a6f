//! The arithmetic of a step: one row of bits that holds what its operation makes of two words. It
//! has its circuit, its code, its values and its laws.
#![tactic(auto)]

mod arithmetic;

pub use arithmetic::{
    arithmetic_laws, decomposed_word, fill_arithmetic, put_arithmetic, row_halves,
};
