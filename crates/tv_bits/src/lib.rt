//! Gadgets over single bits and numbers: a bit, a number's bits, the tests for 0, a choice, a
//! one-hot row, a product, a ratio and a combination's value as a new wire, an equation under a
//! gate, a row of twice a word's width, a sign where a wire is 0, two ands in one constraint, and
//! an order by prefixes.
//!
//! Contracts above cite `HasBits`, which says that wires are the decomposition of a number into
//! bits, `IsOneHot`, that one wire of a row is 1, and `IsRow`, that two words are the halves of a
//! number below P. The laws of a gadget are the clauses of `.._laws`. `sizes` says which wires it
//! returns, where it ends, and that its values, those that its generator `fill_..` assigns, are one
//! number of the field for each wire that it makes, whatever the next wire is. `times_by`,
//! `kept_by` and `ratio_by` have no generator: the caller, which knows the number, assigns it.
//! `costs` says how many constraints and terms there are, and `normal` of `select_laws` that a
//! choice's combinations are normal; of the other gadgets the lemmas `.._normal` say this.
#![tactic(auto)]

mod bit_wires;
mod booleans;
mod decomposition;
mod double_rows;
mod gates;
mod nonzeros;
mod pairs;
mod prefixes;
mod products;
mod rows;
mod selection;
mod signed_words;
mod zero_signs;
mod zeros;

pub use bit_wires::Bits;
pub use booleans::{bit, bit_by, bit_laws, fill_bit};
pub use decomposition::{bits, bits_by, bits_laws, fill_bits, new_bits_by, new_bits_laws};
pub use double_rows::{DoubleRow, double_row, double_row_laws, fill_double_row};
pub use gates::{gated, gated_laws};
pub use nonzeros::{fill_nonzero, nonzero_by, nonzero_laws};
pub use pairs::{two_ands, two_ands_laws};
pub use prefixes::{
    fill_prefix_difference, first_difference, prefix_difference_by, prefix_difference_laws,
};
pub use products::{kept_by, kept_laws, ratio_by, ratio_laws, times_by, times_laws};
pub use rows::{fill_onehot, onehot, onehot_by, onehot_laws, plus_row};
pub use selection::{
    fill_select, pick_by, pick_laws, select, select_laws, select_terms, select_wires,
};
pub use signed_words::{SignedWord, sign_of};
pub use zero_signs::{fill_zero_sign, zero_sign, zero_sign_laws};
pub use zeros::{fill_zero, zero, zero_by, zero_cases, zero_laws, zero_values};
