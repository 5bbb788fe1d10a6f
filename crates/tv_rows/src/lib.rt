//! Gadgets that constrain a row of twice a word's width to the two halves of an operation's number,
//! under a gate: `row_sum`, `row_difference`, `bitwise` and `right_shift`; and `shift_power`, the
//! power of 2 by which a word is shifted. A shift to the left is a product by that power,
//! `row_product` of tv_row_products. A word has `W` bits, 16 or 32. Where the gate is 0 the row is
//! free, so a step has one row for all operations.
#![tactic(auto)]

mod digits;
mod powers;
mod row_differences;
mod row_shifts;
mod row_sums;

pub use digits::{bitwise, bitwise_laws};
pub use powers::{ShiftPower, fill_shift_power, shift_power, shift_power_laws};
pub use row_differences::{
    difference_halves, fill_row_difference, row_difference, row_difference_laws,
};
pub use row_shifts::{fill_right_shift, right_shift, right_shift_laws, shifts_by_any_distance};
pub use row_sums::{row_sum, row_sum_laws};
