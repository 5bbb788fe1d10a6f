//! Gadgets over lines of memory: a line as two numbers and back, and lines in address order.
//!
//! A line is (cell, time, old, new): at a time the word of a cell goes from old to new. `pack`
//! makes it a pair of numbers, which a network can carry, and `unpack` takes such a pair apart. A
//! line's item is the pair of the line with its old word left out.
//!
//! `follows` checks a line at its own place, against the item of its predecessor in address order:
//! nothing of the item is unpacked. `boot_line` checks a line whose cell is a constant, and
//! `least_line` the first line in address order. The memory argument uses these three.
//!
//! `first_line` and `sorted_pair`, along a list of unpacked lines, constrain them to be in address
//! order: `Ordered`. Laws on plain lists of lines say what that is for: lines in time order are
//! honest where an ordered list has the same lines, and sorted honest lines are ordered.
#![tactic(auto)]

mod compact;
mod honesty;
mod keys;
mod packed_lines;
mod predecessor;
mod rows;
mod sorted_pairs;
mod starts;
mod unpacked_lines;

pub use compact::{Cell, CompactLine, Word};
pub use honesty::{ordered_lines_are_honest, sorted_lines_are_ordered};
pub use packed_lines::{
    item_is_right, pack, pack_is_one_to_one, pack_is_right, pack_item, unpack_item,
};
pub use predecessor::{
    fill_follows, follows, follows_laws, follows_reaches, follows_rises, follows_terms,
};
pub use rows::LineBits;
pub use sorted_pairs::{
    fill_first_line, fill_sorted_pair, first_line, first_line_laws, neighbours_are_ordered,
    sorted_pair, sorted_pair_laws,
};
pub use starts::{
    boot_line, boot_line_laws, boot_line_terms, least_line, least_line_laws, least_line_terms,
};
pub use unpacked_lines::{fill_unpack, line_bits, unpack, unpack_laws, unpack_undoes_pack};
