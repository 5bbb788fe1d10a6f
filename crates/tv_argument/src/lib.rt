//! The memory argument: constraints by which a list of lines, in time order, is honest.
//!
//! A permutation network brings to each line, at its own place, the item of its predecessor in
//! address order, and the line is checked against it there: its cell is above, or its time in the
//! same cell, and its old word is the predecessor's new word, or 0 in another cell. Nothing is
//! unpacked after the network. A line's index determines how it is checked: its `Kind`.
//!
//! `memory` keeps no list and allocates nothing. Contracts above cite the two definitions of
//! `specs/Argument.antt`, soundness and completeness of any memory argument; both are proved of
//! this one, over either network.
#![tactic(auto)]

mod address_order;
mod argument;
mod check_costs;
mod kinds;
mod lines;
mod terms;
mod values;

pub use address_order::{address_order_is_right, predecessors, predecessors_are_right};
pub use argument::{
    argument_costs, argument_is_complete, argument_is_normal, argument_is_sound, memory,
};
pub use check_costs::{check_added, check_made, checks_are_cheap, network_made};
pub use kinds::Kind;
pub use lines::{CompactLines, LineNumbers};
pub use terms::argument_terms;
pub use values::fill_argument;
