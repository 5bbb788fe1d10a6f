//! The memory argument over double lines: constraints by which a list of lines, in time order, is
//! honest.
//!
//! A permutation network brings to each line, at its own place, the item of its successor in
//! address order, and the line is checked against it there: the successor's double cell is above,
//! and it finds (0, 0); or it is the same, at a later time, and the successor finds what the line
//! leaves. The last line has to be the greatest. It isn't checked against the item at its place,
//! which is the least line's: that begins at (0, 0) in double cell 0. Nothing is unpacked after the
//! network. A line's place determines how it is checked: its `Kind`.
//!
//! The argument is sound in two steps: the checks make lines honest over items in the order of any
//! permutation (`checks_make_honest`), and the network brings some permutation.
//!
//! `memory` keeps no list and allocates nothing. The program doesn't stand on this crate yet.
#![tactic(auto)]

mod address_order;
mod argument;
mod check_costs;
mod kinds;
mod lines;
mod terms;
mod values;

pub use address_order::successors;
pub use argument::{
    argument_costs, argument_is_complete, argument_is_normal, argument_is_sound,
    checks_make_honest, memory,
};
pub use check_costs::{check_added, check_made, checks_are_cheap, network_made};
pub use kinds::Kind;
pub use lines::{DoubleLines, DoubleNumbers};
pub use terms::argument_terms;
pub use values::fill_argument;
