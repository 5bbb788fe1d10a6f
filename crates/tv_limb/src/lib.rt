//! Words in parts: the halves of a word, a number as a word and what is above it, and the sum and
//! the difference of two words with carry and borrow. A word has `W` bits, 16 or 32. Contracts
//! above cite `HasPartBits`, which says which numbers the two parts of an answer represent; what a
//! gadget returns and how many wires it makes stand in `SplitSizes`, `AddSizes` and `SubSizes`.
#![tactic(auto)]

mod differences;
mod halves;
mod parts;
mod splits;
mod sums;

pub use differences::{fill_sub, sub, sub_laws};
pub use halves::{limbs, limbs_are_sound};
pub use parts::Split;
pub use splits::{fill_split, split, split_laws};
pub use sums::{add, add_laws, fill_add};
