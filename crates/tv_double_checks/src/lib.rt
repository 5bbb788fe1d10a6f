//! Gadgets over double lines of memory: each line is checked at its own place against the item of
//! its successor in address order, as `tv_doubles` states it.
//!
//! A double line is an access of a double cell, a pair of words. Its item is the pair of numbers
//! that a network carries: 2 b times the double cell, and the sum of the old pair; b times the
//! place, and the second old word, b being the number of words. `within` checks any line. The
//! others check lines of which the next one is near, so with fewer constraints: `image_pair` those
//! of the image, `tape_word` those of the tape, `guard` those that keep the double cells in use
//! near each other. `last_line` is the check of the greatest line, which has no successor.
#![tactic(auto)]

mod differences;
mod double_lines;
mod guards;
mod image_pairs;
mod items;
mod last_lines;
mod successors;
mod tape_words;

pub use double_lines::{DoubleLine, WordPair};
pub use guards::{fill_guard, guard, guard_laws, guard_terms};
pub use image_pairs::{fill_image_pair, image_pair, image_pair_laws, image_pair_terms};
pub use items::{CellWords, items_are_right, pack_item};
pub use last_lines::{last_line, last_line_laws};
pub use successors::{fill_within, within, within_laws, within_terms};
pub use tape_words::{tape_word, tape_word_laws, tape_word_terms};
