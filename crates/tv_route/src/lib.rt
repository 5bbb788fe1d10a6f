//! Settings of permutation networks: for every permutation, bits of the switches for which each
//! output is the input that the permutation names; and the test for permutations. Contracts above
//! cite `route_of`, which is the settings as a function of the permutation, and `Permutes`, which
//! says what one is.
#![tactic(auto)]

mod laws;
mod marks;
mod permutations;
mod settings;

pub use laws::{rearranged_is_a_permutation, route_is_right};
pub use permutations::is_permutation;
pub use settings::{Settings, route, route_w};
