//! A permutation network for any number of items, stage by stage. The items stand at slots
//! 0, 1, .. L - 1. A stage exchanges some of the items of slots that differ in one bit: in bit
//! 0, 1, .. k - 1 and back to bit 0, k being the number of bits of L - 1. This is Benes' network,
//! read across: what its recursion calls a network within is the slots of one residue modulo a
//! power of two. Waksman's has the same stages and fewer switches.
//!
//! Contracts above cite `through_stages`, which says what comes out at each slot.
#![tactic(auto)]

mod laws;
mod nets;
mod settings;
mod shape;
mod walks;

pub use laws::{
    height_is_right, only_switches_matter, settings_are_right, stages_permute,
    switches_are_numbered, switches_of_powers,
};
pub use nets::Net;
pub use settings::{Settings, settings_for};
pub use shape::{Stage, first_switch, height, stage_count, switches};
