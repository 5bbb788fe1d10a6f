//! Waksman's permutation network: Benes', but that the first switch of each last column is left
//! out, its two items passing: 2^k · (k - 1) + 1 switches, where Benes' network has (2k - 1) ·
//! 2^(k-1), which is 2^(k-1) - 1 more. It still has settings for every permutation (`route_w` of
//! `tv_route`). It is the body of `tv_benes` with one parameter; its laws are that crate's.
#![tactic(auto)]

mod laws;
mod networks;
mod outputs;

pub use laws::{network_w_is_complete, network_w_is_sound, through_w_is_a_permutation};
pub use networks::{fill_network_w, network_w, switches_w};
pub use outputs::Outputs;
pub use tv_benes::{Inputs, Net};
