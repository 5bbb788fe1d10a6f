//! Permutation networks as constraints: 2^k pairs go in and come out in an order that the bits of
//! the switches determine. Benes' network has all its switches; Waksman's lacks the first one of
//! each last column. Contracts above cite `through`, which says what comes out at each place. In
//! every assignment that satisfies a network's constraints the bits are 0 or 1, and the outputs are
//! the inputs sent through by them.
//!
//! Both networks are one definition and one body. `network` is Benes'; `tv_waksman` has the other.
#![tactic(auto)]

mod columns;
mod items;
mod laws;
mod networks;
mod outputs;
mod places;
mod shape;
mod values;

pub use laws::{
    network_fills, network_is_complete, network_is_normal, network_is_sound,
    places_determine_outputs, through_is_a_permutation,
};
pub use networks::{network, routing_network};
pub use outputs::Outputs;
pub use places::{Ends, Inputs};
pub use shape::{Net, routing_switches, switches};
pub use values::{fill_network, fill_routing_network};
