//! A permutation network of any number of items as constraints, stage by stage. `tv_stages` says
//! which switches a stage has and what goes through them.
//!
//! A switch of a bound stage makes five wires: its bit, and the two numbers that it passes on to
//! each of its slots. A switch of an open stage makes three: its bit, and for both numbers the
//! product of the bit and the difference of its items; what it passes on are sums with these. A
//! slot at no switch keeps its combinations and makes no wire. So what stands at a slot follows
//! from the stages before, and no list of it is kept. After the last stage, which is bound, the
//! slots at no switch of it are given two wires each, so that every output is two wires.
//!
//! Contracts above cite `network_of`, the constraints, `network_values`, the values of their wires,
//! and `output_of`, the output at a slot. In every assignment that satisfies the constraints the
//! outputs are the items sent through by the bits that it has at the switches.
#![tactic(auto)]

mod costs;
mod emission;
mod filling;
mod laws;
mod levels;
mod outputs;
mod shape;
mod slots;
mod switches;

pub use costs::network_terms;
pub use emission::network;
pub use filling::fill_network;
pub use laws::{
    network_fills, network_is_complete, network_is_counted, network_is_normal, network_is_sound,
};
pub use outputs::Outputs;
pub use shape::Network;
pub use slots::Inputs;
pub use switches::{Form, switch_is_complete, switch_is_normal, switch_is_sound, switch_sizes};
