//! Constraint systems with fewer private wires: `shrink` reads a system and drops each linear
//! constraint that it solves for a private wire. Contracts above cite `shrink` of
//! `specs/Shrunk.antt`, the pass as a function of systems; `keeps_solutions` says that what
//! satisfies the shrunk system is what satisfies the system, at the wires that are kept.
#![tactic(auto)]

mod arena;
mod emission;
mod fault;
mod laws;
mod merge;
mod normal;
mod normal_system;
mod numbers;
mod occurrences;
mod output;
mod pass;
mod row;
mod rows;
mod shrinker;
mod shrunk;
mod state;
mod substitution;

pub use fault::ShrinkFault;
pub use laws::{keeps_publics, keeps_solutions, solutions_are_one, systems_are_over};
pub use shrinker::{MOST_TERMS, shrink, terms_are_limited};
pub use shrunk::Shrunk;
