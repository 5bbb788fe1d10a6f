//! Tests of permutation networks and of their settings, and of lines, of the scan and of the memory
//! argument, through their public calls: worked rows, every permutation of four places, and
//! honest and altered lines. They stand in a crate of their own, since a crate with
//! tests is proved twice; nothing here is for callers.
#![tactic(auto)]

#[cfg(test)]
mod argument;
pub mod examples;
#[cfg(test)]
mod gadgets;
#[cfg(test)]
mod networks;
#[cfg(test)]
mod outputs;
#[cfg(test)]
mod predecessors;
#[cfg(test)]
mod rows;
#[cfg(test)]
mod scans;
#[cfg(test)]
mod wired;
