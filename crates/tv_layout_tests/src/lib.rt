//! Tests of the whole system through its public calls: how large it is for a small program, by what
//! its parts cost and by a sink that counts; what its lines are; that the values of a run meet it,
//! and altered ones don't; and which run values have. They stand in a crate of their own, since a
//! crate with tests is proved twice; nothing here is for callers.
#![tactic(auto)]

#[cfg(test)]
mod alterations;
pub mod examples;
#[cfg(test)]
mod lines;
#[cfg(test)]
mod values;
