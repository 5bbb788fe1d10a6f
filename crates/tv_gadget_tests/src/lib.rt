//! Tests of the gadgets over words and of a step, through their public calls: known answers,
//! altered ones, and sizes; a run of all instructions at both widths, step by step, over the
//! generator's values, and a word that is taken too late. They stand in a crate of their own, since
//! a crate with tests is proved twice; nothing here is for callers.
#![tactic(auto)]

#[cfg(test)]
mod answers;
#[cfg(test)]
mod assignments;
#[cfg(test)]
mod callers_own;
pub mod examples;
#[cfg(test)]
mod gadgets;
#[cfg(test)]
mod powers_and_signs;
#[cfg(test)]
mod rows;
#[cfg(test)]
mod sizes;
#[cfg(test)]
mod step_parts;
#[cfg(test)]
mod step_program;
#[cfg(test)]
mod step_rows;
#[cfg(test)]
mod step_trials;
