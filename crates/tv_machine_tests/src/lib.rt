//! Tests of words, of the field and of sinks, of program texts, images and tapes, of memory, of the
//! machine and of drawn programs, through their public calls: by values from outside and texts that
//! are written by hand. They stand in a crate of their own, since a crate with tests is proved
//! twice; nothing here is for callers.
#![tactic(auto)]

#[cfg(test)]
mod assembly;
#[cfg(test)]
mod disassembly;
pub mod examples;
#[cfg(test)]
mod runs;
#[cfg(test)]
mod sinks;
#[cfg(test)]
mod steps;
#[cfg(test)]
mod tapes;
