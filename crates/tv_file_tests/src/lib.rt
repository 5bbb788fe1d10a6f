//! Tests of file calls, of the operating system's files, with what is shown of them on a terminal,
//! and of the two file formats, through the public calls of their crates. They stand in a crate of
//! their own, since a crate with tests is proved twice; nothing here is for callers.
#![tactic(auto)]

#[cfg(test)]
mod calls;
#[cfg(test)]
mod disk;
pub mod examples;
#[cfg(test)]
mod pieces;
#[cfg(test)]
mod progress;
#[cfg(test)]
mod systems;
