//! Tests of the commands by their file calls, over files in memory: how many calls a command makes,
//! what a fault of each call of any command leaves, and what `listing` returns; and that files on
//! disk then hold what files in memory do. What commands print and write is `tests/commands.sh`, on
//! the program. They stand in a crate of their own, since a
//! crate with tests is proved twice; nothing here is for callers.
#![tactic(auto)]

#[cfg(test)]
mod calls;
#[cfg(test)]
mod disk;
pub mod examples;
#[cfg(test)]
mod faults;
#[cfg(test)]
mod listings;
