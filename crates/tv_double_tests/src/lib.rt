//! Tests of the checks of double lines, through their public calls. They stand in a crate of their
//! own, since a crate with tests is proved twice; nothing here is for callers.
#![tactic(auto)]

#[cfg(test)]
mod checks;
