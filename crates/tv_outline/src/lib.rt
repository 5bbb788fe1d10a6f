//! Outlines of constraint systems, and a sink that tests whether what is put into it is an
//! outline's expansion.
//!
//! An outline describes the constraints of a system in a page: each region is a template of rows
//! that is repeated in nested loops. From turn to turn the wires of a row move, and its
//! coefficients grow, by fixed amounts for each loop.
#![tactic(auto)]

mod expansion;
mod matches;
mod outline;
mod place;
mod turn;

pub use expansion::expand;
pub use matches::Matches;
pub use outline::{LOOPS, Outline, Region, Row, Term};
