//! Programs drawn from a number: large valid inputs that are the same at each run. A program has k
//! instructions, none of which jumps, and then `answer 0`, so it answers 0 at its last instruction.
#![tactic(auto)]

mod instruction;
mod program;

pub use program::{Drawn, draw};
