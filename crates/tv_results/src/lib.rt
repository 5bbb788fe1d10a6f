//! The result of a step, which is chosen from the row that its arithmetic made, the number whose
//! test for 0 is its flag, and the program counter. Each has its code, its values and its laws; the
//! circuit of the result stands in `tv_inputs`.
#![tactic(auto)]

mod pc;
mod results;

pub use pc::{fill_pc, pc_laws, put_pc};
pub use results::{put_results, results_laws, results_values, set_sign};
