//! A command as a plan: the words that ask for it, the files that it reads and writes, how it ends,
//! its status and its line. What is true of every command is proved here for any plan. Here too are
//! the commands that need no system of a program: `asm`, `disasm`, `run` and `check`.
#![tactic(auto)]

mod amount;
mod asm;
mod bytes;
mod check;
mod containers;
mod disasm;
mod inputs;
mod job;
mod laws;
mod line;
mod output;
mod place;
mod programs;
mod reasons;
mod refusal;
mod run;
mod status;
mod tapes;

pub use amount::{Draws, Steps, TapeWords};
pub use asm::AsmArgs;
pub use check::CheckArgs;
pub use containers::read_first_witness;
pub use disasm::DisasmArgs;
pub use inputs::{Inputs, read_inputs};
pub use job::{Job, carry_out};
pub use laws::{definitions_want_no_memory, image_comes_back, image_files_are_limited};
pub use output::{conclude, streamed, write_bytes};
pub use place::{Place, keep_apart};
pub use programs::{Program, Width, read_program};
pub use refusal::{Bad, Ending, Finish, Refusal, Stop, Trial, What};
pub use run::RunArgs;
pub use status::{NoWhy, Status};
