//! The machine, with words of `W` bits, 16 or 32: its state, one step by the table of the 29
//! instructions, and runs. `step` is the definition `next` and `run` its iteration `end_of`, for
//! every state; the commands above call `run`, and the values of a system are filled from `trace`.
#![tactic(auto)]

mod end;
mod execute;
mod image;
mod laws;
mod lines;
mod machine;
mod not_run;
mod op;
mod pc;
mod recorder;
mod registers;
mod run_trace;
mod state;

pub use end::{End, Outcome};
pub use laws::{
    lines_determine_cells, runs_answer_at_their_end, runs_are_honest, states_are_in_range,
    steps_follow, tapes_are_taken_in_order, traces_are_by_place,
};
pub use lines::{Lines, States, Trace, TraceState};
pub use not_run::NotRun;
pub use run_trace::{TraceFault, trace};
pub use state::Machine;
pub use tv_core::Line;
