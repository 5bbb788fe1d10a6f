//! Tapes: `read_tape` reads the numbers of a tape's text, as `tape_of` the whole text says,
//! `tape_text` writes words as such a text, and a `Tape` yields its words one by one.
#![tactic(auto)]

mod items;
mod laws;
mod tape;
mod text;

pub use items::{TapeFault, read_tape};
pub use laws::{tapes_are_in_range, texts_come_back};
pub use tape::Tape;
pub use text::tape_text;
