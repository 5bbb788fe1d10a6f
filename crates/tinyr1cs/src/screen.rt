//! The terminal that standard error may be.
use std::env;
use std::env::Env;

/// The lines that show how much is read or written fit into so many columns.
const COLUMNS: u32 = 40;

/// What is known of standard error.
#[derive(Clone, Copy)]
pub struct Screen {
    /// It is a terminal.
    pub is_terminal: bool,
    /// It is one, and the environment doesn't say that it has fewer than 40 columns.
    pub is_wide: bool,
}

impl Screen {
    /// Asks the environment for the number of columns, `COLUMNS`, since no call asks a terminal.
    pub fn of<R: Env + AllocGlobal>(rt: &R, is_terminal: bool) -> Screen {
        Screen {
            is_terminal,
            is_wide: is_terminal && columns(rt).is_none_or(|columns| columns >= COLUMNS),
        }
    }
}

/// Returns the number that `COLUMNS` is.
fn columns<R: Env + AllocGlobal>(rt: &R) -> Option<u32> {
    let text = env::var(rt, "COLUMNS").ok()?;
    text.as_str().parse().ok()
}
