//! How much of a file is read or written, shown on a terminal.
use std::fmt;

/// A line is shown each time that this many bytes more were read or written.
const STEP: u64 = 64_000_000;

/// Names of more bytes than this aren't shown, so that a line has at most 38 characters, and stays
/// on its line on each terminal of 40 columns.
const LONGEST: usize = 22;

/// Takes a line away: 38 blanks.
const CLEARED: &str = "\r                                      \r";

/// What is read or written of a file, shown by one line on standard error, which is overwritten
/// each `STEP` bytes and cleared at the end. A standard error that fails changes nothing.
#[derive(Clone, Copy)]
pub struct Progress {
    /// How many bytes of the file were read or written.
    done: u64,
    /// How many there are when the line is shown next; `None` where none is to be shown.
    due: Option<u64>,
    is_shown: bool,
}

/// The line: a name, how many bytes, in MB or GB, and a blank.
#[derive(Clone, Copy)]
struct Line<'a> {
    name: &'a str,
    bytes: u64,
}

impl Progress {
    /// Shows lines where `has_terminal`: where standard error is a terminal.
    pub fn new(has_terminal: bool) -> Progress {
        Progress {
            done: 0,
            due: has_terminal.then_some(STEP),
            is_shown: false,
        }
    }

    /// A file begins.
    pub fn begin(&mut self) {
        self.done = 0;
        self.due = self.due.map(|_| STEP);
    }

    /// Some bytes more of a file were read or written.
    pub fn add(&mut self, err: &impl Eprint, name: &str, count: usize) {
        self.done = self.done.saturating_add(count as u64);
        if self.due.is_some_and(|due| self.done >= due) {
            self.show(err, name);
        }
    }

    /// Shows how much is done in the place of the line that stands, and sets when it is shown next.
    #[cold]
    fn show(&mut self, err: &impl Eprint, name: &str) {
        self.due = Some(self.done.saturating_add(STEP));
        self.clear(err);
        self.is_shown = true;
        let _ = err.eprint(Line {
            name: shown_name(name),
            bytes: self.done,
        });
    }

    /// Takes the line away, where one stands.
    pub fn clear(&mut self, err: &impl Eprint) {
        if self.is_shown {
            self.is_shown = false;
            let _ = err.eprint(CLEARED);
        }
    }
}

/// Returns a name that has a place in a line, or what stands for one that has none.
fn shown_name(name: &str) -> &str {
    let is_plain = name.bytes().all(|byte| (0x20..0x7f).contains(&byte));
    if is_plain && name.len() <= LONGEST {
        name
    } else {
        "file"
    }
}

impl fmt::Display for Line<'_> {
    fn fmt<W: fmt::Write>(&self, f: &mut fmt::Formatter<W>) -> fmt::Result {
        let megabytes = self.bytes / 1_000_000;
        let name = self.name;
        if megabytes < 1_000 {
            return write!(f, "\r{name}: {megabytes} MB ");
        }
        let whole = megabytes / 1_000;
        let tenth = megabytes / 100 % 10;
        write!(f, "\r{name}: {whole}.{tenth} GB ")
    }
}
