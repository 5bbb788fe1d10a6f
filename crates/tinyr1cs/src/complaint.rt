//! What the program prints on standard error.
ghost use Rattle.std.specs.Prelude.{◌≡◌, map, option_map, Some, string_bytes};
ghost use Rattle.tinyr1cs.specs.Complaint.{text_of, complaint_text};

use std::fmt;
use tv_disk::Escaped;
use tv_top::Status;

/// Why a command printed no line of its own.
#[derive(Clone, Copy)]
pub enum Complaint<'a> {
    /// A word of the command line isn't UTF-8.
    NotUtf8,
    /// Memory ran out.
    NoMemory,
    /// A file call failed, on this name, which is printed with its control characters escaped.
    FileFault(&'a str),
}

impl fmt::Display for Complaint<'_> {
    ghost output = { λ complaint. Some (text_of complaint) };

    fn fmt<W: fmt::Write>(&self, f: &mut fmt::Formatter<W>) -> fmt::Result {
        match self {
            Complaint::NotUtf8 => write!(f, "not UTF-8"),
            Complaint::NoMemory => write!(f, "no memory"),
            Complaint::FileFault(name) => write!(f, "file fault: {}", Escaped(name)),
        }
    }
}

impl<'a> Complaint<'a> {
    /// Returns what is printed on standard error for a status: the name of the file that failed,
    /// which is `output` after the last word, or that memory ran out.
    pub fn of(status: Status, words: &'a [String]) -> Option<Complaint<'a>>
        ensures { option_map text_of result ≡
            complaint_text (map string_bytes words.now) status }
    {
        match status {
            Status::Memory => Some(Complaint::NoMemory),
            Status::FileFault { word } => Some(Complaint::FileFault(
                words.get(word as usize).map_or("output", String::as_str),
            )),
            _ => None,
        }
    }
}
