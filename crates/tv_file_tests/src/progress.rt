//! The lines that say how much of a file is written, over a stand-in for standard error.

use std::alloc::Global;
use std::cell::RefCell;
use std::fmt::Display;
use std::io;
use std::io::ErrorKind;
use std::test::Fail;
use tv_disk::Progress;

// Keeps what is printed to standard error.
#[derive(Drop)]
struct Printed {
    alloc: Global,
    text: RefCell<String>,
}

impl Eprint for Printed {
    fn eprint<D: Display + Drop>(&self, value: D) -> io::Result<()> {
        let more = format!(in self.alloc; "{value}")?;
        let Ok(mut text) = self.text.try_borrow_mut() else {
            return Err(io::Error::from(ErrorKind::WouldBlock));
        };
        Ok(text.push_str(more.as_str())?)
    }

    fn eprintln<D: Display + Drop>(&self, value: D) -> io::Result<()> {
        self.eprint(value)
    }
}

// A name, how many bytes are written to it at once, and the line.
const LINES: [(&str, usize, &str); 5] = [
    ("SYSTEM", 63_999_999, ""),
    ("SYSTEM", 64_001_234, "\rSYSTEM: 64 MB "),
    ("SYSTEM", 999_999_999, "\rSYSTEM: 999 MB "),
    ("SYSTEM", 1_280_000_000, "\rSYSTEM: 1.2 GB "),
    ("a\nb", 64_000_000, "\rfile: 64 MB "),
];

#[test]
fn lines_say_how_much_is_written(rt: HostRuntime) -> Result<(), Fail> {
    let alloc = rt.alloc();
    for (name, count, line) in LINES {
        let printed = Printed {
            alloc,
            text: RefCell::new(String::new(alloc)),
        };
        Progress::new(true).add(&printed, name, count);
        assert_eq!(rt; printed.text.into_inner().as_str(), line);
    }
    Ok(())
}
