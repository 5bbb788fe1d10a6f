//! Names as they are shown on standard error.
ghost use Rattle.std.specs.Prelude.{Some, ◌≡◌, ◌<◌};
ghost use Rattle.std.specs.Char.{digit_char};
ghost use Rattle.std.specs.Fmt.{WritesOnOk};
ghost use Rattle.tv_disk.specs.Escaped.{escaped, shown_char};

use std::fmt;

/// A name whose control characters, of ASCII and those from U+0080 to U+009F, are shown as `\xNN`,
/// so that it stays on its line and gives a terminal no order.
#[derive(Clone, Copy)]
pub struct Escaped<'a>(pub &'a str);

impl fmt::Display for Escaped<'_> {
    ghost output = { λ name. Some (escaped name.0.now) };

    fn fmt<W: fmt::Write>(&self, f: &mut fmt::Formatter<W>) -> fmt::Result {
        for c in self.0.chars() {
            write_shown(c, f)?;
        }
        Ok(())
    }
}

fn write_shown<W: fmt::Write>(c: char, f: &mut fmt::Formatter<W>) -> fmt::Result
    ensures { WritesOnOk W.write_str_gives f.old result (shown_char c) f.new }
{
    if !c.is_control() {
        return f.write_char(c);
    }
    let code = c as u32;
    f.write_str("\\x")?;
    f.write_char(digit(code / 16))?;
    f.write_char(digit(code % 16))
}

/// Returns a number below 16 as a digit.
fn digit(value: u32) -> char
    requires { value < 16 }
    ensures { result ≡ digit_char value }
{
    char::from_digit(value, 16).unwrap_or('?')
}
