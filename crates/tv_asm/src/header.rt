//! The header of a text, and the width of words that it sets.
ghost use Rattle.std.specs.Prelude.{◌≡◌};
ghost use Rattle.std.specs.List.{list_all, list_any, slice_split};
ghost use Rattle.std.specs.Str.{bytes_eq};
ghost use Rattle.tv_asm.specs.Header.{is_good_field, is_good_header, is_header_of_16, width_digits};
ghost use Rattle.tv_asm.specs.Header.{width_field, width_of};
ghost use Rattle.tv_asm.specs.Text.{is_blank};
ghost use Rattle.tv_word.specs.Widths.{IsWidth};

use crate::text::{is_blank, next_line};

/// How a header begins.
const HEADER: &[u8; 9] = b"; TinyRAM";

/// Returns the width of the words that a text is written for: 16 where its first line is a header
/// with the field `W=16`, else 32. It takes no memory, and looks at the first line alone.
#[tactic(auto, unfolding(crate::specs::Header::width_of))]
pub fn width(text: &[u8]) -> u32
    ensures width { result ≡ width_of text.now }
    ensures either { IsWidth result }
{
    let Some((line, _)) = next_line(text) else {
        return 32;
    };
    if is_header_of_16(line) { 16 } else { 32 }
}

/// Returns whether a line is a header for words of 16 bits.
#[tactic(auto, unfolding(crate::specs::Header::is_header_of_16))]
fn is_header_of_16(line: &[u8]) -> bool
    ensures { result ≡ is_header_of_16 line.now }
{
    line.strip_prefix(HEADER).is_some_and(has_width_16)
}

/// Returns whether one of a header's fields says that words have 16 bits.
fn has_width_16(fields: &[u8]) -> bool
    ensures { result ≡ list_any (bytes_eq (width_field 16)) (slice_split is_blank fields.now) }
{
    fields
        .split(|byte| is_blank(*byte))
        .any(|field| field == b"W=16".as_slice())
}

/// Returns whether a first line, where it is a header, is one for words of `W` bits and 16
/// registers.
#[tactic(auto, unfolding(crate::specs::Header::is_good_header))]
pub(crate) fn is_good_header<const W: u32>(line: &[u8]) -> bool
    requires { IsWidth W }
    ensures { result ≡ is_good_header W line.now }
{
    line.strip_prefix(HEADER).is_none_or(are_good_fields::<W>)
}

fn are_good_fields<const W: u32>(fields: &[u8]) -> bool
    requires { IsWidth W }
    ensures { result ≡ list_all (is_good_field W) (slice_split is_blank fields.now) }
{
    fields.split(|byte| is_blank(*byte)).all(
        |field|
            requires { IsWidth W }
            ensures { result ≡ is_good_field W field.now }
        { is_good_field::<W>(field) },
    )
}

fn is_good_field<const W: u32>(field: &[u8]) -> bool
    requires { IsWidth W }
    ensures { result ≡ is_good_field W field.now }
{
    match field {
        [b'W', b'=', width @ ..] => is_width::<W>(width),
        [b'K', b'=', registers @ ..] => registers == b"16".as_slice(),
        _ => true,
    }
}

/// Returns whether digits are those of the width.
fn is_width<const W: u32>(digits: &[u8]) -> bool
    requires { IsWidth W }
    ensures { result ≡ bytes_eq digits.now (width_digits W) }
{
    if W == 16 {
        digits == b"16".as_slice()
    } else {
        digits == b"32".as_slice()
    }
}
