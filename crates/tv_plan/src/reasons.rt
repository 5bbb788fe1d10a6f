//! What lines say of refusals: each part is added to a line that has room for it.
ghost use Rattle.std.specs.Prelude.{◌≡◌, ◌+◌, ◌≤◌, ◌++◌, length, decimal};
ghost use Rattle.arrayvec.specs.ArrayString.{array_string_len};
ghost use Rattle.tv_plan.specs.Codes.{asm_text, read_text, what_text};

use crate::refusal::What;
use arrayvec::ArrayString;
use itoa::Buffer;
use tv_asm::AsmWhy;
use tv_container::ReadWhy;

/// The most bytes of a line, its line feed among them: room for the longest, that of `trial`, which
/// has five numbers.
pub(crate) const LINE_BYTES: usize = 192;

/// A line that takes no memory.
pub(crate) type Line = ArrayString<LINE_BYTES>;

/// Adds a number in decimal digits.
pub(crate) fn push_number(line: &mut Line, number: u64)
    requires { array_string_len line.old + 20 ≤ LINE_BYTES }
    ensures text { line.new.bytes ≡ line.old.bytes ++ decimal number }
    ensures room { array_string_len line.new ≤ array_string_len line.old + 20 }
{
    let mut digits = Buffer::new();
    line.push_str(digits.format(number));
}

/// Adds why a line of a program is refused.
pub(crate) fn push_asm(line: &mut Line, why: AsmWhy)
    requires { array_string_len line.old + 60 ≤ LINE_BYTES }
    ensures text { line.new.bytes ≡ line.old.bytes ++ asm_text why }
    ensures room { array_string_len line.new ≤ array_string_len line.old + 60 }
{
    match why {
        AsmWhy::NotText => line.push_str("not text"),
        AsmWhy::BadHeader => line.push_str("bad header"),
        AsmWhy::BadLabel => line.push_str("bad label"),
        AsmWhy::DoubledLabel => line.push_str("label defined twice"),
        AsmWhy::UnknownName => line.push_str("unknown name"),
        AsmWhy::Operands { has, wants } => {
            push_number(line, has);
            line.push_str(" operands, ");
            push_number(line, wants);
            line.push_str(" wanted");
        }
        AsmWhy::BadRegister => line.push_str("bad register"),
        AsmWhy::BadNumber => line.push_str("bad number"),
        AsmWhy::UnknownLabel => line.push_str("unknown label"),
    }
}

/// Adds a number between two texts.
fn push_between(line: &mut Line, before: &str, number: u32, after: &str)
    requires { array_string_len line.old + length before.now + length after.now + 20 ≤ LINE_BYTES }
    ensures text { line.new.bytes ≡ line.old.bytes ++ before.now ++ decimal number ++ after.now }
    ensures room { array_string_len line.new ≤
        array_string_len line.old + length before.now + length after.now + 20 }
{
    line.push_str(before);
    push_number(line, u64::from(number));
    line.push_str(after);
}

/// Adds why a container is refused.
pub(crate) fn push_read(line: &mut Line, why: ReadWhy)
    requires { array_string_len line.old + 60 ≤ LINE_BYTES }
    ensures text { line.new.bytes ≡ line.old.bytes ++ read_text why }
    ensures room { array_string_len line.new ≤ array_string_len line.old + 60 }
{
    match why {
        ReadWhy::BadMagic => line.push_str("bad magic"),
        ReadWhy::BadVersion { found } => push_between(line, "version ", found, ""),
        ReadWhy::Missing { section } => push_between(line, "section ", section, " missing"),
        ReadWhy::Doubled { section } => push_between(line, "section ", section, " doubled"),
        ReadWhy::OtherPrime => line.push_str("another prime"),
        ReadWhy::BadCount { has, wants } => {
            push_number(line, has);
            line.push_str(" for ");
            push_number(line, wants);
        }
        ReadWhy::WireRange { wire, wires } => {
            push_between(line, "wire ", wire, " of ");
            push_number(line, u64::from(wires));
        }
        ReadWhy::NotCanonical => line.push_str("not below p"),
        ReadWhy::Truncated => line.push_str("truncated"),
        ReadWhy::TooWide { terms } => push_between(line, "", terms, " terms"),
        ReadWhy::Trailing => line.push_str("bytes after the end"),
    }
}

/// The name of a quantity.
pub(crate) fn what_name(what: What) -> &'static str
    ensures text { result.now ≡ what_text what }
    ensures room { length result.now ≤ 20 }
{
    match what {
        What::ImageWords => "image words",
        What::ImageBytes => "image bytes",
        What::TapeWords => "tape words",
        What::AuxWords => "aux words",
        What::TextBytes => "text bytes",
        What::SystemTerms => "system terms",
        What::CombinationTerms => "combination terms",
        What::Steps => "steps",
        What::Draws => "draws",
    }
}
