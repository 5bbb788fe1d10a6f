//! What a line says before its comment.
ghost use Rattle.std.specs.Prelude.{◌≡◌, ◌≤◌, length};
ghost use Rattle.std.specs.List.{list_all, prefix_len};
ghost use Rattle.std.specs.Option.{option_map};
ghost use Rattle.tv_asm.specs.Line.{code_of, code_says, is_text, is_label_byte, labelled};
ghost use Rattle.tv_asm.specs.Views.{said_by};

use crate::text::{cut, trimmed};

/// What a line says: the label that it defines, and an instruction, empty where there is none.
#[derive(Clone, Copy)]
pub(crate) struct Statement<'a> {
    pub(crate) label: Option<&'a [u8]>,
    pub(crate) instruction: &'a [u8],
}

impl<'a> Statement<'a> {
    /// Returns what a line's code says; `None` where it begins with `_` and not with a label.
    #[tactic(auto, unfolding(crate::specs::Line::code_says))]
    pub(crate) fn of(code: &'a [u8]) -> Option<Statement<'a>>
        ensures { option_map said_by result ≡ code_says code.now }
    {
        let code = trimmed(code);
        match code {
            [b'_', ..] => labelled(code),
            _ => Some(Statement {
                label: None,
                instruction: code,
            }),
        }
    }
}

fn labelled(code: &[u8]) -> Option<Statement<'_>>
    ensures { option_map said_by result ≡ labelled code.now }
{
    let end = label_end(code);
    match &code[end..] {
        [b':', remaining @ ..] if end > 1 => Some(Statement {
            label: Some(&code[..end]),
            instruction: trimmed(remaining),
        }),
        _ => None,
    }
}

/// Returns how many bytes of a label the code begins with.
fn label_end(code: &[u8]) -> usize
    ensures end { result ≡ prefix_len is_label_byte code.now }
    ensures within { result ≤ length code.now }
{
    code.iter().take_while(|byte| is_label_byte(**byte)).count()
}

fn is_label_byte(byte: u8) -> bool
    ensures { result ≡ is_label_byte byte }
{
    byte.is_ascii_alphanumeric() || byte == b'_' || byte == b'.'
}

/// Returns a line's code: what stands before its comment.
pub(crate) fn code_of(line: &[u8]) -> &[u8]
    ensures { result.now ≡ code_of line.now }
{
    let (code, _) = cut(line, b';');
    code
}

/// Returns whether code is nothing but text.
pub(crate) fn is_text(code: &[u8]) -> bool
    ensures { result ≡ list_all is_text code.now }
{
    code.iter()
        .all(|byte| *byte == b'\t' || (b' '..=b'~').contains(byte))
}
