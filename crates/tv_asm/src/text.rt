//! Lines of a text, and what separators cut it into.
ghost use Rattle.std.specs.Prelude.{◌≡◌, ◌<◌, ◌≤◌, ◌∷◌, ◌==◌, [], length, MatchOption};
ghost use Rattle.std.specs.List.{before_first, after_first, position_or_len};
ghost use Rattle.std.specs.Str.Lines.{strip_carriage_return};
ghost use Rattle.tv_asm.specs.Text.{is_blank, trimmed, trimmed_front, trimmed_end, lines};

/// Returns whether a byte is a space or a tab.
pub(crate) fn is_blank(byte: u8) -> bool
    ensures { result ≡ is_blank byte }
{
    byte == b' ' || byte == b'\t'
}

/// Returns the text without blanks at its ends.
#[tactic(auto, unfolding(crate::specs::Text::trimmed))]
pub(crate) fn trimmed(text: &[u8]) -> &[u8]
    ensures { result.now ≡ trimmed text.now }
{
    trimmed_end(trimmed_front(text))
}

fn trimmed_front(text: &[u8]) -> &[u8]
    ensures { result.now ≡ trimmed_front text.now }
{
    let mut rest = text;
    while let [b' ' | b'\t', remaining @ ..] = rest {
        rest = remaining;
    }
    rest
}

fn trimmed_end(text: &[u8]) -> &[u8]
    ensures { result.now ≡ trimmed_end text.now }
{
    let mut rest = text;
    while let [before @ .., b' ' | b'\t'] = rest {
        rest = before;
    }
    rest
}

/// Returns the place of the first separator, or the text's length where there is none.
fn place_of(text: &[u8], separator: u8) -> usize
    ensures place { result ≡ position_or_len (λ c. c == separator) text.now }
    ensures within { result ≤ length text.now }
{
    text.iter().take_while(|byte| **byte != separator).count()
}

/// Returns what stands before the first separator, and what stands after it; all and nothing where
/// there is none.
pub(crate) fn cut(text: &[u8], separator: u8) -> (&[u8], &[u8])
    ensures before { result.0.now ≡ before_first (λ c. c == separator) text.now }
    ensures remaining { result.1.now ≡ after_first (λ c. c == separator) text.now }
{
    let end = place_of(text, separator);
    (&text[..end], &text[(end + 1).min(text.len())..])
}

/// Returns the first line of a text and what stands after it; `None` at the end.
pub(crate) fn next_line(text: &[u8]) -> Option<(&[u8], &[u8])>
    ensures { MatchOption result (lines text.now ≡ [])
        (λ p. (lines text.now ≡ p.0.now ∷ lines p.1.now) × (length p.1.now < length text.now)) }
{
    if text.is_empty() {
        return None;
    }
    let (line, rest) = cut(text, b'\n');
    Some((without_return(line), rest))
}

/// Returns the line without a carriage return at its end.
fn without_return(line: &[u8]) -> &[u8]
    ensures { result.now ≡ strip_carriage_return line.now }
{
    match line {
        [front @ .., b'\r'] => front,
        _ => line,
    }
}
