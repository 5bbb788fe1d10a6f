//! What is proved of tapes and their texts, from the definitions.
ghost use Rattle.std.specs.Prelude.{◌≡◌, ◌<◌, ◌≤◌, ◌^◌, ℕ, List, length, All, IfOk, Ok};
ghost use Rattle.tv_tape.specs.Tape.{tape_of, text_of};

/// What a tape holds is within the bounds that it was read with.
pub fn tapes_are_in_range()
    ensures below { (text : List ℕ) (below most : ℕ)
        → IfOk (tape_of text below most) (All (λ number. number < below)) }
    ensures most { (text : List ℕ) (below most : ℕ)
        → IfOk (tape_of text below most) (λ numbers. length numbers ≤ most) }
{}

/// Words that are written as text are read again: each below the bound, and no more than are asked
/// for.
pub fn texts_come_back()
    ensures { (words : List ℕ) (below most : ℕ) → below ≤ 2 ^ 64 → All (λ word. word < below) words
        → length words ≤ most
        → tape_of (text_of words) below most ≡ Ok words }
{}
