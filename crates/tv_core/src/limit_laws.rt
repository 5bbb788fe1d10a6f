//! The numbers of the limits.
ghost use Rattle.tv_core.specs.Limits.{FieldIs, LimitsAre, LinesAre};

/// The numbers of the limits: the most steps, words of an image, with words of 32 and of 16 bits,
/// words of a primary, of an auxiliary and of a checked tape, bytes of a text, and drawn
/// instructions. Of the lines: the bits of a time and of a cell, the cells of the primary tape's
/// first word and of no word. And the most terms of a combination; and the prime.
pub fn limits_are_these()
    ensures limits { LimitsAre }
    ensures lines { LinesAre }
    ensures field { FieldIs }
{}
