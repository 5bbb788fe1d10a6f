//! The text of the lines that an assignment has.
ghost use Rattle.std.specs.Prelude.{◌≡◌, ◌≤◌, IfOk, map, take};
ghost use Rattle.tv_layout.specs.Places.{WithinLimits, line_count, runs_of};
ghost use Rattle.tv_listing.specs.Listing.{assigned_lines, lines_at, text_by};
ghost use Rattle.tv_listing.specs.Row.{row_line};

use crate::row::{By, ListedLine};
use crate::text::text_by;
use std::alloc::{AllocError, Global};
use tv_core::F;
use tv_layout::line;

/// Returns the text of the lines that an assignment has of the system of an image, a primary tape
/// of `n` words and `t` steps: those of the words of the image and the tape, and of the steps up to
/// `step`. Each line is its time, its cell, its old and its new word in decimal, apart by one
/// space, and a line feed. The assignment need not satisfy the system, and a wire past its end
/// counts as 0; the numbers are those of the field. Takes 32 bytes a line beside the text.
///
/// The image and the tape have at most 131,072 words each, `t` is from 1 to 262,144, and `step` at
/// most `t`.
pub fn listing<const W: u32>(
    alloc: Global,
    image: &[u32],
    n: u32,
    t: u32,
    step: u64,
    values: &[F],
    by: By,
) -> Result<Vec<u8>, AllocError>
    requires fits { WithinLimits (runs_of W image.now n t) }
    requires within { step ≤ t }
    ensures { IfOk result (λ text. text.items ≡
        text_by by (assigned_lines (runs_of W image.now n t) step values.now)) }
{
    let count = image.len() as u32 + n + 3 * step as u32;
    let rows = rows::<W>(alloc, image, n, t, count, values)?;
    text_by(alloc, by, rows)
}

// The first lines that an assignment has.
fn rows<const W: u32>(
    alloc: Global,
    image: &[u32],
    n: u32,
    t: u32,
    count: u32,
    values: &[F],
) -> Result<Vec<ListedLine>, AllocError>
    requires fits { WithinLimits (runs_of W image.now n t) }
    requires within { count ≤ line_count (runs_of W image.now n t) }
    ensures { IfOk result (λ rows. map row_line rows.items ≡
        take count (lines_at (runs_of W image.now n t) values.now)) }
{
    let mut rows = Vec::with_capacity(alloc, count as usize)?;
    for i in 0..count {
        rows.push(ListedLine::valued(&line::<W>(image, n, t, i), values))?;
    }
    Ok(rows)
}
