//! The text of the lines of a trace.
ghost use Rattle.std.specs.Prelude.{◌≡◌, ◌*◌, ◌≤◌, ◌++◌, length, map, OnOk, IfOk};
ghost use Rattle.tv_core.specs.declared.limits.TheConstants.{IMAGE_WORDS, TAPE_WORDS};
ghost use Rattle.tv_listing.specs.Listing.{traced_lines, text_by};
ghost use Rattle.tv_listing.specs.Row.{row_line};
ghost use Rattle.tv_step.specs.Cells.{boot_from};

use crate::row::{By, ListedLine};
use crate::text::text_by;
use std::alloc::{AllocError, Global};
use tv_core::Line;
use tv_core::limits::TAPE_CELLS;
use tv_step::Trace;

/// Returns the text of `listing`, for the lines of a trace: of those that write the words of an
/// image and of a primary tape, and of the run's steps up to `step`. It takes memory for the text
/// and for the lines, and is refused only where that runs out.
pub fn trace_text(
    alloc: Global,
    image: &[u32],
    tape: &[u32],
    trace: &Trace,
    step: u64,
    by: By,
) -> Result<Vec<u8>, AllocError>
    requires image { length image.now ≤ IMAGE_WORDS }
    requires tape { length tape.now ≤ TAPE_WORDS }
    requires within { 3 * step ≤ length trace.now.lines }
    ensures { IfOk result (λ text. text.items ≡
        text_by by (traced_lines image.now tape.now step trace.now.lines)) }
{
    let mut rows = Vec::new(alloc);
    push_words(&mut rows, 0, 0, image)?;
    push_words(&mut rows, TAPE_CELLS, image.len() as u32, tape)?;
    push_lines(&mut rows, &trace.lines.as_slice()[..3 * step as usize])?;
    text_by(alloc, by, rows)
}

// The lines that write words, the first into a cell at a time.
fn push_words(
    rows: &mut Vec<ListedLine>,
    cell: u32,
    time: u32,
    words: &[u32],
) -> Result<(), AllocError>
    ensures { OnOk result (map row_line rows.new.items ≡
        map row_line rows.old.items ++ boot_from cell time words.now) }
{
    for (i, word) in words.iter().enumerate() {
        rows.push(ListedLine {
            cell: u64::from(cell) + i as u64,
            time: u64::from(time) + i as u64,
            old: 0,
            new: u64::from(*word),
        })?;
    }
    Ok(())
}

// Lines of a trace.
fn push_lines(rows: &mut Vec<ListedLine>, lines: &[Line]) -> Result<(), AllocError>
    ensures { OnOk result (map row_line rows.new.items ≡
        map row_line rows.old.items ++ lines.now) }
{
    for line in lines {
        rows.push(ListedLine::of(line))?;
    }
    Ok(())
}
