//! The text of lines in an order.
ghost use Rattle.std.specs.Prelude.{◌≡◌, ◌++◌, [], ◌∷◌, IfOk, OnOk, decimal, map};
ghost use Rattle.tv_listing.specs.Listing.{by_cell, line_text, text_of, text_by};
ghost use Rattle.tv_listing.specs.Row.{row_line};

use crate::row::{By, ListedLine};
use itoa::Buffer;
use std::alloc::{AllocError, Global};

/// Returns the text of lines in an order.
pub(crate) fn text_by(
    alloc: Global,
    by: By,
    mut rows: Vec<ListedLine>,
) -> Result<Vec<u8>, AllocError>
    ensures { IfOk result (λ text. text.items ≡ text_by by (map row_line rows.items)) }
{
    match by {
        By::Time => {}
        By::Cell => sort(&mut rows),
    }
    text_of(alloc, &rows)
}

// Sorts lines by cell.
#[tactic(auto, using(crate::proofs::Order::rows_sorted))]
fn sort(rows: &mut Vec<ListedLine>)
    ensures { map row_line rows.new.items ≡ by_cell (map row_line rows.old.items) }
{
    rows.sort_unstable();
}

// The text of lines as they follow each other.
fn text_of(alloc: Global, rows: &[ListedLine]) -> Result<Vec<u8>, AllocError>
    ensures { IfOk result (λ text. text.items ≡ text_of (map row_line rows.now)) }
{
    let mut text = Vec::new(alloc);
    for row in rows {
        push_row(&mut text, row)?;
    }
    Ok(text)
}

// Adds a line.
fn push_row(text: &mut Vec<u8>, row: &ListedLine) -> Result<(), AllocError>
    ensures { OnOk result (text.new.items ≡ text.old.items ++ line_text (row_line row.now)) }
{
    push_number(text, row.time, b' ')?;
    push_number(text, row.cell, b' ')?;
    push_number(text, row.old, b' ')?;
    push_number(text, row.new, b'\n')
}

// Adds a number and the byte after it.
fn push_number(text: &mut Vec<u8>, number: u64, end: u8) -> Result<(), AllocError>
    ensures { OnOk result (text.new.items ≡ text.old.items ++ (decimal number ++ end ∷ [])) }
{
    let mut digits = Buffer::new();
    text.extend_from_slice(digits.format(number).as_bytes())?;
    text.push(end)?;
    Ok(())
}
