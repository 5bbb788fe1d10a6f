//! The items of a run's lines.
ghost use Rattle.std.specs.Prelude.{◌≡◌, ◌+◌, ◌^◌, ◌≤◌, [], ◌∷◌, ◌++◌, length, map, All};
ghost use Rattle.std.specs.Prelude.{IfOk, OnOk};
ghost use Rattle.tv_lines.specs.PackedLines.{LineInRange, packed_item};
ghost use Rattle.tv_step.specs.Cells.{boot_from};
ghost use Rattle.tv_fill.specs.Filled.{filled_lines};

use crate::run_lines::word_line;
use std::alloc::{AllocError, Global};
use tv_core::limits::TAPE_CELLS;
use tv_core::{Line, PairNum};
use tv_lines::pack_item;

// The items of the lines of a run: those of the image's and the tape's words, and those of its
// steps.
pub(crate) fn pack_items(
    alloc: Global,
    image: &[u32],
    tape: &[u32],
    steps: &[Line],
) -> Result<Vec<PairNum>, AllocError>
    requires few { length image.now + length tape.now + length steps.now ≤ 2 ^ 20 }
    requires steps { All LineInRange steps.now }
    ensures { IfOk result (λ items. items.items
        ≡ map packed_item (filled_lines image.now tape.now steps.now)) }
{
    let mut items = Vec::with_capacity(alloc, image.len() + tape.len() + steps.len())?;
    push_words(&mut items, 0, 0, image)?;
    push_words(&mut items, TAPE_CELLS, image.len() as u32, tape)?;
    push_lines(&mut items, steps)?;
    Ok(items)
}

// The item of a line.
fn push_line(items: &mut Vec<PairNum>, line: &Line) -> Result<(), AllocError>
    requires { LineInRange line.now }
    ensures { OnOk result (items.new.items ≡ items.old.items ++ packed_item line.now ∷ []) }
{
    items.push(pack_item(line))?;
    Ok(())
}

// The items of the lines that write words, the first into a cell at a time.
fn push_words(
    items: &mut Vec<PairNum>,
    cell: u32,
    time: u32,
    words: &[u32],
) -> Result<(), AllocError>
    requires cells { cell + length words.now ≤ 2 ^ 31 }
    requires times { time + length words.now ≤ 2 ^ 20 }
    ensures { OnOk result (items.new.items ≡ items.old.items
        ++ map packed_item (boot_from cell time words.now)) }
{
    for (i, word) in words.iter().enumerate() {
        let i = i as u32;
        push_line(items, &word_line(cell + i, time + i, *word))?;
    }
    Ok(())
}

// The items of lines as they are.
fn push_lines(items: &mut Vec<PairNum>, lines: &[Line]) -> Result<(), AllocError>
    requires { All LineInRange lines.now }
    ensures { OnOk result (items.new.items ≡ items.old.items ++ map packed_item lines.now) }
{
    for line in lines {
        push_line(items, line)?;
    }
    Ok(())
}
