//! The lines of a run, by their places.
ghost use Rattle.std.specs.Prelude.{◌≡◌, ◌+◌, ◌^◌, ◌≤◌, length};
ghost use Rattle.tv_fill.specs.Filled.{filled_checks, filled_lines};

use tv_argument::{Kind, LineNumbers};
use tv_core::Line;
use tv_core::limits::TAPE_CELLS;
use tv_layout::line_kind;

// The lines of a run, whose times have `k` bits: those of the image's and the tape's words, and
// those of its steps.
#[derive(Clone, Copy)]
pub(crate) struct RunLines<'a> {
    pub(crate) image: &'a [u32],
    pub(crate) tape: &'a [u32],
    pub(crate) steps: &'a [Line],
    pub(crate) k: u32,
    ghost few: { k ≤ 20 },
    ghost fits: { length image.now + length tape.now + length steps.now ≤ 2 ^ 20 },
}

impl<'a> LineNumbers for RunLines<'a> {
    ghost lines = { λ l. filled_lines l.image.now l.tape.now l.steps.now };

    ghost checks = { λ l. filled_checks (length l.image.now) (length l.tape.now) l.k };

    fn line(&self, i: u32) -> Line {
        let words = self.image.len() as u32;
        let boot = words + self.tape.len() as u32;
        if i < words {
            word_line(i, i, self.image[i as usize])
        } else if i < boot {
            let at = i - words;
            word_line(TAPE_CELLS + at, i, self.tape[at as usize])
        } else {
            self.steps[(i - boot) as usize]
        }
    }

    fn kind(&self, i: u32) -> Kind {
        line_kind(self.image.len() as u32, self.tape.len() as u32, self.k, i)
    }
}

// The line that writes a word into a cell at a time.
pub(crate) fn word_line(cell: u32, time: u32, word: u32) -> Line
    ensures { result ≡ record { cell = cell; time = time; old = 0; new = word } }
{
    Line {
        cell,
        time,
        old: 0,
        new: word,
    }
}
