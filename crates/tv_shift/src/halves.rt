//! The half of a word that a bit chooses.
ghost use Rattle.std.specs.Prelude.{◌+◌, ◌≤◌, ◌<◌, IfOk};
ghost use Rattle.tv_core.specs.Sinks.{Emits, Room};
ghost use Rattle.tv_shift.specs.Halves.{halves_of};

use tv_bits::select_wires;
use tv_core::{Put, Scratch, Sink, Wire};

// The first of `n` wires that are the bits of the half that bit `b` chooses, of the word of 2 `n`
// bits from `word` on. It makes `n` wires and `n` constraints.
pub(crate) fn halves<S: Sink>(
    s: &mut S,
    scratch: &mut Scratch,
    n: u32,
    b: Wire,
    word: Wire,
) -> Put<Wire>
    requires room { Room S.meaning s.old n n }
    requires b_made { b < S.meaning.wires s.old }
    requires word_made { word + (n + n) ≤ S.meaning.wires s.old }
    requires short { n < 64 }
    ensures emits { Emits S.meaning s.old s.new (halves_of n b word) n n result }
    ensures below { IfOk result (λ first. first + n ≤ S.meaning.wires s.new) }
{
    let first = Wire(s.wires());
    for i in 0..n {
        select_wires(s, scratch, b, word.offset(n + i), word.offset(i))?;
    }
    Ok(first)
}
