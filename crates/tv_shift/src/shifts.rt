//! The shift of a word by another.
ghost use Rattle.std.specs.Prelude.{◌+◌, ◌/◌, ◌≤◌, ◌<◌, max, IfOk};
ghost use Rattle.tv_bits.specs.Bits.{AreBitsBelow};
ghost use Rattle.tv_core.specs.Sinks.{Emits, Room};
ghost use Rattle.tv_shift.specs.Masks.{ArePlacesMade};
ghost use Rattle.tv_shift.specs.Shift.{parts_of, shift_of, parts_made};
ghost use Rattle.tv_shift.specs.Shift.{shift_made, ShiftIsSound, ShiftIsComplete, ShiftSizes};
ghost use Rattle.tv_word.specs.Widths.{IsWidth};

use crate::ends::{Shift, by_half, by_rest, ends};
use crate::halves::halves;
use crate::masks::{Part, Parts, Places, half_log, masked};
use crate::thermometer::thermometer;
use tv_bits::{Bits, zero_by};
use tv_core::{Put, Scratch, Sink, Wire};

/// Emits the constraints of the word `x` of `W` bits shifted left and right by the word `y`, and
/// returns both results, which are 0 where `y` is `W` or more. It makes 51 wires and constraints at
/// 32 bits, of 893 terms, and 28 at 16, of 418.
pub fn shift<const W: u32, S: Sink>(s: &mut S, x: &Bits, y: &Bits) -> Put<Shift>
    requires width { IsWidth W }
    requires room { Room S.meaning s.old (shift_made W) (shift_made W) }
    requires x_made { x.now.first + W ≤ S.meaning.wires s.old }
    requires y_word { AreBitsBelow (S.meaning.wires s.old) W y.now }
    ensures emits { Emits S.meaning s.old s.new
        (shift_of W x.now y.now) (shift_made W) (shift_made W) result }
    ensures below { IfOk result (λ shift. max shift.left shift.right < S.meaning.wires s.new) }
{
    let k = half_log::<W>();
    let mut scratch = Scratch::new();
    let parts = parts::<W, S>(s, &mut scratch, x.first, y.first)?;
    let half = by_half::<W, S>(s, &mut scratch, y.first.offset(k), x.first)?;
    let near = by_rest::<W, S>(s, &mut scratch, &parts, half)?;
    y.above(k + 1).set_number(&mut scratch.a);
    let in_range = zero_by(s, &mut scratch)?;
    ends(s, &mut scratch, in_range, near)
}

// The chosen half, the marks of the distance, and the two parts that fall away.
fn parts<const W: u32, S: Sink>(
    s: &mut S,
    scratch: &mut Scratch,
    word: Wire,
    distance: Wire,
) -> Put<Parts>
    requires width { IsWidth W }
    requires room { Room S.meaning s.old (parts_made W) (parts_made W) }
    requires word_made { word + W ≤ S.meaning.wires s.old }
    requires distance_made { distance + W ≤ S.meaning.wires s.old }
    ensures emits { Emits S.meaning s.old s.new
        (parts_of W word distance) (parts_made W) (parts_made W) result }
    ensures made { IfOk result (λ parts. ArePlacesMade W parts.places (S.meaning.wires s.new)) }
    ensures below { IfOk result (λ parts. max parts.low parts.high + W / 4
        ≤ S.meaning.wires s.new) }
{
    let k = half_log::<W>();
    let chosen = halves(s, scratch, W / 2, distance.offset(k), word)?;
    let products = thermometer(s, scratch, k, distance)?;
    let places = Places {
        word,
        distance,
        chosen,
        products,
    };
    let low = masked::<W, S>(s, scratch, &places, Part::Low)?;
    let high = masked::<W, S>(s, scratch, &places, Part::High)?;
    Ok(Parts { places, low, high })
}

/// The laws of `shift`:
/// - `sound`: in an assignment that satisfies the constraints of `shift` for bits that represent
///   words, the wires hold the word shifted by the other.
/// - `complete`: where bits represent words and an assignment has the values that `fill_shift`
///   assigns for them, it satisfies the constraints of `shift`.
/// - `sizes`: which wires `shift` returns and how many it makes, whatever the next wire is, and
///   that `fill_shift` assigns one value to each of them, below the prime for words.
pub fn shift_laws()
    ensures sound { ShiftIsSound }
    ensures complete { ShiftIsComplete }
    ensures sizes { ShiftSizes }
{}
