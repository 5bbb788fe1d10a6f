//! The last steps of a shift: by half a word, by the rest, and 0 where it is too far.
ghost use Rattle.std.specs.Prelude.{◌≡◌, ◌+◌, ◌/◌, ◌%◌, ◌≤◌, ◌<◌, ◌^◌, length, max, IfOk};
ghost use Rattle.tv_bits.specs.Bits.{bits_combination};
ghost use Rattle.tv_core.specs.Combinations.{top, scaled};
ghost use Rattle.tv_core.specs.Sinks.{Emits, Room};
ghost use Rattle.tv_core.specs.declared.field.TheConstants.{P};
ghost use Rattle.tv_shift.specs.Masks.{ArePlacesMade};
ghost use Rattle.tv_shift.specs.Shift.{by_half_of, by_rest_of, ends_of};
ghost use Rattle.tv_word.specs.Widths.{IsWidth};

use crate::masks::{Parts, half_log};
use crate::thermometer::set_mark_power;
use tv_bits::{Bits, ratio_by, select_terms, times_by};
use tv_core::{F, Lc, Put, Scratch, Sink, Wire};

/// A word shifted by another: to the left, without what leaves its bits, and to the right.
#[derive(Clone, Copy, PartialEq, Eq, Debug)]
pub struct Shift {
    /// The word times two to the power of the distance, without what leaves it.
    pub left: Wire,
    /// The word divided by that power, rounded down.
    pub right: Wire,
}

// The word shifted by half its bits where bit `b` is 1. It makes 2 wires and 2 constraints.
pub(crate) fn by_half<const W: u32, S: Sink>(
    s: &mut S,
    scratch: &mut Scratch,
    b: Wire,
    word: Wire,
) -> Put<Shift>
    requires width { IsWidth W }
    requires room { Room S.meaning s.old 2 2 }
    requires b_made { b < S.meaning.wires s.old }
    requires word_made { word + W ≤ S.meaning.wires s.old }
    ensures emits { Emits S.meaning s.old s.new (by_half_of W b word) 2 2 result }
    ensures below { IfOk result (λ half. max half.left half.right < S.meaning.wires s.new) }
{
    let x = Bits { first: word, n: W }.lc();
    let mut shifted = Lc::empty();
    set_times_half::<W>(&mut shifted, word, W / 2);
    let left = select_terms(s, scratch, b, shifted.terms(), x.terms())?;
    let high = Bits {
        first: word.offset(W / 2),
        n: W / 2,
    };
    high.set_number(&mut shifted);
    let right = select_terms(s, scratch, b, shifted.terms(), x.terms())?;
    Ok(Shift { left, right })
}

// Makes `lc` two to the power of half a word's bits, times the number of `n` bits.
fn set_times_half<const W: u32>(lc: &mut Lc, first: Wire, n: u32)
    requires width { IsWidth W }
    requires short { n ≤ 16 }
    requires made { first + n < 2 ^ 32 }
    ensures terms { lc.new ≡ scaled (2 ^ (W / 2) % P) (bits_combination first n) }
    ensures len { length lc.new ≡ n }
    ensures top { top lc.new ≤ first + n }
{
    lc.clear();
    Bits { first, n }.plus_to(lc, F::of(1 << (W / 2)));
}

// The word shifted by the low bits of the distance too. It makes 2 wires and 2 constraints.
pub(crate) fn by_rest<const W: u32, S: Sink>(
    s: &mut S,
    scratch: &mut Scratch,
    parts: &Parts,
    half: Shift,
) -> Put<Shift>
    requires width { IsWidth W }
    requires room { Room S.meaning s.old 2 2 }
    requires places_made { ArePlacesMade W parts.now.places (S.meaning.wires s.old) }
    requires parts_made { max parts.now.low parts.now.high + W / 4 ≤ S.meaning.wires s.old }
    requires half_made { max half.left half.right < S.meaning.wires s.old }
    ensures emits { Emits S.meaning s.old s.new (by_rest_of W parts.now half) 2 2 result }
    ensures below { IfOk result (λ near. max near.left near.right < S.meaning.wires s.new) }
{
    let marks = parts.places.marks();
    set_mark_power(&mut scratch.a, &mut scratch.b, &marks, half_log::<W>());
    set_times_half::<W>(&mut scratch.c, parts.high, W / 4);
    scratch.b.set_wire(half.left);
    scratch.b.minus(&scratch.c);
    let left = times_by(s, scratch)?;
    let low = Bits {
        first: parts.low,
        n: W / 4,
    };
    scratch.b.set_wire(half.right);
    low.plus_to(&mut scratch.b, -F::ONE);
    let right = ratio_by(s, scratch)?;
    Ok(Shift { left, right })
}

// The words, or 0 where wire `in_range` is 0. It makes 2 wires and 2 constraints.
pub(crate) fn ends<S: Sink>(
    s: &mut S,
    scratch: &mut Scratch,
    in_range: Wire,
    near: Shift,
) -> Put<Shift>
    requires room { Room S.meaning s.old 2 2 }
    requires in_range_made { in_range < S.meaning.wires s.old }
    requires near_made { max near.left near.right < S.meaning.wires s.old }
    ensures emits { Emits S.meaning s.old s.new (ends_of in_range near) 2 2 result }
    ensures below { IfOk result (λ end. max end.left end.right < S.meaning.wires s.new) }
{
    scratch.a.set_wire(in_range);
    scratch.b.set_wire(near.left);
    let left = times_by(s, scratch)?;
    scratch.b.set_wire(near.right);
    let right = times_by(s, scratch)?;
    Ok(Shift { left, right })
}
