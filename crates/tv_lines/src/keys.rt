//! That the key of one line is above that of another, by prefixes.
ghost use Rattle.std.specs.Prelude.{◌≡◌, ◌+◌, ◌-◌, ◌≤◌, ◌<◌, ◌^◌, [], ◌∷◌, ◌++◌, false, length};
ghost use Rattle.std.specs.Prelude.{min, max, OnOk};
ghost use Rattle.tv_bits.specs.Bits.{AreBitsBelow};
ghost use Rattle.tv_bits.specs.Order.{first_difference, prefix_difference};
ghost use Rattle.tv_bits.specs.Prefixes.{products_values, prefix};
ghost use Rattle.tv_core.specs.Combinations.{less, top, wire};
ghost use Rattle.tv_core.specs.Values.{GivesIn};
ghost use Rattle.tv_core.specs.Sinks.{Emits, Room};
ghost use Rattle.tv_lines.specs.PackedLines.{line_of_numbers};
ghost use Rattle.tv_lines.specs.SortedPair.{prefix_less, prefix_less_in, factor_in};
ghost use Rattle.tv_lines.specs.SortedPair.{rises_of, size};
ghost use Rattle.tv_lines.specs.UnpackedLines.{IsLineBelow, key_end};

use crate::rows::LineBits;
use tv_bits::{Bits, first_difference, times_by};
use tv_core::limits::TIME_BITS;
use tv_core::{F, Lc, LineNum, Put, Scratch, Sink, Values, Wire};

// Cells are cut into three chunks of 11 bits, and times into two.
pub(crate) const CHUNK: u32 = 11;

const CELL_CHUNKS: u32 = 3;

const TIME_CHUNKS: u32 = 2;

const PREFIXES: u32 = CELL_CHUNKS + TIME_CHUNKS;

// Constrains `size` to the difference of two prefixes, of the cells or of the keys. Makes 3 wires
// and 4 constraints.
pub(crate) fn rises<S: Sink>(
    s: &mut S,
    scratch: &mut Scratch,
    apart: Wire,
    size: Wire,
    before: &LineBits,
    after: &LineBits,
) -> Put<()>
    requires room { Room S.meaning s.old 3 4 }
    requires before_line { IsLineBelow (S.meaning.wires s.old) before.now }
    requires after_line { IsLineBelow (S.meaning.wires s.old) after.now }
    requires apart_made { apart < S.meaning.wires s.old }
    requires size_made { size < S.meaning.wires s.old }
    ensures emits { Emits S.meaning s.old s.new
        (rises_of apart size before.now after.now) 3 4 result }
{
    set_key_factor(&mut scratch.a, 0, apart, size, before, after);
    for i in 0..PREFIXES - 2 {
        set_key_factor(&mut scratch.b, i + 1, apart, size, before, after);
        let w = times_by(s, scratch)?;
        scratch.a.set_wire(w);
    }
    set_key_factor(&mut scratch.b, PREFIXES - 1, apart, size, before, after);
    scratch.c.clear();
    s.put(&scratch.a, &scratch.b, &scratch.c)
}

// Makes `lc` the difference of prefix number `j` less `size`.
fn set_key_factor(lc: &mut Lc, j: u32, apart: Wire, size: Wire, before: &LineBits, after: &LineBits)
    requires within { j < 5 }
    requires before_line { IsLineBelow (2 ^ 32 - 1) before.now }
    requires after_line { IsLineBelow (2 ^ 32 - 1) after.now }
    ensures terms { lc.new ≡ less (prefix_less apart before.now after.now j) (wire size) }
    ensures top { top lc.new ≤ max (max (apart + 1) (size + 1))
        (max (key_end before.now) (key_end after.now)) }
{
    lc.clear();
    plus_prefix(lc, j, apart, before, after);
    lc.plus(-F::ONE, size);
}

// Appends prefix number `j` of the second line less that of the first, to the combination without
// terms.
fn plus_prefix(lc: &mut Lc, j: u32, apart: Wire, before: &LineBits, after: &LineBits)
    requires empty { lc.old ≡ [] }
    requires within { j < 5 }
    requires before_line { IsLineBelow (2 ^ 32 - 1) before.now }
    requires after_line { IsLineBelow (2 ^ 32 - 1) after.now }
    ensures terms { lc.new ≡ prefix_less apart before.now after.now j }
    ensures len { length lc.new ≤ 63 }
    ensures top { top lc.new ≤ max (apart + 1) (max (key_end before.now) (key_end after.now)) }
{
    if j == 0 {
        lc.plus(F::ONE, apart);
    } else if j < CELL_CHUNKS {
        plus_less(lc, &before.cell, &after.cell, CHUNK * j);
    } else {
        plus_key(
            lc,
            apart,
            &before.time,
            &after.time,
            CHUNK * (j - CELL_CHUNKS),
        );
    }
}

// Appends what the second key is above the first without their lowest bits, which are bits of the
// times.
fn plus_key(lc: &mut Lc, apart: Wire, before: &Bits, after: &Bits, from: u32)
    requires empty { lc.old ≡ [] }
    requires within { from ≤ 20 }
    requires before_bits { AreBitsBelow (2 ^ 32 - 1) 20 before.now }
    requires after_bits { AreBitsBelow (2 ^ 32 - 1) 20 after.now }
    ensures terms { lc.new ≡ less ((2 ^ (20 - from), apart) ∷ prefix after.now from)
        (prefix before.now from) }
    ensures len { length lc.new ≤ 41 }
    ensures top { top lc.new ≤ max (apart + 1)
        (max (before.now.first + 20) (after.now.first + 20)) }
{
    lc.plus(F::of(1 << (TIME_BITS - from)), apart);
    plus_less(lc, before, after, from);
}

// Appends what the bits from place `from` on represent, of `after` less of `before`.
fn plus_less(lc: &mut Lc, before: &Bits, after: &Bits, from: u32)
    requires long { from ≤ min before.now.n after.now.n }
    requires short { max before.now.n after.now.n ≤ 31 }
    requires made { max (before.now.first + before.now.n) (after.now.first + after.now.n)
        < 2 ^ 32 }
    requires room { length lc.old ≤ 1 }
    ensures terms { lc.new ≡ less (lc.old ++ prefix after.now from) (prefix before.now from) }
    ensures len { length lc.new ≤ length lc.old + after.now.n + before.now.n }
    ensures top { top lc.new ≤ max (top lc.old)
        (max (before.now.first + before.now.n) (after.now.first + after.now.n)) }
{
    after.above(from).plus_to(lc, F::ONE);
    before.above(from).plus_to(lc, -F::ONE);
}

// Assigns the values of the wires that `rises` makes.
pub(crate) fn fill_rises<V: Values>(v: &mut V, before: &LineNum, after: &LineNum) -> Put<()>
    requires { V.giving.broken v.old ≡ false }
    ensures gives { GivesIn V.giving v.old v.new (products_values
        (factor_in (line_of_numbers before.now) (line_of_numbers after.now)) 5) result }
    ensures whole { OnOk result (V.giving.broken v.new ≡ false) }
{
    let size = size(before, after);
    let mut product = prefix_less_in(before, after, 0) - size;
    for i in 0..PREFIXES - 2 {
        product = product * (prefix_less_in(before, after, i + 1) - size);
        v.give(product)?;
    }
    Ok(())
}

// Prefix number `j` of the second line less that of the first.
fn prefix_less_in(before: &LineNum, after: &LineNum, j: u32) -> F
    requires { j < 5 }
    ensures { result ≡ prefix_less_in (line_of_numbers before.now) (line_of_numbers after.now) j }
{
    let apart = after.cell - before.cell;
    if j == 0 {
        apart
    } else if j < CELL_CHUNKS {
        prefix_difference_in(before.cell, after.cell, CHUNK * j)
    } else {
        let from = CHUNK * (j - CELL_CHUNKS);
        F::of(1 << (TIME_BITS - from)) * apart + prefix_difference_in(before.time, after.time, from)
    }
}

// What the second number is above the first, both without their lowest bits.
fn prefix_difference_in(before: F, after: F, from: u32) -> F
    requires { from < 64 }
    ensures { result ≡ prefix_difference after before from }
{
    F::of(after.number() >> from) - F::of(before.number() >> from)
}

// How far the shortest prefixes that differ are apart: of the cells, or where these are the same of
// the times.
pub(crate) fn size(before: &LineNum, after: &LineNum) -> F
    ensures { result ≡ size (line_of_numbers before.now) (line_of_numbers after.now) }
{
    if before.cell == after.cell {
        shortest_difference(before.time, after.time, TIME_CHUNKS)
    } else {
        shortest_difference(before.cell, after.cell, CELL_CHUNKS)
    }
}

// How far the second number is above the first in the shortest prefix in which they differ.
fn shortest_difference(before: F, after: F, chunks: u32) -> F
    requires { chunks ≤ 5 }
    ensures { result ≡ first_difference 11 chunks after before }
{
    F::of(first_difference(after.number(), before.number(), CHUNK, chunks))
}
