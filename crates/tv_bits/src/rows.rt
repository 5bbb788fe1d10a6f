//! One-hot rows.
ghost use Rattle.std.specs.Prelude.{◌≡◌, ◌+◌, ◌≤◌, ◌<◌, ◌^◌, ◌++◌, false, length, max, IfOk};
ghost use Rattle.std.specs.Prelude.{OnOk};
ghost use Rattle.tv_bits.specs.Bits.{bits_combination};
ghost use Rattle.tv_bits.specs.OneHot.{row_sum, onehot_values, mark_of, onehot_of, OneHotIsSound};
ghost use Rattle.tv_bits.specs.OneHot.{OneHotIsComplete, OneHotSizes};
ghost use Rattle.tv_core.specs.Combinations.{top};
ghost use Rattle.tv_core.specs.Values.{GivesIn};
ghost use Rattle.tv_core.specs.Sinks.{Emits, Room};

use crate::bit_wires::Bits;
use tv_core::{F, Lc, Put, Scratch, Sink, Values, Wire};

/// Appends the sum of `count` wires that follow each other, as `count` terms; with them there are
/// at most 128.
pub fn plus_row(lc: &mut Lc, first: Wire, count: u32)
    requires within { first + count < 2 ^ 32 }
    requires room { length lc.old + count ≤ 128 }
    ensures terms { lc.new ≡ lc.old ++ row_sum first count }
    ensures top { top lc.new ≤ max (top lc.old) (first + count) }
    ensures len { length lc.new ≡ length lc.old + count }
{
    for i in 0..count {
        lc.plus(F::ONE, first.offset(i));
    }
}

/// Makes 2^n wires of which the one whose number the bits hold is 1, and each other one 0, and
/// returns the first; there are at most 5 bits. It makes 2^n wires and 2^n + 1 constraints.
pub fn onehot<S: Sink>(s: &mut S, x: &Bits) -> Put<Wire>
    requires room { Room S.meaning s.old (2 ^ x.now.n) (2 ^ x.now.n + 1) }
    requires short { x.now.n ≤ 5 }
    requires x_made { x.now.first + x.now.n ≤ S.meaning.wires s.old }
    ensures emits { Emits S.meaning s.old s.new
        (onehot_of x.now) (2 ^ x.now.n) (2 ^ x.now.n + 1) result }
    ensures below { IfOk result (λ first. first + 2 ^ x.now.n ≤ S.meaning.wires s.new) }
{
    onehot_by(s, &mut Scratch::new(), x)
}

/// Like `onehot`, but reuses the caller's scratch combinations.
pub fn onehot_by<S: Sink>(s: &mut S, scratch: &mut Scratch, x: &Bits) -> Put<Wire>
    requires room { Room S.meaning s.old (2 ^ x.now.n) (2 ^ x.now.n + 1) }
    requires short { x.now.n ≤ 5 }
    requires x_made { x.now.first + x.now.n ≤ S.meaning.wires s.old }
    ensures emits { Emits S.meaning s.old s.new
        (onehot_of x.now) (2 ^ x.now.n) (2 ^ x.now.n + 1) result }
    ensures below { IfOk result (λ first. first + 2 ^ x.now.n ≤ S.meaning.wires s.new) }
{
    let first = Wire(s.wires());
    let count = row_len(x.n);
    for i in 0..count {
        mark(s, scratch, x, i)?;
    }
    scratch.a.clear();
    plus_row(&mut scratch.a, first, count);
    scratch.b.set_wire(Wire(0));
    s.put(&scratch.a, &scratch.b, &scratch.b)?;
    Ok(first)
}

// Makes a wire that is 0 unless the bits `x` are those of `i`.
fn mark<S: Sink>(s: &mut S, scratch: &mut Scratch, x: &Bits, i: u32) -> Put<()>
    requires room { Room S.meaning s.old 1 1 }
    requires short { x.now.n ≤ 5 }
    requires x_made { x.now.first + x.now.n ≤ S.meaning.wires s.old }
    ensures emits { Emits S.meaning s.old s.new
        (mark_of (bits_combination x.now.first x.now.n) i) 1 1 result }
{
    let w = s.fresh();
    scratch.a.set_wire(w);
    x.set_number(&mut scratch.b);
    scratch.b.plus(-F::from(i), Wire(0));
    scratch.c.clear();
    s.put(&scratch.a, &scratch.b, &scratch.c)
}

/// Assigns the values of the wires that `onehot` makes for the `n` bits of `x`.
pub fn fill_onehot<V: Values>(v: &mut V, x: u32, n: u32) -> Put<()>
    requires whole { V.giving.broken v.old ≡ false }
    requires short { n ≤ 5 }
    ensures gives { GivesIn V.giving v.old v.new (onehot_values x n) result }
    ensures whole { OnOk result (V.giving.broken v.new ≡ false) }
{
    for i in 0..row_len(n) {
        v.give(F::from(i == x))?;
    }
    Ok(())
}

fn row_len(n: u32) -> u32
    requires { n < 32 }
    ensures { result ≡ 2 ^ n }
{
    1 << n
}

/// The laws of `onehot`:
/// - `sound`: where an assignment satisfies the constraints of `onehot` for the bits of a number,
///   that number's wire is 1 and each other one 0.
/// - `complete`: where wires hold the bits of a number and an assignment has the values that
///   `fill_onehot` assigns for it, it satisfies the constraints of `onehot`.
/// - `sizes`: which wire `onehot` returns, and that `fill_onehot` assigns one number to each wire
///   that it makes.
pub fn onehot_laws()
    ensures sound { OneHotIsSound }
    ensures complete { OneHotIsComplete }
    ensures sizes { OneHotSizes }
{}
