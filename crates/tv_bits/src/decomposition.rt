//! Numbers cut into bits.
ghost use Rattle.std.specs.Prelude.{◌≡◌, ◌+◌, ◌≤◌, ◌<◌, false, IfOk, OnOk};
ghost use Rattle.std.specs.Int.{bit_at};
ghost use Rattle.tv_bits.specs.Bits.{bits_values, new_bits_of, bits_of, NewBitsAreSound};
ghost use Rattle.tv_bits.specs.Bits.{NewBitsAreComplete, BitsAreSound, BitsAreComplete};
ghost use Rattle.tv_bits.specs.Bits.{NewBitsSizes, BitsSizes};
ghost use Rattle.tv_core.specs.Combinations.{top};
ghost use Rattle.tv_core.specs.Values.{GivesIn};
ghost use Rattle.tv_core.specs.Sinks.{Emits, Room};

use crate::bit_wires::Bits;
use crate::booleans::bit_by;
use tv_core::{F, Lc, Put, Scratch, Sink, Values, Wire};

/// Makes new wires, each constrained to 0 or 1. It makes `n` wires and `n` constraints.
pub fn new_bits_by<S: Sink>(s: &mut S, scratch: &mut Scratch, n: u32) -> Put<Bits>
    requires room { Room S.meaning s.old n n }
    ensures emits { Emits S.meaning s.old s.new (new_bits_of n) n n result }
    ensures size { IfOk result (λ bits. bits.n ≡ n) }
    ensures below { IfOk result (λ bits. bits.first + bits.n ≤ S.meaning.wires s.new) }
{
    let bits = Bits {
        first: Wire(s.wires()),
        n,
    };
    for _turn in 0..n {
        let w = s.fresh();
        bit_by(s, scratch, w)?;
    }
    Ok(bits)
}

/// Makes new wires that are the `n`-bit decomposition of `x`, for `n` of at most 63; so `x` is
/// constrained to less than 2^n. It makes `n` wires and `n + 1` constraints.
pub fn bits<S: Sink>(s: &mut S, x: &Lc, n: u32) -> Put<Bits>
    requires room { Room S.meaning s.old n (n + 1) }
    requires x_made { top x.now ≤ S.meaning.wires s.old }
    requires short { n ≤ 63 }
    ensures emits { Emits S.meaning s.old s.new (bits_of x.now n) n (n + 1) result }
    ensures size { IfOk result (λ bits. bits.n ≡ n) }
    ensures below { IfOk result (λ bits. bits.first + bits.n ≤ S.meaning.wires s.new) }
{
    bits_by(s, &mut Scratch::new(), x, n)
}

/// Like `bits`, but reuses the caller's scratch combinations.
pub fn bits_by<S: Sink>(s: &mut S, scratch: &mut Scratch, x: &Lc, n: u32) -> Put<Bits>
    requires room { Room S.meaning s.old n (n + 1) }
    requires x_made { top x.now ≤ S.meaning.wires s.old }
    requires short { n ≤ 63 }
    ensures emits { Emits S.meaning s.old s.new (bits_of x.now n) n (n + 1) result }
    ensures size { IfOk result (λ bits. bits.n ≡ n) }
    ensures below { IfOk result (λ bits. bits.first + bits.n ≤ S.meaning.wires s.new) }
{
    let made = new_bits_by(s, scratch, n)?;
    made.set_number(&mut scratch.a);
    scratch.b.set_wire(Wire(0));
    s.put(&scratch.a, &scratch.b, x)?;
    Ok(made)
}

/// Assigns the `n` lowest bits of `x`, lowest first: the values of the wires that `bits` makes for
/// it, and `new_bits_by` for any number.
pub fn fill_bits<V: Values>(v: &mut V, x: F, n: u32) -> Put<()>
    requires whole { V.giving.broken v.old ≡ false }
    requires short { n ≤ 63 }
    ensures gives { GivesIn V.giving v.old v.new (bits_values x n) result }
    ensures whole { OnOk result (V.giving.broken v.new ≡ false) }
{
    for i in 0..n {
        v.give(bit_at(x, i))?;
    }
    Ok(())
}

// A bit of a number.
fn bit_at(x: F, i: u32) -> F
    requires { i < 64 }
    ensures { result ≡ bit_at x i }
{
    F::of((x.number() >> i) % 2)
}

/// The laws of `new_bits_by`:
/// - `sound`: where an assignment satisfies the constraints of `new_bits_by`, the wires hold 0 or
///   1.
/// - `complete`: where an assignment has the values that `fill_bits` assigns for any number, it
///   satisfies the constraints of `new_bits_by`.
/// - `sizes`: which wires `new_bits_by` returns, and that `fill_bits` assigns one number to each
///   wire that it makes.
#[tactic(auto, using(crate::proofs::SizeLaws::new_bits_laws))]
pub fn new_bits_laws()
    ensures sound { NewBitsAreSound }
    ensures complete { NewBitsAreComplete }
    ensures sizes { NewBitsSizes }
{}

/// The laws of `bits`:
/// - `sound`: where an assignment satisfies the constraints of `bits`, the wires hold the bits of
///   the value.
/// - `complete`: where the value is below 2^n and an assignment has the values that `fill_bits`
///   assigns, it satisfies the constraints of `bits`.
/// - `sizes`: which wires `bits` returns, and that `fill_bits` assigns one number to each wire that
///   it makes.
#[tactic(auto, using(crate::proofs::SizeLaws::bits_laws))]
pub fn bits_laws()
    ensures sound { BitsAreSound }
    ensures complete { BitsAreComplete }
    ensures sizes { BitsSizes }
{}
