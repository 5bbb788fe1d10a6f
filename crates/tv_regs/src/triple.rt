//! Three registers, read at once: a curve of degree two goes through their words.
//!
//! Sixteen constraints say that each register is the curve's value plus a multiple of the product
//! of three differences, which is 0 at the numbers of the three registers; so the curve passes
//! through their words, and three times two constraints evaluate it. These are 26 constraints,
//! where three trees of choices take 45. Where numbers are equal the words are, and the divided
//! differences of the curve are 0, so one formula assigns its values.
ghost use Rattle.std.specs.Prelude.{◌≡◌, ◌+◌, ◌*◌, ◌%◌, ◌≤◌, ◌<◌, ◌^◌, false, IfOk};
ghost use Rattle.std.specs.Prelude.{length, OnOk};
ghost use Rattle.tv_bits.specs.Number.{number_of};
ghost use Rattle.tv_core.specs.Combinations.{top};
ghost use Rattle.tv_core.specs.Values.{GivesIn};
ghost use Rattle.tv_core.specs.Inverse.{inverse_of};
ghost use Rattle.tv_core.specs.Sinks.{Emits, Room};
ghost use Rattle.tv_core.specs.declared.field.TheConstants.{P};
ghost use Rattle.tv_bits.specs.Wires.{wires_top};
ghost use Rattle.tv_regs.specs.ProductPlus.{product_plus_of};
ghost use Rattle.tv_regs.specs.Triple.{roots_of, sums_of, cubic, departure};
ghost use Rattle.tv_regs.specs.Triple.{passes_of, curve_of, point_of, triple_of, triple_wires};
ghost use Rattle.tv_regs.specs.Triple.{AreNames};
ghost use Rattle.tv_regs.specs.Triple.{AreRoots, curve_through, minus, passing, roots_values};
ghost use Rattle.tv_regs.specs.Triple.{root_product};
ghost use Rattle.tv_regs.specs.Triple.{passing_values, point_values, triple_values};
ghost use Rattle.tv_regs.specs.Triple.{TripleIsSound, TripleIsComplete, TripleSizes, TripleCosts};

use tv_bits::{Bits, kept_by, pick_by, ratio_by, times_by};
use tv_core::{F, Lc, Put, Scratch, Sink, Values, Wire, give_values, give_words};

/// The numbers of three registers, four bits each. Contracts see their numbers.
#[derive(Clone, Copy)]
pub struct Names {
    /// The destination's.
    pub dest: Bits,
    /// The source's.
    pub source: Bits,
    /// That of the register that the second word names.
    pub named: Bits,
}

/// Three registers, of sixteen: the one that a store or another instruction takes its word from,
/// the one that the second word names, and the destination. Contracts see their numbers.
#[derive(Clone, Copy)]
pub struct Triple {
    /// The destination's number.
    pub dest: Wire,
    /// The number of the other register: the destination's at a store, the source's elsewhere.
    pub other: Wire,
    /// The word in the other register.
    pub other_word: Wire,
    /// The word in the register that the second word names.
    pub named_word: Wire,
    /// The word in the destination.
    pub dest_word: Wire,
}

// The numbers of the destination and the other register, and of all three the sum, the sum of the
// products by two, and the product.
#[derive(Clone, Copy)]
struct Roots {
    dest: Wire,
    other: Wire,
    sum: Wire,
    pairs: Wire,
    product: Wire,
}

// The coefficients of 1, i and i^2 of a curve.
#[derive(Clone, Copy)]
struct Curve {
    level: F,
    slope: F,
    bend: F,
}

// The inverses of 1 to 15.
const INVERSES: [u64; 15] = [
    1,
    9_223_372_034_707_292_161,
    12_297_829_379_609_722_881,
    13_835_058_052_060_938_241,
    14_757_395_255_531_667_457,
    15_372_286_724_512_153_601,
    2_635_249_152_773_512_046,
    16_140_901_060_737_761_281,
    4_099_276_459_869_907_627,
    16_602_069_662_473_125_889,
    8_384_883_667_915_720_146,
    16_909_515_396_963_368_961,
    11_351_842_504_255_128_813,
    1_317_624_576_386_756_023,
    17_216_961_131_453_612_033,
];

/// Constrains wires to the words of three registers: of the destination, of the register that the
/// second word names, and of a third one, which is the destination where `stores`, of at most 128
/// terms, is 1 and the source where it is 0. It makes 31 wires and 28 constraints, of 210 terms and
/// those of `stores`.
pub fn read_triple<S: Sink>(
    s: &mut S,
    scratch: &mut Scratch,
    stores: &[(F, Wire)],
    names: &Names,
    regs: &[Wire; 16],
) -> Put<Triple>
    requires room { Room S.meaning s.old 31 28 }
    requires stores_short { length stores.now ≤ 128 }
    requires stores_made { top stores.now ≤ S.meaning.wires s.old }
    requires names_made { AreNames (S.meaning.wires s.old) names.now }
    requires regs_made { wires_top regs.now ≤ S.meaning.wires s.old }
    ensures emits { Emits S.meaning s.old s.new
        (triple_of stores.now (number_of names.now.dest) (number_of names.now.source)
        (number_of names.now.named) regs.now)
        31 28 result }
    ensures places { IfOk result (λ made. made ≡ triple_wires (S.meaning.wires s.old)) }
{
    let roots = new_roots(s, scratch, stores, names)?;
    let curve = new_curve(s, scratch, &roots, regs)?;
    scratch.a.set_wire(roots.other);
    let other_word = point(s, scratch, curve)?;
    names.named.set_number(&mut scratch.a);
    let named_word = point(s, scratch, curve)?;
    scratch.a.set_wire(roots.dest);
    let dest_word = point(s, scratch, curve)?;
    Ok(Triple {
        dest: roots.dest,
        other: roots.other,
        other_word,
        named_word,
        dest_word,
    })
}

// The numbers of the destination and of the third register, and the sums of the products of the
// three by one, two and three.
fn new_roots<S: Sink>(
    s: &mut S,
    scratch: &mut Scratch,
    stores: &[(F, Wire)],
    names: &Names,
) -> Put<Roots>
    requires room { Room S.meaning s.old 6 6 }
    requires stores_short { length stores.now ≤ 128 }
    requires stores_made { top stores.now ≤ S.meaning.wires s.old }
    requires names_made { AreNames (S.meaning.wires s.old) names.now }
    ensures emits { Emits S.meaning s.old s.new
        (roots_of stores.now (number_of names.now.dest) (number_of names.now.source)
        (number_of names.now.named))
        6 6 result }
    ensures below { IfOk result (λ made. AreRoots (S.meaning.wires s.new) made) }
{
    names.dest.set_number(&mut scratch.a);
    let dest = kept_by(s, scratch)?;
    scratch.a.clear();
    scratch.a.plus_terms(stores);
    let source = number_terms(&names.source);
    let other = pick_by(s, scratch, &[(F::ONE, dest)], &source)?;
    sums(s, scratch, &names.named, dest, other)
}

// The terms of the number that four bits represent.
fn number_terms(bits: &Bits) -> [(F, Wire); 4]
    requires short { bits.now.n ≡ 4 }
    requires within { bits.now.first + 4 < 2 ^ 32 }
    ensures terms { result ≡ number_of bits.now }
    ensures top { top result ≤ bits.now.first + 4 }
{
    let w = bits.first;
    [
        (F::ONE, w),
        (F::of(2), w.offset(1)),
        (F::of(4), w.offset(2)),
        (F::of(8), w.offset(3)),
    ]
}

// The sums of the products of three numbers by one, two and three.
fn sums<S: Sink>(
    s: &mut S,
    scratch: &mut Scratch,
    named: &Bits,
    dest: Wire,
    other: Wire,
) -> Put<Roots>
    requires room { Room S.meaning s.old 4 4 }
    requires named_short { named.now.n ≡ 4 }
    requires named_made { named.now.first + 4 ≤ S.meaning.wires s.old }
    requires dest_made { dest < S.meaning.wires s.old }
    requires other_made { other < S.meaning.wires s.old }
    ensures emits { Emits S.meaning s.old s.new
        (sums_of dest other (number_of named.now)) 4 4 result }
    ensures below { IfOk result (λ made. AreRoots (S.meaning.wires s.new) made) }
{
    named.set_number(&mut scratch.a);
    scratch.a.plus(F::ONE, dest);
    scratch.a.plus(F::ONE, other);
    let sum = kept_by(s, scratch)?;
    scratch.a.set_wire(other);
    named.set_number(&mut scratch.b);
    let pair = times_by(s, scratch)?;
    scratch.a.set_wire(dest);
    scratch.b.plus(F::ONE, other);
    let pairs = product_plus(s, scratch, pair)?;
    scratch.a.set_wire(pair);
    scratch.b.set_wire(dest);
    let product = times_by(s, scratch)?;
    Ok(Roots {
        dest,
        other,
        sum,
        pairs,
        product,
    })
}

// A wire that is the product of the factors in `scratch` plus `old`.
fn product_plus<S: Sink>(s: &mut S, scratch: &mut Scratch, old: Wire) -> Put<Wire>
    requires room { Room S.meaning s.old 1 1 }
    requires x_made { top scratch.old.a ≤ S.meaning.wires s.old }
    requires y_made { top scratch.old.b ≤ S.meaning.wires s.old }
    requires old_made { old < S.meaning.wires s.old }
    ensures emits { Emits S.meaning s.old s.new
        (product_plus_of scratch.old.a scratch.old.b old) 1 1 result }
    ensures below { IfOk result (λ new. new < S.meaning.wires s.new) }
{
    let new = s.fresh();
    scratch.c.clear();
    scratch.c.plus(-F::ONE, old);
    scratch.c.plus(F::ONE, new);
    s.put(&scratch.a, &scratch.b, &scratch.c)?;
    Ok(new)
}

// The first of three wires that are the coefficients of a curve through the registers at the
// roots.
fn new_curve<S: Sink>(
    s: &mut S,
    scratch: &mut Scratch,
    roots: &Roots,
    regs: &[Wire; 16],
) -> Put<Wire>
    requires room { Room S.meaning s.old 19 16 }
    requires roots_made { AreRoots (S.meaning.wires s.old) roots.now }
    requires regs_made { wires_top regs.now ≤ S.meaning.wires s.old }
    ensures emits { Emits S.meaning s.old s.new (curve_of roots.now regs.now) 19 16 result }
    ensures below { IfOk result (λ curve. curve + 3 ≤ S.meaning.wires s.new) }
{
    let curve = s.fresh();
    let _slope = s.fresh();
    let _bend = s.fresh();
    for i in 0..16 {
        passes(s, scratch, roots, curve, regs[i as usize], i)?;
    }
    Ok(curve)
}

// Holds the register with this number to the curve, unless it is no root.
fn passes<S: Sink>(
    s: &mut S,
    scratch: &mut Scratch,
    roots: &Roots,
    curve: Wire,
    reg: Wire,
    i: u32,
) -> Put<()>
    requires room { Room S.meaning s.old 1 1 }
    requires within { i < 16 }
    requires roots_made { AreRoots (S.meaning.wires s.old) roots.now }
    requires curve_made { curve + 3 ≤ S.meaning.wires s.old }
    requires reg_made { reg < S.meaning.wires s.old }
    ensures emits { Emits S.meaning s.old s.new (passes_of roots.now curve reg i) 1 1 result }
{
    set_cubic(&mut scratch.a, roots, i);
    set_departure(&mut scratch.b, reg, curve, i);
    ratio_by(s, scratch)?;
    Ok(())
}

// Makes `lc` the product of `i` less each root.
fn set_cubic(lc: &mut Lc, roots: &Roots, i: u32)
    requires within { i < 16 }
    ensures terms { lc.new ≡ cubic roots.now i }
{
    lc.clear();
    if i > 0 {
        lc.plus(F::from(i * i * i), Wire(0));
        lc.plus(-F::of(u64::from(i * i)), roots.sum);
        lc.plus(F::from(i), roots.pairs);
    }
    lc.plus(-F::ONE, roots.product);
}

// Makes `lc` a register less the curve at its number.
fn set_departure(lc: &mut Lc, reg: Wire, curve: Wire, i: u32)
    requires within { i < 16 }
    requires made { curve + 2 < 2 ^ 32 }
    ensures terms { lc.new ≡ departure reg curve i }
{
    lc.clear();
    lc.plus(F::ONE, reg);
    lc.plus(-F::ONE, curve);
    if i > 0 {
        lc.plus(-F::of(u64::from(i)), curve.offset(1));
        lc.plus(-F::of(u64::from(i * i)), curve.offset(2));
    }
}

// A wire that is the curve at the number `scratch.a`.
fn point<S: Sink>(s: &mut S, scratch: &mut Scratch, curve: Wire) -> Put<Wire>
    requires room { Room S.meaning s.old 2 2 }
    requires n_made { top scratch.old.a ≤ S.meaning.wires s.old }
    requires curve_made { curve + 3 ≤ S.meaning.wires s.old }
    ensures emits { Emits S.meaning s.old s.new (point_of scratch.old.a curve) 2 2 result }
    ensures below { IfOk result (λ word. word < S.meaning.wires s.new) }
{
    scratch.b.set_wire(curve.offset(2));
    let bend = times_by(s, scratch)?;
    scratch.b.set_wire(curve.offset(1));
    scratch.b.plus(F::ONE, bend);
    product_plus(s, scratch, curve)
}

/// Assigns the 31 values of the wires that `read_triple` makes, for the numbers of the three
/// registers, below 16, and the words in all sixteen.
pub fn fill_triple<V: Values>(
    v: &mut V,
    other: u32,
    named: u32,
    dest: u32,
    regs: &[u32; 16],
) -> Put<()>
    requires other_within { other < 16 }
    requires named_within { named < 16 }
    requires dest_within { dest < 16 }
    requires whole { V.giving.broken v.old ≡ false }
    ensures gives { GivesIn V.giving v.old v.new (triple_values other named dest regs.now) result }
    ensures whole { OnOk result (V.giving.broken v.new ≡ false) }
{
    let curve = curve_through(other, named, dest, regs);
    fill_roots(v, other, named, dest)?;
    give_values(v, &[curve.level, curve.slope, curve.bend])?;
    fill_passing(v, &curve, other, named, dest, regs)?;
    fill_point(v, other, &curve, regs)?;
    fill_point(v, named, &curve, regs)?;
    fill_point(v, dest, &curve, regs)
}

// Assigns the numbers and the sums of their products.
fn fill_roots<V: Values>(v: &mut V, o: u32, b: u32, d: u32) -> Put<()>
    requires other_within { o < 16 }
    requires named_within { b < 16 }
    requires dest_within { d < 16 }
    requires whole { V.giving.broken v.old ≡ false }
    ensures gives { GivesIn V.giving v.old v.new (roots_values o b d) result }
    ensures whole { OnOk result (V.giving.broken v.new ≡ false) }
{
    give_words(v, &[d, o, o + b + d, o * b, o * b + d * (o + b), o * b * d])
}

// Assigns what each register has beside the curve.
fn fill_passing<V: Values>(
    v: &mut V,
    curve: &Curve,
    o: u32,
    b: u32,
    d: u32,
    regs: &[u32; 16],
) -> Put<()>
    requires other_within { o < 16 }
    requires named_within { b < 16 }
    requires dest_within { d < 16 }
    requires through { curve.now ≡ curve_through o b d regs.now }
    requires whole { V.giving.broken v.old ≡ false }
    ensures gives { GivesIn V.giving v.old v.new (passing_values o b d regs.now) result }
    ensures whole { OnOk result (V.giving.broken v.new ≡ false) }
{
    for i in 0..16 {
        v.give(passing(curve, o, b, d, regs, i))?;
    }
    Ok(())
}

// Assigns the bend times a number, and the word there.
fn fill_point<V: Values>(v: &mut V, n: u32, curve: &Curve, regs: &[u32; 16]) -> Put<()>
    requires within { n < 16 }
    requires whole { V.giving.broken v.old ≡ false }
    ensures gives { GivesIn V.giving v.old v.new (point_values n curve.now.bend regs.now) result }
    ensures whole { OnOk result (V.giving.broken v.new ≡ false) }
{
    give_values(v, &[F::from(n) * curve.bend, F::from(regs[n as usize])])
}

// The curve through three registers, by Newton's divided differences.
fn curve_through(o: u32, b: u32, d: u32, regs: &[u32; 16]) -> Curve
    requires other_within { o < 16 }
    requires named_within { b < 16 }
    requires dest_within { d < 16 }
    ensures { result ≡ curve_through o b d regs.now }
{
    let word = |n: u32| F::from(regs[n as usize]);
    let first = (word(b) - word(o)) * inverse_difference(b, o);
    let rise = word(d) - word(o) - difference(d, o) * first;
    let second = rise * inverse_of_two(d, o, b);
    Curve {
        level: word(o) - F::from(o) * first + F::from(o * b) * second,
        slope: first - F::from(o + b) * second,
        bend: second,
    }
}

// A number less another.
fn difference(a: u32, b: u32) -> F
    ensures { result ≡ minus a b }
{
    F::from(a) - F::from(b)
}

// The inverse of a number less another, and 0 where they are equal.
fn inverse_difference(a: u32, b: u32) -> F
    requires first { a < 16 }
    requires second { b < 16 }
    ensures { result ≡ inverse_of (minus a b) }
{
    if a > b {
        inverse_of_small(a - b)
    } else if a < b {
        -inverse_of_small(b - a)
    } else {
        F::ZERO
    }
}

// The inverse of the product of a number less each of two others.
fn inverse_of_two(n: u32, o: u32, b: u32) -> F
    requires n { n < 16 }
    requires first { o < 16 }
    requires second { b < 16 }
    ensures { result ≡ inverse_of (minus n o * minus n b % P) }
{
    inverse_difference(n, o) * inverse_difference(n, b)
}

// The inverse of the product of a number less each of three others.
fn inverse_of_three(n: u32, o: u32, b: u32, d: u32) -> F
    requires n { n < 16 }
    requires first { o < 16 }
    requires second { b < 16 }
    requires third { d < 16 }
    ensures { result ≡ inverse_of (root_product o b d n) }
{
    inverse_of_two(n, o, b) * inverse_difference(n, d)
}

// The inverse of a number from 1 to 15, from the table.
fn inverse_of_small(k: u32) -> F
    requires positive { 0 < k }
    requires within { k < 16 }
    ensures { result ≡ inverse_of k }
{
    F::of(INVERSES[(k - 1) as usize])
}

// Register `i` less the curve there, by the product of `i` less each number.
fn passing(curve: &Curve, o: u32, b: u32, d: u32, regs: &[u32; 16], i: u32) -> F
    requires other_within { o < 16 }
    requires named_within { b < 16 }
    requires dest_within { d < 16 }
    requires within { i < 16 }
    requires through { curve.now ≡ curve_through o b d regs.now }
    ensures { result ≡ passing o b d regs.now i }
{
    let at = curve.level + F::from(i) * curve.slope + F::from(i * i) * curve.bend;
    (F::from(regs[i as usize]) - at) * inverse_of_three(i, o, b, d)
}

/// The laws of `triple`:
/// - `sound`: where an assignment has a bit and three numbers of registers and satisfies the
///   constraints of `read_triple`, the returned wires have the numbers and the words of these
///   registers.
/// - `complete`: where an assignment has such inputs, and the values that `fill_triple` assigns, it
///   satisfies the constraints of `read_triple`.
/// - `sizes`: which wires `read_triple` returns and how many it makes, whatever the next wire is,
///   and that `fill_triple` assigns one value to each of them, below P.
/// - `costs`: how many constraints and terms `read_triple` emits.
pub fn triple_laws()
    ensures sound { TripleIsSound }
    ensures complete { TripleIsComplete }
    ensures sizes { TripleSizes }
    ensures costs { TripleCosts }
{}
