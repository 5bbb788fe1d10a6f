//! The bits of a word that fall away in a shift.
ghost use Rattle.std.specs.Prelude.{◌≡◌, ◌+◌, ◌*◌, ◌/◌, ◌≤◌, ◌<◌, ◌^◌, length, max};
ghost use Rattle.std.specs.Prelude.{false, IfOk, OnOk};
ghost use Rattle.std.specs.Int.{bit_at};
ghost use Rattle.tv_core.specs.Combinations.{top};
ghost use Rattle.tv_core.specs.Values.{GivesIn};
ghost use Rattle.tv_core.specs.Sinks.{Emits, Room};
ghost use Rattle.tv_shift.specs.declared.masks.Part.TheVariants.{Low, High};
ghost use Rattle.tv_shift.specs.Masks.{half_log, mask_at, mask_value, digit_at, masked_pair_of};
ghost use Rattle.tv_shift.specs.Masks.{masked_of, masked_value, masked_values, ArePlacesMade};
ghost use Rattle.tv_shift.specs.Thermometer.{products_below};
ghost use Rattle.tv_word.specs.Widths.{IsWidth};

use crate::thermometer::Marks;
use tv_bits::two_ands;
use tv_core::{F, Lc, Put, Scratch, Sink, Values, Wire};

/// Which bits of a word fall away in a shift by less than half a word.
#[derive(Clone, Copy, PartialEq, Eq, Debug)]
pub enum Part {
    /// The low bits of the half of the word that is chosen, which fall away to the right.
    Low,
    /// The high bits of the other half, which fall away to the left.
    High,
}

/// Where wires begin on which a shift works.
#[derive(Clone, Copy, PartialEq, Eq, Debug)]
pub struct Places {
    /// The bits of the word.
    pub word: Wire,
    /// The bits of the distance.
    pub distance: Wire,
    /// The bits of the half of the word that the distance chooses.
    pub chosen: Wire,
    /// The products that the marks of the distance's low bits need.
    pub products: Wire,
}

/// These, and where the two parts begin that fall away.
#[derive(Clone, Copy, PartialEq, Eq, Debug)]
pub struct Parts {
    /// The word, the distance, and what is made of them first.
    pub places: Places,
    /// The part that falls away to the right, two bits a wire.
    pub low: Wire,
    /// The part that falls away to the left, two bits a wire.
    pub high: Wire,
}

impl Places {
    // The marks of the distance's low bits.
    pub(crate) fn marks(&self) -> Marks
        ensures bits { result.bits ≡ self.now.distance }
        ensures products { result.products ≡ self.now.products }
    {
        Marks {
            bits: self.distance,
            products: self.products,
        }
    }

    // Makes `mask` that of bit `i` of a part.
    fn set_mask<const W: u32>(&self, mask: &mut Lc, part: Part, i: u32)
        requires width { IsWidth W }
        requires there { i < W / 2 }
        requires distance_made { self.now.distance + half_log W < 2 ^ 32 }
        requires products_made { self.now.products + products_below (half_log W) < 2 ^ 32 }
        ensures terms { mask.new ≡ mask_at W self.now part i }
        ensures len { length mask.new ≤ 8 }
        ensures top { top mask.new ≤ max (self.now.distance + half_log W)
            (self.now.products + products_below (half_log W)) }
    {
        match part {
            Part::Low => self.marks().set_mark(mask, half_log::<W>(), i),
            Part::High => self.marks().set_mark(mask, half_log::<W>(), W / 2 - 1 - i),
        }
    }

    // Bit `i` of the chosen half.
    fn chosen_bit<const W: u32>(&self, i: u32) -> [(F, Wire); 1]
        requires { self.now.chosen + i < 2 ^ 32 }
        ensures terms { result ≡ digit_at W self.now Low i }
        ensures top { top result ≡ self.now.chosen + i + 1 }
    {
        [(F::ONE, self.chosen.offset(i))]
    }

    // Bit `i` of the other half: the sum of both halves' bits less that of the chosen one.
    fn other_bit<const W: u32>(&self, i: u32) -> [(F, Wire); 3]
        requires width { IsWidth W }
        requires there { i < W / 2 }
        requires word_made { self.now.word + W < 2 ^ 32 }
        requires chosen_made { self.now.chosen + W / 2 < 2 ^ 32 }
        ensures terms { result ≡ digit_at W self.now High i }
        ensures top { top result ≤ max (self.now.word + W) (self.now.chosen + W / 2) }
    {
        [
            (F::ONE, self.word.offset(i)),
            (F::ONE, self.word.offset(W / 2 + i)),
            (-F::ONE, self.chosen.offset(i)),
        ]
    }
}

// The first of `W / 4` wires that are a part, two bits a wire. It makes as many wires and
// constraints.
pub(crate) fn masked<const W: u32, S: Sink>(
    s: &mut S,
    scratch: &mut Scratch,
    places: &Places,
    part: Part,
) -> Put<Wire>
    requires width { IsWidth W }
    requires room { Room S.meaning s.old (W / 4) (W / 4) }
    requires made { ArePlacesMade W places.now (S.meaning.wires s.old) }
    ensures emits { Emits S.meaning s.old s.new
        (masked_of (mask_at W places.now part) (digit_at W places.now part) (W / 4))
        (W / 4) (W / 4) result }
    ensures below { IfOk result (λ first. first + W / 4 ≤ S.meaning.wires s.new) }
{
    let first = Wire(s.wires());
    let mut mask = Lc::empty();
    let mut mask_above = Lc::empty();
    for i in 0..W / 4 {
        pair::<W, S>(s, scratch, places, part, i, &mut mask, &mut mask_above)?;
    }
    Ok(first)
}

// A wire that is bit `i` of a part, plus 2^(W / 4) times bit `W / 4 + i`. The two combinations are
// filled with their masks.
fn pair<const W: u32, S: Sink>(
    s: &mut S,
    scratch: &mut Scratch,
    places: &Places,
    part: Part,
    i: u32,
    mask: &mut Lc,
    mask_above: &mut Lc,
) -> Put<()>
    requires width { IsWidth W }
    requires room { Room S.meaning s.old 1 1 }
    requires there { i < W / 4 }
    requires made { ArePlacesMade W places.now (S.meaning.wires s.old) }
    ensures emits { Emits S.meaning s.old s.new
        (masked_pair_of (mask_at W places.now part) (digit_at W places.now part) (W / 4) i)
        1 1 result }
{
    let m = [(F::ONE, s.fresh())];
    places.set_mask::<W>(mask, part, i);
    places.set_mask::<W>(mask_above, part, W / 4 + i);
    let weight = root_of_weight::<W>();
    match part {
        Part::Low => two_ands(
            s,
            scratch,
            mask.terms(),
            &places.chosen_bit::<W>(i),
            mask_above.terms(),
            &places.chosen_bit::<W>(W / 4 + i),
            weight,
            &m,
        ),
        Part::High => two_ands(
            s,
            scratch,
            mask.terms(),
            &places.other_bit::<W>(i),
            mask_above.terms(),
            &places.other_bit::<W>(W / 4 + i),
            weight,
            &m,
        ),
    }
}

// The number whose square is the weight of the second bit in a pair, 2^(W / 4).
fn root_of_weight<const W: u32>() -> F
    requires width { IsWidth W }
    ensures { result ≡ 2 ^ (W / 4 / 2) }
{
    F::of(1 << (W / 8))
}

// How many low bits of the distance shift by less than half a word.
pub(crate) fn half_log<const W: u32>() -> u32
    requires width { IsWidth W }
    ensures { result ≡ half_log W }
{
    W / 16 + 2
}

// Assigns the values of the wires that `masked` makes, the half being `x`, and the distance's low
// bits representing `s`.
pub(crate) fn fill_masked<const W: u32, V: Values>(v: &mut V, part: Part, x: u32, s: u32) -> Put<()>
    requires width { IsWidth W }
    requires whole { V.giving.broken v.old ≡ false }
    ensures gives { GivesIn V.giving v.old v.new (masked_values (mask_value W s part) x (W / 4))
        result }
    ensures whole { OnOk result (V.giving.broken v.new ≡ false) }
{
    for i in 0..W / 4 {
        v.give(masked_value::<W>(part, x, s, i))?;
    }
    Ok(())
}

// Bit `i` of a part, plus 2^(W / 4) times bit `W / 4 + i`.
fn masked_value<const W: u32>(part: Part, x: u32, s: u32, i: u32) -> F
    requires width { IsWidth W }
    requires there { i < W / 4 }
    ensures { result ≡ masked_value (mask_value W s part) x (W / 4) i }
{
    let low = masked_bit::<W>(part, x, s, i);
    let high = masked_bit::<W>(part, x, s, W / 4 + i);
    F::of(low + (high << (W / 4)))
}

// Bit `i` of a part.
fn masked_bit<const W: u32>(part: Part, x: u32, s: u32, i: u32) -> u64
    requires width { IsWidth W }
    requires there { i < W / 2 }
    ensures value { result ≡ mask_value W s part i * bit_at x i }
    ensures bit { result < 2 }
{
    let mark = match part {
        Part::Low => i,
        Part::High => W / 2 - 1 - i,
    };
    if mark < s { u64::from((x >> i) % 2) } else { 0 }
}
