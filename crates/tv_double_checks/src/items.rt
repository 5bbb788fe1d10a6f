//! The words of a double cell and the item of a line, in combinations and in numbers.
ghost use Rattle.std.specs.Prelude.{◌≡◌, ◌+◌, ◌≤◌, ◌<◌, ◌^◌, [], length};
ghost use Rattle.tv_core.specs.Combinations.{constant};
ghost use Rattle.tv_double_checks.specs.Items.{known_words, tape_words, item_of, packed, line_of};
ghost use Rattle.tv_double_checks.specs.Items.{unit, ItemsAreRight};
ghost use Rattle.tv_word.specs.Widths.{IsWidth};

use crate::double_lines::{DoubleLine, WordPair};
use tv_core::{F, Lc, Pair, PairNum, Wire};

/// The words of a double cell, before or after the line at a place, in combinations.
#[derive(Drop)]
pub struct CellWords {
    /// The number of the double cell.
    pub cell: Lc,
    /// The sum of the two words.
    pub sum: Lc,
    /// The second word.
    pub second: Lc,
    /// The place of the line in time order.
    pub place: u32,
}

impl CellWords {
    /// Returns combinations without terms, at place 0.
    pub fn empty() -> CellWords
        ensures cell { result.cell ≡ [] }
        ensures sum { result.sum ≡ [] }
        ensures second { result.second ≡ [] }
        ensures place { result.place ≡ 0 }
    {
        CellWords {
            cell: Lc::empty(),
            sum: Lc::empty(),
            second: Lc::empty(),
            place: 0,
        }
    }

    /// Sets them to two words that are known, of the double cell `cell`.
    pub fn set_known(&mut self, cell: u32, words: &WordPair, place: u32)
        ensures { self.new ≡ known_words cell words.now place }
    {
        set_number(&mut self.cell, F::from(cell));
        set_number(&mut self.sum, F::from(words.first) + F::from(words.second));
        set_number(&mut self.second, F::from(words.second));
        self.place = place;
    }

    /// Sets them to the word of a wire, and 0, of the double cell `cell`.
    pub fn set_tape(&mut self, cell: u32, word: Wire, place: u32)
        ensures { self.new ≡ tape_words cell word place }
    {
        set_number(&mut self.cell, F::from(cell));
        self.sum.set_wire(word);
        self.second.clear();
        self.place = place;
    }

    /// Writes the item of the line that finds these words into `pair`: 2^(`W` + 1) times the double
    /// cell, and the sum; 2^`W` times the place, and the second word. Both are made normal.
    pub fn item<const W: u32>(&self, pair: &mut Pair)
        requires width { IsWidth W }
        requires cell_short { length self.now.cell ≤ 32 }
        requires sum_short { length self.now.sum ≤ 32 }
        requires second_short { length self.now.second ≤ 32 }
        ensures item { pair.new ≡ item_of (2 ^ W) self.now }
        ensures first { length pair.new.first ≤ length self.now.cell + length self.now.sum }
        ensures second { length pair.new.second ≤ length self.now.second + 1 }
    {
        pair.first.clear();
        pair.first.add_scaled(unit::<W>(), self.cell.terms());
        pair.first.add_terms(self.sum.terms());
        pair.second.clear();
        pair.second
            .add(word_count::<W>() * F::from(self.place), Wire(0));
        pair.second.add_terms(self.second.terms());
    }
}

// Sets `lc` to a number, as that multiple of the constant wire.
fn set_number(lc: &mut Lc, number: F)
    ensures { lc.new ≡ constant number }
{
    lc.clear();
    lc.plus(number, Wire(0));
}

// 2^(W + 1), by which a double cell stands above the sum of two words.
pub(crate) fn unit<const W: u32>() -> F
    requires width { IsWidth W }
    ensures { result ≡ unit (2 ^ W) }
{
    F::of(2 << W)
}

// 2^W, by which a place stands above a word.
pub(crate) fn word_count<const W: u32>() -> F
    requires width { IsWidth W }
    ensures { result ≡ 2 ^ W }
{
    F::of(1 << W)
}

/// Returns the numbers of the item of a line at a place: 2^(`W` + 1) times the double cell, and the
/// sum of the old words; 2^`W` times the place, and the second old word.
pub fn pack_item<const W: u32>(line: &DoubleLine, place: u32) -> PairNum
    requires width { IsWidth W }
    requires cell { line.now.cell ≤ 2 ^ 29 + 2 ^ 17 }
    requires placed { place < 2 ^ 20 }
    ensures { result ≡ packed (2 ^ W) (line_of line.now) place }
{
    PairNum {
        first: unit::<W>() * F::from(line.cell)
            + F::from(line.old.first)
            + F::from(line.old.second),
        second: word_count::<W>() * F::from(place) + F::from(line.old.second),
    }
}

/// The values of an item in combinations are the numbers of the item, and the combinations of known
/// words and of a tape word hold these words.
#[tactic(auto, using(crate::proofs::ItemLaws::items_right))]
pub fn items_are_right()
    ensures { ItemsAreRight }
{}
