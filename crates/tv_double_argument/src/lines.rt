//! Double lines by their places: in combinations for the constraints, in numbers for their values.
ghost use Rattle.std.specs.Prelude.{◌≡◌, ◌<◌, ◌^◌};
ghost use Rattle.tv_double_argument.specs.Checks.{Lines, Numbers};
ghost use Rattle.tv_double_argument.specs.Memory.{AreFewTerms, items_of};
ghost use Rattle.tv_double_checks.specs.Items.{line_of};
ghost use Rattle.tv_word.specs.Widths.{IsWidth};

use crate::kinds::Kind;
use tv_core::Pair;
use tv_double_checks::{CellWords, DoubleLine};
use tv_network::Inputs;

/// Double lines by their places, and how each is checked. Contracts see them as `Lines`.
pub trait DoubleLines {
    ghost lines: { Self → Lines };

    /// Returns how many lines there are.
    fn count(&self) -> u32
        ensures { result ≡ (lines self.now).count };

    /// Sets `words` to what line `i` finds in its double cell: at most seven terms each.
    fn set_old(&self, i: u32, words: &mut CellWords)
        requires { i < (lines self.now).count }
        ensures is { words.new ≡ (lines self.now).old i }
        ensures few { AreFewTerms words.new };

    /// Sets `words` to what line `i` leaves in its double cell: at most seven terms each.
    fn set_new(&self, i: u32, words: &mut CellWords)
        requires { i < (lines self.now).count }
        ensures is { words.new ≡ (lines self.now).new i }
        ensures few { AreFewTerms words.new };

    /// Returns how line `i` is checked.
    fn kind(&self, i: u32) -> Kind
        requires { i < (lines self.now).count }
        ensures { result ≡ (lines self.now).kind i };
}

/// Double lines in numbers by their places, for the values of the checks. Contracts see them as
/// `Numbers`.
pub trait DoubleNumbers {
    ghost numbers: { Self → Numbers };

    /// Returns how many lines there are.
    fn count(&self) -> u32
        ensures { result ≡ (numbers self.now).count };

    /// Returns line `i`.
    fn line(&self, i: u32) -> DoubleLine
        requires { i < (numbers self.now).count }
        ensures { line_of result ≡ (numbers self.now).line i };

    /// Returns how line `i` is checked.
    fn kind(&self, i: u32) -> Kind
        requires { i < (numbers self.now).count }
        ensures { result ≡ (numbers self.now).kind i };
}

// The lines' items, for a network.
#[derive(Drop)]
pub(crate) struct LineItems<'a, const W: u32, L> {
    pub(crate) lines: &'a L,
    ghost width: { ∥ IsWidth W ∥₁ },
}

impl<'a, const W: u32, L: DoubleLines> Inputs for LineItems<'a, W, L> {
    ghost pair = { λ p i. items_of (2 ^ W) (L.lines p.lines.now) i };

    ghost count = { λ p. (L.lines p.lines.now).count };

    fn set_item(&self, i: u32, item: &mut Pair) {
        let mut words = CellWords::empty();
        self.lines.set_old(i, &mut words);
        words.item::<W>(item);
    }
}
