//! Lines by their indexes: in compact form for the constraints, in numbers for their values.
ghost use Rattle.std.specs.Prelude.{◌≡◌, ◌<◌, List, length};
ghost use Rattle.tv_core.specs.Lines.{Line};
ghost use Rattle.tv_core.specs.declared.lines.LineLc.{LineLc};
ghost use Rattle.tv_lines.specs.Placed.{line_in, number_in};
ghost use Rattle.tv_lines.specs.Compact.{line_lc};
ghost use Rattle.tv_argument.specs.Checks.{Checks};
ghost use Rattle.tv_argument.specs.Memory.{items_of};

use crate::kinds::Kind;
use tv_core::{Line, Pair};
use tv_lines::CompactLine;
use tv_network::Inputs;

/// Lines by their indexes, and how each is checked. Contracts see them as a list and as `Checks`.
pub trait CompactLines {
    ghost lines: { Self → List LineLc };

    ghost checks: { Self → Checks };

    /// Returns line `i`, in compact form.
    fn line(&self, i: u32) -> CompactLine
        requires { i < length (lines self.now) }
        ensures is { line_lc result ≡ line_in (lines self.now) i };

    /// Returns how many lines there are.
    fn count(&self) -> u32
        ensures { result ≡ length (lines self.now) };

    /// Returns how line `i` is checked.
    fn kind(&self, i: u32) -> Kind
        requires { i < length (lines self.now) }
        ensures { result ≡ (checks self.now).kind i };
}

/// The numbers of lines by their indexes, and how each is checked, for the values of the checks.
/// Contracts see them as a list and as `Checks`.
pub trait LineNumbers {
    ghost lines: { Self → List Line };

    ghost checks: { Self → Checks };

    /// Returns line `i`, except for its new word, which may be any.
    fn line(&self, i: u32) -> Line
        requires { i < length (lines self.now) }
        ensures cell { result.cell ≡ (number_in (lines self.now) i).cell }
        ensures time { result.time ≡ (number_in (lines self.now) i).time }
        ensures old { result.old ≡ (number_in (lines self.now) i).old };

    /// Returns how line `i` is checked.
    fn kind(&self, i: u32) -> Kind
        requires { i < length (lines self.now) }
        ensures { result ≡ (checks self.now).kind i };
}

// The lines' items, for a network.
#[derive(Clone, Copy)]
pub(crate) struct LineItems<'a, L> {
    pub(crate) lines: &'a L,
}

impl<'a, L: CompactLines> Inputs for LineItems<'a, L> {
    ghost pair = { λ p i. items_of (L.lines p.lines.now) i };

    ghost count = { λ p. length (L.lines p.lines.now) };

    fn set_item(&self, i: u32, item: &mut Pair) {
        self.lines.line(i).item(item);
    }
}
