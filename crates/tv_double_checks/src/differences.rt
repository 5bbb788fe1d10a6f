//! By how much the first number of an item exceeds one of the own line.
ghost use Rattle.std.specs.Prelude.{◌≡◌, ◌+◌, ◌-◌, ◌^◌, ◌≤◌, ◌<◌, length, max};
ghost use Rattle.tv_core.specs.Combinations.{top};
ghost use Rattle.tv_core.specs.declared.field.TheConstants.{P};
ghost use Rattle.tv_core.specs.Normal.{normal, IsNormal};
ghost use Rattle.tv_double_checks.specs.Differences.{first_less, cells_after, excess};
ghost use Rattle.tv_double_checks.specs.Differences.{cell_difference};
ghost use Rattle.tv_double_checks.specs.Items.{unit};
ghost use Rattle.tv_word.specs.Widths.{IsWidth};

use crate::items::{CellWords, unit};
use tv_bits::Bits;
use tv_core::{F, Lc, Pair, Wire};

// 2^(W + 1), by which a double cell stands above the sum of two words, negated.
pub(crate) fn minus_unit<const W: u32>() -> F
    requires width { IsWidth W }
    ensures { result ≡ P - unit (2 ^ W) }
{
    -unit::<W>()
}

// Writes the item's first number less 2^(W + 1) times the double cell.
fn set_first_less<const W: u32>(lc: &mut Lc, own: &CellWords, first: &[(F, Wire)])
    requires width { IsWidth W }
    requires cell_short { length own.now.cell ≤ 32 }
    requires first_short { length first.now ≤ 32 }
    ensures terms { lc.new ≡ normal (first_less (2 ^ W) own.now first.now) }
    ensures normal { IsNormal lc.new }
    ensures len { length lc.new ≤ 64 }
    ensures top { top lc.new ≤ max (top first.now) (top own.now.cell) }
{
    lc.clear();
    lc.add_terms(first);
    lc.add_scaled(minus_unit::<W>(), own.cell.terms());
}

// Writes the same for the next double cell.
pub(crate) fn set_cells_after<const W: u32>(lc: &mut Lc, own: &CellWords, first: &[(F, Wire)])
    requires width { IsWidth W }
    requires cell_short { length own.now.cell ≤ 32 }
    requires first_short { length first.now ≤ 32 }
    ensures terms { lc.new ≡ cells_after (2 ^ W) own.now first.now }
    ensures len { length lc.new ≤ 65 }
    ensures top { top lc.new ≤ max (max 1 (top first.now)) (top own.now.cell) }
{
    set_first_less::<W>(lc, own, first);
    lc.add(minus_unit::<W>(), Wire(0));
}

// Writes the same less 2^(W + 1) times the reach.
pub(crate) fn set_excess<const W: u32>(lc: &mut Lc, reach: &Bits, own: &CellWords, item: &Pair)
    requires width { IsWidth W }
    requires short { reach.now.n ≤ 30 }
    requires within { reach.now.first + reach.now.n < 2 ^ 32 }
    requires cell_short { length own.now.cell ≤ 32 }
    requires first_short { length item.now.first ≤ 32 }
    ensures terms { lc.new ≡ excess (2 ^ W) reach.now own.now item.now }
    ensures top { top lc.new ≤ max (reach.now.first + reach.now.n)
        (max (max 1 (top item.now.first)) (top own.now.cell)) }
{
    set_cells_after::<W>(lc, own, item.first.terms());
    reach.plus_to(lc, minus_unit::<W>());
}

// Writes the item's first number less 2^(W + 1) times the double cell, and the sum.
pub(crate) fn set_cell_difference<const W: u32>(lc: &mut Lc, own: &CellWords, first: &[(F, Wire)])
    requires width { IsWidth W }
    requires cell_short { length own.now.cell ≤ 32 }
    requires sum_short { length own.now.sum ≤ 32 }
    requires first_short { length first.now ≤ 32 }
    ensures terms { lc.new ≡ cell_difference (2 ^ W) own.now first.now }
    ensures len { length lc.new ≤ 96 }
    ensures top { top lc.new ≤ max (max (top first.now) (top own.now.cell)) (top own.now.sum) }
{
    set_first_less::<W>(lc, own, first);
    lc.add_scaled(-F::ONE, own.sum.terms());
}
