//! Places in an outline.
ghost use Rattle.std.specs.Prelude.{◌≡◌, [], ◌∷◌, ◌↔◌, IsFalse, IsTrue, drop};
ghost use Rattle.tv_core.specs.Constraints.{Constraint};
ghost use Rattle.tv_outline.specs.Expansion.{IsOutline};
ghost use Rattle.tv_outline.specs.Places.{IsAt, left_at};

use crate::outline::Outline;
use crate::turn::{set_row, turn_count, values_of};
use tv_core::{F, Lc, Wire};

/// A row in a turn of a region, each by its number. Past the last region it is the end.
#[derive(Clone, Copy)]
pub(crate) struct Place {
    pub(crate) region: usize,
    pub(crate) turn: u32,
    pub(crate) row: usize,
}

// Sets three combinations to those of the constraint at a place. At the end there is none.
pub(crate) fn set_at(outline: &Outline, at: Place, made: &mut (Lc, Lc, Lc)) -> bool
    requires outline { IsOutline outline.now }
    requires at { IsAt outline.now at }
    ensures some { let it : Constraint
        = record { a = made.new.0; b = made.new.1; c = made.new.2 } in
        let left = left_at outline.now at in
        IsTrue result → left ≡ it ∷ drop 1 left }
    ensures none { IsFalse result → left_at outline.now at ≡ [] }
{
    match outline.regions.get(at.region) {
        Some(region) => {
            let values = values_of(&outline.words, region, at.turn);
            set_row(region, &values, &region.rows[at.row], made);
            true
        }
        None => false,
    }
}

// Whether a constraint is the one at a place. What is in `made` is overwritten.
pub(crate) fn is_at(
    outline: &Outline,
    at: Place,
    a: &Lc,
    b: &Lc,
    c: &Lc,
    made: &mut (Lc, Lc, Lc),
) -> bool
    requires outline { IsOutline outline.now }
    requires at { IsAt outline.now at }
    ensures { let it : Constraint = record { a = a.now; b = b.now; c = c.now } in
        let left = left_at outline.now at in
        IsTrue result ↔ (left ≡ it ∷ drop 1 left) }
{
    if !set_at(outline, at, made) {
        return false;
    }
    are_same(made, a, b, c)
}

// Whether three combinations have the same terms as three others.
fn are_same(made: &(Lc, Lc, Lc), a: &Lc, b: &Lc, c: &Lc) -> bool
    ensures { let it : Constraint = record { a = a.now; b = b.now; c = c.now } in
        let other : Constraint = record { a = made.now.0; b = made.now.1; c = made.now.2 } in
        IsTrue result ↔ (other ≡ it) }
{
    is_same(made.0.terms(), a.terms())
        && is_same(made.1.terms(), b.terms())
        && is_same(made.2.terms(), c.terms())
}

// Whether two combinations have the same terms.
fn is_same(x: &[(F, Wire)], y: &[(F, Wire)]) -> bool
    ensures { IsTrue result ↔ (x.now ≡ y.now) }
{
    x == y
}

// The next place.
pub(crate) fn after(outline: &Outline, at: Place) -> Place
    requires outline { IsOutline outline.now }
    requires at { IsAt outline.now at }
    ensures at { IsAt outline.now result }
    ensures left { left_at outline.now result ≡ drop 1 (left_at outline.now at) }
{
    match outline.regions.get(at.region) {
        Some(region) => {
            let last_row = at.row + 1 == region.rows.len();
            if !last_row {
                Place {
                    region: at.region,
                    turn: at.turn,
                    row: at.row + 1,
                }
            } else if at.turn + 1 < turn_count(&region.counts) {
                Place {
                    region: at.region,
                    turn: at.turn + 1,
                    row: 0,
                }
            } else {
                Place {
                    region: at.region + 1,
                    turn: 0,
                    row: 0,
                }
            }
        }
        None => at,
    }
}
