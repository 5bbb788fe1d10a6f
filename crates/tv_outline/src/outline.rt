//! Outlines in memory.
ghost use Rattle.std.specs.Prelude.{◌≡◌, ◌↔◌, IsTrue, All};
ghost use Rattle.tv_outline.specs.Expansion.{IsOutline, IsProper, IsShort};

use crate::turn::turn_count;
use tv_core::{F, TERMS};

/// The most loops of a region.
pub const LOOPS: usize = 64;

/// A term of a row. Its wire and its coefficient in a turn are those below, moved and grown by a
/// weighted sum of the turn's values.
#[derive(Clone, Copy)]
pub struct Term {
    /// The coefficient, if all values of a turn are 0.
    pub coefficient: F,
    /// The rate that the coefficient grows by, by its number in the region.
    pub rate: usize,
    /// The wire, if all values of a turn are 0.
    pub wire: u32,
    /// The move of the wire, by its number in the region.
    pub shift: usize,
}

/// A constraint of a template: `a` times `b` is `c`.
#[derive(Drop)]
pub struct Row {
    pub a: Vec<Term>,
    pub b: Vec<Term>,
    pub c: Vec<Term>,
}

/// Nested loops over a template.
///
/// The values of a turn are the loops' digits, the outermost loop's first, and then two words of
/// the image. A rate or a move is a list of weights of these values, of which those past its end
/// are 0. Rates count modulo `P`, moves modulo 2^32.
#[derive(Drop)]
pub struct Region {
    /// How many turns each loop has, the outermost first.
    pub counts: Vec<u32>,
    pub rows: Vec<Row>,
    pub moves: Vec<Vec<u64>>,
    pub rates: Vec<Vec<u64>>,
    /// The pair of image words of the first turn. Each turn has the pair after the one before.
    pub first_pair: u32,
}

/// The outline of a system.
#[derive(Drop)]
pub struct Outline {
    /// How many wires the system has, the constant wire and the public ones among them.
    pub wires: u32,
    pub outputs: u32,
    pub inputs: u32,
    /// The words of the image.
    pub words: Vec<u32>,
    pub regions: Vec<Region>,
}

impl Outline {
    /// Returns whether each region has rows, and turns, in at most `LOOPS` loops and fewer than
    /// 2^32, whether no combination has more than `TERMS` terms, and whether the public wires have
    /// numbers below 2^32.
    pub fn is_proper(&self) -> bool
        ensures { IsTrue result ↔ IsOutline self.now }
    {
        let (outputs, inputs) = (self.outputs, self.inputs);
        let publics = 1 + u64::from(outputs) + u64::from(inputs);
        for region in &self.regions {
            if !region.is_proper() {
                return false;
            }
        }
        publics < 4_294_967_296
    }
}

impl Region {
    // Whether it has rows and turns, within the limits.
    fn is_proper(&self) -> bool
        ensures { IsTrue result ↔ IsProper self.now }
    {
        self.counts.len() <= LOOPS
            && turn_count(&self.counts) > 0
            && !self.rows.is_empty()
            && are_short(&self.rows)
    }
}

// Whether an `Lc` has room for each combination.
fn are_short(rows: &[Row]) -> bool
    ensures { IsTrue result ↔ All IsShort rows.now }
{
    for row in rows {
        if row.a.len() > TERMS || row.b.len() > TERMS || row.c.len() > TERMS {
            return false;
        }
    }
    true
}
