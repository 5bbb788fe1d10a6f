//! Scratch combinations for constraints put in a loop.
ghost use Rattle.std.specs.Prelude.{◌≡◌, []};

use crate::combination::Lc;

/// The combinations of a constraint, overwritten for each constraint of a loop: to allocate one
/// costs more than to put it.
#[derive(Drop)]
pub struct Scratch {
    /// The first factor.
    pub a: Lc,
    /// The second factor.
    pub b: Lc,
    /// The product.
    pub c: Lc,
}

impl Scratch {
    /// None of them has a term.
    pub fn new() -> Scratch
        ensures a { result.a ≡ [] }
        ensures b { result.b ≡ [] }
        ensures c { result.c ≡ [] }
    {
        Scratch {
            a: Lc::empty(),
            b: Lc::empty(),
            c: Lc::empty(),
        }
    }
}
