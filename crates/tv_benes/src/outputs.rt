//! The outputs of a network, indexed by position.
ghost use Rattle.std.specs.Prelude.{◌≡◌, ◌<◌};
ghost use Rattle.tv_benes.specs.OutputLists.{AreWires};
ghost use Rattle.tv_benes.specs.Places.{output};

use crate::places::Ends;
use std::marker::Model;
use tv_core::{Lc, Pair};

/// The outputs of a network, indexed by position. Contracts see where they stand, as `ends`, and
/// how many there are, as `count`. It keeps no list.
#[derive(Clone, Copy)]
pub struct Outputs {
    ends: Ends,
    count: u32,
}

impl Model for Outputs {
    ghost use Rattle.tv_benes.specs.OutputLists.{OutputList, AreWires};

    ghost Value = { OutputList };

    ghost view = { λ outputs. record { ends = outputs.ends; count = outputs.count } };

    ghost invariant = { λ outputs. AreWires outputs.ends outputs.count };

    ghost inverse = { λ outputs. record { ends = outputs.ends; count = outputs.count } };
}

impl Outputs {
    /// Returns the first `count` outputs, which stand so.
    pub fn new(ends: Ends, count: u32) -> Outputs
        requires { AreWires ends count }
        ensures ends { result.ends ≡ ends }
        ensures count { result.count ≡ count }
    {
        Outputs { ends, count }
    }

    /// Returns output `i`, two wires that follow each other.
    pub fn at(&self, i: u32) -> Pair
        requires { i < self.now.count }
        ensures { result ≡ output self.now.ends i }
    {
        let first = self.ends.wire(i);
        Pair {
            first: Lc::wire(first),
            second: Lc::wire(first.offset(1)),
        }
    }
}
