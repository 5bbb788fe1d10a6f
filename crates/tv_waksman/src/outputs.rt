//! The outputs of Waksman's network, indexed by position.
ghost use Rattle.std.specs.Prelude.{◌≡◌, ◌<◌};
ghost use Rattle.tv_benes.specs.OutputLists.{AreWires};
ghost use Rattle.tv_benes.specs.Places.{output};

use std::marker::Model;
use tv_benes::Ends;
use tv_core::Pair;

/// The outputs of Waksman's network, indexed by position. Contracts see where they stand, as
/// `ends`, and how many there are, as `count`. It keeps no list.
#[derive(Clone, Copy)]
pub struct Outputs {
    list: tv_benes::Outputs,
}

impl Model for Outputs {
    ghost use Rattle.tv_benes.specs.OutputLists.{OutputList};

    ghost Value = { OutputList };

    ghost view = { λ outputs. outputs.list };

    ghost inverse = { λ list. record { list = list } };
}

impl Outputs {
    /// Returns the first `count` outputs, which stand so.
    pub fn new(ends: Ends, count: u32) -> Outputs
        requires { AreWires ends count }
        ensures ends { result.ends ≡ ends }
        ensures count { result.count ≡ count }
    {
        Outputs {
            list: tv_benes::Outputs::new(ends, count),
        }
    }

    /// Returns output `i`, two wires that follow each other.
    pub fn at(&self, i: u32) -> Pair
        requires { i < self.now.count }
        ensures { result ≡ output self.now.ends i }
    {
        self.list.at(i)
    }
}
