//! Wires.
ghost use Rattle.std.specs.Prelude.{ℕ};

use std::marker::Model;

/// A wire of a constraint system, by its number. Contracts see it as that number.
#[derive(Clone, Copy, PartialEq, Eq, Debug, Default)]
pub struct Wire(pub u32);

impl Model for Wire {
    ghost Value = { ℕ };

    ghost view = { λ w. w.0 };

    ghost inverse = { λ n. record { 0 = n } };
}
