//! A combination that takes the place of a wire.

use std::marker::Model;
use tv_core::{F, Wire};

/// A wire, and the normal combination of wires below it that takes its place.
#[derive(Drop)]
pub(crate) struct Substitution<'a> {
    pub(crate) wire: Wire,
    pub(crate) replacement: &'a [(F, Wire)],
}

impl<'a> Model for Substitution<'a> {
    ghost use Rattle.tv_shrink.specs.Substitution.{IsReplacement, Replacement};

    ghost Value = { Replacement };

    ghost view = { λ s. record { wire = s.wire; terms = s.replacement.now } };

    ghost invariant = { λ s. IsReplacement s.wire s.replacement.now };
}
