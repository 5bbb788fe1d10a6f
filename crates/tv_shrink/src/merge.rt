//! Adding multiples of normal combinations.

ghost use Rattle.std.specs.Prelude.{◌≡◌, ◌≤◌, ◌*◌, ◌%◌, [], ◌++◌, length, OnOk};
ghost use Rattle.tv_core.specs.Combinations.{scaled};
ghost use Rattle.tv_core.specs.declared.field.TheConstants.{P};
ghost use Rattle.tv_shrink.specs.Merge.{first_wire, head_at, GoesPast};
ghost use Rattle.tv_core.specs.Normal.{normal, with_term, IsNormalFrom};

use std::alloc::AllocError;
use tv_core::{F, Wire};

/// A multiple of a normal combination, from its first terms on.
#[derive(Clone, Copy)]
pub(crate) struct Side<'a> {
    pub(crate) terms: &'a [(F, Wire)],
    pub(crate) factor: F,
}

impl<'a> Side<'a> {
    // The first wire that is ahead; the greatest number where none is.
    #[inline(always)]
    fn first(&self) -> u32
        ensures { result ≡ first_wire self.now.terms.now }
    {
        match self.terms.first() {
            Some((_, wire)) => wire.0,
            None => u32::MAX,
        }
    }

    // Goes past a wire, if it is the first, and answers its coefficient, which is 0 if it isn't.
    #[inline(always)]
    fn take(&mut self, wire: u32) -> F
        ensures coefficient { result ≡ self.old.factor * head_at wire self.old.terms.now % P }
        ensures past { GoesPast wire self.old self.new }
    {
        let [(coefficient, first), rest @ ..] = self.terms else {
            return F::ZERO;
        };
        if first.0 != wire {
            return F::ZERO;
        }
        self.terms = rest;
        self.factor * *coefficient
    }
}

/// Appends a term, unless its coefficient is 0.
#[inline(always)]
#[tactic(auto, unfolding(tv_core::specs::Normal::with_term))]
pub(crate) fn push_term(
    out: &mut Vec<(F, Wire)>,
    coefficient: F,
    wire: Wire,
) -> Result<(), AllocError>
    ensures term { OnOk result (out.new.items ≡ out.old.items ++ with_term coefficient wire []) }
    ensures longer { length out.old.items ≤ length out.new.items }
{
    if coefficient != F::ZERO {
        out.push((coefficient, wire))?;
    }
    Ok(())
}

/// Appends the sum of two sides, made normal, and uses them up. Inlined, it keeps them in
/// registers.
#[inline(always)]
pub(crate) fn merge(
    out: &mut Vec<(F, Wire)>,
    left: &mut Side<'_>,
    right: &mut Side<'_>,
) -> Result<(), AllocError>
    requires left { IsNormalFrom 0 left.old.terms.now }
    requires right { IsNormalFrom 0 right.old.terms.now }
    ensures { OnOk result (out.new.items ≡ out.old.items ++ normal
        (scaled left.old.factor left.old.terms.now
        ++ scaled right.old.factor right.old.terms.now)) }
{
    while !left.terms.is_empty() || !right.terms.is_empty() {
        let wire = left.first().min(right.first());
        push_term(out, left.take(wire) + right.take(wire), Wire(wire))?;
    }
    Ok(())
}
