//! Constraints of normal combinations.

ghost use Rattle.std.specs.Prelude.{◌≡◌, ◌<◌, ◌-◌, ◌∷◌, ◌++◌, false, length, OnOk, IfOk};
ghost use Rattle.std.specs.Prelude.{IfSome, IsNone, Some, None, if◌then◌else◌};
ghost use Rattle.tv_core.specs.Combinations.{scaled};
ghost use Rattle.tv_core.specs.Inverse.{inverse_of};
ghost use Rattle.tv_core.specs.declared.field.TheConstants.{P};
ghost use Rattle.tv_core.specs.Normal.{normal, IsNormalFrom, IsNormalConstraint};
ghost use Rattle.tv_shrink.specs.Answers.{holds_by_constants};
ghost use Rattle.tv_shrink.specs.Substitution.{constant_in, fits, fits_in, has_wire};
ghost use Rattle.tv_shrink.specs.Substitution.{linear_form, replaced};
ghost use Rattle.tv_shrink.specs.Tidy.{row_has, RowIsNormal};

use crate::merge::{Side, merge};
use crate::substitution::Substitution;
use std::alloc::AllocError;
use std::marker::Model;
use tv_core::{F, TERMS, Wire};

/// A constraint of normal combinations.
#[derive(Drop)]
pub(crate) struct Row<'a> {
    pub(crate) a: &'a [(F, Wire)],
    pub(crate) b: &'a [(F, Wire)],
    pub(crate) c: &'a [(F, Wire)],
}

impl<'a> Model for Row<'a> {
    ghost use Rattle.tv_core.specs.Constraints.{Constraint};

    ghost Value = { Constraint };

    ghost view = { λ r. record { a = r.a.now; b = r.b.now; c = r.c.now } };
}

// The value of a combination that has no wire but the constant one.
fn constant_in(terms: &[(F, Wire)]) -> Option<F>
    requires { IsNormalFrom 0 terms.now }
    ensures { result ≡ constant_in terms.now }
{
    if terms.is_empty() {
        return Some(F::ZERO);
    }
    let (coefficient, wire) = terms[0];
    if terms.len() == 1 && wire.0 == 0 {
        return Some(coefficient);
    }
    None
}

// The terms of a combination before a wire, its coefficient, and the terms after it; `None` where
// the wire doesn't stand in it.
#[inline(always)]
fn split(terms: &[(F, Wire)], wire: Wire) -> Option<(&[(F, Wire)], F, &[(F, Wire)])>
    requires { IsNormalFrom 0 terms.now }
    ensures parts { IfSome result (λ parts. terms.now
        ≡ parts.0.now ++ (parts.1, wire) ∷ parts.2.now) }
    ensures none { IsNone result → has_wire wire terms.now ≡ false }
{
    let at = terms.partition_point(|(_, of)| of.0 < wire.0);
    let (before, others) = terms.split_at(at);
    let [(coefficient, of), after @ ..] = others else {
        return None;
    };
    if of.0 != wire.0 {
        return None;
    }
    Some((before, *coefficient, after))
}

// Whether a wire stands in a combination.
#[inline(always)]
fn has_wire(terms: &[(F, Wire)], wire: Wire) -> bool
    requires { IsNormalFrom 0 terms.now }
    ensures { result ≡ has_wire wire terms.now }
{
    split(terms, wire).is_some()
}

/// Whether a wire stands in a constraint, which may have been dropped.
#[inline(always)]
pub(crate) fn row_has(row: &Option<Row<'_>>, wire: Wire) -> bool
    requires { RowIsNormal row.now }
    ensures { result ≡ row_has wire row.now }
{
    let Some(row) = row else {
        return false;
    };
    has_wire(row.a, wire) || has_wire(row.b, wire) || has_wire(row.c, wire)
}

// Puts a multiple of one combination less another one into `out`.
#[inline(never)]
fn subtract(
    out: &mut Vec<(F, Wire)>,
    factor: F,
    x: &[(F, Wire)],
    y: &[(F, Wire)],
) -> Result<(), AllocError>
    requires x { IsNormalFrom 0 x.now }
    requires y { IsNormalFrom 0 y.now }
    ensures { OnOk result (out.new.items ≡ normal (scaled factor x.now ++ scaled (P - 1) y.now)) }
{
    let mut product = Side { terms: x, factor };
    let mut less = Side {
        terms: y,
        factor: -F::ONE,
    };
    out.clear();
    merge(out, &mut product, &mut less)
}

// Takes a multiple of a combination in its place.
fn scale(terms: &mut [(F, Wire)], factor: F)
    ensures { terms.new ≡ scaled factor terms.old }
{
    for term in terms.iter_mut() {
        term.0 = factor * term.0;
    }
}

/// Makes what is added to a multiple of a wire, where both are 0 together, what the wire is; `own`
/// is the multiple. A constraint that sets a wire leaves -1 of it: that takes no division.
pub(crate) fn solve(terms: &mut [(F, Wire)], own: F)
    requires normal { IsNormalFrom 0 terms.old }
    requires apart { 0 < own }
    ensures is { terms.new ≡ normal (scaled (P - inverse_of own) terms.old) }
    ensures size { length terms.new ≡ length terms.old }
{
    if own != -F::ONE {
        scale(terms, -own.inverse_or_zero());
    }
}

// Appends terms. Most are few: a loop costs less than a copy.
#[inline(always)]
fn append(out: &mut Vec<(F, Wire)>, terms: &[(F, Wire)]) -> Result<(), AllocError>
    ensures { OnOk result (out.new.items ≡ out.old.items ++ terms.now) }
{
    for term in terms {
        out.push(*term)?;
    }
    Ok(())
}

/// Appends a combination after a substitution.
pub(crate) fn append_replaced(
    out: &mut Vec<(F, Wire)>,
    terms: &[(F, Wire)],
    by: &Substitution<'_>,
) -> Result<(), AllocError>
    requires { IsNormalFrom 0 terms.now }
    ensures { OnOk result (out.new.items
        ≡ out.old.items ++ replaced by.now.wire by.now.terms terms.now) }
{
    let Some(parts) = split(terms, by.wire) else {
        return append(out, terms);
    };
    let (before, coefficient, after) = parts;
    let mut before = Side {
        terms: before,
        factor: F::ONE,
    };
    let mut replacement = Side {
        terms: by.replacement,
        factor: coefficient,
    };
    merge(out, &mut before, &mut replacement)?;
    append(out, after)
}

// Whether a combination keeps to its most terms after a substitution; `scratch` is for its use.
// Costs a merge only where it has the wire and both together have more terms.
fn fits(
    scratch: &mut Vec<(F, Wire)>,
    terms: &[(F, Wire)],
    by: &Substitution<'_>,
) -> Result<bool, AllocError>
    requires { IsNormalFrom 0 terms.now }
    ensures { IfOk result (λ answer. answer ≡ fits by.now.wire by.now.terms terms.now) }
{
    if terms.len() + by.replacement.len() <= TERMS || !has_wire(terms, by.wire) {
        return Ok(true);
    }
    scratch.clear();
    append_replaced(scratch, terms, by)?;
    Ok(scratch.len() <= TERMS)
}

impl Row<'_> {
    /// Puts what the constraint says is 0 into `out`, and returns whether it is linear.
    pub(crate) fn linear_form(&self, out: &mut Vec<(F, Wire)>) -> Result<bool, AllocError>
        requires { IsNormalConstraint self.now }
        ensures { IfOk result (λ linear. linear_form self.now
            ≡ (if linear then Some out.new.items else None)) }
    {
        let (a, b, c) = (self.a, self.b, self.c);
        if let Some(factor) = constant_in(a) {
            subtract(out, factor, b, c)?;
            return Ok(true);
        }
        if let Some(factor) = constant_in(b) {
            subtract(out, factor, a, c)?;
            return Ok(true);
        }
        Ok(false)
    }

    /// Whether the constraint has no wire but the constant one, and holds.
    #[inline(always)]
    pub(crate) fn holds_by_constants(&self) -> bool
        requires { IsNormalConstraint self.now }
        ensures { result ≡ holds_by_constants self.now }
    {
        match (
            constant_in(self.a),
            constant_in(self.b),
            constant_in(self.c),
        ) {
            (Some(a), Some(b), Some(c)) => a * b == c,
            _ => false,
        }
    }

    /// Whether each combination keeps to its most terms after a substitution; `scratch` is for its
    /// use.
    pub(crate) fn fits(
        &self,
        scratch: &mut Vec<(F, Wire)>,
        by: &Substitution<'_>,
    ) -> Result<bool, AllocError>
        requires { IsNormalConstraint self.now }
        ensures { IfOk result (λ answer. answer ≡ fits_in by.now.wire by.now.terms self.now) }
    {
        Ok(fits(scratch, self.a, by)? && fits(scratch, self.b, by)? && fits(scratch, self.c, by)?)
    }
}
