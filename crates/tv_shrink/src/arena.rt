//! Constraints whose terms lie one after another in a vector.

ghost use Rattle.std.specs.Prelude.{◌≡◌, ◌+◌, ◌≤◌, ◌<◌, ◌++◌, true, length, None};
ghost use Rattle.std.specs.Prelude.{OnOk, OnErr, IfOk, IfErr};
ghost use Rattle.tv_r1cs_read.specs.Rows.{combination_of, constraint_of};
ghost use Rattle.tv_shrink.specs.Answers.{wide, wide_in, IsTooWide};
ghost use Rattle.tv_shrink.specs.Renumbering.{moved};
ghost use Rattle.tv_core.specs.Normal.{normal, normal_constraint, IsNormalFrom};
ghost use Rattle.tv_core.specs.Normal.{IsNormalConstraint};
ghost use Rattle.tv_shrink.specs.Substitution.{fits, fits_in, replaced, replaced_in};
ghost use Rattle.tv_shrink.specs.Spans.{end_of, laid, row_at, row_terms, span_of, IsFree};

use crate::fault::ShrinkFault;
use crate::normal::append_normal;
use crate::numbers::Numbers;
use crate::row::{Row, append_replaced};
use crate::substitution::Substitution;
use std::alloc::AllocError;
use tv_core::{F, TERMS, Wire};
use tv_r1cs_read::Terms;

/// Where the terms of a constraint lie: those of `a` from `start` on, after them those of `b`, then
/// those of `c`; the fields `a`, `b` and `c` are their numbers.
#[derive(Clone, Copy)]
pub(crate) struct Span {
    pub(crate) start: usize,
    pub(crate) a: u8,
    pub(crate) b: u8,
    pub(crate) c: u8,
}

impl Span {
    /// The constraint whose terms lie there.
    pub(crate) fn row<'a>(&self, terms: &'a [(F, Wire)]) -> Row<'a>
        requires { end_of self.now ≤ length terms.now }
        ensures row { result ≡ row_at terms.now self.now }
        ensures few { (length result.a < 256) × (length result.b < 256) × (length result.c < 256) }
    {
        let start = self.start;
        let b = start + self.a as usize;
        let c = b + self.b as usize;
        let end = c + self.c as usize;
        Row {
            a: &terms[start..b],
            b: &terms[b..c],
            c: &terms[c..end],
        }
    }
}

/// Appends the combination that terms make, made normal, and returns how many terms it has; refused
/// where it has more than 128 then; `scratch` is for its use.
#[inline(always)]
pub(crate) fn append_narrow(
    scratch: &mut Vec<(u32, F)>,
    out: &mut Vec<(F, Wire)>,
    terms: &Terms,
) -> Result<u8, ShrinkFault>
    ensures ok { OnOk result (out.new.items
        ≡ out.old.items ++ normal (combination_of terms.now)) }
    ensures size { IfOk result (λ n. n ≡ length (normal (combination_of terms.now))) }
    ensures short { IfOk result (λ n. n ≤ 128) }
    ensures longer { length out.old.items ≤ length out.new.items }
    ensures narrow { OnOk result (wide (combination_of terms.now) ≡ None) }
    ensures err { IfErr result (λ fault. IsTooWide fault (wide (combination_of terms.now))) }
{
    let start = out.len();
    append_normal(scratch, out, terms.as_slice())?;
    let has = out.len() - start;
    if has > TERMS {
        return Err(ShrinkFault::Combination { has: has as u64 });
    }
    Ok(has as u8)
}

/// Appends a constraint that was read, made normal, and returns where its terms lie; refused where
/// a combination has more than 128 terms then. `scratch` is for its use.
#[inline(always)]
pub(crate) fn append_read(
    scratch: &mut Vec<(u32, F)>,
    out: &mut Vec<(F, Wire)>,
    row: &tv_r1cs_read::Row,
) -> Result<Span, ShrinkFault>
    ensures out { OnOk result (out.new.items
        ≡ out.old.items ++ row_terms (normal_constraint (constraint_of row.now))) }
    ensures made { IfOk result (λ made. made
        ≡ span_of (length out.old.items) (normal_constraint (constraint_of row.now))) }
    ensures longer { length out.old.items ≤ length out.new.items }
    ensures narrow { OnOk result (wide_in (constraint_of row.now) ≡ None) }
    ensures err { IfErr result (λ fault. IsTooWide fault (wide_in (constraint_of row.now))) }
{
    let start = out.len();
    let a = append_narrow(scratch, out, &row.a)?;
    let b = append_narrow(scratch, out, &row.b)?;
    let c = append_narrow(scratch, out, &row.c)?;
    Ok(Span { start, a, b, c })
}

// Appends a combination after a substitution, and returns how many terms it has then.
fn append_part(
    out: &mut Vec<(F, Wire)>,
    terms: &[(F, Wire)],
    by: &Substitution<'_>,
) -> Result<u8, AllocError>
    requires normal { IsNormalFrom 0 terms.now }
    requires few { length terms.now < 256 }
    requires fits { fits by.now.wire by.now.terms terms.now ≡ true }
    ensures out { OnOk result (out.new.items
        ≡ out.old.items ++ replaced by.now.wire by.now.terms terms.now) }
    ensures size { IfOk result (λ size. size
        ≡ length (replaced by.now.wire by.now.terms terms.now)) }
{
    let start = out.len();
    append_replaced(out, terms, by)?;
    Ok((out.len() - start) as u8)
}

/// Puts a constraint after a substitution into `out`, and returns where its terms lie in it.
pub(crate) fn put_replaced(
    out: &mut Vec<(F, Wire)>,
    row: &Row<'_>,
    by: &Substitution<'_>,
) -> Result<Span, AllocError>
    requires normal { IsNormalConstraint row.now }
    requires few { (length row.now.a < 256) × (length row.now.b < 256)
        × (length row.now.c < 256) }
    requires fits { fits_in by.now.wire by.now.terms row.now ≡ true }
    ensures out { OnOk result (out.new.items
        ≡ row_terms (replaced_in by.now.wire by.now.terms row.now)) }
    ensures made { IfOk result (λ made. made
        ≡ span_of 0 (replaced_in by.now.wire by.now.terms row.now)) }
{
    out.clear();
    let a = append_part(out, row.a, by)?;
    let b = append_part(out, row.b, by)?;
    let c = append_part(out, row.c, by)?;
    Ok(Span { start: 0, a, b, c })
}

/// Puts terms over those of a constraint, if they are no more, or else after all others, and
/// returns their place.
pub(crate) fn lay(
    terms: &mut Vec<(F, Wire)>,
    span: &Span,
    new: &[(F, Wire)],
) -> Result<usize, AllocError>
    requires { end_of span.now ≤ length terms.old.items }
    ensures puts { IfOk result (λ start. terms.new.items ≡ laid start new.now terms.old.items) }
    ensures free { IfOk result (λ start. IsFree (length terms.old.items) span.now start
        (length new.now)) }
    ensures err { OnErr result (terms.new.items ≡ terms.old.items) }
{
    let size = span.a as usize + span.b as usize + span.c as usize;
    if new.len() <= size {
        let start = span.start;
        terms[start..start + new.len()].copy_from_slice(new);
        return Ok(start);
    }
    let start = terms.len();
    terms.extend_from_slice(new)?;
    Ok(start)
}

/// Appends the terms of a constraint that lie among others, and returns where they lie then.
pub(crate) fn append_copy(
    out: &mut Vec<(F, Wire)>,
    span: &Span,
    terms: &[(F, Wire)],
) -> Result<Span, AllocError>
    requires { end_of span.now ≤ length terms.now }
    ensures out { OnOk result (out.new.items
        ≡ out.old.items ++ row_terms (row_at terms.now span.now)) }
    ensures made { IfOk result (λ made. made
        ≡ span_of (length out.old.items) (row_at terms.now span.now)) }
{
    let start = out.len();
    let Row { a, b, c } = span.row(terms);
    out.extend_from_slice(a)?;
    out.extend_from_slice(b)?;
    out.extend_from_slice(c)?;
    Ok(Span { start, ..*span })
}

/// Gives each wire its new number.
pub(crate) fn renumber_terms(terms: &mut [(F, Wire)], numbers: &Numbers)
    ensures { terms.new ≡ moved numbers.now terms.old }
{
    for term in terms.iter_mut() {
        term.1 = Wire(numbers.get(term.1));
    }
}
