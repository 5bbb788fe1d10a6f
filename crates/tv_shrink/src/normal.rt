//! Combinations made normal.

ghost use Rattle.std.specs.Prelude.{◌≡◌, ◌≤◌, ◌++◌, length, OnOk};
ghost use Rattle.std.specs.List.Sorted.{IsNonDecreasingBy};
ghost use Rattle.tv_r1cs_read.specs.Rows.{combination_of};
ghost use Rattle.tv_core.specs.Normal.{normal};

use crate::merge::push_term;
use std::alloc::AllocError;
use tv_core::{F, Wire};

// Appends the combination that terms make whose wires don't fall, made normal.
fn append_sums(out: &mut Vec<(F, Wire)>, terms: &[(u32, F)]) -> Result<(), AllocError>
    requires { IsNonDecreasingBy (λ t. t.0) terms.now }
    ensures out { OnOk result (out.new.items ≡ out.old.items ++ normal (combination_of terms.now)) }
    ensures longer { length out.old.items ≤ length out.new.items }
{
    let mut sum = F::ZERO;
    for at in 0..terms.len() {
        let (wire, coefficient) = terms[at];
        sum = sum + coefficient;
        if at + 1 == terms.len() || terms[at + 1].0 != wire {
            push_term(out, sum, Wire(wire))?;
            sum = F::ZERO;
        }
    }
    Ok(())
}

/// Appends the combination that terms make, made normal; `scratch` is for its use. Terms whose
/// wires fall somewhere cost a sort.
#[inline(always)]
pub(crate) fn append_normal(
    scratch: &mut Vec<(u32, F)>,
    out: &mut Vec<(F, Wire)>,
    terms: &[(u32, F)],
) -> Result<(), AllocError>
    ensures out { OnOk result (out.new.items ≡ out.old.items ++ normal (combination_of terms.now)) }
    ensures longer { length out.old.items ≤ length out.new.items }
{
    if terms.len() == 1 {
        let (wire, coefficient) = terms[0];
        return push_term(out, coefficient, Wire(wire));
    }
    if terms.is_sorted_by(|x, y| x.0 <= y.0) {
        return append_sums(out, terms);
    }
    scratch.clear();
    scratch.extend_from_slice(terms)?;
    scratch.sort_unstable_by_key(|(wire, _)| *wire);
    append_sums(out, scratch)
}
