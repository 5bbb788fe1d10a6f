//! The verdict before any constraint: the number of values, and the public wires.

ghost use Rattle.std.specs.Prelude.{◌≡◌, ◌+◌, ◌≤◌, ◌∷◌, [], length, IfSome};
ghost use Rattle.tv_check.specs.Verdict.{first_difference, judge};

use crate::verdict::Verdict;
use tv_core::{Counts, F};

// The least place where two lists differ; a place in one of them alone differs.
fn first_difference(xs: &[F], ys: &[F]) -> Option<u64>
    ensures place { result ≡ first_difference xs.now ys.now }
    ensures within { IfSome result (λ at. at ≤ length ys.now) }
{
    for (at, x) in xs.iter().enumerate() {
        if at >= ys.len() || ys[at] != *x {
            return Some(at as u64);
        }
    }
    (xs.len() < ys.len()).then_some(xs.len() as u64)
}

// The first wire whose value isn't as the constant 1 and the public numbers say.
fn wrong_public(publics: &[F], values: &[F]) -> Option<u64>
    ensures { result ≡ first_difference (1 ∷ publics.now) values.now }
{
    match values {
        [one, rest @ ..] if *one == F::ONE => Some(first_difference(publics, rest)? + 1),
        _ => Some(0),
    }
}

/// Returns the verdict on a system of these counts, as if it had no constraint.
pub(crate) fn public_verdict(counts: &Counts, values: &[F], publics: &[F]) -> Verdict
    requires { 1 + counts.now.outputs + counts.now.inputs ≤ counts.now.wires }
    ensures { result ≡ judge (record {
      wires = counts.now.wires;
      outputs = counts.now.outputs;
      inputs = counts.now.inputs;
      constraints = [];
    }) values.now publics.now }
{
    let wires = u64::from(counts.wires);
    if values.len() as u64 != wires {
        return Verdict::WireCount {
            has: values.len() as u64,
            wants: wires,
        };
    }
    let public = 1 + counts.outputs as usize + counts.inputs as usize;
    match wrong_public(publics, &values[..public]) {
        Some(at) => Verdict::NoPublic { at },
        None => Verdict::Yes,
    }
}
