//! The test for permutations.
ghost use Rattle.std.specs.Prelude.{◌↔◌, length, IfOk, IsTrue};
ghost use Rattle.tv_route.specs.Permutations.{Permutes};

use std::alloc::{AllocError, Global};

/// Returns whether `p` is a permutation of the numbers below its length. Takes linear time and a
/// byte for each number, and is refused only where memory runs out.
pub fn is_permutation(alloc: Global, p: &[u32]) -> Result<bool, AllocError>
    ensures { IfOk result (λ is. IsTrue is ↔ Permutes (length p.now) p.now) }
{
    let mut seen = Vec::from_elem(alloc, false, p.len())?;
    for i in 0..p.len() {
        let x = p[i] as usize;
        if x >= p.len() {
            return Ok(false);
        }
        if seen[x] {
            return Ok(false);
        }
        seen[x] = true;
    }
    Ok(true)
}
