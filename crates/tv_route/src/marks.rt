//! Which inputs of a network go through its lower half.
ghost use Rattle.std.specs.Prelude.{◌≡◌, ℕ, ◌*◌, ◌^◌, ◌<◌, ◌≤◌, length};
ghost use Rattle.std.specs.Prelude.{slice_index, IfOk};
ghost use Rattle.tv_route.specs.Permutations.{Permutes};
ghost use Rattle.tv_route.specs.Route.{other, partners, walk, walks, halves};

use std::alloc::{AllocError, Global};

// Of each input whether it goes through the lower half, where that is settled; for 2 `n` inputs.
pub(crate) fn halves(alloc: Global, p: &[u32], n: usize) -> Result<Vec<Option<bool>>, AllocError>
    requires small { n < 2 ^ 32 }
    requires some { 1 ≤ n }
    requires permutes { Permutes (2 * n) p.now }
    ensures marks { IfOk result (λ v. v.items ≡ halves p.now n) }
    ensures long { IfOk result (λ v. length v.items ≡ 2 * n) }
{
    let partner = partners(alloc, p, n)?;
    let mut marks = Vec::from_elem(alloc, None, 2 * n)?;
    settle(&partner, n, p[0] as usize, marks.as_mut_slice());
    Ok(marks)
}

// The other place of the pair 2 j, 2 j + 1.
fn other(x: usize) -> usize
    requires { x < 2 ^ 63 }
    ensures { result ≡ other x }
{
    if x % 2 == 0 { x + 1 } else { x - 1 }
}

// Of each input the one that goes to the other output of the same pair.
fn partners(alloc: Global, p: &[u32], n: usize) -> Result<Vec<u32>, AllocError>
    requires { Permutes (2 * n) p.now }
    ensures { IfOk result (λ v. v.items ≡ partners p.now n) }
{
    let mut found = Vec::from_slice(alloc, p)?;
    for j in 0..n {
        let (a, b) = (p[2 * j], p[2 * j + 1]);
        found[a as usize] = b;
        found[b as usize] = a;
    }
    Ok(found)
}

// Settles all inputs: those of the walk from `first` on, and then those of a walk from each even
// input that is not settled.
fn settle(partner: &[u32], n: usize, first: usize, marks: &mut [Option<bool>])
    requires small { n < 2 ^ 32 }
    requires long { length partner.now ≡ 2 * n }
    requires marks_long { length marks.old ≡ 2 * n }
    requires first_in { first < 2 * n }
    requires within { (x : ℕ) → x < 2 * n → slice_index partner.now x < 2 * n }
    ensures { marks.new ≡ walks partner.now n n (walk partner.now n first first marks.old) }
{
    walk(partner, n, first, marks);
    for j in 0..n {
        if marks[2 * j].is_none() {
            walk(partner, n, 2 * j, marks);
        }
    }
}

// Settles the inputs from `start` on, until they get round.
fn walk(partner: &[u32], n: usize, start: usize, marks: &mut [Option<bool>])
    requires small { n < 2 ^ 32 }
    requires long { length partner.now ≡ 2 * n }
    requires marks_long { length marks.old ≡ 2 * n }
    requires start_in { start < 2 * n }
    requires within { (x : ℕ) → x < 2 * n → slice_index partner.now x < 2 * n }
    ensures { marks.new ≡ walk partner.now n start start marks.old }
{
    let mut x = start;
    for _step in 0..n {
        let y = partner[x] as usize;
        marks[x] = Some(false);
        marks[y] = Some(true);
        x = other(y);
        if x == start {
            return;
        }
    }
}
