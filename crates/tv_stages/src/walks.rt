//! Which outputs get their items through the lower slots of the stages within, at one depth.
ghost use Rattle.std.specs.Prelude.{◌≡◌, ◌+◌, ◌^◌, ◌<◌, ◌≤◌, ◌&&◌, length};
ghost use Rattle.std.specs.Prelude.{None, is_none, replicate};
ghost use Rattle.tv_stages.specs.Stages.{is_low, flip};
ghost use Rattle.tv_stages.specs.Settings.{walk, marks_of, mark, start_at};
ghost use Rattle.tv_stages.specs.Walks.{AreInverse, AreSettled, IsStart};

// 2^`d`, where `d` is below 32.
pub(crate) fn stride_of(d: u32) -> usize
    requires { d < 32 }
    ensures { result ≡ 2 ^ d }
{
    1 << d
}

// Whether bit `d` of a slot is 0.
#[tactic(auto, unfolding(crate::specs::Stages::is_low))]
pub(crate) fn is_low(d: u32, x: usize) -> bool
    requires { d < 32 }
    ensures { result ≡ is_low d x }
{
    x / stride_of(d) % 2 == 0
}

// The slot that differs in bit `d`.
#[tactic(auto, using(crate::proofs::Slots::high_more), unfolding(crate::specs::Stages::flip))]
pub(crate) fn flip(d: u32, x: usize) -> usize
    requires depth { d < 32 }
    requires small { x < 2 ^ 32 }
    ensures { result ≡ flip d x }
{
    if is_low(d, x) {
        x + stride_of(d)
    } else {
        x - stride_of(d)
    }
}

// Marks the outputs from `start` on, from one of a pair to the other, until they get round or to
// an end.
fn walk(q: &[u32], r: &[u32], d: u32, start: usize, marks: &mut [Option<bool>])
    requires depth { d < 32 }
    requires small { length q.now ≤ 2 ^ 31 }
    requires inverse { AreInverse (length q.now) d q.now r.now }
    requires settled { AreSettled (length q.now) d q.now r.now marks.old }
    requires begins { IsStart (length q.now) d start marks.old }
    ensures { marks.new ≡ walk d q.now (length q.now) start marks.old }
{
    let mut i = start;
    while marks[i].is_none() {
        let input = flip(d, q[i] as usize);
        marks[i] = Some(true);
        if input >= q.len() {
            return;
        }
        let j = r[input] as usize;
        marks[j] = Some(false);
        i = flip(d, j);
    }
}

// Slot `n` of the order in which walks begin: those where a lone slot can stand, and then all. So
// the first of a class is its lone one, or its first if the class is even.
#[tactic(auto, unfolding(crate::specs::Settings::start_at))]
fn start_at(slots: usize, d: u32, n: usize) -> usize
    requires depth { d < 32 }
    requires wide { 2 ^ d ≤ slots }
    requires small { slots ≤ 2 ^ 31 }
    requires within { n < 2 ^ d + slots }
    ensures is { result ≡ start_at slots d n }
    ensures few { result < slots }
{
    let stride = stride_of(d);
    if n < stride {
        slots - stride + n
    } else {
        n - stride
    }
}

// Whether a walk begins at a slot.
fn begins(d: u32, marks: &[Option<bool>], i: usize) -> bool
    requires depth { d < 32 }
    requires within { i < length marks.now }
    ensures { result ≡ (is_low d i && is_none (mark marks.now i)) }
{
    is_low(d, i) && marks[i].is_none()
}

// Marks all outputs: by a walk from each lower slot that is not marked, in this order.
pub(crate) fn settle(q: &[u32], r: &[u32], d: u32, marks: &mut [Option<bool>])
    requires depth { d < 32 }
    requires wide { 2 ^ d ≤ length q.now }
    requires small { length q.now ≤ 2 ^ 31 }
    requires inverse { AreInverse (length q.now) d q.now r.now }
    requires free { marks.old ≡ replicate (length q.now) None }
    ensures long { length marks.new ≡ length q.now }
    ensures is { marks.new ≡ marks_of d q.now }
{
    for n in 0..stride_of(d) + q.len() {
        let i = start_at(q.len(), d, n);
        if begins(d, marks, i) {
            walk(q, r, d, i, marks);
        }
    }
}
