//! Where the steps take words of the auxiliary tape.
ghost use Rattle.std.specs.Prelude.{◌≡◌, ℕ, ◌<◌};
ghost use Rattle.tv_stages.specs.declared.nets.Net.{Net};
ghost use Rattle.tv_block.specs.Block.{block_of};
ghost use Rattle.tv_layout.specs.Layout.{block_at};
ghost use Rattle.tv_layout.specs.Places.{WithinLimits, zero_wires_at, first_at, runs_of};
ghost use Rattle.tv_layout.specs.Systems.{system_of};

use crate::places::step_at;
use tv_block::{Spot, block_spot};
use tv_stages::Net;

/// Returns where a step of the system of an image, a primary tape of `n` words and `t` steps takes
/// a word of the auxiliary tape; the step is below `t`. Both wires are below the system's number of
/// them, over either network. It takes constant time. The image, `t` and the network say which
/// system is meant; the wires depend on none of them.
pub fn spot<const W: u32>(image: &[u32], n: u32, t: u32, step: u32, net: Net) -> Spot
    requires fits { WithinLimits (runs_of W image.now n t) }
    requires within { step < t }
    ensures is { (time : ℕ) → result ≡ (block_at (block_of W) n time (zero_wires_at W n)
        (first_at W n) step).spot }
    ensures taken { (over : Net) → result.taken < (system_of over (runs_of W image.now n t)).wires }
    ensures word { (over : Net) → result.word < (system_of over (runs_of W image.now n t)).wires }
{
    block_spot::<W>(step_at::<W>(n, step))
}
