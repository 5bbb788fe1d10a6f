//! The halves of a word.
ghost use Rattle.std.specs.Prelude.{◌≡◌, ◌+◌, ◌^◌, ◌<◌, ◌≤◌, ◌/◌, length};
ghost use Rattle.tv_core.specs.Combinations.{top};
ghost use Rattle.tv_word.specs.Widths.{IsWidth};
ghost use Rattle.tv_limb.specs.Limbs.{low_limb, high_limb, LimbsAreSound};

use tv_bits::Bits;
use tv_core::Lc;

/// Returns the low and the high half of a word of `W` bits, as combinations of `W / 2` terms each.
/// It makes no wire and no constraint.
pub fn limbs<const W: u32>(x: &Bits) -> (Lc, Lc)
    requires width { IsWidth W }
    requires x_word { x.now.n ≡ W }
    requires within { x.now.first + W < 2 ^ 32 }
    ensures limbs { result ≡ (low_limb W x.now, high_limb W x.now) }
    ensures low_below { top result.0 ≤ x.now.first + W / 2 }
    ensures high_below { top result.1 ≤ x.now.first + W }
    ensures low_len { length result.0 ≡ W / 2 }
    ensures high_len { length result.1 ≡ W / 2 }
{
    (x.part(0, W / 2).lc(), x.above(W / 2).lc())
}

/// Where the bits represent a number, the values of the two combinations are its remainder and its
/// quotient by 2^(`W / 2`).
pub fn limbs_are_sound()
    ensures { LimbsAreSound }
{}
