//! Words and flags as field elements.
ghost use Rattle.std.specs.Prelude.{◌≡◌, if◌then◌else◌};

use crate::field::F;

impl From<u32> for F {
    ghost from_gives = { λ word number. number ≡ word };

    /// Returns a word, as a number.
    fn from(word: u32) -> F {
        F::of(u64::from(word))
    }
}

impl From<bool> for F {
    ghost from_gives = { λ flag number. number ≡ (if flag then 1 else 0) };

    /// 1 for true, and 0 for false.
    fn from(flag: bool) -> F {
        if flag { F::ONE } else { F::ZERO }
    }
}
