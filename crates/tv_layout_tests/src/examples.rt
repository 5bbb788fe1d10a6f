//! What the definition of a system says of its lines.
ghost use Rattle.std.specs.Prelude.{◌≡◌, ◌-◌, ◌^◌, ℕ, [], ◌∷◌};
ghost use Rattle.tv_stages.specs.declared.nets.Net.TheVariants.{Benes};
ghost use Rattle.tv_layout.specs.Places.{line_count, log_of, runs_of};
ghost use Rattle.tv_layout.specs.Sizes.{size_most};

/// How many lines systems of an image of two words have before padding: three a step, and one for
/// each word of the image and of the tape. With two steps there are 8, with a word on the tape
/// besides 9, and with 65 steps and no tape 197.
pub fn lines_are_counted()
    ensures two_steps { (a b : ℕ) → line_count (runs_of 32 (a ∷ b ∷ []) 0 2) ≡ 8 }
    ensures tape_word { (a b : ℕ) → line_count (runs_of 32 (a ∷ b ∷ []) 1 2) ≡ 9 }
    ensures steps { (a b : ℕ) → line_count (runs_of 32 (a ∷ b ∷ []) 0 65) ≡ 197 }
{}

/// How many lines of padding follow these, up to the next power of 2: none after 8, 7 after 9, up
/// to 16, and 59 after 197, up to 256. It is no test, so it is proved where the crate is proved
/// without its tests too.
#[tactic(auto, unfolding(tv_layout::specs::Places::log_of))]
pub fn lines_are_filled_up()
    ensures none_missing { 2 ^ log_of 8 - 8 ≡ 0 }
    ensures one_more { 2 ^ log_of 9 - 9 ≡ 7 }
    ensures steps { 2 ^ log_of 197 - 197 ≡ 59 }
{}

/// What wires and constraints are at most over Benes' network: for a drawn program of 63 or 1,023
/// instructions, whose tape has two words, in 2^9 or 2^13 lines, and where an image, a tape and the
/// steps are at their limits.
pub fn sizes_are_at_most()
    ensures drawn { size_most Benes 9 2 64 ≡ 277176 }
    ensures more_drawn { size_most Benes 13 2 1024 ≡ 4759736 }
    ensures limits { size_most Benes 20 131072 262144 ≡ 956301416 }
{}
