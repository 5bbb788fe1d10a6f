//! What the definitions of the further words of `build` and `disasm` say of a network and a width,
//! and that of `shrink` of its two names. They are no tests, so they are proved where the crate is
//! proved without its tests too.
ghost use Rattle.std.specs.Prelude.{◌≡◌, [], ◌∷◌, codes, Some, None};
ghost use Rattle.tv_stages.specs.declared.nets.Net.TheVariants.{Benes, Waksman};
ghost use Rattle.tv_top.specs.Build.{net_word};
ghost use Rattle.tv_plan.specs.Disasm.{width_word};
ghost use Rattle.tv_plan.specs.Plan.{name_at, refusal_of};
ghost use Rattle.tv_top.specs.Shrink.{shrink_plan};
ghost use Rattle.tv_plan.specs.declared.programs.Width.TheVariants.{Bits16, Bits32};
ghost use Rattle.tv_plan.specs.declared.refusal.Refusal.TheVariants.{SameName};

/// No further word means Benes' network, `waksman` Waksman's, and another word none.
pub fn a_word_names_the_network()
    ensures none { net_word [] ≡ Some Benes }
    ensures waksman { net_word (codes "waksman" ∷ []) ≡ Some Waksman }
    ensures other { net_word (codes "Waksman" ∷ []) ≡ None }
{}

/// No further word means words of 32 bits, `16` words of 16, and another word none.
pub fn a_word_names_the_width()
    ensures none { width_word [] ≡ Some Bits32 }
    ensures sixteen { width_word (codes "16" ∷ []) ≡ Some Bits16 }
    ensures other { width_word (codes "32" ∷ []) ≡ None }
{}

/// Of `shrink`, one name for both files is refused, and two names aren't.
pub fn one_name_is_refused()
    ensures one { let plan = shrink_plan (name_at 1 (codes "a")) (name_at 2 (codes "a")) in
        refusal_of plan.reads plan.writes plan.amounts ≡ Some (SameName 1 2) }
    ensures two { let plan = shrink_plan (name_at 1 (codes "a")) (name_at 2 (codes "b")) in
        refusal_of plan.reads plan.writes plan.amounts ≡ None }
{}
