//! What definitions say of small systems, of small texts and of worked words. These are no tests,
//! so they are proved where the crate is proved without its tests too.
ghost use Rattle.std.specs.Prelude.{◌≡◌, [], ◌∷◌, Ok, true, false};
ghost use Rattle.tv_core.specs.Constraints.{Holds, Sat, Extends};
ghost use Rattle.tv_isa.specs.Instruction.{decode};
ghost use Rattle.tv_machine_tests.specs.Examples.{product, one_product};
ghost use Rattle.tv_tape.specs.Tape.{tape_of};

/// What the definitions say of the system with the one constraint, wire 1 times wire 2 is wire 3,
/// over the numbers 3, 5, 15 and 3, 5, 16, and of public numbers, of which it has none.
pub fn one_product_holds()
    ensures sat { Sat one_product (1 ∷ 3 ∷ 5 ∷ 15 ∷ []) }
    ensures fails { ¬ (Holds product (1 ∷ 3 ∷ 5 ∷ 16 ∷ [])) }
    ensures extends { Extends one_product (1 ∷ 3 ∷ 5 ∷ 15 ∷ []) [] }
    ensures extends_not { ¬ (Extends one_product (1 ∷ 3 ∷ 5 ∷ 15 ∷ []) (3 ∷ [])) }
{}

/// The text `5 12`, with a line feed after it, has the numbers 5 and 12.
#[tactic(auto, unfolding(tv_tape::specs::Tape::tape_of, tv_tape::specs::Tape::numbers_of))]
pub fn a_text_has_two_numbers()
    ensures { tape_of (53 ∷ 32 ∷ 49 ∷ 50 ∷ 10 ∷ []) 256 10 ≡ Ok (5 ∷ 12 ∷ []) }
{}

/// Two words are `add r1, r2, 5`, also with all ignored bits set, and two are `sub r8, r15, r7`.
pub fn two_words_are_add_or_sub()
    ensures add { decode 32 0x24480000 5
        ≡ record { op = 4; imm = true; dest = 1; source = 2; a = 5 } }
    ensures ignored { decode 32 0x244bffff 5
        ≡ record { op = 4; imm = true; dest = 1; source = 2; a = 5 } }
    ensures sub { decode 32 0x2a3c0000 7
        ≡ record { op = 5; imm = false; dest = 8; source = 15; a = 7 } }
{}
