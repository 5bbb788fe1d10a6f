//! A program and its tapes, drawn from a seed.
ghost use Rattle.std.specs.Prelude.{◌≡◌, ◌++◌, ◌≤◌, ◌<◌, ◌^◌, IfOk, OnOk};
ghost use Rattle.tv_draw.specs.Program.{generator_state, words_drawn};
ghost use Rattle.tv_draw.specs.Program.{image_drawn, tape_drawn, aux_drawn};
ghost use Rattle.tv_draw.specs.Program.{IsDrawn};
ghost use Rattle.tv_isa.specs.Instruction.{encode, IsInstruction};

use crate::instruction::instruction;
use rand_core::SeedableRng;
use rand_core::utils::NextWord;
use rand_xoshiro::SplitMix64;
use std::alloc::{AllocError, Global};
use tv_isa::opcode::ANSWER;
use tv_isa::{Instr, encode};
use tv_word::Words;

// `answer 0`.
const LAST: Instr = Instr {
    op: ANSWER,
    imm: true,
    dest: 0,
    source: 0,
    a: 0,
};

/// A program of words of 32 bits, and its tapes.
#[derive(Drop)]
pub struct Drawn {
    /// The image: two words for each instruction.
    pub image: Words,
    /// The two words of the primary tape.
    pub tape: Words,
    /// The eight words of the auxiliary tape.
    pub aux: Words,
}

/// Draws `k` instructions from a seed, with `answer 0` after them, and both tapes. The words come
/// from the SplitMix64 generator that begins with the seed: one for each instruction, then one for
/// each word of the tapes. A drawn program has no jumps, and its stores go to addresses from 65,536
/// to 131,071, after any program of at most 8,191 instructions: it answers 0 at step `k + 1`.
#[tactic(auto, using(crate::proofs::DrawLaws::drawn_parts))]
pub fn draw(alloc: Global, seed: u64, k: u32) -> Result<Drawn, AllocError>
    requires { k ≤ 8191 }
    ensures image { IfOk result (λ drawn. drawn.image ≡ image_drawn seed k) }
    ensures tape { IfOk result (λ drawn. drawn.tape ≡ tape_drawn seed k) }
    ensures aux { IfOk result (λ drawn. drawn.aux ≡ aux_drawn seed k) }
    ensures run { IfOk result (λ drawn. IsDrawn k drawn.image drawn.tape drawn.aux) }
{
    let mut rng = SplitMix64::seed_from_u64(seed);
    let image = draw_image(alloc, &mut rng, k)?;
    let tape = draw_words(alloc, &mut rng, 2)?;
    let aux = draw_words(alloc, &mut rng, 8)?;
    Ok(Drawn { image, tape, aux })
}

// The words of k instructions, and of `answer 0`.
#[tactic(auto, using(crate::proofs::DrawLaws::drawn_instructions))]
fn draw_image(alloc: Global, rng: &mut SplitMix64, k: u32) -> Result<Words, AllocError>
    requires { rng.old < 2 ^ 64 }
    ensures image { IfOk result (λ words. words ≡ image_drawn rng.old k) }
    ensures state { IfOk result (λ _. rng.new ≡ generator_state rng.old k) }
{
    let mut words = Words::new(alloc);
    for _ in 0..k {
        push_instr(&mut words, &instruction(rng.next_word()))?;
    }
    push_instr(&mut words, &LAST)?;
    Ok(words)
}

// Puts the two words of an instruction at the end.
fn push_instr(words: &mut Words, instr: &Instr) -> Result<(), AllocError>
    requires { IsInstruction instr.now }
    ensures { OnOk result (words.new ≡ words.old ++ encode 32 instr.now) }
{
    let [first, second] = encode::<32>(instr);
    words.push(first)?;
    words.push(second)
}

// The next n words, each modulo 2^32.
#[tactic(auto, using(crate::proofs::DrawLaws::drawn_words))]
fn draw_words(alloc: Global, rng: &mut SplitMix64, n: u32) -> Result<Words, AllocError>
    requires { rng.old < 2 ^ 64 }
    ensures words { IfOk result (λ words. words ≡ words_drawn rng.old 0 n) }
    ensures state { IfOk result (λ _. rng.new ≡ generator_state rng.old n) }
{
    let mut words = Words::new(alloc);
    for _ in 0..n {
        words.push((rng.next_word() % (1 << 32)) as u32)?;
    }
    Ok(words)
}
