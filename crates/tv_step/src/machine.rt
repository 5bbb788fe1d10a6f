//! The start, the steps and the runs of the machine.
ghost use Rattle.std.specs.Prelude.{◌≡◌, ◌<◌, ◌≤◌, ◌+◌, ◌*◌, ◌/◌, ◌^◌, ℕ, length, slice_index, All};
ghost use Rattle.std.specs.Prelude.{IfOk, OnOk, OnErr};
ghost use Rattle.tv_word.specs.Widths.{IsWidth};
ghost use Rattle.tv_mem.specs.Bytes.{word_in};
ghost use Rattle.tv_step.specs.Machine.{next, start, end_of, state_after};
ghost use Rattle.tv_step.specs.Views.{state_of, CameTo};

use crate::end::{End, Outcome};
use crate::image::memory_with;
use crate::pc::Counter;
use crate::registers::Registers;
use crate::state::Machine;
use std::alloc::{AllocError, Global};
use tv_isa::decode;
use tv_tape::Tape;
use tv_word::Words;

// The words of a slice.
fn words_of(alloc: Global, words: &[u32]) -> Result<Words, AllocError>
    ensures { IfOk result (λ copied. copied ≡ words.now) }
{
    Ok(Vec::from_slice(alloc, words)?.into())
}

impl<const W: u32> Machine<W> {
    /// Returns the start: all 0, the image in memory from address 0 on, and two whole tapes. Memory
    /// has 2^W bytes, so an image of words of 16 bits has at most 32,768 of them, and one of 32
    /// bits at most 2^30. Of an image's word that is no word of `W` bits, the lowest bits count. It
    /// fails only where memory runs out.
    pub fn start(
        alloc: Global,
        image: &[u32],
        tape: Words,
        aux: Words,
    ) -> Result<Machine<W>, AllocError>
        requires width { IsWidth W }
        requires image { length image.now * (W / 8) ≤ 2 ^ W }
        requires tape { All (λ v. v < 2 ^ W) tape }
        requires aux { All (λ v. v < 2 ^ W) aux }
        ensures { IfOk result (λ machine. state_of machine ≡ start W image.now tape aux) }
    {
        Ok(Machine {
            pc: Counter::new(),
            regs: Registers::new(),
            flag: false,
            memory: memory_with::<W>(alloc, image)?,
            primary: Tape::new(tape),
            aux: Tape::new(aux),
        })
    }

    /// Returns the start on tapes of these words, which it copies.
    pub fn start_on(
        alloc: Global,
        image: &[u32],
        tape: &[u32],
        aux: &[u32],
    ) -> Result<Machine<W>, AllocError>
        requires width { IsWidth W }
        requires image { length image.now * (W / 8) ≤ 2 ^ W }
        requires tape { All (λ v. v < 2 ^ W) tape.now }
        requires aux { All (λ v. v < 2 ^ W) aux.now }
        ensures { IfOk result (λ machine. state_of machine ≡ start W image.now tape.now aux.now) }
    {
        Machine::start(alloc, image, words_of(alloc, tape)?, words_of(alloc, aux)?)
    }

    /// Returns the program counter: a multiple of the instruction's size, `W / 4` bytes.
    pub fn pc(&self) -> u32
        ensures { result ≡ (state_of self.now).pc }
    {
        self.pc.address()
    }

    /// Returns the word in a register, whose number is below 16.
    pub fn reg(&self, i: u32) -> u32
        requires { i < 16 }
        ensures { result ≡ slice_index (state_of self.now).regs i }
    {
        self.regs.get(i as u8)
    }

    /// Returns the flag.
    pub fn flag(&self) -> bool
        ensures { result ≡ (state_of self.now).flag }
    {
        self.flag
    }

    // The two words of the instruction at the program counter.
    pub(crate) fn fetched_words(&self) -> (u32, u32)
        requires width { IsWidth W }
        ensures first { result.0 ≡ word_in W (state_of self.now).memory
            ((state_of self.now).pc / (W / 8)) }
        ensures second { result.1 ≡ word_in W (state_of self.now).memory
            ((state_of self.now).pc / (W / 8) + 1) }
        ensures second_word { result.1 < 2 ^ W }
    {
        self.memory.load_pair::<W>(self.pc.address())
    }

    /// Takes one step. After an answer, after an opcode that isn't used, and where memory is
    /// refused, the state is as before.
    pub fn step(&mut self) -> Result<Outcome, AllocError>
        requires width { IsWidth W }
        ensures ok { IfOk result (λ outcome. CameTo (next W (state_of self.old)) outcome
            (state_of self.old) (state_of self.new)) }
        ensures err { OnErr result (state_of self.new ≡ state_of self.old) }
    {
        let (h, a) = self.fetched_words();
        self.executes(&decode::<W>(h, a))
    }

    /// Takes at most `t` steps, which count from 1, and stops at an answer or an opcode that isn't
    /// used. Where memory is refused, the state is one that the run reaches.
    pub fn run(&mut self, t: u64) -> Result<End, AllocError>
        requires width { IsWidth W }
        ensures end { IfOk result (λ end. end ≡ end_of W t (state_of self.old)) }
        ensures state { OnOk result (state_of self.new ≡ state_after W t (state_of self.old)) }
        ensures err { OnErr result ((n : ℕ) × (n < t)
            × (state_of self.new ≡ state_after W n (state_of self.old))) }
    {
        for taken in 0..t {
            let step = taken + 1;
            match self.step()? {
                Outcome::Gone => {}
                Outcome::Answered { value } => return Ok(End::Answer { value, step }),
                Outcome::Undefined { op } => return Ok(End::Undefined { op, step }),
            }
        }
        Ok(End::Silent { steps: t })
    }
}
