//! The 29 instructions: a method for each kind, and one that chooses.
ghost use Rattle.std.specs.Prelude.{◌≡◌, ◌<◌, ◌^◌, [], ◌∷◌, None, All, IfSome, ◌/◌};
ghost use Rattle.std.specs.Prelude.{IfOk, OnOk, OnErr, if◌then◌else◌};
ghost use Rattle.tv_word.specs.Widths.{IsWidth};
ghost use Rattle.tv_isa.specs.Instruction.{IsInstruction};
ghost use Rattle.tv_mem.specs.Bytes.{with_byte, with_word, word_in};
ghost use Rattle.tv_step.specs.Machine.{executed, operand, reg};
ghost use Rattle.tv_step.specs.Rows.{row, gives, logic, tests, goes_on, jumps, stores, reads};
ghost use Rattle.tv_step.specs.State.{Next};
ghost use Rattle.tv_step.specs.Views.{state_of, CameTo};

use crate::end::Outcome;
use crate::op::{Op, op_of};
use crate::pc::Counter;
use crate::state::Machine;
use std::alloc::AllocError;
use tv_isa::Instr;
use tv_tape::Tape;
use tv_word::arithmetic::{
    both, carries, difference, differing, either, high_product, high_signed, inverted, is_wide,
    low_product, quotient, remainder, shifted_left, shifted_right, sign_bit, signed_word, sum,
};

impl<const W: u32> Machine<W> {
    // Register `i` gets `value`, and the flag is `flag`.
    fn gives(&mut self, i: u8, value: u32, flag: bool)
        requires width { IsWidth W }
        requires register { i < 16 }
        requires word { value < 2 ^ W }
        ensures { gives W (state_of self.old) i value flag ≡ Next.Gone (state_of self.new) }
    {
        self.regs.set(i, value);
        self.flag = flag;
        self.pc = self.pc.following();
    }

    // Register `i` gets `value`, and the flag is set exactly where that is 0.
    fn logic(&mut self, i: u8, value: u32)
        requires width { IsWidth W }
        requires register { i < 16 }
        requires word { value < 2 ^ W }
        ensures { logic W (state_of self.old) i value ≡ Next.Gone (state_of self.new) }
    {
        self.gives(i, value, value == 0);
    }

    // The flag is `flag`.
    fn tests(&mut self, flag: bool)
        requires width { IsWidth W }
        ensures { tests W (state_of self.old) flag ≡ Next.Gone (state_of self.new) }
    {
        self.flag = flag;
        self.pc = self.pc.following();
    }

    // The instruction in which an address lies comes next where `taken`, else the next one in
    // memory.
    fn jumps(&mut self, to: u32, taken: bool)
        requires width { IsWidth W }
        requires word { to < 2 ^ W }
        ensures { (if taken then jumps W (state_of self.old) to else goes_on W (state_of self.old))
            ≡ Next.Gone (state_of self.new) }
    {
        self.pc = if taken {
            Counter::of(to)
        } else {
            self.pc.following()
        };
    }

    // The byte at an address becomes `value`.
    fn stores_byte(&mut self, at: u32, value: u8) -> Result<(), AllocError>
        requires width { IsWidth W }
        ensures ok { OnOk result (stores W (state_of self.old)
            (with_byte (state_of self.old).memory at value) ≡ Next.Gone (state_of self.new)) }
        ensures err { OnErr result (state_of self.new ≡ state_of self.old) }
    {
        self.memory.store_byte(at, value)?;
        self.pc = self.pc.following();
        Ok(())
    }

    // The word in which an address lies becomes `word`.
    fn stores_word(&mut self, at: u32, word: u32) -> Result<(), AllocError>
        requires width { IsWidth W }
        ensures ok { OnOk result (stores W (state_of self.old)
            (with_word W (state_of self.old).memory (at / (W / 8)) word)
            ≡ Next.Gone (state_of self.new)) }
        ensures err { OnErr result (state_of self.new ≡ state_of self.old) }
    {
        self.memory.store_word::<W>(at, word)?;
        self.pc = self.pc.following();
        Ok(())
    }

    // Register `i` gets the next word of a tape; where there is none, 0, and the flag is set.
    fn reads(&mut self, i: u8, tape: u32)
        requires width { IsWidth W }
        requires register { i < 16 }
        ensures { reads W (state_of self.old) i tape ≡ Next.Gone (state_of self.new) }
    {
        let word = match tape {
            0 => next::<W>(&mut self.primary),
            1 => next::<W>(&mut self.aux),
            _ => None,
        };
        self.gives(i, word.unwrap_or(0), word.is_none());
    }

    // Does what an instruction's row of the table says. Register `i` is its destination, `d` and
    // `s` are the words in its destination and its source, and `a` is its operand.
    fn execute(&mut self, op: Op, i: u8, d: u32, s: u32, a: u32) -> Result<Outcome, AllocError>
        requires width { IsWidth W }
        requires register { i < 16 }
        requires d_word { d < 2 ^ W }
        requires s_word { s < 2 ^ W }
        requires a_word { a < 2 ^ W }
        ensures ok { IfOk result (λ outcome. CameTo (row W op (state_of self.old)
            (record { dest = i; held = d; source = s; operand = a })) outcome
            (state_of self.old) (state_of self.new)) }
        ensures err { OnErr result (state_of self.new ≡ state_of self.old) }
    {
        match op {
            Op::And => self.logic(i, both::<W>(s, a)),
            Op::Or => self.logic(i, either::<W>(s, a)),
            Op::Xor => self.logic(i, differing::<W>(s, a)),
            Op::Not => self.logic(i, inverted::<W>(a)),
            Op::Add => self.gives(i, sum::<W>(s, a), carries::<W>(s, a)),
            Op::Sub => self.gives(i, difference::<W>(s, a), s < a),
            Op::Mull => self.gives(i, low_product::<W>(s, a), is_wide::<W>(s, a)),
            Op::Umulh => self.gives(i, high_product::<W>(s, a), is_wide::<W>(s, a)),
            Op::Smulh => {
                let (high, wide) = high_signed::<W>(s, a);
                self.gives(i, high, wide);
            }
            Op::Udiv => self.gives(i, quotient::<W>(s, a), a == 0),
            Op::Umod => self.gives(i, remainder::<W>(s, a), a == 0),
            Op::Shl => self.gives(i, shifted_left::<W>(s, a), sign_bit::<W>(s)),
            Op::Shr => self.gives(i, shifted_right::<W>(s, a), s % 2 == 1),
            Op::Cmpe => self.tests(s == a),
            Op::Cmpa => self.tests(s > a),
            Op::Cmpae => self.tests(s >= a),
            Op::Cmpg => self.tests(signed_word::<W>(s) > signed_word::<W>(a)),
            Op::Cmpge => self.tests(signed_word::<W>(s) >= signed_word::<W>(a)),
            Op::Mov => self.gives(i, a, self.flag),
            Op::Cmov if self.flag => self.gives(i, a, true),
            Op::Cmov => self.tests(false),
            Op::Jmp => self.jumps(a, true),
            Op::Cjmp => self.jumps(a, self.flag),
            Op::Cnjmp => self.jumps(a, !self.flag),
            Op::StoreB => self.stores_byte(a, (d % 256) as u8)?,
            Op::LoadB => self.gives(i, u32::from(self.byte_at(a)), self.flag),
            Op::StoreW => self.stores_word(a, d)?,
            Op::LoadW => self.gives(i, self.word_at(a), self.flag),
            Op::Read => self.reads(i, a),
            Op::Answer => return Ok(Outcome::Answered { value: a }),
            Op::Unused(op) => return Ok(Outcome::Undefined { op }),
        }
        Ok(Outcome::Gone)
    }

    // The byte at an address.
    fn byte_at(&self, at: u32) -> u8
        ensures { result ≡ (state_of self.now).memory at }
    {
        self.memory.load_byte(at)
    }

    /// Returns the word in which an address lies.
    pub fn word_at(&self, at: u32) -> u32
        requires width { IsWidth W }
        ensures small { result < 2 ^ W }
        ensures word { result ≡ word_in W (state_of self.now).memory (at / (W / 8)) }
    {
        self.memory.load_word::<W>(at)
    }

    // The word in a register.
    fn word_in(&self, i: u8) -> u32
        requires { i < 16 }
        ensures small { result < 2 ^ W }
        ensures word { result ≡ reg (state_of self.now) i }
    {
        self.regs.get(i)
    }

    // An instruction's operand.
    pub(crate) fn operand(&self, instr: &Instr) -> u32
        requires { instr.now.a < 2 ^ W }
        ensures small { result < 2 ^ W }
        ensures word { result ≡ operand (state_of self.now) instr.now }
    {
        if instr.imm {
            instr.a
        } else {
            self.word_in((instr.a % 16) as u8)
        }
    }

    /// Does what an instruction says. After an answer, after an opcode that isn't used, and where
    /// memory is refused, the state is as before.
    pub(crate) fn executes(&mut self, instr: &Instr) -> Result<Outcome, AllocError>
        requires width { IsWidth W }
        requires word { instr.now.a < 2 ^ W }
        requires instr { IsInstruction instr.now }
        ensures ok { IfOk result (λ outcome. CameTo (executed W (state_of self.old) instr.now)
            outcome (state_of self.old) (state_of self.new)) }
        ensures err { OnErr result (state_of self.new ≡ state_of self.old) }
    {
        let d = self.word_in(instr.dest);
        let s = self.word_in(instr.source);
        let a = self.operand(instr);
        self.execute(op_of(instr.op), instr.dest, d, s, a)
    }
}

// The next word of a tape of words.
fn next<const W: u32>(tape: &mut Tape) -> Option<u32>
    requires { All (λ v. v < 2 ^ W) tape.old }
    ensures word { IfSome result (λ word. tape.old ≡ word ∷ tape.new) }
    ensures end { result ≡ None → (tape.old ≡ []) × (tape.new ≡ []) }
    ensures small { IfSome result (λ word. word < 2 ^ W) }
    ensures rest { All (λ v. v < 2 ^ W) tape.new }
{
    tape.next()
}
