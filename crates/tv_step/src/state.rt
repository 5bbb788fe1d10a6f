//! The state of the machine.
ghost use Rattle.std.specs.Prelude.{◌<◌, ◌^◌, All};

use crate::pc::Counter;
use crate::registers::Registers;
use tv_mem::Memory;
use tv_tape::Tape;

/// The machine with words of `W` bits, 16 or 32, in a state: a program counter, 16 registers, a
/// flag, memory, and two tapes of words.
#[derive(Drop)]
pub struct Machine<const W: u32> {
    pub(crate) pc: Counter<W>,
    pub(crate) regs: Registers<W>,
    pub(crate) flag: bool,
    pub(crate) memory: Memory,
    pub(crate) primary: Tape,
    pub(crate) aux: Tape,
    ghost primary_words: { All (λ v. v < 2 ^ W) primary },
    ghost aux_words: { All (λ v. v < 2 ^ W) aux },
}
