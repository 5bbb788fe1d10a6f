//! The program counter.
ghost use Rattle.std.specs.Prelude.{◌≡◌, ◌+◌, ◌-◌, ◌/◌, ◌%◌, ◌^◌, ◌<◌};
ghost use Rattle.tv_word.specs.Widths.{IsWidth};

use std::marker::Model;
use tv_word::arithmetic::sum;

/// The program counter: an address of an instruction, so a multiple of its size, `W / 4` bytes.
/// Contracts see the address.
#[derive(Clone, Copy)]
pub struct Counter<const W: u32> {
    address: u32,
}

impl<const W: u32> Model for Counter<W> {
    ghost use Rattle.std.specs.Prelude.{ℕ, ◌≡◌, ◌<◌, ◌/◌, ◌%◌, ◌^◌};

    ghost Value = { ℕ };

    ghost view = { λ counter. counter.address };

    ghost invariant = { λ counter. (counter.address % (W / 4) ≡ 0) × (counter.address < 2 ^ W) };

    ghost inverse = { λ address. record { address = address } };
}

impl<const W: u32> Counter<W> {
    /// Returns the counter of the first instruction.
    pub fn new() -> Counter<W>
        requires width { IsWidth W }
        ensures { result ≡ 0 }
    {
        Counter { address: 0 }
    }

    /// Returns the address.
    pub fn address(self) -> u32
        ensures same { result ≡ self.entry }
        ensures aligned { result % (W / 4) ≡ 0 }
        ensures small { result < 2 ^ W }
    {
        self.address
    }

    /// Returns the counter of the next instruction in memory: the first one after the last.
    pub fn following(self) -> Counter<W>
        requires width { IsWidth W }
        ensures { result ≡ (self.entry + W / 4) % 2 ^ W }
    {
        Counter {
            address: sum::<W>(self.address, W / 4),
        }
    }

    /// Returns the instruction in which an address lies.
    pub fn of(address: u32) -> Counter<W>
        requires width { IsWidth W }
        requires small { address < 2 ^ W }
        ensures { result ≡ address - address % (W / 4) }
    {
        Counter {
            address: address - address % (W / 4),
        }
    }
}
