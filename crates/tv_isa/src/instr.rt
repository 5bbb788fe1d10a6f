//! An instruction's fields, and the two words that hold them.
ghost use Rattle.std.specs.Prelude.{◌≡◌, ◌<◌, ◌^◌, slice_index};
ghost use Rattle.tv_word.specs.Widths.{IsWidth};
ghost use Rattle.tv_isa.specs.Instruction.{IsInstruction, decode, encode};

/// An instruction's fields.
#[derive(Clone, Copy)]
pub struct Instr {
    /// The opcode, below 32.
    pub op: u8,
    /// Whether the operand is `a` itself, and not register `a mod 16`.
    pub imm: bool,
    /// The destination register, below 16.
    pub dest: u8,
    /// The source register, below 16.
    pub source: u8,
    /// The second word.
    pub a: u32,
}

/// Returns the fields of the instruction of two words of `W` bits, 16 or 32. Of the first word,
/// from the highest bit down, five bits are the opcode, one is `imm`, four are `dest` and four
/// `source`; the others are ignored. What stands above `W` bits is ignored too.
pub fn decode<const W: u32>(h: u32, a: u32) -> Instr
    requires width { IsWidth W }
    ensures fields { result ≡ decode W h a }
    ensures range { IsInstruction result }
{
    Instr {
        op: ((h >> (W - 5)) % 32) as u8,
        imm: (h >> (W - 6)) % 2 == 1,
        dest: ((h >> (W - 10)) % 16) as u8,
        source: ((h >> (W - 14)) % 16) as u8,
        a,
    }
}

/// Returns the two words of `W` bits, 16 or 32, of an instruction: the ignored bits are 0, and the
/// second word is `a` as it stands.
pub fn encode<const W: u32>(instr: &Instr) -> [u32; 2]
    requires width { IsWidth W }
    requires instr { IsInstruction instr.now }
    ensures words { result ≡ encode W instr.now }
    ensures first_word { slice_index result 0 < 2 ^ W }
    ensures back { decode W (slice_index result 0) (slice_index result 1) ≡ instr.now }
{
    let Instr {
        op,
        imm,
        dest,
        source,
        a,
    } = *instr;
    let h = (u32::from(op) << (W - 5))
        + (u32::from(imm) << (W - 6))
        + (u32::from(dest) << (W - 10))
        + (u32::from(source) << (W - 14));
    [h, a]
}
