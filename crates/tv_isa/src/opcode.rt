//! The opcodes of the 29 instructions, and their order.
ghost use Rattle.std.specs.Prelude.{◌≡◌, ◌<◌};
ghost use Rattle.tv_isa.specs.Opcodes.{opcodes, opcode_at, place_of};

/// Bitwise and.
pub const AND: u8 = 0;

/// Bitwise or.
pub const OR: u8 = 1;

/// Bitwise exclusive or.
pub const XOR: u8 = 2;

/// Bitwise not.
pub const NOT: u8 = 3;

/// The sum.
pub const ADD: u8 = 4;

/// The difference.
pub const SUB: u8 = 5;

/// The low word of the product.
pub const MULL: u8 = 6;

/// The high word of the product of unsigned words.
pub const UMULH: u8 = 7;

/// The high word of the product of signed words.
pub const SMULH: u8 = 8;

/// The quotient.
pub const UDIV: u8 = 9;

/// The remainder.
pub const UMOD: u8 = 10;

/// Shift to the left.
pub const SHL: u8 = 11;

/// Shift to the right.
pub const SHR: u8 = 12;

/// Whether both are equal.
pub const CMPE: u8 = 13;

/// Whether the source is greater, unsigned.
pub const CMPA: u8 = 14;

/// Whether the source is greater or equal, unsigned.
pub const CMPAE: u8 = 15;

/// Whether the source is greater, signed.
pub const CMPG: u8 = 16;

/// Whether the source is greater or equal, signed.
pub const CMPGE: u8 = 17;

/// Move.
pub const MOV: u8 = 18;

/// Move where the flag is set.
pub const CMOV: u8 = 19;

/// Jump.
pub const JMP: u8 = 20;

/// Jump where the flag is set.
pub const CJMP: u8 = 21;

/// Jump where the flag isn't set.
pub const CNJMP: u8 = 22;

/// Store a byte.
pub const STORE_B: u8 = 26;

/// Load a byte.
pub const LOAD_B: u8 = 27;

/// Store a word.
pub const STORE_W: u8 = 28;

/// Load a word.
pub const LOAD_W: u8 = 29;

/// Take the next word of a tape.
pub const READ: u8 = 30;

/// Answer, and stop.
pub const ANSWER: u8 = 31;

/// The three that no instruction has.
pub const UNUSED: [u8; 3] = [23, 24, 25];

/// The 29 that instructions have, in order.
pub const USED: [u8; 29] = [
    AND, OR, XOR, NOT, ADD, SUB, MULL, UMULH, SMULH, UDIV, UMOD, SHL, SHR, CMPE, CMPA, CMPAE, CMPG,
    CMPGE, MOV, CMOV, JMP, CJMP, CNJMP, STORE_B, LOAD_B, STORE_W, LOAD_W, READ, ANSWER,
];

// How many opcodes aren't used; they stand right before the first of the stores.
const GAP: u8 = UNUSED.len() as u8;

/// Returns the place of a used opcode among the used ones, in rising order.
pub fn place(op: u8) -> u32
    requires { op < 32 }
    ensures place { result ≡ place_of op }
    ensures below { result < opcodes }
{
    u32::from(if op < STORE_B { op } else { op - GAP })
}

/// Returns the used opcode at a place.
pub fn at_place(place: u32) -> u32
    requires { place < opcodes }
    ensures opcode { result ≡ opcode_at place }
    ensures below { result < 32 }
{
    if place < u32::from(STORE_B - GAP) {
        place
    } else {
        place + u32::from(GAP)
    }
}
