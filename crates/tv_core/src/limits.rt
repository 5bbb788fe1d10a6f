//! The limits of the commands, and how the times and cells of memory's lines are numbered.

/// The most steps that a command takes of a machine.
pub const STEPS: u32 = 262_144;

/// The most words of an image.
pub const IMAGE_WORDS: u32 = 131_072;

/// The most words of an image where words have 16 bits: its bytes are then 2^16 at most.
pub const IMAGE_WORDS_16: u32 = 32_768;

/// The most words of a primary tape.
pub const TAPE_WORDS: u32 = 131_072;

/// The most words of an auxiliary tape.
pub const AUX_WORDS: u32 = 262_144;

/// The most numbers of the tape that `check` takes.
pub const CHECK_WORDS: u32 = 262_144;

/// The most bytes of a program's or a tape's text.
pub const TEXT_BYTES: u64 = 4_194_304;

/// The most instructions that a trial draws.
pub const DRAWS: u32 = 8_191;

/// The bits of a line's time.
pub const TIME_BITS: u32 = 20;

/// The bits of a line's cell.
pub const CELL_BITS: u32 = 31;

/// The cell of the primary tape's first word, 2^30; those below are the words of memory.
pub const TAPE_CELLS: u32 = 1_073_741_824;

/// The null cell, 2^30 + 2^29, whose word is 0: that of a line which accesses no word.
pub const NULL_CELL: u32 = 1_610_612_736;
