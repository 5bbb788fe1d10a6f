//! What the assembler makes of a text that `disassemble` returns, for words of either width.
ghost use Rattle.tv_disasm.specs.Laws.{DisassemblyAssembles, DisassemblyIsShort};
ghost use Rattle.tv_disasm.specs.Laws.{DisassemblyOf32IsShorter, DisassemblyFixesWidth};
ghost use Rattle.tv_disasm.specs.Laws.{WordsSpellImage};

/// The text of an image assembles to the image's words, by the assembler's own definition: for
/// every image of whole instructions, where that many words are allowed.
#[tactic(auto, using(crate::proofs::TextLemmas::text_assembles))]
pub fn disassembly_assembles()
    ensures { DisassemblyAssembles }
{}

/// The text of an image is one for words of its own width: the assembler takes it at that width.
#[tactic(auto, using(crate::proofs::TextLemmas::text_fixes_width))]
pub fn disassembly_fixes_its_width()
    ensures { DisassemblyFixesWidth }
{}

/// The bytes of the image's words are the image. So an image that is disassembled and assembled
/// again is the same, byte for byte.
#[tactic(auto, using(crate::proofs::TextLemmas::words_read_back))]
pub fn words_are_of_the_image()
    ensures { WordsSpellImage }
{}

/// The text of an image is at most six times as long as the image and 20 bytes, and with words of
/// 32 bits at most four times as long: a bound on images bounds their texts.
#[tactic(auto, using(crate::proofs::LengthLemmas::text_lengths))]
pub fn disassembly_is_short()
    ensures both { DisassemblyIsShort }
    ensures of_32 { DisassemblyOf32IsShorter }
{}
