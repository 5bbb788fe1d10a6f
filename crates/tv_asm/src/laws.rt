//! What holds of every text and its image, by the definitions alone.
ghost use Rattle.tv_asm.specs.Language.{LabelsCountInstructions, TextsMeanTheirLines};
ghost use Rattle.tv_asm.specs.Laws.{ImagesAreShort, ImagesAreWords, TextsOf16AreRefused};

/// A text is its lines. Its image is the words of the lines' instructions, one after another, where
/// no line is at fault. Else the first line at fault is named, with the first of its faults in this
/// order: a byte that is no text, a bad header, a bad label, a label that an earlier line defines,
/// an unknown name, the number of operands, the operands from left to right, and too many words. A
/// label's address is the number of instructions before it, times their bytes.
pub fn texts_mean_their_lines()
    ensures labels { LabelsCountInstructions }
    ensures lines { TextsMeanTheirLines }
{}

/// An image has at most as many words as are allowed.
pub fn images_are_short()
    ensures { ImagesAreShort }
{}

/// The words of an image are numbers of as many bits as the text was assembled for.
pub fn images_are_words()
    ensures { ImagesAreWords }
{}

/// A text for words of 16 bits, assembled for words of 32, is refused by its header.
pub fn texts_of_16_are_refused()
    ensures { TextsOf16AreRefused }
{}
