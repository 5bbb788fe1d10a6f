//! How the words of memory and its bytes go together, as laws of the definitions.
ghost use Rattle.tv_mem.specs.Words.{WordsAreSmall, ByteOfWord, WordAfterByte, WordAfterWord};
ghost use Rattle.tv_mem.specs.Words.{OthersAfterByte, OthersAfterWord, BytesAfterByte};
ghost use Rattle.tv_mem.specs.Words.{BytesAfterWord};

/// A word of memory is below 2^W, and each of its bytes is the byte at its address.
pub fn words_are_of_bytes()
    ensures small { WordsAreSmall }
    ensures bytes { ByteOfWord }
{}

/// A byte that is written stands at its place of its word, and no other word changes.
pub fn words_after_a_byte()
    ensures word { WordAfterByte }
    ensures others { OthersAfterByte }
    ensures bytes { BytesAfterByte }
{}

/// A word that is written is in its place, and no other word changes.
pub fn words_after_a_word()
    ensures word { WordAfterWord }
    ensures others { OthersAfterWord }
    ensures bytes { BytesAfterWord }
{}
