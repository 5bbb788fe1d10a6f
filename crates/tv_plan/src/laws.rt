//! How long an image file may be, that the text that `disasm` writes is assembled again, and that
//! what files hold never leads to an allocation failure.
ghost use Rattle.std.specs.Prelude.{◌≡◌, ◌≢◌, ℕ, List, Err};
ghost use Rattle.tv_asm.specs.Assembly.{assembled};
ghost use Rattle.tv_asm.specs.declared.fault.AsmFault.TheVariants as asm;
ghost use Rattle.tv_plan.specs.ComesBack.{ImageComesBack};
ghost use Rattle.tv_plan.specs.Programs.{image_bytes_most};
ghost use Rattle.tv_plan.specs.declared.programs.Width.TheVariants.{Bits16, Bits32};
ghost use Rattle.tv_tape.specs.Tape.{tape_of};
ghost use Rattle.tv_tape.specs.declared.items.TapeFault.TheVariants as tape;

/// The most bytes of an image file, for words of 32 bits and of 16.
pub fn image_files_are_limited()
    ensures wide { image_bytes_most Bits32 ≡ 524288 }
    ensures narrow { image_bytes_most Bits16 ≡ 65536 }
{}

/// The program text that `disasm` writes of an image is within the limits of `asm`, which makes
/// that image of it again, byte for byte.
pub fn image_comes_back()
    ensures { ImageComesBack }
{}

/// What is found of a program text and of a tape's text is never an allocation failure: that is of
/// the calls alone. So the definition that turns their faults into refusals never reaches the cases
/// that stand for nothing.
pub fn definitions_want_no_memory()
    ensures texts { (w most : ℕ) (text : List ℕ) → assembled w most text ≢ Err asm.Memory }
    ensures tapes { (below most : ℕ) (text : List ℕ) →
        tape_of text below most ≢ Err tape.Memory }
{}
