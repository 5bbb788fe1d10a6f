//! Program texts, and the images that they have or why they have none.
ghost use Rattle.tv_word.specs.Widths.{IsWidth};

use std::alloc::Global;
use std::test::Fail;
use tv_asm::{AsmFault, AsmWhy, assemble, width};

const MOST: u32 = 16_384;

/// Texts and their images.
static IMAGES: [(&str, &[u32]); 18] = [
    ("", &[]),
    ("; TinyRAM V=2.000 M=vn W=32 K=16\n", &[]),
    ("answer 0\n", &[0xfc00_0000, 0]),
    (
        "\tanswer\t0 ; says \u{7f}\u{e9}\r\n\r\n ; nothing\r\n",
        &[0xfc00_0000, 0],
    ),
    ("answer 7\r", &[0xfc00_0000, 7]),
    ("mov r1, 0xfc000000", &[0x9440_0000, 0xfc00_0000]),
    ("store.w 16, r1", &[0xe440_0000, 16]),
    (".raw 0xB8000000, 0", &[0xb800_0000, 0]),
    (".raw 0x00000001, 16", &[1, 16]),
    ("jmp _e\n_e:", &[0xa400_0000, 8]),
    ("_0: jmp _0", &[0xa400_0000, 0]),
    (
        "_a.B_9: ; here\n answer 1\n _last:answer _a.B_9\ncjmp _last ",
        &[0xfc00_0000, 1, 0xfc00_0000, 0, 0xac00_0000, 8],
    ),
    ("mov r0,0xAbCdEf", &[0x9400_0000, 0x00ab_cdef]),
    ("mov r0 , 4294967295", &[0x9400_0000, u32::MAX]),
    (
        "answer 000000000000000000000000000000000000000000000000000000000000000000000000000000009",
        &[0xfc00_0000, 9],
    ),
    (
        "answer 0x0000000000000000000000000000000009",
        &[0xfc00_0000, 9],
    ),
    ("answer 1\n; TinyRAM W=16", &[0xfc00_0000, 1]),
    (
        "answer 1 ;_a:\n;answer 2\n_a: answer _a",
        &[0xfc00_0000, 1, 0xfc00_0000, 8],
    ),
];

/// Texts that are refused: the first line at fault, and why.
static FAULTS: [(&str, u64, AsmWhy); 43] = [
    ("answer 0 \u{e9}", 1, AsmWhy::NotText),
    ("answer 0\u{7f}", 1, AsmWhy::NotText),
    ("answer 0\r\r\n", 1, AsmWhy::NotText),
    ("answer\r0", 1, AsmWhy::NotText),
    ("jmp _x\n_x: \u{e9}", 2, AsmWhy::NotText),
    ("; TinyRAM V=2.000 M=vn W=16 K=16", 1, AsmWhy::BadHeader),
    ("; TinyRAM K=17\nfoo", 1, AsmWhy::BadHeader),
    ("; TinyRAM W=8", 1, AsmWhy::BadHeader),
    ("; TinyRAM W=16 W=32", 1, AsmWhy::BadHeader),
    ("; TinyRAMW=032", 1, AsmWhy::BadHeader),
    ("; TinyRAM W=32\r\r", 1, AsmWhy::BadHeader),
    ("_", 1, AsmWhy::BadLabel),
    ("_a answer 0", 1, AsmWhy::BadLabel),
    ("_a;:", 1, AsmWhy::BadLabel),
    ("_a-b:", 1, AsmWhy::BadLabel),
    ("_a:\n_a:", 2, AsmWhy::DoubledLabel),
    ("_a: answer 0\n_a: foo", 2, AsmWhy::DoubledLabel),
    ("_a: foo\n_a: bar", 1, AsmWhy::UnknownName),
    ("Add r1, r2, 5", 1, AsmWhy::UnknownName),
    ("_a:_b: answer 0", 1, AsmWhy::UnknownName),
    ("answer,0", 1, AsmWhy::UnknownName),
    ("add r1, r2", 1, AsmWhy::Operands { has: 2, wants: 3 }),
    ("answer", 1, AsmWhy::Operands { has: 0, wants: 1 }),
    ("answer ,", 1, AsmWhy::Operands { has: 2, wants: 1 }),
    (".raw 1", 1, AsmWhy::Operands { has: 1, wants: 2 }),
    ("mov r16, 0", 1, AsmWhy::BadRegister),
    ("mov r01, 0", 1, AsmWhy::BadRegister),
    ("mov R1, 0", 1, AsmWhy::BadRegister),
    ("mov 1, 0", 1, AsmWhy::BadRegister),
    ("add r1,,5", 1, AsmWhy::BadRegister),
    ("answer reg", 1, AsmWhy::BadRegister),
    ("store.b 0, 1", 1, AsmWhy::BadRegister),
    ("store.b x, 1", 1, AsmWhy::BadNumber),
    ("answer -1", 1, AsmWhy::BadNumber),
    ("answer 0x", 1, AsmWhy::BadNumber),
    ("answer 0X1", 1, AsmWhy::BadNumber),
    ("answer 4294967296", 1, AsmWhy::BadNumber),
    ("answer 0x100000000", 1, AsmWhy::BadNumber),
    ("mov r1,", 1, AsmWhy::BadNumber),
    (".raw r1, 0", 1, AsmWhy::BadNumber),
    ("jmp _x\nfoo", 1, AsmWhy::UnknownLabel),
    ("jmp _", 1, AsmWhy::UnknownLabel),
    ("jmp _a:\n_a:", 1, AsmWhy::UnknownLabel),
];

/// Texts for words of 16 bits, and their images.
static IMAGES_16: [(&str, &[u32]); 3] = [
    (
        "; TinyRAM V=2.000 M=vn W=16 K=16\r\nanswer 0\r\n",
        &[0xfc00, 0],
    ),
    ("; TinyRAMW=16\n.raw 0xb800, 65535", &[0xb800, 0xffff]),
    (
        "; TinyRAM W=16 W=16\njmp _e\n_e: answer _e",
        &[0xa400, 4, 0xfc00, 4],
    ),
];

/// Texts, and the width of words that each is written for.
static WIDTHS: [(&str, u32); 6] = [
    ("", 32),
    ("; TinyRAM\tK=16\tW=16\r\nfoo", 16),
    ("; TinyRAM W=32 W=16", 16),
    ("; TinyRAM W=160", 32),
    (" ; TinyRAM W=16", 32),
    ("\n; TinyRAM W=16", 32),
];

// Whether a text is written for words of W bits and has this image.
fn has_image<const W: u32>(
    alloc: Global,
    text: &[u8],
    most: u32,
    words: &[u32],
) -> Result<bool, AsmFault>
    requires { IsWidth W }
{
    if width(text) != W {
        return Ok(false);
    }
    let image = assemble::<W>(alloc, text, most)?;
    Ok(image.as_slice() == words)
}

#[test]
fn texts_have_their_images(rt: HostRuntime) -> Result<(), Fail> {
    for (text, words) in &IMAGES {
        let is_so = has_image::<32>(rt.alloc(), text.as_bytes(), MOST, words)?;
        assert!(rt; is_so, "{text}");
    }
    for (text, words) in &IMAGES_16 {
        let is_so = has_image::<16>(rt.alloc(), text.as_bytes(), MOST, words)?;
        assert!(rt; is_so, "{text}");
    }
    Ok(())
}

// The instructions fill the memory, so the address after them is 0 again.
#[test]
fn a_label_after_all_instructions_is_0(rt: HostRuntime) -> Result<(), Fail> {
    let jumps = "jmp _end\n".repeat(rt.alloc(), 16_384)?;
    let text = format!(in rt.alloc(); "; TinyRAM W=16\n{jumps}_end:")?;
    let words = [0xa400, 0].repeat(rt.alloc(), 16_384)?;
    assert!(rt; has_image::<16>(rt.alloc(), text.as_bytes(), 32_768, &words)?);
    Ok(())
}

#[test]
fn a_header_sets_the_width(rt: HostRuntime) {
    for (text, bits) in &WIDTHS {
        assert!(rt; width(text.as_bytes()) == *bits, "{text}");
    }
}

#[test]
fn the_first_fault_is_reported(rt: HostRuntime) {
    for (text, line, why) in &FAULTS {
        let fault = assemble::<32>(rt.alloc(), text.as_bytes(), MOST).err();
        let (line, why) = (*line, *why);
        assert!(rt; fault == Some(AsmFault::Bad { line, why }), "{text}");
    }
}

#[test]
fn words_past_the_most_are_refused(rt: HostRuntime) {
    let text = b"answer 0\n; nothing\nanswer 1\nfoo";
    let answer = assemble::<32>(rt.alloc(), text, 3);
    assert!(rt; matches!(answer, Err(AsmFault::TooMany { line: 3, most: 3 })));
}
