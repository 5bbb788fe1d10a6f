//! Images and their texts, which assemble to them; and the image of a program that is drawn.
ghost use Rattle.tv_word.specs.Widths.{IsWidth};

use std::alloc::Global;
use std::test::Fail;
use tv_asm::{assemble, width};
use tv_disasm::{DisFault, disassemble};
use tv_draw::draw;

/// Lines, and the two words that each is the text of.
static LINES: [(&str, [u32; 2]); 43] = [
    ("and r1, r2, r3\n", [0x0048_0000, 3]),
    ("or r4, r5, 6\n", [0x0d14_0000, 6]),
    ("xor r15, r14, r0\n", [0x13f8_0000, 0]),
    ("not r7, 4294967295\n", [0x1dc0_0000, 0xffff_ffff]),
    ("add r1, r2, 5\n", [0x2448_0000, 5]),
    ("sub r3, r4, r15\n", [0x28d0_0000, 15]),
    ("mull r8, r9, 10\n", [0x3624_0000, 10]),
    ("umulh r10, r11, r12\n", [0x3aac_0000, 12]),
    ("smulh r13, r0, 1\n", [0x4740_0000, 1]),
    ("udiv r2, r2, r2\n", [0x4888_0000, 2]),
    ("umod r6, r14, 3793791033\n", [0x55b8_0000, 0xe220_a839]),
    ("shl r1, r1, 31\n", [0x5c44_0000, 31]),
    ("shr r5, r6, r7\n", [0x6158_0000, 7]),
    ("cmpe r1, r2\n", [0x6804_0000, 2]),
    ("cmpa r3, 4\n", [0x740c_0000, 4]),
    ("cmpae r5, r6\n", [0x7814_0000, 6]),
    ("cmpg r7, 2147483648\n", [0x841c_0000, 0x8000_0000]),
    ("cmpge r9, r10\n", [0x8824_0000, 10]),
    ("mov r1, 4227858432\n", [0x9440_0000, 0xfc00_0000]),
    ("cmov r11, r12\n", [0x9ac0_0000, 12]),
    ("jmp 17\n", [0xa400_0000, 17]),
    ("cjmp r3\n", [0xa800_0000, 3]),
    ("cnjmp 8\n", [0xb400_0000, 8]),
    ("store.b r4, r5\n", [0xd140_0000, 4]),
    ("load.b r6, 65537\n", [0xdd80_0000, 65_537]),
    ("store.w 65536, r3\n", [0xe4c0_0000, 65_536]),
    ("load.w r7, r8\n", [0xe9c0_0000, 8]),
    ("read r9, 1\n", [0xf640_0000, 1]),
    ("answer 0\n", [0xfc00_0000, 0]),
    ("and r0, r0, r0\n", [0x0000_0000, 0]),
    (".raw 0xb8000000, 0\n", [0xb800_0000, 0]),
    (".raw 0xc0000000, 4294967295\n", [0xc000_0000, 0xffff_ffff]),
    (".raw 0xcfffffff, 15\n", [0xcfff_ffff, 15]),
    (".raw 0x00000001, 16\n", [0x0000_0001, 16]),
    (".raw 0x00020000, 0\n", [0x0002_0000, 0]),
    (".raw 0x00000000, 16\n", [0x0000_0000, 16]),
    ("and r0, r0, r15\n", [0x0000_0000, 15]),
    (".raw 0x94040000, 7\n", [0x9404_0000, 7]),
    (".raw 0x6c440000, 2\n", [0x6c44_0000, 2]),
    (".raw 0xa4400000, 8\n", [0xa440_0000, 8]),
    (".raw 0xfc3c0000, 0\n", [0xfc3c_0000, 0]),
    (".raw 0xe4c40000, 65536\n", [0xe4c4_0000, 65_536]),
    (".raw 0xabcdef01, 2\n", [0xabcd_ef01, 2]),
];

/// The same for words of 16 bits.
static LINES_16: [(&str, [u32; 2]); 12] = [
    ("add r1, r2, 5\n", [0x2448, 5]),
    ("answer 0\n", [0xfc00, 0]),
    ("answer 65535\n", [0xfc00, 0xffff]),
    ("and r0, r0, r0\n", [0x0000, 0]),
    ("store.w 256, r3\n", [0xe4c0, 256]),
    ("umulh r15, r15, r15\n", [0x3bfc, 15]),
    (".raw 0xb800, 0\n", [0xb800, 0]),
    (".raw 0x0001, 16\n", [0x0001, 16]),
    (".raw 0x0002, 0\n", [0x0002, 0]),
    (".raw 0x0000, 16\n", [0x0000, 16]),
    (".raw 0x9444, 7\n", [0x9444, 7]),
    (".raw 0xabcf, 65535\n", [0xabcf, 0xffff]),
];

// Whether the image of two words of W bits has a text of a header and a line, which is assembled to
// these words.
fn has_text<const W: u32>(
    alloc: Global,
    header: &str,
    line: &str,
    words: &[u32; 2],
) -> Result<bool, Fail>
    requires { IsWidth W }
{
    let mut image = Vec::new(alloc);
    for word in words {
        image.extend_from_slice(&word.to_le_bytes()[..(W / 8) as usize])?;
    }
    let text = disassemble::<W>(alloc, &image)?;
    if width(&text) != W || text.strip_prefix(header.as_bytes()) != Some(line.as_bytes()) {
        return Ok(false);
    }
    Ok(assemble::<W>(alloc, &text, 2)?.as_slice() == words.as_slice())
}

#[test]
fn two_words_have_their_line_and_it_assembles_to_them(rt: HostRuntime) -> Result<(), Fail> {
    for (line, words) in &LINES {
        assert!(rt; has_text::<32>(rt.alloc(), "", line, words)?, "{line}");
    }
    let header = "; TinyRAM W=16 K=16\n";
    for (line, words) in &LINES_16 {
        assert!(rt; has_text::<16>(rt.alloc(), header, line, words)?, "{line}");
    }
    Ok(())
}

#[test]
fn bytes_that_are_no_instructions_are_refused(rt: HostRuntime) {
    let wide = disassemble::<32>(rt.alloc(), &[0; 12]);
    let narrow = disassemble::<16>(rt.alloc(), &[0; 6]);
    assert!(rt; matches!(wide, Err(DisFault::Ragged { len: 12 })));
    assert!(rt; matches!(narrow, Err(DisFault::Ragged { len: 6 })));
}

// SplitMix64 returns e220a8397b1dcdaf first for the seed 0: `umod r6, r14, 3793791033`.
#[test]
fn the_first_instruction_of_seed_0_is_a_remainder(rt: HostRuntime) -> Result<(), Fail> {
    let drawn = draw(rt.alloc(), 0, 1)?;
    let image = [0x55b8_0000, 0xe220_a839, 0xfc00_0000, 0];
    assert!(rt;
        drawn.image.as_slice() == image.as_slice()
            && drawn.tape.as_slice() == [0xa1b9_65f4, 0x8009_454f].as_slice()
            && drawn.aux.as_slice().len() == 8
    );
    Ok(())
}
