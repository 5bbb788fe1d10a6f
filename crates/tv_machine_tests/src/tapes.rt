//! Tapes as text, read and written; lists of words, and words as bytes at both widths, in vectors
//! from outside; and bytes and words in memory.

use std::test::Fail;
use tv_mem::Memory;
use tv_tape::{Tape, TapeFault, read_tape, tape_text};
use tv_word::{Words, word_at, word_bytes, word16_at, word16_bytes};

/// Texts, and their numbers, of at most four and below 100.
static NUMBERS: [(&str, &[u64]); 6] = [
    ("", &[]),
    (" \t\r\n", &[]),
    ("3", &[3]),
    ("\r\n\t 03 4\n\n5", &[3, 4, 5]),
    ("000000000000000000000000000000000099", &[99]),
    ("1 2 3 4", &[1, 2, 3, 4]),
];

/// Texts that are refused.
static FAULTS: [(&str, TapeFault); 10] = [
    ("100", TapeFault::TooBig { at: 0 }),
    ("1 18446744073709551616", TapeFault::TooBig { at: 1 }),
    ("1 x 2", TapeFault::BadItem { at: 1 }),
    ("+1", TapeFault::BadItem { at: 0 }),
    ("0x1", TapeFault::BadItem { at: 0 }),
    ("1_0", TapeFault::BadItem { at: 0 }),
    ("1\u{b}2", TapeFault::BadItem { at: 0 }),
    ("1 2 100 x", TapeFault::TooBig { at: 2 }),
    ("1 2 3 4 x", TapeFault::TooMany { most: 4 }),
    ("1 2 3 x 5", TapeFault::BadItem { at: 3 }),
];

#[test]
fn reads_items_in_order(rt: HostRuntime) -> Result<(), Fail> {
    for (text, numbers) in &NUMBERS {
        let tape = read_tape(rt.alloc(), text.as_bytes(), 100, 4)?;
        assert!(rt; tape.as_slice() == *numbers, "{text}");
    }
    Ok(())
}

#[test]
fn the_first_item_at_fault_is_reported(rt: HostRuntime) {
    for (text, fault) in &FAULTS {
        let found = read_tape(rt.alloc(), text.as_bytes(), 100, 4).err();
        assert!(rt; found == Some(*fault), "{text}");
    }
}

#[test]
fn a_tape_gives_its_words_and_ends(rt: HostRuntime) -> Result<(), Fail> {
    let mut words = Words::new(rt.alloc());
    words.push(7)?;
    words.push(0)?;
    let mut tape = Tape::new(words);
    for expected in [Some(7), Some(0), None, None] {
        assert!(rt; tape.next() == expected);
    }
    Ok(())
}

#[test]
fn words_are_written_a_line_each(rt: HostRuntime) -> Result<(), Fail> {
    let texts: [(&[u32], &str); 3] = [
        (&[], ""),
        (&[5], "5\n"),
        (&[0, 7, 4_294_967_295, 10], "0\n7\n4294967295\n10\n"),
    ];
    for (words, text) in texts {
        let written = tape_text(rt.alloc(), words)?;
        assert!(rt; written.as_slice() == text.as_bytes(), "{text}");
    }
    Ok(())
}

#[test]
fn words_grow_where_memory_is_ample(rt: HostRuntime) -> Result<(), Fail> {
    let mut words = Words::new(rt.alloc());
    words.push(7)?;
    words.push(u32::MAX)?;
    let are_pushed = words.as_slice() == [7, u32::MAX].as_slice();
    let items: Vec<u32> = words.into();
    assert!(rt; are_pushed && Words::from(items).as_slice() == [7, u32::MAX].as_slice());
    Ok(())
}

#[test]
fn words_are_bytes_lowest_first(rt: HostRuntime) -> Result<(), Fail> {
    let written = word_bytes(0x2448_0005) == [0x05, 0x00, 0x48, 0x24]
        && word16_bytes(0x2448) == [0x48, 0x24];
    let read = word_at(&[0xff, 0x05, 0x00, 0x48, 0x24], 1) == 0x2448_0005
        && word16_at(&[0xff, 0x48, 0x24], 1) == 0x2448;
    assert!(rt; written && read);
    Ok(())
}

#[test]
fn a_byte_is_kept_in_its_page_alone(rt: HostRuntime) -> Result<(), Fail> {
    let mut memory = Memory::new(rt.alloc());
    assert!(rt; memory.load_word::<32>(8191) == 0);
    memory.store_byte(8191, 7)?;
    let within = memory.has_page(4096) && memory.has_page(8191);
    assert!(rt; within && !memory.has_page(4095) && !memory.has_page(8192));
    memory.store_byte(8192, 7)?;
    assert!(rt; memory.load_word::<32>(8188) == 0x0700_0000 && memory.load_byte(8190) == 0);
    assert!(rt; memory.load_word::<32>(8192) == 7);
    Ok(())
}

#[test]
fn words_are_aligned_and_bytes_lie_in_them(rt: HostRuntime) -> Result<(), Fail> {
    let mut memory = Memory::new(rt.alloc());
    memory.store_word::<32>(65_538, 0x1122_3344)?;
    memory.store_byte(65_537, 0xab)?;
    assert!(rt; memory.load_word::<32>(65_539) == 0x1122_ab44);
    memory.store_word::<32>(65_540, 5)?;
    assert!(rt; memory.load_pair::<32>(65_543) == (0x1122_ab44, 5));
    assert!(rt; memory.load_pair::<32>(65_544) == (0, 0));
    memory.store_word::<32>(u32::MAX, u32::MAX)?;
    assert!(rt; memory.load_byte(65_536) == 0x44 && memory.load_byte(4_294_967_292) == 255);
    assert!(rt; memory.load_word::<32>(4_294_967_288) == 0);
    Ok(())
}
