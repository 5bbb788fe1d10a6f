//! The gadgets of a step that decode an instruction, read three registers and write one: each
//! over its generator's values, at each opcode and each pattern of equal numbers, with an altered
//! value that fails.
ghost use Rattle.std.specs.Prelude.{◌<◌};

use crate::assignments::{add_one, at, failing, set};
use crate::gadgets::bits;
use std::alloc::Global;
use std::test::Fail;
use tv_bits::fill_bits;
use tv_core::{F, ListValues, Put, Scratch, TestSink, Values, Wire, give_words};
use tv_decode::{fill_instruction, instruction};
use tv_regs::{
    Names, Triple, Write, fill_triple, fill_update, read_triple, update_register, wires_from,
};

// The words in the registers.
const WORDS: [u32; 16] = [
    0, 1, 22, 333, 4, 55, 666, 7_777, 8, 99, 1_010, 11, 12, 13, 1_414, 15,
];

// ---- an instruction, after wire 0
fn decoded(alloc: Global, head: u32, tail: u32) -> Result<Vec<F>, Fail> {
    let mut values = ListValues::new(alloc);
    values.give(F::ONE)?;
    fill_instruction::<32, ListValues>(&mut values, head, tail)?;
    Ok(values.as_slice().to_vec(alloc)?)
}

fn undecoded(z: &[F]) -> Put<u32> {
    let mut tests = TestSink::over(z, 1);
    instruction::<32, TestSink<'_>>(&mut tests, &mut Scratch::new())?;
    Ok(failing(&tests))
}

// The 29 opcodes, from the machine's table.
static OPCODES: [u32; 29] = [
    0, 1, 2, 3, 4, 5, 6, 7, 8, 9, 10, 11, 12, 13, 14, 15, 16, 17, 18, 19, 20, 21, 22, 26, 27, 28,
    29, 30, 31,
];

// Whether an opcode is decoded to the one 1 of its row, at a wire, and fails without it. The bits
// below the opcode stand at the wires from 1 on, the row at 28, the second word at 57.
fn is_decoded(alloc: Global, opcode: u32, wire: u32) -> Result<bool, Fail> {
    let head = ((opcode % 32) << 27) | 0x0574_0003;
    let mut z = decoded(alloc, head, 0xfedc_ba98)?;
    let holds = undecoded(&z)? == 0;
    let ones = z.iter().skip(28).take(29).filter(|e| **e == F::ONE).count();
    let seen = [at(&z, wire), at(&z, 89), at(&z, 90)];
    add_one(&mut z, wire);
    let is_so = seen == [F::ONE, F::from(head), F::from(0xfedc_ba98_u32)] && ones == 1;
    Ok(is_so && holds && undecoded(&z)? > 0)
}

#[test]
fn each_opcode_has_its_wire(rt: HostRuntime) -> Result<(), Fail> {
    let mut wire = 28_u32;
    for opcode in &OPCODES {
        assert!(rt; is_decoded(rt.alloc(), *opcode, wire)?, "{opcode}");
        wire = wire.saturating_add(1);
    }
    Ok(())
}

#[test]
fn an_unused_opcode_has_no_wire(rt: HostRuntime) -> Result<(), Fail> {
    for opcode in [23_u32, 24, 25] {
        let z = decoded(rt.alloc(), opcode << 27, 0)?;
        assert!(rt; undecoded(&z)? > 0, "{opcode}");
    }
    Ok(())
}

// ---- three registers, whose wires follow wire 0; then a bit, and the bits of three numbers
fn read(alloc: Global, store: bool, dest: u32, source: u32, named: u32) -> Result<Vec<F>, Fail>
    requires dest { dest < 16 }
    requires source { source < 16 }
    requires named { named < 16 }
{
    let mut values = ListValues::new(alloc);
    values.give(F::ONE)?;
    give_words(&mut values, &WORDS)?;
    values.give(F::from(store))?;
    fill_bits(&mut values, F::from(dest), 4)?;
    fill_bits(&mut values, F::from(source), 4)?;
    fill_bits(&mut values, F::from(named), 4)?;
    let other = if store { dest } else { source };
    fill_triple(&mut values, other, named, dest, &WORDS)?;
    Ok(values.as_slice().to_vec(alloc)?)
}

fn unread(z: &[F]) -> Put<(u32, Triple)> {
    let (mut tests, mut scratch) = (TestSink::over(z, 30), Scratch::new());
    let (stores, registers) = ([(F::ONE, Wire(17))], wires_from(Wire(1)));
    let names = Names {
        dest: bits(18, 4),
        source: bits(22, 4),
        named: bits(26, 4),
    };
    let triple = read_triple(&mut tests, &mut scratch, &stores, &names, &registers)?;
    Ok((failing(&tests), triple))
}

// Whether it is a store, the numbers of the destination, the source and the third register, and
// the words that are read: those of the other, the third and the destination.
type Read = (bool, u32, u32, u32, [u32; 3]);

static READS: [Read; 8] = [
    (false, 5, 3, 11, [333, 11, 55]),
    (true, 5, 3, 11, [55, 11, 55]),
    (false, 0, 2, 2, [22, 22, 0]),
    (false, 14, 14, 9, [1_414, 99, 1_414]),
    (false, 15, 7, 15, [7_777, 15, 15]),
    (false, 6, 6, 6, [666, 666, 666]),
    (true, 0, 15, 0, [0, 0, 0]),
    (false, 2, 0, 1, [0, 1, 22]),
];

// Whether the words are read, and each of them fails if it is altered.
fn is_read(alloc: Global, row: &Read) -> Result<bool, Fail> {
    let (store, dest, source, named, words) = *row;
    let mut z = read(alloc, store, dest % 16, source % 16, named % 16)?;
    let (failing, triple) = unread(&z)?;
    let wires = [triple.other_word.0, triple.named_word.0, triple.dest_word.0];
    let seen = wires.map(|wire| at(&z, wire));
    let mut is_so = failing == 0 && seen == words.map(F::from);
    for (wire, word) in wires.iter().zip(words) {
        add_one(&mut z, *wire);
        is_so = is_so && unread(&z)?.0 > 0;
        set(&mut z, *wire, F::from(word));
    }
    Ok(is_so)
}

#[test]
fn three_registers_are_read_whichever_numbers_are_equal(rt: HostRuntime) -> Result<(), Fail> {
    for row in &READS {
        assert!(rt; is_read(rt.alloc(), row)?, "{row:?}");
    }
    Ok(())
}

// ---- a register written: the registers follow wire 0, then the four wires of the write
const WRITE: Write = Write {
    on: Wire(17),
    dest: Wire(18),
    word: Wire(19),
    value: Wire(20),
};

fn written(alloc: Global, on: bool, dest: u32, value: u32) -> Result<Vec<F>, Fail>
    requires dest { dest < 16 }
{
    let mut values = ListValues::new(alloc);
    values.give(F::ONE)?;
    give_words(&mut values, &WORDS)?;
    let inputs = [u32::from(on), dest, WORDS[dest as usize], value];
    give_words(&mut values, &inputs)?;
    fill_update(&mut values, dest, on, value, &WORDS)?;
    Ok(values.as_slice().to_vec(alloc)?)
}

fn unwritten(z: &[F]) -> Put<u32> {
    let (mut tests, registers) = (TestSink::over(z, 21), wires_from(Wire(1)));
    update_register(&mut tests, &mut Scratch::new(), &WRITE, &registers)?;
    Ok(failing(&tests))
}

// Whether a write holds, and leaves a word in its register; and whether another word in register 0
// after it fails.
fn is_written(alloc: Global, on: bool, dest: u32, value: u32, now: u32) -> Result<bool, Fail> {
    let mut z = written(alloc, on, dest % 16, value)?;
    let leaves = at(&z, 21 + dest % 16) == F::from(now) && unwritten(&z)? == 0;
    add_one(&mut z, 21);
    Ok(leaves && unwritten(&z)? > 0)
}

// Whether a word is written, to which register, the word, and the register's word after it.
static WRITES: [(bool, u32, u32, u32); 4] = [
    (true, 0, 7, 7),
    (true, 15, 0, 0),
    (true, 7, 0xffff_ffff, 0xffff_ffff),
    (false, 7, 3, 7_777),
];

#[test]
fn one_register_is_written_and_no_other_may_change(rt: HostRuntime) -> Result<(), Fail> {
    for (on, dest, value, now) in &WRITES {
        assert!(rt; is_written(rt.alloc(), *on, *dest, *value, *now)?, "{dest}");
    }
    Ok(())
}
