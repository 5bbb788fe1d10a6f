//! What each gadget of 32 bits returns over its generator's values, in vectors from outside, and
//! that other results fail.

use crate::assignments::{add_one, at, failing, set};
use crate::gadgets::Gadget::{
    Add, Compare, Fields, Logic, Product, Quotient, Shift, SignedHigh, Sub,
};
use crate::gadgets::{Gadget, filled, put};
use std::alloc::Global;
use std::test::Fail;
use tv_bits::Bits;
use tv_core::{F, ListSink, Put, TestSink};

// The number that wires represent.
fn number_of(z: &[F], bits: &Bits) -> F {
    let mut sum = F::ZERO;
    let mut power = F::ONE;
    for i in 0..bits.n {
        sum = sum + power * at(z, bits.first.0.saturating_add(i));
        power = power + power;
    }
    sum
}

// How many constraints of a list fail.
fn failing_of(list: &ListSink, z: &[F]) -> u32 {
    let mut failing = 0_u32;
    for i in 0..list.len() {
        let (a, b, c) = list.row(i);
        if a.value_in(z) * b.value_in(z) != c.value_in(z) {
            failing = failing.saturating_add(1);
        }
    }
    failing
}

// How many of a gadget's constraints fail as they are put.
fn failing_put(z: &[F], gadget: Gadget) -> Put<u32> {
    let mut tests = TestSink::over(z, 65);
    put::<32, TestSink<'_>>(&mut tests, gadget)?;
    Ok(failing(&tests))
}

// A gadget's answers, and how many of its constraints fail in a list and as they are put.
fn answers(alloc: Global, z: &[F], gadget: Gadget) -> Put<([Bits; 3], u32, u32)> {
    let mut list = ListSink::new(alloc, 65);
    let made = put::<32, ListSink>(&mut list, gadget)?;
    Ok((made, failing_of(&list, z), failing_put(z, gadget)?))
}

// A gadget, its two words, and what its answers represent.
type Row = (Gadget, u32, u32, [u64; 3]);

static ANSWERS: [Row; 16] = [
    // the sum and the carry
    (Add, 0xffff_ffff, 1, [0, 1, 0]),
    // the difference and the borrow
    (Sub, 0, 1, [0xffff_ffff, 1, 0]),
    // whether they are equal, and whether the first is above, unsigned and signed
    (Compare, 0xffff_ffff, 0, [0, 1, 0]),
    // the and, whether it is 0, and the or
    (Logic, 1, 2, [0, 1, 3]),
    // the first word shifted left, and right
    (Shift, 0x8000_0001, 1, [2, 0x4000_0000, 0]),
    (Shift, 0x8000_0001, 32, [0, 0, 0]),
    (Shift, 0x8000_0001, 0xffff_ffff, [0, 0, 0]),
    // the low and the high word, and whether the high one isn't 0
    (Product, 65_536, 65_536, [0, 1, 1]),
    (Product, 0xffff_ffff, 0xffff_ffff, [1, 0xffff_fffe, 1]),
    // the high word, and whether the product is no signed word
    (SignedHigh, 0x8000_0000, 0x8000_0000, [0x4000_0000, 1, 0]),
    (SignedHigh, 0xffff_ffff, 1, [0xffff_ffff, 0, 0]),
    (SignedHigh, 0x8000_0000, 1, [0xffff_ffff, 0, 0]),
    (SignedHigh, 0x8000_0000, 0xffff_ffff, [0, 1, 0]),
    // the quotient, the remainder, and whether it is by 0
    (Quotient, 7, 0, [0, 0, 1]),
    (Quotient, 7, 2, [3, 1, 0]),
    // the opcode's row, the immediate bit, and the destination's row
    (Fields, 0x9440_0000, 0xfc00_0000, [1 << 18, 1, 1 << 1]),
];

// Whether the answers are known and an altered one fails.
fn is_known(alloc: Global, row: &Row) -> Result<bool, Fail> {
    let (gadget, x, y, numbers) = *row;
    let mut z = filled(alloc, gadget, x, y)?;
    let (made, in_list, as_put) = answers(alloc, &z, gadget)?;
    let [first, second, third] = made;
    let represented = [
        number_of(&z, &first),
        number_of(&z, &second),
        number_of(&z, &third),
    ];
    add_one(&mut z, first.first.0);
    let (_, altered_in_list, altered_as_put) = answers(alloc, &z, gadget)?;
    let holds = in_list == 0 && as_put == 0 && represented == numbers.map(F::of);
    Ok(holds && altered_in_list > 0 && altered_as_put > 0)
}

#[test]
fn known_answers_hold_and_an_altered_one_fails(rt: HostRuntime) -> Result<(), Fail> {
    for row in &ANSWERS {
        assert!(rt; is_known(rt.alloc(), row)?, "{row:?}");
    }
    Ok(())
}

// The words of a product stand at the wires from 65 and from 97 on, its flag at 129, and the flag's
// hint, the inverse of the high word, after it. With the flag that such a high word has, one
// constraint alone fails: the parity's.
#[test]
fn the_product_0_is_not_the_prime(rt: HostRuntime) -> Result<(), Fail> {
    let mut z = filled(rt.alloc(), Product, 0, 0)?;
    set(&mut z, 65, F::ONE);
    for wire in 97..129 {
        set(&mut z, wire, F::ONE);
    }
    let without = failing_put(&z, Product)?;
    set(&mut z, 129, F::ONE);
    set(&mut z, 130, F::of(18_446_744_065_119_617_025));
    assert!(rt; without > 0 && failing_put(&z, Product)? == 1);
    Ok(())
}
