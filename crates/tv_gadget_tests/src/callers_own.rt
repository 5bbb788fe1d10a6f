//! The gadgets that no crate calls, which are there for callers' own circuits: over the values of
//! their generators their constraints hold, and over altered ones some fail; and the two halves of
//! a word.

use crate::assignments::{add_one, failing};
use crate::gadgets::bits;
use std::alloc::Global;
use std::test::Fail;
use tv_bits::{bit, fill_bit, fill_onehot, fill_select, onehot, select};
use tv_core::{F, Lc, ListValues, Put, TestSink, Wire, give_values, give_words};
use tv_limb::{fill_split, limbs, split};
use tv_regs::{fill_read_reg, fill_write_reg, read_reg, wires_from, write_reg};

#[derive(Clone, Copy, Debug)]
enum Gadget {
    Bit,
    Select,
    OneHot,
    Split,
    ReadRegister,
    WriteRegister,
}

// The wires after wire 0: a bit, two numbers, four bits of 9, a row of 16 wires of which that with
// the number 3 is 1, and 16 registers, which hold 5.
const FLAG: Wire = Wire(1);

const FIRST: Wire = Wire(2);

const SECOND: Wire = Wire(3);

const ROW: Wire = Wire(8);

const REGISTERS: u32 = 24;

const INPUTS: u32 = 40;

// How many constraints of a gadget fail over an assignment.
fn fails(gadget: Gadget, z: &[F]) -> Put<u32> {
    let mut tests = TestSink::over(z, INPUTS);
    let (first, second) = (Lc::wire(FIRST), Lc::wire(SECOND));
    match gadget {
        Gadget::Bit => bit(&mut tests, FLAG)?,
        Gadget::Select => {
            select(&mut tests, FLAG, &first, &second)?;
        }
        Gadget::OneHot => {
            onehot(&mut tests, &bits(4, 4))?;
        }
        Gadget::Split => {
            split::<32, TestSink<'_>>(&mut tests, &first, 33)?;
        }
        Gadget::ReadRegister => {
            read_reg(&mut tests, ROW, &wires_from(Wire(REGISTERS)))?;
        }
        Gadget::WriteRegister => {
            write_reg(&mut tests, ROW, FLAG, &second, &wires_from(Wire(REGISTERS)))?;
        }
    }
    Ok(failing(&tests))
}

// The inputs, and the values that a gadget's generator assigns for them.
fn filled(alloc: Global, gadget: Gadget) -> Result<Vec<F>, Fail> {
    let mut values = ListValues::new(alloc);
    give_values(
        &mut values,
        &[1, 1, 4_294_967_301, 7, 1, 0, 0, 1].map(F::of),
    )?;
    fill_onehot(&mut values, 3, 4)?;
    give_words(&mut values, &[5; 16])?;
    let (first, second) = (F::of(4_294_967_301), F::of(7));
    let given = match gadget {
        Gadget::Bit => fill_bit(&mut values, F::ONE),
        Gadget::Select => fill_select(&mut values, F::ONE, first, second),
        Gadget::OneHot => fill_onehot(&mut values, 9, 4),
        Gadget::Split => fill_split::<32, ListValues>(&mut values, first, 33),
        Gadget::ReadRegister => fill_read_reg(&mut values, 3, &[5; 16]),
        Gadget::WriteRegister => fill_write_reg(&mut values, 3, true, 7, &[5; 16]),
    };
    given?;
    Ok(values.as_slice().to_vec(alloc)?)
}

// A gadget, and the wire whose value is altered.
static ALTERED: [(Gadget, u32); 6] = [
    (Gadget::Bit, 1),
    (Gadget::Select, 40),
    (Gadget::OneHot, 49),
    (Gadget::Split, 40),
    (Gadget::ReadRegister, 40),
    (Gadget::WriteRegister, 44),
];

#[test]
fn generators_meet_their_gadgets(rt: HostRuntime) -> Result<(), Fail> {
    for (gadget, wire) in &ALTERED {
        let mut z = filled(rt.alloc(), *gadget)?;
        let held = fails(*gadget, &z)? == 0;
        add_one(&mut z, *wire);
        assert!(rt; held && fails(*gadget, &z)? > 0, "{gadget:?}");
    }
    Ok(())
}

#[test]
fn a_word_has_two_halves(rt: HostRuntime) {
    // the bits of 0x80000001
    let mut z = [F::ZERO; 33];
    z[1] = F::ONE;
    z[32] = F::ONE;
    let (low, high) = limbs::<32>(&bits(1, 32));
    assert_eq!(rt; low.value_in(&z), F::ONE);
    assert_eq!(rt; high.value_in(&z), F::of(0x8000));
}
