//! The gadgets on a row of twice a word's width, at 32 bits: rows that hold, in vectors from
//! outside, and false ones that fail.
ghost use Rattle.std.specs.Prelude.{◌≤◌};
ghost use Rattle.tv_core.specs.Sinks.{Room};

use crate::assignments::failing;
use crate::gadgets::bits;
use crate::rows::Operation::{
    Bitwise, Difference, Division, Product, RightShift, SignedProduct, Sum,
};
use std::alloc::Global;
use std::test::Fail;
use tv_bits::{SignedWord, double_row, fill_bits, fill_double_row, sign_of};
use tv_core::{F, Lc, ListValues, Put, Scratch, Sink, TestSink, Wire, give_values};
use tv_row_products::{
    below_divisor, fill_row_division, fill_row_product, fill_row_signed_product, row_division,
    row_product, row_signed_product,
};
use tv_rows::{
    bitwise, fill_right_shift, fill_row_difference, right_shift, row_difference, row_sum,
};

// What a row is to hold.
#[derive(Clone, Copy, PartialEq, Eq, Debug)]
enum Operation {
    Sum,
    // whether by sign, and whether strictly
    Difference(bool, bool),
    Product,
    SignedProduct,
    Division,
    Bitwise,
    RightShift,
}

// The wires after wire 0: two words, their highest bits, the gate, whether the order is by sign and
// strict, whether the row is signed, whether the divisor is 0, and 32 bits for each of the words.
const X: SignedWord = SignedWord {
    word: Wire(1),
    sign: Wire(3),
};

const Y: SignedWord = SignedWord {
    word: Wire(2),
    sign: Wire(4),
};

const GATE: Wire = Wire(5);

const BY_SIGN: Wire = Wire(6);

const STRICT: Wire = Wire(7);

const SIGNED: Wire = Wire(8);

const BY_ZERO: Wire = Wire(9);

const INPUTS: u32 = 74;

// A row, and that it holds the operation on the words.
fn put_row<S: Sink>(s: &mut S, operation: Operation) -> Put<()>
    requires room { Room S.meaning s.old 69 71 }
    requires inputs { 74 ≤ S.meaning.wires s.old }
{
    let mut scratch = Scratch::new();
    let row = double_row::<32, S>(s, &mut scratch, &[(F::ONE, SIGNED)])?;
    let gate = Lc::wire(GATE);
    let (x, y) = (X.word, Y.word);
    match operation {
        Sum => row_sum::<32, S>(s, &mut scratch, &gate, x, y, &row),
        Difference(_, _) => {
            let (by_sign, strict) = (Lc::wire(BY_SIGN), [(F::ONE, STRICT)]);
            row_difference::<32, S>(s, &mut scratch, &gate, &by_sign, &strict, &X, &Y, &row)
        }
        Product => row_product::<32, S>(s, &mut scratch, &gate, x, y, &row),
        SignedProduct => row_signed_product::<32, S>(s, &mut scratch, &gate, &X, &Y, &row),
        Division => {
            row_division::<32, S>(s, &mut scratch, &gate, x, y, BY_ZERO, &bits(10, 32), &row)?;
            Ok(())
        }
        Bitwise => bitwise::<32, S>(s, &mut scratch, &gate, &bits(10, 32), &bits(42, 32), &row),
        RightShift => right_shift::<32, S>(s, &mut scratch, &gate, x, y, &row),
    }
}

// An assignment with a row of these halves, by the generators.
fn filled(
    alloc: Global,
    operation: Operation,
    gate: bool,
    (x, y): (u32, u32),
    (low, high): (u32, u32),
) -> Result<Vec<F>, Fail> {
    let mut values = ListValues::new(alloc);
    let signs = [sign_of::<32>(x), sign_of::<32>(y)];
    give_values(&mut values, &[F::ONE, F::from(x), F::from(y)])?;
    give_values(&mut values, &signs)?;
    let (by_sign, strict) = match operation {
        Difference(by_sign, strict) => (by_sign, strict),
        _ => (false, false),
    };
    let signed = operation == SignedProduct;
    give_values(
        &mut values,
        &[gate, by_sign, strict, signed, y == 0].map(F::from),
    )?;
    let divides = gate && operation == Division;
    let below = if divides {
        below_divisor::<32>(x, y)
    } else {
        x
    };
    fill_bits(&mut values, F::from(below), 32)?;
    fill_bits(&mut values, F::from(y), 32)?;
    fill_double_row::<32, ListValues>(&mut values, low, high, signed)?;
    let given = match operation {
        Sum | Bitwise => Ok(()),
        Difference(_, _) => fill_row_difference::<32, ListValues>(&mut values, by_sign, x, y),
        Product => fill_row_product(&mut values, x, y),
        SignedProduct => fill_row_signed_product::<32, ListValues>(&mut values, x, x, y),
        Division => fill_row_division(&mut values, F::from(y == 0), x, high, y),
        RightShift => fill_right_shift::<32, ListValues>(&mut values, low, high, y),
    };
    given?;
    Ok(values.as_slice().to_vec(alloc)?)
}

// How many constraints fail over that assignment.
fn fails(
    alloc: Global,
    operation: Operation,
    gate: bool,
    words: (u32, u32),
    halves: (u32, u32),
) -> Result<u32, Fail> {
    let z = filled(alloc, operation, gate, words, halves)?;
    let mut tests = TestSink::over(&z, INPUTS);
    put_row(&mut tests, operation)?;
    Ok(failing(&tests))
}

// An operation, two words, and the low and the high half of their row.
type Row = (Operation, (u32, u32), (u32, u32));

static ROWS: [Row; 28] = [
    (Sum, (0, 0), (0, 0)),
    (Sum, (0xffff_ffff, 1), (0, 1)),
    (Sum, (0xffff_ffff, 0xffff_ffff), (0xffff_fffe, 1)),
    (Difference(false, false), (0, 1), (0xffff_ffff, 0)),
    (Difference(false, false), (7, 7), (0, 1)),
    (Difference(false, true), (7, 7), (0xffff_ffff, 0)),
    (Difference(false, true), (8, 7), (0, 1)),
    (Difference(true, false), (0x8000_0000, 0x7fff_ffff), (1, 0)),
    (Difference(true, false), (0xffff_ffff, 0xffff_ffff), (0, 1)),
    (
        Difference(true, true),
        (0x7fff_ffff, 0x8000_0000),
        (0xffff_fffe, 1),
    ),
    (Difference(true, true), (0xffff_ffff, 0), (0xffff_fffe, 0)),
    (Product, (0xffff_ffff, 0xffff_ffff), (1, 0xffff_fffe)),
    (Product, (0, 0), (0, 0)),
    (Product, (0x1234_5678, 0x100), (0x3456_7800, 0x12)),
    (SignedProduct, (0x8000_0000, 0x8000_0000), (0, 0x4000_0000)),
    (SignedProduct, (0xffff_ffff, 1), (0xffff_ffff, 0xffff_ffff)),
    // the remainder and the quotient
    (Division, (7, 2), (1, 3)),
    (Division, (7, 0), (0, 0)),
    (Division, (0xffff_ffff, 1), (0, 0xffff_ffff)),
    (Division, (0xffff_ffff, 0xffff_ffff), (0, 1)),
    // the and, and the exclusive or
    (Bitwise, (1, 2), (0, 3)),
    (Bitwise, (0xffff_ffff, 0xffff_ffff), (0xffff_ffff, 0)),
    (Bitwise, (0x8000_0000, 0x7fff_ffff), (0, 0xffff_ffff)),
    (
        Bitwise,
        (0x0f0f_0f0f, 0x00ff_00ff),
        (0x000f_000f, 0x0ff0_0ff0),
    ),
    // by a power, what leaves the word below, and the word
    (RightShift, (0xffff_ffff, 1), (0, 0xffff_ffff)),
    (RightShift, (0x8000_0001, 2), (0x8000_0000, 0x4000_0000)),
    (RightShift, (0x1234_5678, 0x100), (0x7800_0000, 0x12_3456)),
    (RightShift, (0xffff_ffff, 0x8000_0000), (0xffff_fffe, 1)),
];

// Whether a row holds and one with another low half fails. Without the gate it is any other.
fn is_known(alloc: Global, row: &Row) -> Result<bool, Fail> {
    let (operation, words, halves) = *row;
    let altered = (halves.0 ^ 1, halves.1);
    Ok(
        fails(alloc, operation, true, words, halves)? == 0
            && fails(alloc, operation, true, words, altered)? > 0
            && fails(alloc, operation, false, words, (5, 3))? == 0,
    )
}

#[test]
fn known_rows_hold_and_altered_ones_fail(rt: HostRuntime) -> Result<(), Fail> {
    for row in &ROWS {
        assert!(rt; is_known(rt.alloc(), row)?, "{row:?}");
    }
    Ok(())
}

// Rows that hold modulo P, or in unsigned words, or without the tie of a division's bits, or in
// the sums of all digits by powers of 2, or of 3.
static FALSE_ROWS: [Row; 11] = [
    (Sum, (0, 0), (1, 0xffff_ffff)),
    (Product, (0, 0), (1, 0xffff_ffff)),
    (Difference(false, false), (0, 1), (0xffff_ffff, 1)),
    (SignedProduct, (0xffff_ffff, 1), (0xffff_ffff, 0)),
    (Division, (7, 2), (3, 2)),
    (Division, (7, 2), (7, 0)),
    (Division, (7, 0), (0, 5)),
    (Bitwise, (1, 1), (0, 2)),
    (Bitwise, (3, 3), (1, 5)),
    (Bitwise, (0, 0), (0, 0xffff_0000)),
    (Bitwise, (0x1_0000, 0), (1, 0)),
];

#[test]
fn false_rows_fail(rt: HostRuntime) -> Result<(), Fail> {
    for (operation, words, halves) in &FALSE_ROWS {
        let fails = fails(rt.alloc(), *operation, true, *words, *halves)?;
        assert!(rt; fails > 0, "{operation:?}");
    }
    Ok(())
}
