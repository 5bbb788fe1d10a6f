//! Inverses in the field, with values computed elsewhere; and one product, wire 1 times wire 2 is
//! wire 3, over numbers and into a list.

use std::test::Fail;
use tv_core::{F, Lc, ListSink, ListValues, P, Put, Sink, TestSink, Values, Wire};

// How many products a sink has tested, how many of them hold, the first that fails, and the sum of
// the products, where wire 3 has this number.
fn tested(product: u64) -> Put<(u32, u32, Option<u32>, F)> {
    let z = [F::ONE, F::of(3), F::of(5), F::of(product)];
    let mut sink = TestSink::over(&z, 4);
    sink.put(&Lc::wire(Wire(1)), &Lc::wire(Wire(2)), &Lc::wire(Wire(3)))?;
    Ok((sink.tested(), sink.held(), sink.first_failed(), sink.sum()))
}

#[test]
fn a_test_sink_finds_products_that_fail(rt: HostRuntime) -> Result<(), Fail> {
    for (product, held, first_failed) in [(15, 1, None), (16, 0, Some(0))] {
        let wanted = (1, held, first_failed, F::of(15));
        assert!(rt; tested(product)? == wanted, "{product}");
    }
    Ok(())
}

#[test]
fn a_list_sink_keeps_its_rows(rt: HostRuntime) -> Result<(), Fail> {
    let mut sink = ListSink::new(rt.alloc(), 4);
    sink.put(&Lc::wire(Wire(1)), &Lc::wire(Wire(2)), &Lc::wire(Wire(3)))?;
    if sink.len() != 1 {
        return Err(Fail::from("not one row"));
    }
    let (a, b, c) = sink.row(0);
    for (lc, wire) in [(a, 1), (b, 2), (c, 3)] {
        assert!(rt; lc.terms() == [(F::ONE, Wire(wire))].as_slice());
    }
    Ok(())
}

#[test]
fn a_list_of_values_keeps_them(rt: HostRuntime) -> Result<(), Fail> {
    let mut values = ListValues::new(rt.alloc());
    values.give(F::of(3))?;
    values.give(F::of(5))?;
    assert!(rt; values.as_slice() == [F::of(3), F::of(5)].as_slice());
    Ok(())
}

// Numbers and their inverses.
static INVERSES: [(u64, u64); 3] = [
    (2, 9_223_372_034_707_292_161),
    (7, 2_635_249_152_773_512_046),
    (P - 1, P - 1),
];

#[test]
fn inverts_all_but_zero(rt: HostRuntime) {
    assert!(rt; F::ZERO.inv().is_none());
    for (number, inverse) in &INVERSES {
        let (number, inverse) = (F::of(*number), F::of(*inverse));
        assert!(rt; number.inv() == Some(inverse) && number * inverse == F::ONE);
    }
}
