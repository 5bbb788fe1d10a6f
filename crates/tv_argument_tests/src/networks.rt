//! Worked rows, sizes, altered wires, and settings, each put through the network that they are of.

use crate::outputs::{first_failed, sent_by_benes, sent_by_waksman};
use std::alloc::Global;
use std::test::Fail;
use tv_benes::{Net, switches};
use tv_route::{is_permutation, route, route_w};
use tv_waksman::switches_w;

const O: bool = false;

const I: bool = true;

// A network on four items, its bits, and the items in the order in which they come out. Waksman's
// network has five switches.
static ROWS: [(Net, [bool; 6], [u64; 4]); 6] = [
    (Net::Benes, [I, O, I, O, O, I], [2, 0, 3, 1]),
    (Net::Benes, [O, O, O, O, O, O], [0, 1, 2, 3]),
    (Net::Benes, [O, O, O, O, I, O], [1, 0, 2, 3]),
    (Net::Waksman, [I, O, I, O, I, O], [2, 0, 3, 1]),
    (Net::Waksman, [O, O, O, O, O, O], [0, 1, 2, 3]),
    (Net::Waksman, [O, I, O, O, O, O], [0, 1, 3, 2]),
];

fn comes_out(alloc: Global, net: Net, bits: &[bool], order: &[u64; 4]) -> Result<bool, Fail> {
    let sent = match net {
        Net::Benes => sent_by_benes(alloc, bits)?,
        Net::Waksman => sent_by_waksman(alloc, bits)?,
    };
    Ok(sent == *order)
}

#[test]
fn rows_come_out_in_order(rt: HostRuntime) -> Result<(), Fail> {
    for (net, bits, order) in &ROWS {
        assert!(rt; comes_out(rt.alloc(), *net, bits, order)?, "{bits:?}");
    }
    Ok(())
}

#[test]
fn networks_of_8_items_have_20_or_17_switches(rt: HostRuntime) {
    assert_eq!(rt; (switches(3), switches_w(3)), (20, 17));
}

// A network, a wire that is altered, and the first constraint that fails. The wires of the first
// switch are 9, its bit, and 10 to 13, what it passes; those of the upper network's switch begin
// at 19.
static ALTERED: [(Net, usize, u32); 7] = [
    (Net::Benes, 9, 1),
    (Net::Benes, 12, 3),
    (Net::Benes, 19, 11),
    (Net::Benes, 20, 11),
    (Net::Benes, 38, 29),
    (Net::Waksman, 9, 1),
    (Net::Waksman, 13, 4),
];

#[test]
fn altered_wires_fail(rt: HostRuntime) -> Result<(), Fail> {
    for (net, wire, failed) in &ALTERED {
        let first = first_failed(rt.alloc(), *net, *wire)?;
        assert!(rt; first == Some(*failed), "{wire}");
    }
    Ok(())
}

// Whether four numbers are a permutation, and the items come out as it says, over both networks.
fn is_reached(alloc: Global, p: &[u32; 4]) -> Result<bool, Fail> {
    if !is_permutation(alloc, p)? {
        return Ok(false);
    }
    let benes = route(alloc, p)?;
    let waksman = route_w(alloc, p)?;
    let wanted = p.map(u64::from);
    Ok(
        sent_by_benes(alloc, benes.as_slice())? == wanted
            && sent_by_waksman(alloc, waksman.as_slice())? == wanted,
    )
}

#[test]
fn every_order_of_four_is_reached(rt: HostRuntime) -> Result<(), Fail> {
    let mut reached = 0_u32;
    for code in 0..256u32 {
        let p = [code % 4, code / 4 % 4, code / 16 % 4, code / 64];
        if is_reached(rt.alloc(), &p)? {
            reached = reached.saturating_add(1);
        }
    }
    assert_eq!(rt; reached, 24);
    Ok(())
}

#[test]
fn two_places_are_exchanged_by_the_one_switch(rt: HostRuntime) -> Result<(), Fail> {
    let p = [1, 0];
    if !is_permutation(rt.alloc(), &p)? {
        return Err(Fail::from("no permutation"));
    }
    let (benes, waksman) = (route(rt.alloc(), &p)?, route_w(rt.alloc(), &p)?);
    assert!(rt; benes.as_slice() == [true].as_slice() && waksman.as_slice() == [true].as_slice());
    Ok(())
}

#[test]
fn what_is_no_permutation_is_refused(rt: HostRuntime) -> Result<(), Fail> {
    let twice = is_permutation(rt.alloc(), &[0, 0])?;
    let beyond = is_permutation(rt.alloc(), &[0, 2])?;
    assert!(rt; !twice && !beyond);
    Ok(())
}
