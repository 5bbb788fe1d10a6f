//! Which of four items come out of a network, by its constraints over the values of its generator.
//! Item i is the pair of the numbers i and i + 1,000,000.
ghost use Rattle.std.specs.Prelude.{◌≡◌, ◌≤◌, ◌+◌, ◌*◌, ◌^◌, false, IfOk};
ghost use Rattle.tv_benes.specs.Places.{wires_at};
ghost use Rattle.tv_benes.specs.Through.{switches};

use crate::gadgets::values_in;
use std::alloc::Global;
use std::test::Fail;
use tv_benes::{
    Inputs, Net, fill_network, fill_routing_network, network, routing_network, routing_switches,
};
use tv_core::{F, Lc, ListValues, Pair, PairNum, Put, TestSink, Wire, give_values};
use tv_waksman::{fill_network_w, network_w};

// How far an item's second number is from its first.
const APART: u64 = 1_000_000;

// The items, two wires each, from wire 1 on.
struct Four;

impl Inputs for Four {
    ghost pair = { λ _ i. wires_at (2 * i + 1) };

    ghost count = { λ _. 4 };

    fn at(&self, i: u32) -> Pair {
        let first = 2 * i + 1;
        Pair {
            first: Lc::wire(Wire(first)),
            second: Lc::wire(Wire(first + 1)),
        }
    }
}

// The numbers of the items.
fn items() -> [PairNum; 4] {
    [0, 1, 2, 3].map(|i| PairNum {
        first: F::of(i),
        second: F::of(i) + F::of(APART),
    })
}

// 1 and these numbers, for a network of no more than six switches.
fn beginning(alloc: Global, net: Net) -> Result<ListValues, Fail>
    ensures whole { IfOk result (λ values. values.broken ≡ false) }
    ensures few { IfOk result (λ _. switches net 1 ≤ 6) }
{
    if routing_switches(net, 2) > 6 {
        return Err(Fail::from("too many switches"));
    }
    let [a, b, c, d] = items();
    let mut values = ListValues::new(alloc);
    give_values(&mut values, &[F::ONE, a.first, a.second, b.first, b.second])?;
    give_values(&mut values, &[c.first, c.second, d.first, d.second])?;
    Ok(values)
}

// Which items these are: an error where one is none.
fn places(items: [PairNum; 4]) -> Result<[u64; 4], Fail> {
    for item in &items {
        if item.second != item.first + F::of(APART) {
            return Err(Fail::from("what comes out is no item"));
        }
    }
    Ok(items.map(|item| item.first.number()))
}

// Which items the outputs of a network are over an assignment: an error where a constraint does not
// hold.
fn come_out(z: &[F], tests: &TestSink<'_>, outputs: [Pair; 4]) -> Result<[u64; 4], Fail> {
    if tests.held() < tests.tested() {
        return Err(Fail::from("a constraint does not hold"));
    }
    places(outputs.map(|output| values_in(&output, z)))
}

/// Which item comes out at each place of Benes' network.
pub fn sent_by_benes(alloc: Global, bits: &[bool]) -> Result<[u64; 4], Fail> {
    let mut values = beginning(alloc, Net::Benes)?;
    fill_network(&mut values, 2, &items(), bits)?;
    let mut tests = TestSink::over(values.as_slice(), 9);
    let outputs = network(&mut tests, 2, &Four)?;
    let outputs = [outputs.at(0), outputs.at(1), outputs.at(2), outputs.at(3)];
    come_out(values.as_slice(), &tests, outputs)
}

/// The same of Waksman's.
pub fn sent_by_waksman(alloc: Global, bits: &[bool]) -> Result<[u64; 4], Fail> {
    let mut values = beginning(alloc, Net::Waksman)?;
    fill_network_w(&mut values, 2, &items(), bits)?;
    let mut tests = TestSink::over(values.as_slice(), 9);
    let outputs = network_w(&mut tests, 2, &Four)?;
    let outputs = [outputs.at(0), outputs.at(1), outputs.at(2), outputs.at(3)];
    come_out(values.as_slice(), &tests, outputs)
}

/// The first constraint of a network that fails where no bit is set and 1 is added to the value of
/// one of its wires.
pub fn first_failed(alloc: Global, net: Net, wire: usize) -> Result<Option<u32>, Fail> {
    let mut values = beginning(alloc, net)?;
    fill_routing_network(&mut values, net, 2, &items(), &[])?;
    let mut z = values.as_slice().to_vec(alloc)?;
    if let Some(value) = z.get_mut(wire) {
        *value = *value + F::ONE;
    }
    let mut tests = TestSink::over(&z, 9);
    routing_network(&mut tests, net, 2, &Four)?;
    Ok(tests.first_failed())
}
