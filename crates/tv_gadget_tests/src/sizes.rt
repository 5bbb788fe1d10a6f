//! How many wires, constraints and terms each gadget over words makes, at both widths, those that
//! read and write a register, and a whole step.
ghost use Rattle.tv_word.specs.Widths.{IsWidth};

use crate::gadgets::{Gadget, put};
use crate::step_trials::{FIRST, state_wires};
use std::test::Fail;
use tv_block::block;
use tv_core::{CountSink, Lc, Put, Sink, Wire};
use tv_regs::{read_reg, wires_from, write_reg};

// Wires, constraints and terms.
type Sizes = (u32, u32, u64);

// Those that a sink has counted after its first wires.
fn counted(count: &CountSink, first: u32) -> Sizes {
    let wires = count.wires().saturating_sub(first);
    (wires, count.constraints(), count.terms())
}

// Those of a gadget.
fn sizes<const W: u32>(gadget: Gadget) -> Put<Sizes>
    requires width { IsWidth W }
{
    let mut count = CountSink::new(2 * W + 1);
    put::<W, CountSink>(&mut count, gadget)?;
    Ok(counted(&count, 2 * W + 1))
}

// A gadget, and its wires, constraints and terms at 32 bits and at 16.
static SIZES: [(Gadget, Sizes, Sizes); 9] = [
    (Gadget::Add, (33, 34, 197), (17, 18, 101)),
    (Gadget::Sub, (33, 34, 197), (17, 18, 101)),
    (Gadget::Compare, (14, 16, 280), (10, 12, 152)),
    (Gadget::Logic, (26, 26, 461), (18, 18, 245)),
    (Gadget::Shift, (51, 51, 893), (28, 28, 418)),
    (Gadget::Product, (66, 67, 388), (34, 35, 196)),
    (Gadget::SignedHigh, (66, 67, 390), (34, 35, 198)),
    (Gadget::Quotient, (76, 79, 651), (40, 43, 335)),
    (Gadget::Fields, (80, 84, 600), (80, 84, 600)),
];

#[test]
fn gadgets_have_the_sizes_that_their_texts_say(rt: HostRuntime) -> Result<(), Fail> {
    for (gadget, wide, narrow) in &SIZES {
        let made = (sizes::<32>(*gadget)?, sizes::<16>(*gadget)?);
        assert!(rt; made == (*wide, *narrow), "{gadget:?}");
    }
    Ok(())
}

// Over 17 wires, of which 16 are the registers.
#[test]
fn a_register_is_read_and_written_in_the_terms_that_their_texts_say(
    rt: HostRuntime,
) -> Result<(), Fail> {
    let (mut reads, mut writes) = (CountSink::new(17), CountSink::new(17));
    read_reg(&mut reads, Wire(1), &wires_from(Wire(1)))?;
    let word = Lc::wire(Wire(1));
    write_reg(&mut writes, Wire(1), Wire(1), &word, &wires_from(Wire(1)))?;
    let made = [counted(&reads, 17), counted(&writes, 17)];
    assert_eq!(rt; made, [(1, 16, 48), (17, 17, 147)]);
    Ok(())
}

// Those of a step, the primary tape having `n` words.
fn steps<const W: u32>(n: u32) -> Put<Sizes>
    requires width { IsWidth W }
{
    let mut count = CountSink::new(FIRST.0);
    block::<W, CountSink>(&mut count, &state_wires(), n, 0)?;
    Ok(counted(&count, FIRST.0))
}

#[test]
fn steps_have_their_sizes(rt: HostRuntime) -> Result<(), Fail> {
    let wide = (steps::<32>(3)?, steps::<32>(0)?);
    let narrow = (steps::<16>(3)?, steps::<16>(0)?);
    let is_wide = wide == ((315, 328, 1785), (315, 328, 1783));
    assert!(rt; is_wide && narrow == ((216, 229, 1297), (216, 229, 1295)));
    Ok(())
}
