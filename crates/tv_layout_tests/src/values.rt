//! Systems of the program `answer 0` for one step: their sizes, and the values of its run.
ghost use Rattle.std.specs.Prelude.{◌≤◌, length};
ghost use Rattle.tv_step.specs.Range.{AreWords};
ghost use Rattle.tv_word.specs.Widths.{IsWidth};

use std::alloc::Global;
use std::test::Fail;
use tv_core::{ListValues, Sink, TestSink};
use tv_fill::{FillFault, fill_system, prepare};
use tv_layout::{count_system, emit_system, sizes};
use tv_stages::Net;

/// The image at 32 bits and at 16.
const WIDE: [u32; 2] = [0xfc00_0000, 0];

const NARROW: [u32; 2] = [0xfc00, 0];

// Wires, constraints and terms.
type Counts = (u32, u32, u64);

/// A network, a number of steps t, and how many wires, constraints and terms the systems have, with
/// words of 32 and of 16 bits. There are 2 + 3 t lines, so k = 3:
///
///     wires:       2 + 20 + R t + 3 · switches + 2 · bound + 2 · loose + (3 + 65) t
///     constraints: 20 + S t + 2 + 3 · switches + 2 · bound + 2 · loose + (2 - 1) + (3 + 71) t
///
/// with R = 311, S = 324 at 32 bits and R = 212, S = 225 at 16, no word being on the tape. Over 5
/// lines there are 2 + 2 + 1 + 1 + 2 switches, those of the first and the last stage bound, and one
/// loose slot; over 8 lines 4 in each of five stages, and over Waksman's network two fewer in the
/// fourth and one fewer in the fifth, with two loose slots. The terms are those that a script of
/// some lines finds by writing the constraints out.
const SIZES: [(Net, u32, Counts, Counts); 3] = [
    (Net::Benes, 1, (435, 455, 2292), (336, 356, 1804)),
    (Net::Benes, 2, (856, 895, 4644), (658, 697, 3668)),
    (Net::Waksman, 2, (849, 888, 4567), (651, 690, 3591)),
];

// What a system's sizes are said to be, and what a sink counts.
fn sizes_of<const W: u32>(image: &[u32], t: u32, net: Net) -> [Counts; 2]
    requires width { IsWidth W }
    requires words { AreWords W image.now }
    requires short { length image.now ≤ 2 }
    requires some { 1 ≤ t }
    requires few { t ≤ 2 }
{
    let said = sizes::<W>(image, 0, t, net);
    let sink = count_system::<W>(image, 0, t, net);
    let counted = (sink.wires(), sink.constraints(), sink.terms());
    [(said.wires, said.constraints, said.terms), counted]
}

#[test]
fn systems_have_their_sizes(rt: HostRuntime) {
    for (net, t, wide, narrow) in SIZES {
        let made = [
            sizes_of::<32>(&WIDE, t, net),
            sizes_of::<16>(&NARROW, t, net),
        ];
        assert_eq!(rt; made, [[wide; 2], [narrow; 2]], "{net:?}, {t}");
    }
}

// How many wires and constraints the system has, and how many of these the run's values meet.
fn trial<const W: u32>(
    alloc: Global,
    image: &[u32],
    t: u32,
    net: Net,
) -> Result<(u32, u32, u32), FillFault>
    requires width { IsWidth W }
    requires words { AreWords W image.now }
    requires short { length image.now ≤ 2 }
    requires some { 1 ≤ t }
    requires few { t ≤ 2 }
{
    let mut values = ListValues::new(alloc);
    fill_system::<W, ListValues>(alloc, image, &[], &[], t, net, &mut values)?;
    let mut tests = TestSink::over(values.as_slice(), 2);
    emit_system::<W, TestSink>(image, 0, t, net, &mut tests)?;
    let filling = prepare::<W>(alloc, image, &[], &[], t, net)?;
    Ok((filling.count(), tests.tested(), tests.held()))
}

#[test]
fn the_values_of_answer_0_meet_its_system(rt: HostRuntime) -> Result<(), Fail> {
    for (net, t, wide, narrow) in SIZES {
        let met = [
            trial::<32>(rt.alloc(), &WIDE, t, net)?,
            trial::<16>(rt.alloc(), &NARROW, t, net)?,
        ];
        let wanted = [wide, narrow].map(|(wires, added, _)| (wires, added, added));
        assert_eq!(rt; met, wanted, "{net:?}, {t}");
    }
    Ok(())
}
