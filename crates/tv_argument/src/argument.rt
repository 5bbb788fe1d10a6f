//! The argument's constraints, and its laws.
ghost use Rattle.std.specs.Prelude.{◌≡◌, ◌+◌, ◌^◌, ◌≤◌, length, All};
ghost use Rattle.tv_core.specs.Below.{sum_below};
ghost use Rattle.tv_core.specs.Loops.{sequence};
ghost use Rattle.tv_core.specs.Sinks.{Emits, Room};
ghost use Rattle.tv_lines.specs.Placed.{line_in};
ghost use Rattle.tv_lines.specs.Predecessor.{IsLineMade, IsItemMade};
ghost use Rattle.tv_lines.specs.Compact.{line_lc};
ghost use Rattle.tv_argument.specs.Argument.{ArgumentIsSound, ArgumentIsComplete};
ghost use Rattle.tv_argument.specs.Checks.{AreShort, IsShortKind, check_of, check_made};
ghost use Rattle.tv_argument.specs.Checks.{check_added};
ghost use Rattle.tv_argument.specs.Costs.{network_on};
ghost use Rattle.tv_argument.specs.Memory.{IsMade, argument_of, argument_made, argument_added};
ghost use Rattle.tv_argument.specs.Memory.{ArgumentCosts, MemoryIsNormal};
ghost use Rattle.tv_argument.specs.Order.{argument_values};
ghost use Rattle.tv_network.specs.Network.{network_wires, output_of};
ghost use Rattle.tv_stages.specs.declared.nets.Net.{Net};

use crate::kinds::Kind;
use crate::lines::{CompactLines, LineItems};
use tv_core::{Pair, Put, Scratch, Sink};
use tv_lines::{CompactLine, boot_line, follows, least_line};
use tv_network::{Network, Outputs, network};
use tv_stages::Net;

/// How far apart the bound stages of an argument's network are: of three stages in a row one is
/// bound, and two are open.
pub(crate) const RATE: u32 = 3;

// The network of `count` lines.
pub(crate) fn network_on(net: Net, count: u32) -> Network
    ensures { result ≡ network_on net count }
{
    Network {
        net,
        items: count,
        rate: RATE,
    }
}

/// Constrains at most 2^20 lines in time order to be honest: the old word of each is the new word
/// of the latest earlier line of its cell, or 0. A permutation network brings to each line the item
/// of its predecessor in address order, and the line is checked against it at its own place, as its
/// kind says. Asks for each line some few times, and allocates nothing. It makes the network's
/// wires, with a constraint for each, and those of the checks: `m + 1` wires and `m + 3`
/// constraints for a line within `m` bits, 1 constraint for a boot line or the least line.
pub fn memory<S: Sink, L: CompactLines>(s: &mut S, net: Net, lines: &L) -> Put<()>
    requires few { length (L.lines lines.now) ≤ 2 ^ 20 }
    requires checks { AreShort (L.checks lines.now) (length (L.lines lines.now)) }
    requires room { let count = length (L.lines lines.now)
        in Room S.meaning s.old (argument_made net (L.checks lines.now) count)
        (argument_added net (L.checks lines.now) count) }
    requires made { All (IsMade (S.meaning.wires s.old)) (L.lines lines.now) }
    ensures emits { let count = length (L.lines lines.now)
        in Emits S.meaning s.old s.new
        (argument_of net (L.checks lines.now) (L.lines lines.now))
        (argument_made net (L.checks lines.now) count)
        (argument_added net (L.checks lines.now) count) result }
{
    let on = network_on(net, lines.count());
    let first = network(s, on, &LineItems { lines })?;
    check_all(s, lines, &Outputs::new(on, first))
}

// Checks each line against what the network brings to its place.
fn check_all<S: Sink, L: CompactLines>(s: &mut S, lines: &L, outputs: &Outputs) -> Put<()>
    requires few { length (L.lines lines.now) ≤ 2 ^ 20 }
    requires checks { AreShort (L.checks lines.now) (length (L.lines lines.now)) }
    requires room { let count = length (L.lines lines.now)
        in Room S.meaning s.old (sum_below count (λ i. check_made ((L.checks lines.now).kind i)))
        (sum_below count (λ i. check_added ((L.checks lines.now).kind i))) }
    requires made { All (IsMade (S.meaning.wires s.old)) (L.lines lines.now) }
    requires many { outputs.now.network.items ≡ length (L.lines lines.now) }
    requires below { outputs.now.first + network_wires outputs.now.network
        ≤ S.meaning.wires s.old }
    ensures emits { let count = length (L.lines lines.now)
        in Emits S.meaning s.old s.new
        (sequence count (λ i. check_of ((L.checks lines.now).kind i)
        (output_of outputs.now.network outputs.now.first i) (line_in (L.lines lines.now) i)))
        (sum_below count (λ i. check_made ((L.checks lines.now).kind i)))
        (sum_below count (λ i. check_added ((L.checks lines.now).kind i))) result }
{
    let mut scratch = Scratch::new();
    let mut item = Pair::empty();
    for i in 0..lines.count() {
        outputs.set_item(i, &mut item);
        check(s, &mut scratch, lines.kind(i), &lines.line(i), &item)?;
    }
    Ok(())
}

// Checks a line of a kind against an item.
fn check<S: Sink>(
    s: &mut S,
    scratch: &mut Scratch,
    kind: Kind,
    line: &CompactLine,
    item: &Pair,
) -> Put<()>
    requires short { IsShortKind kind }
    requires room { Room S.meaning s.old (check_made kind) (check_added kind) }
    requires line { IsLineMade (S.meaning.wires s.old) line.now }
    requires item { IsItemMade (S.meaning.wires s.old) item.now }
    ensures emits { Emits S.meaning s.old s.new
        (check_of kind item.now (line_lc line.now)) (check_made kind) (check_added kind) result }
{
    match kind {
        Kind::ZeroOld => Ok(()),
        Kind::Least => least_line(s, scratch, line),
        Kind::Boot(cell) => boot_line(s, scratch, cell, item),
        Kind::Within(bits) => follows(s, scratch, bits, line, item),
    }
}

/// Lines at the times 0, 1, 2, .. that are of their kinds are honest in every assignment that
/// satisfies the constraints of `memory`, whatever it has at the wires of the network and of the
/// checks.
#[tactic(auto, using(crate::proofs::Sound::memory_sound))]
pub fn argument_is_sound()
    ensures { (net : Net) → ArgumentIsSound (argument_of net) }
{}

/// For honest lines at the times 0, 1, 2, .. that are of their kinds and near their predecessors
/// there are values, one for each wire and each below P, with which an assignment satisfies the
/// constraints of `memory`.
#[tactic(auto, using(crate::proofs::Complete::memory_complete))]
pub fn argument_is_complete()
    ensures { (net : Net) → ArgumentIsComplete (argument_of net) (argument_values net)
        (argument_made net) }
{}

/// The constraints of `memory`, by the kinds of the lines, and their terms, by the lines: fewer
/// than 2^44.
#[tactic(auto, using(crate::proofs::Costs::memory_cost))]
pub fn argument_costs()
    ensures { ArgumentCosts }
{}

/// The constraints of `memory` over lines of wires before its own are normal, whatever the lines'
/// combinations are.
#[tactic(auto, using(crate::proofs::NormalLaws::memory_normal))]
pub fn argument_is_normal()
    ensures { MemoryIsNormal }
{}
