//! The argument's constraints, and its laws.
ghost use Rattle.std.specs.Prelude.{◌≡◌, ◌+◌, ◌-◌, ◌^◌, ◌<◌, ◌≤◌};
ghost use Rattle.tv_core.specs.Below.{sum_below};
ghost use Rattle.tv_core.specs.Loops.{sequence};
ghost use Rattle.tv_core.specs.Sinks.{Emits, Room};
ghost use Rattle.tv_double_argument.specs.Argument.{ChecksMakeHonest};
ghost use Rattle.tv_double_argument.specs.Argument.{ArgumentIsSound, ArgumentIsComplete};
ghost use Rattle.tv_double_argument.specs.Checks.{AreShort, reach_bits, check_of};
ghost use Rattle.tv_double_argument.specs.Checks.{check_made, check_added};
ghost use Rattle.tv_double_argument.specs.Costs.{network_on, argument_made, argument_added};
ghost use Rattle.tv_double_argument.specs.Memory.{AreMade, argument_of, checks_of};
ghost use Rattle.tv_double_argument.specs.Memory.{ArgumentCosts, MemoryIsNormal};
ghost use Rattle.tv_double_checks.specs.Items.{AreWordsMade, IsItemMade};
ghost use Rattle.tv_network.specs.Network.{network_wires, output_of};
ghost use Rattle.tv_word.specs.Widths.{IsWidth};

use crate::kinds::Kind;
use crate::lines::{DoubleLines, LineItems};
use tv_core::{Pair, Put, Scratch, Sink};
use tv_double_checks::{CellWords, guard, image_pair, last_line, tape_word, within};
use tv_network::{Network, Outputs, network};
use tv_stages::Net;

/// How far apart the bound stages of an argument's network are: of three stages in a row one is
/// bound, and two are open.
pub(crate) const RATE: u32 = 3;

// The network of `count` lines.
pub(crate) fn network_on(net: Net, count: u32) -> Network
    ensures { result ≡ network_on net count }
{
    Network {
        net,
        items: count,
        rate: RATE,
    }
}

/// Constrains from 1 to 2^20 double lines in time order to be honest: what each finds in its double
/// cell is what the latest earlier line left there, or (0, 0). A permutation network brings to each
/// line the item of its successor in address order, and the line is checked against it at its own
/// place, as its kind says; the last line, which has to be the greatest, is brought the least
/// one's. Asks for each line some few times, and allocates nothing. It makes the network's wires,
/// with a constraint for each, those of the checks, and one constraint more.
pub fn memory<const W: u32, S: Sink, L: DoubleLines>(s: &mut S, net: Net, lines: &L) -> Put<()>
    requires width { IsWidth W }
    requires some { 0 < (L.lines lines.now).count }
    requires few { (L.lines lines.now).count ≤ 2 ^ 20 }
    requires short { AreShort (L.lines lines.now).kind (L.lines lines.now).count }
    requires made { AreMade (S.meaning.wires s.old) (L.lines lines.now) }
    requires room { let all = L.lines lines.now
        in Room S.meaning s.old (argument_made net all.kind all.count)
        (argument_added net all.kind all.count) }
    ensures emits { let all = L.lines lines.now
        in Emits S.meaning s.old s.new (argument_of net (2 ^ W) all)
        (argument_made net all.kind all.count) (argument_added net all.kind all.count) result }
{
    let on = network_on(net, lines.count());
    let first = network(s, on, &LineItems::<W, L> { lines })?;
    check_all::<W, S, L>(s, lines, &Outputs::new(on, first))
}

// Checks each line but the last against what the network brings to its place, and that the last
// place has the least line's item.
fn check_all<const W: u32, S: Sink, L: DoubleLines>(
    s: &mut S,
    lines: &L,
    outputs: &Outputs,
) -> Put<()>
    requires width { IsWidth W }
    requires some { 0 < (L.lines lines.now).count }
    requires few { (L.lines lines.now).count ≤ 2 ^ 20 }
    requires short { AreShort (L.lines lines.now).kind (L.lines lines.now).count }
    requires made { AreMade (S.meaning.wires s.old) (L.lines lines.now) }
    requires many { outputs.now.network.items ≡ (L.lines lines.now).count }
    requires below { outputs.now.first + network_wires outputs.now.network
        ≤ S.meaning.wires s.old }
    requires room { let all = L.lines lines.now
        in Room S.meaning s.old (sum_below (all.count - 1) (λ i. check_made (all.kind i)))
        (sum_below (all.count - 1) (λ i. check_added (all.kind i)) + 1) }
    ensures emits { let all = L.lines lines.now
        in Emits S.meaning s.old s.new
        (checks_of (2 ^ W) all (output_of outputs.now.network outputs.now.first))
        (sum_below (all.count - 1) (λ i. check_made (all.kind i)))
        (sum_below (all.count - 1) (λ i. check_added (all.kind i)) + 1) result }
{
    let mut scratch = Scratch::new();
    let mut item = Pair::empty();
    check_each::<W, S, L>(s, &mut scratch, &mut item, lines, outputs)?;
    outputs.set_item(lines.count() - 1, &mut item);
    last_line(s, &mut scratch, &item)
}

// Checks each line but the last.
fn check_each<const W: u32, S: Sink, L: DoubleLines>(
    s: &mut S,
    scratch: &mut Scratch,
    item: &mut Pair,
    lines: &L,
    outputs: &Outputs,
) -> Put<()>
    requires width { IsWidth W }
    requires some { 0 < (L.lines lines.now).count }
    requires short { AreShort (L.lines lines.now).kind (L.lines lines.now).count }
    requires made { AreMade (S.meaning.wires s.old) (L.lines lines.now) }
    requires many { outputs.now.network.items ≡ (L.lines lines.now).count }
    requires below { outputs.now.first + network_wires outputs.now.network
        ≤ S.meaning.wires s.old }
    requires room { let all = L.lines lines.now
        in Room S.meaning s.old (sum_below (all.count - 1) (λ i. check_made (all.kind i)))
        (sum_below (all.count - 1) (λ i. check_added (all.kind i))) }
    ensures emits { let all = L.lines lines.now
        in Emits S.meaning s.old s.new (sequence (all.count - 1) (λ i. check_of (2 ^ W) (all.kind i)
        (all.new i) (output_of outputs.now.network outputs.now.first i)))
        (sum_below (all.count - 1) (λ i. check_made (all.kind i)))
        (sum_below (all.count - 1) (λ i. check_added (all.kind i))) result }
{
    let mut words = CellWords::empty();
    for i in 0..lines.count() - 1 {
        outputs.set_item(i, item);
        lines.set_new(i, &mut words);
        check::<W, S>(s, scratch, lines.kind(i), &words, item)?;
    }
    Ok(())
}

// Checks a line of a kind, which leaves these words, against an item.
fn check<const W: u32, S: Sink>(
    s: &mut S,
    scratch: &mut Scratch,
    kind: Kind,
    words: &CellWords,
    item: &Pair,
) -> Put<()>
    requires width { IsWidth W }
    requires short { reach_bits kind ≤ 30 }
    requires room { Room S.meaning s.old (check_made kind) (check_added kind) }
    requires words { AreWordsMade (S.meaning.wires s.old) words.now }
    requires item { IsItemMade (S.meaning.wires s.old) item.now }
    ensures emits { Emits S.meaning s.old s.new
        (check_of (2 ^ W) kind words.now item.now) (check_made kind) (check_added kind) result }
{
    match kind {
        Kind::Within(bits) => within::<W, S>(s, scratch, bits, words, item),
        Kind::Image(bits) => image_pair::<W, S>(s, scratch, bits, words, item),
        Kind::Tape => tape_word::<W, S>(s, scratch, words, item),
        Kind::Guard(bits) => guard::<W, S>(s, scratch, bits, words, item),
    }
}

/// Double lines that are of their kinds are honest in every assignment that satisfies the checks,
/// over items in the order of any permutation.
#[tactic(auto, using(crate::proofs::Sound::checks_honest))]
pub fn checks_make_honest()
    ensures { ChecksMakeHonest }
{}

/// Double lines that are of their kinds are honest in every assignment that satisfies the
/// constraints of `memory`, whatever it has at the wires of the network and of the checks.
#[tactic(auto, using(crate::proofs::Sound::memory_sound))]
pub fn argument_is_sound()
    ensures { ArgumentIsSound }
{}

/// For honest double lines that are of their kinds and near their successors there are values, one
/// for each wire and each below P, with which an assignment satisfies the constraints of `memory`.
#[tactic(auto, using(crate::proofs::Complete::memory_complete))]
pub fn argument_is_complete()
    ensures { ArgumentIsComplete }
{}

/// The wires and the constraints of `memory`, by the kinds of the lines, and their terms, by the
/// lines: fewer than 2^44.
#[tactic(auto, using(crate::proofs::Costs::memory_cost))]
pub fn argument_costs()
    ensures { ArgumentCosts }
{}

/// The constraints of `memory` over lines of wires before its own are normal, whatever the lines'
/// combinations are.
#[tactic(auto, using(crate::proofs::NormalLaws::memory_normal))]
pub fn argument_is_normal()
    ensures { MemoryIsNormal }
{}
