//! How many terms the argument's constraints have, counted line by line.
ghost use Rattle.std.specs.Prelude.{◌≡◌, ℕ, ◌+◌, ◌-◌, ◌*◌, ◌^◌, ◌<◌, ◌≤◌};
ghost use Rattle.tv_core.specs.Below.{sum_below};
ghost use Rattle.tv_double_argument.specs.Checks.{AreShort, check_terms, reach_bits};
ghost use Rattle.tv_double_argument.specs.Costs.{network_made};
ghost use Rattle.tv_double_argument.specs.Memory.{AreFewTerms, AreMade, argument_terms};
ghost use Rattle.tv_word.specs.Widths.{IsWidth};

use crate::argument::network_on;
use crate::kinds::Kind;
use crate::lines::{DoubleLines, LineItems};
use tv_core::{Lc, Wire};
use tv_double_checks::{CellWords, guard_terms, image_pair_terms, tape_word_terms, within_terms};
use tv_network::network_terms;
use tv_stages::Net;

/// Returns how many terms the constraints of `memory` have for 1 to 2^20 lines, where its wires
/// begin at `first`: fewer than 2^44. It makes each line's item and the combinations of its check,
/// and counts them. It takes time linear in the number of the network's switches, and no memory.
pub fn argument_terms<const W: u32, L: DoubleLines>(net: Net, first: Wire, lines: &L) -> u64
    requires width { IsWidth W }
    requires some { 0 < (L.lines lines.now).count }
    requires few { (L.lines lines.now).count ≤ 2 ^ 20 }
    requires short { AreShort (L.lines lines.now).kind (L.lines lines.now).count }
    requires made { AreMade first (L.lines lines.now) }
    requires room { first + network_made net (L.lines lines.now).count < 2 ^ 32 }
    ensures is { result ≡ argument_terms net (2 ^ W) first (L.lines lines.now) }
    ensures most { result < 2 ^ 44 }
{
    let on = network_on(net, lines.count());
    network_terms(on, first, &LineItems::<W, L> { lines }) + checks_terms::<W, L>(lines) + 2
}

// Returns how many terms the checks of all lines but the last have.
fn checks_terms<const W: u32, L: DoubleLines>(lines: &L) -> u64
    requires width { IsWidth W }
    requires some { 0 < (L.lines lines.now).count }
    requires few { (L.lines lines.now).count ≤ 2 ^ 20 }
    requires short { AreShort (L.lines lines.now).kind (L.lines lines.now).count }
    ensures is { let all = L.lines lines.now in result
        ≡ sum_below (all.count - 1) (λ i. check_terms (2 ^ W) (all.kind i) (all.new i)) }
    ensures most { result ≤ 2 ^ 9 * (L.lines lines.now).count }
{
    let mut scratch = Lc::empty();
    let mut words = CellWords::empty();
    let mut sum = 0u64;
    for i in 0..lines.count() - 1 {
        lines.set_new(i, &mut words);
        sum += u64::from(check_terms::<W>(&mut scratch, lines.kind(i), &words));
    }
    sum
}

// Returns how many terms the check of a line has.
fn check_terms<const W: u32>(scratch: &mut Lc, kind: Kind, words: &CellWords) -> u32
    requires width { IsWidth W }
    requires short { reach_bits kind ≤ 30 }
    requires words { AreFewTerms words.now }
    ensures is { result ≡ check_terms (2 ^ W) kind words.now }
    ensures few { result ≤ 2 ^ 9 }
{
    match kind {
        Kind::Within(bits) => within_terms::<W>(scratch, bits, words),
        Kind::Image(bits) => image_pair_terms::<W>(scratch, bits, words),
        Kind::Tape => tape_word_terms::<W>(scratch, words),
        Kind::Guard(bits) => guard_terms::<W>(scratch, bits, words),
    }
}
