//! How many terms the argument's constraints have, counted line by line.
ghost use Rattle.std.specs.Prelude.{◌≡◌, ◌+◌, ◌*◌, ◌^◌, ◌<◌, ◌≤◌, length, All};
ghost use Rattle.tv_core.specs.Below.{sum_below};
ghost use Rattle.tv_lines.specs.Compact.{line_lc};
ghost use Rattle.tv_lines.specs.Placed.{line_in};
ghost use Rattle.tv_argument.specs.Checks.{AreShort, IsShortKind, check_terms};
ghost use Rattle.tv_argument.specs.Costs.{network_made};
ghost use Rattle.tv_argument.specs.Memory.{IsMade, argument_terms};

use crate::argument::network_on;
use crate::kinds::Kind;
use crate::lines::{CompactLines, LineItems};
use tv_core::{Lc, Wire};
use tv_lines::{CompactLine, boot_line_terms, follows_terms, least_line_terms};
use tv_network::network_terms;
use tv_stages::Net;

/// Returns how many terms the constraints of `memory` have for at most 2^20 lines, where its wires
/// begin at `first`: fewer than 2^44. Which wires two lines share decides how many terms the
/// network and the checks have, so it makes each line's item and the combinations of its check, and
/// counts them. It asks for each line some few times, takes time linear in the number of the
/// network's switches, and no memory.
pub fn argument_terms<L: CompactLines>(net: Net, first: Wire, lines: &L) -> u64
    requires few { length (L.lines lines.now) ≤ 2 ^ 20 }
    requires checks { AreShort (L.checks lines.now) (length (L.lines lines.now)) }
    requires made { All (IsMade first) (L.lines lines.now) }
    requires room { first + network_made net (length (L.lines lines.now)) < 2 ^ 32 }
    ensures is { result ≡ argument_terms net (L.checks lines.now) first (L.lines lines.now) }
    ensures most { result < 2 ^ 44 }
{
    let on = network_on(net, lines.count());
    network_terms(on, first, &LineItems { lines }) + checks_terms(lines)
}

// Returns how many terms the checks of all lines have.
fn checks_terms<L: CompactLines>(lines: &L) -> u64
    requires checks { AreShort (L.checks lines.now) (length (L.lines lines.now)) }
    requires few { length (L.lines lines.now) ≤ 2 ^ 20 }
    ensures is { result ≡ sum_below (length (L.lines lines.now))
        (λ i. check_terms ((L.checks lines.now).kind i) (line_in (L.lines lines.now) i)) }
    ensures most { result ≤ 2 ^ 8 * length (L.lines lines.now) }
{
    let mut scratch = Lc::empty();
    let mut sum = 0u64;
    for i in 0..lines.count() {
        sum += u64::from(check_terms(&mut scratch, lines.kind(i), &lines.line(i)));
    }
    sum
}

// Returns how many terms the check of a line has.
fn check_terms(scratch: &mut Lc, kind: Kind, line: &CompactLine) -> u32
    requires short { IsShortKind kind }
    ensures is { result ≡ check_terms kind (line_lc line.now) }
    ensures few { result ≤ 2 ^ 8 }
{
    match kind {
        Kind::ZeroOld => 0,
        Kind::Least => least_line_terms(scratch, line),
        Kind::Boot(cell) => boot_line_terms(scratch, cell),
        Kind::Within(bits) => follows_terms(scratch, bits, line),
    }
}
