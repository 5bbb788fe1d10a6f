//! What the parts of the argument cost.
ghost use Rattle.std.specs.Prelude.{◌≡◌, ◌^◌, ◌<◌, ◌≤◌};
ghost use Rattle.tv_double_argument.specs.Checks.{reach_bits, check_made, check_added};
ghost use Rattle.tv_double_argument.specs.Costs.{ChecksAreCheap, network_made};

use crate::argument::network_on;
use crate::kinds::Kind;
use tv_stages::Net;

/// Returns how many wires the check of a line of a kind makes.
pub fn check_made(kind: Kind) -> u32
    requires { reach_bits kind ≤ 30 }
    ensures is { result ≡ check_made kind }
    ensures most { result ≤ 2 ^ 6 }
{
    match kind {
        Kind::Within(bits) => bits + 1,
        Kind::Image(bits) | Kind::Guard(bits) => bits,
        Kind::Tape => 0,
    }
}

/// Returns how many constraints the check of a line of a kind has.
pub fn check_added(kind: Kind) -> u32
    requires { reach_bits kind ≤ 30 }
    ensures is { result ≡ check_added kind }
    ensures most { result ≤ 2 ^ 6 }
{
    match kind {
        Kind::Within(bits) => bits + 3,
        Kind::Image(bits) => bits + 2,
        Kind::Tape => 1,
        Kind::Guard(bits) => bits + 1,
    }
}

/// Returns how many wires the argument's network on `count` items makes, at most 2^20; it has as
/// many constraints.
pub fn network_made(net: Net, count: u32) -> u64
    requires few { count ≤ 2 ^ 20 }
    ensures is { result ≡ network_made net count }
    ensures few { result < 2 ^ 34 }
{
    network_on(net, count).wires()
}

/// Checks with short reaches are cheap, in wires and in constraints.
#[tactic(auto, using(crate::proofs::CheckCosts::checks_cheap))]
pub fn checks_are_cheap()
    ensures { ChecksAreCheap }
{}
