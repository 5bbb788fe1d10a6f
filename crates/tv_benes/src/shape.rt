//! The two networks, and how many switches they have.
ghost use Rattle.std.specs.Prelude.{◌≡◌, ◌-◌, ◌^◌, ◌<◌, ◌≤◌};
ghost use Rattle.tv_benes.specs.Through.{switches, missing};
ghost use Rattle.tv_benes.specs.declared.shape.Net.TheVariants.{Benes};

use tv_word::arithmetic::power;

/// Which of the two permutation networks.
#[derive(Clone, Copy, PartialEq, Eq, Debug)]
pub enum Net {
    /// Benes' network: (2k - 1) · 2^(k-1) switches for 2^k items.
    Benes,
    /// Waksman's: the same, but that the first switch of each last column is left out, its two
    /// items passing: 2^k · (k - 1) + 1 switches.
    Waksman,
}

impl Net {
    /// Returns how many switches a last column has fewer than a first one: 1 in Waksman's network.
    pub fn missing(self) -> u32
        ensures { result ≡ missing self }
    {
        match self {
            Net::Benes => 0,
            Net::Waksman => 1,
        }
    }
}

/// Returns how many switches Benes' network for 2^`k` items has, `k` being from 1 to 31.
pub fn switches(k: u32) -> u64
    requires some { 1 ≤ k }
    requires few { k ≤ 31 }
    ensures { result ≡ switches Benes (k - 1) }
{
    routing_switches(Net::Benes, k)
}

/// Returns how many switches either network for 2^`k` items has, `k` being from 1 to 31.
pub fn routing_switches(net: Net, k: u32) -> u64
    requires some { 1 ≤ k }
    requires few { k ≤ 31 }
    ensures { result ≡ switches net (k - 1) }
{
    level_switches(net, k - 1)
}

// How many switches a network of level `h` has.
pub(crate) fn level_switches(net: Net, h: u32) -> u64
    requires { h < 31 }
    ensures is { result ≡ switches net h }
    ensures few { result < 2 ^ 36 }
{
    let half = long_power(h);
    match net {
        Net::Benes => (2 * u64::from(h) + 1) * half,
        Net::Waksman => u64::from(h) * (2 * half) + 1,
    }
}

// 2^`h`: how many switches the first column of a network of level `h` has.
pub(crate) fn long_power(h: u32) -> u64
    requires { h < 32 }
    ensures is { result ≡ 2 ^ h }
    ensures few { result < 2 ^ 32 }
{
    u64::from(power(h))
}

pub(crate) fn long_missing(net: Net) -> u64
    ensures { result ≡ missing net }
{
    u64::from(net.missing())
}
