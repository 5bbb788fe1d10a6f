//! The two networks.

/// Which of the two permutation networks.
#[derive(Clone, Copy, PartialEq, Eq, Debug)]
pub enum Net {
    /// Benes' network: (2k - 1) · 2^(k-1) switches for 2^k items.
    Benes,
    /// Waksman's: the same, but that in each stage after the middle the first switch of each
    /// residue with an even number of slots is left out, its two items passing: 2^k · (k - 1) + 1
    /// switches for 2^k items.
    Waksman,
}
