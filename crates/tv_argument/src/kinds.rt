//! Kinds of line, which say how a line is checked against its predecessor.

/// How a line is checked. The line's index alone determines its kind.
#[derive(Clone, Copy, PartialEq, Eq, Debug)]
pub enum Kind {
    /// The least line, whose old word is the constant 0: no constraint.
    ZeroOld,
    /// The least line: its old word is constrained to be 0. 1 constraint.
    Least,
    /// A line of the next cell with the old word 0; its predecessor is of this cell. 1 constraint.
    Boot(u32),
    /// A line whose reach has at most this many bits, up to 31. One constraint a bit, and 3.
    Within(u32),
}
