//! Kinds of double line, which say how a line is checked against its successor.

/// How a double line is checked. A line's place alone determines its kind.
#[derive(Clone, Copy, PartialEq, Eq, Debug)]
pub enum Kind {
    /// Any line: a reach of this many bits, at most 30. `m + 1` wires and `m + 3` constraints.
    Within(u32),
    /// An image pair of which the next double cell is in use: a reach in time of this many bits, at
    /// most 30. `m` wires and `m + 2` constraints.
    Image(u32),
    /// A word of the tape, of which the next double cell is in use. 1 constraint.
    Tape,
    /// A guard: a reach in double cells of this many bits, at most 30. `m` wires and `m + 1`
    /// constraints.
    Guard(u32),
}
