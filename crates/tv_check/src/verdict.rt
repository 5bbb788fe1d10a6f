//! Verdicts on an assignment.

/// What `check` says of an assignment.
#[derive(Clone, Copy, Debug, PartialEq, Eq)]
pub enum Verdict {
    /// It satisfies the system and extends the public numbers.
    Yes,
    /// It has `has` values, and the system `wants` wires.
    WireCount { has: u64, wants: u64 },
    /// The constant 1 and the public numbers after it differ from the values of the public wires
    /// first at this wire; a wire that one side lacks differs too.
    NoPublic { at: u64 },
    /// The constraint with this number, counted from 0, is the first that fails.
    NoConstraint { at: u64 },
}
