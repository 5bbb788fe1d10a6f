//! What a step leads to, and how a run ends.

/// What a step leads to.
#[derive(Clone, Copy, PartialEq, Eq)]
pub enum Outcome {
    /// The machine has gone on to another state.
    Gone,
    /// It has answered, and its state is as before.
    Answered {
        /// The answer.
        value: u32,
    },
    /// It has met an opcode that isn't used, and its state is as before.
    Undefined {
        /// The opcode.
        op: u8,
    },
}

/// How a run ends.
#[derive(Clone, Copy, PartialEq, Eq, Debug)]
pub enum End {
    /// The machine answered a value at a step, counted from 1.
    Answer {
        /// The answer.
        value: u32,
        /// The step's number.
        step: u64,
    },
    /// It met an opcode that isn't used, at a step.
    Undefined {
        /// The opcode.
        op: u8,
        /// The step's number, counted from 1.
        step: u64,
    },
    /// It took all its steps.
    Silent {
        /// How many these are.
        steps: u64,
    },
}
