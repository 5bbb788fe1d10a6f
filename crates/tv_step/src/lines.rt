//! What a trace is made of: its lines and its states.
ghost use Rattle.std.specs.Prelude.{◌≡◌};

use std::marker::Model;
use tv_core::Line;

/// A state as the trace has it, with the number of words taken of each tape.
#[derive(Clone, Copy, PartialEq, Eq)]
pub struct TraceState {
    /// The program counter.
    pub pc: u32,
    /// The words in the registers.
    pub regs: [u32; 16],
    /// The flag.
    pub flag: bool,
    /// How many words of the primary tape are taken.
    pub primary: u32,
    /// How many words of the auxiliary tape are taken.
    pub aux: u32,
    /// Whether a read of the auxiliary tape has found nothing before. It never falls.
    pub ended: bool,
}

/// A list of lines.
#[derive(Drop)]
pub struct Lines {
    items: Vec<Line>,
}

impl Model for Lines {
    ghost use Rattle.std.specs.Prelude.{List};
    ghost use Rattle.tv_core.specs.Lines.{Line};

    ghost Value = { List Line };

    ghost view = { λ lines. lines.items.items };
}

impl Lines {
    /// Returns the lines in order.
    pub fn as_slice(&self) -> &[Line]
        ensures { result.now ≡ self.now }
    {
        self.items.as_slice()
    }
}

impl From<Vec<Line>> for Lines {
    ghost from_gives = { λ items lines. lines ≡ items.items };

    fn from(items: Vec<Line>) -> Lines {
        Lines { items }
    }
}

/// A list of states.
#[derive(Drop)]
pub struct States {
    items: Vec<TraceState>,
}

impl Model for States {
    ghost use Rattle.std.specs.Prelude.{List};
    ghost use Rattle.tv_step.specs.declared.lines.TraceState.{TraceState};

    ghost Value = { List TraceState };

    ghost view = { λ states. states.items.items };
}

impl States {
    /// Returns the states in order.
    pub fn as_slice(&self) -> &[TraceState]
        ensures { result.now ≡ self.now }
    {
        self.items.as_slice()
    }
}

impl From<Vec<TraceState>> for States {
    ghost from_gives = { λ items states. states ≡ items.items };

    fn from(items: Vec<TraceState>) -> States {
        States { items }
    }
}

/// A run that answers: the value, the lines of its steps, three each, and the states before,
/// between and after them.
#[derive(Drop)]
pub struct Trace {
    /// The value that the machine answers.
    pub answer: u32,
    /// Three for each step, in time order.
    pub lines: Lines,
    /// One more than steps.
    pub states: States,
}
