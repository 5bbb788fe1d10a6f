//! One step of the machine in numbers, with words of 16 or 32 bits: the values that the wires of a
//! step's circuit are to have, by tables over the opcode, and that this is the machine's step.
//! There is no circuit here.
#![tactic(auto)]

ghost use Rattle.tv_numbers.specs.Laws.{NumbersDo, NumbersStayInRange};
ghost use Rattle.tv_numbers.specs.Shown.{MachineShows, OldsAreShown, SeenInRange};

/// A step in numbers is the machine's step, for each instruction and each state with these numbers:
/// it has the same lines, reads of the auxiliary tape, and next state or answer.
pub fn numbers_do()
    ensures { NumbersDo }
{}

/// A step in numbers keeps the numbers of a state in range.
pub fn numbers_stay_in_range()
    ensures { NumbersStayInRange }
{}

/// The converse of `numbers_do`: the numbers of a machine's step, from a state in range whose
/// opcode is used, are in range, and the lines of the step in numbers are those of the machine's
/// step. The data line has the old word that is passed, which is 0 for the null cell.
pub fn machine_shows()
    ensures step { MachineShows }
    ensures view { SeenInRange }
    ensures olds { OldsAreShown }
{}
