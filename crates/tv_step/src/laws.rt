//! Laws of the definitions: what steps and runs keep and take.
ghost use Rattle.tv_step.specs.Cells.{LinesAreThreeAStep, StatesAreOneMore, LinesByPlace};
ghost use Rattle.tv_step.specs.Cells.{StatesByPlace, TimesFollow, LinesInRange, OldsAreInCells};
ghost use Rattle.tv_step.specs.Cells.{StepWritesItsLine, OnlyStoresWrite, BootLeavesTheStart};
ghost use Rattle.tv_step.specs.Cells.{LinesLeaveTheState, LinesAreHonest};
ghost use Rattle.tv_step.specs.Range.{StartInRange, StepKeepsRange, RunKeepsRange, AnswerIsWord};
ghost use Rattle.tv_step.specs.Range.{OperandIsWord};
ghost use Rattle.tv_step.specs.Reads.{TapesAreLeft, TakenAreTheFront, TakenByCounts, EndedStays};
ghost use Rattle.tv_step.specs.Reads.{EndedTakesNothing, AnsweringTakesFew};
ghost use Rattle.tv_step.specs.Runs.{AnswerIsWithin, EndAnswers, LastAnswers, StepsAtTheEnd};
ghost use Rattle.tv_step.specs.Runs.{StepsAtTheFront, AnswerStays};

/// The start on tapes of words is a state in range, a step keeps one, and so does a run. Its
/// operand and an answered value are words.
pub fn states_are_in_range()
    ensures start { StartInRange }
    ensures step { StepKeepsRange }
    ensures run { RunKeepsRange }
    ensures answer { AnswerIsWord }
    ensures operand { OperandIsWord }
{}

/// An answer comes at a step from the first to the last; where a run answers, each of its steps is
/// of an opcode that is used, and the last answers the same; and where the last step answers, so
/// does the run.
pub fn runs_answer_at_their_end()
    ensures within { AnswerIsWithin }
    ensures steps { EndAnswers }
    ensures last { LastAnswers }
{}

/// The state after n + 1 steps is that by one step from the state after n, and that after n steps
/// from the state after one; where a step answers, the state stays.
pub fn steps_follow()
    ensures end { StepsAtTheEnd }
    ensures front { StepsAtTheFront }
    ensures answer { AnswerStays }
{}

/// What a run takes of its tapes: what is left is their end, and the auxiliary words taken are the
/// front of theirs, both by how many words were taken; the ended bit never falls, and where it is
/// set nothing is taken; and a run that answers takes fewer words than it may have steps.
pub fn tapes_are_taken_in_order()
    ensures left { TapesAreLeft }
    ensures front { TakenAreTheFront }
    ensures word { TakenByCounts }
    ensures ended { EndedStays }
    ensures nothing { EndedTakesNothing }
    ensures few { AnsweringTakesFew }
{}

/// A trace's lines and states, by index: three lines a step, at successive times, and one state
/// more than steps.
pub fn traces_are_by_place()
    ensures lines { LinesAreThreeAStep }
    ensures states { StatesAreOneMore }
    ensures line { LinesByPlace }
    ensures state { StatesByPlace }
    ensures times { TimesFollow }
{}

/// A step's lines are in range, the old word of each is that of its cell before the step, and the
/// step changes memory by its data line alone. Only a store's line changes its word.
pub fn lines_determine_cells()
    ensures range { LinesInRange }
    ensures olds { OldsAreInCells }
    ensures writes { StepWritesItsLine }
    ensures stores { OnlyStoresWrite }
{}

/// The lines of a run, after those of the image's and the primary tape's words, are honest, and the
/// words that they leave in the cells are those of the state.
pub fn runs_are_honest()
    ensures boot { BootLeavesTheStart }
    ensures steps { LinesLeaveTheState }
    ensures honest { LinesAreHonest }
{}
