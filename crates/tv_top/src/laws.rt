//! The whole claim over bytes, and that the tapes that `extract` writes are read again.
ghost use Rattle.std.specs.Prelude.{◌≤◌, ◌+◌};
ghost use Rattle.tv_core.specs.declared.limits.TheConstants.{STEPS};
ghost use Rattle.tv_core.specs.declared.limits.TheConstants.{TAPE_WORDS, AUX_WORDS, CHECK_WORDS};
ghost use Rattle.tv_plan.specs.ComesBack.{TapeTextsFit, TapesComeBack};
ghost use Rattle.tv_plan.specs.Inputs.{primary_in, aux_in};
ghost use Rattle.tv_plan.specs.Programs.{bits};
ghost use Rattle.tv_plan.specs.Tapes.{publics_in};
ghost use Rattle.tv_top.specs.Done.{BuildLeads, CheckLeads, ExtractLeads, WitnessLeads};
ghost use Rattle.tv_top.specs.Headline.{Headline, YesToRuns};
ghost use Rattle.tv_top.specs.Taken.{ExtractedAreTaken};

/// The whole claim, over bytes alone. For every text that assembles, N, T and network within the
/// limits: what `build` leaves is read as a system that reduces the program's runs; what `witness`
/// leaves of a run that answers is read as an assignment that satisfies it and extends the answer
/// and the tape; `check` says yes exactly to such assignments; and `extract` turns each of them back
/// into its run.
///
/// By that alone, `check` says yes to no answer and tape without a run, and each run has an
/// assignment.
pub fn headline()
    ensures claim { Headline }
    ensures runs { YesToRuns }
{}

/// A call of `build`, `witness`, `check` or `extract` that is done leaves what the headline speaks
/// of: its clause of `command` says so.
pub fn done_calls_leave_these()
    ensures build { BuildLeads }
    ensures witness { WitnessLeads }
    ensures check { CheckLeads }
    ensures extract { ExtractLeads }
{}

/// The text that `extract` writes of a tape is within the limit of texts, and `run` and `witness`
/// read the tape's words of it again, and `check`, of a text that has the answer before them. So
/// they take the tapes of each run that `extract` reports: a run of `STEPS` steps takes fewer
/// words.
pub fn tapes_come_back()
    ensures texts { TapeTextsFit }
    ensures primary { TapesComeBack (λ word width. primary_in word (bits width)) TAPE_WORDS }
    ensures aux { TapesComeBack (λ word width. aux_in word (bits width)) AUX_WORDS }
    ensures publics { TapesComeBack (λ word width. publics_in word) CHECK_WORDS }
    ensures extracted { ExtractedAreTaken }
    ensures steps { STEPS ≤ AUX_WORDS + 1 }
    ensures answer { TAPE_WORDS + 1 ≤ CHECK_WORDS }
{}
