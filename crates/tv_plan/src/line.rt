//! The lines that commands say.
ghost use Rattle.std.specs.Prelude.{◌≡◌, ◌+◌, ◌<◌, ◌≤◌, [], ◌∷◌, ◌++◌, length, codes, decimal};
ghost use Rattle.arrayvec.specs.ArrayString.{array_string_len};
ghost use Rattle.tv_plan.specs.Codes.{Reads, says, end_text, verdict_text, asm_text, not_run_text};
ghost use Rattle.tv_plan.specs.Codes.{read_text, limit_text, refusal_text, bad_text, trial_text};

use crate::reasons::{LINE_BYTES, Line, push_asm, push_number, push_read, what_name};
use crate::refusal::{Bad, Ending, Finish, Refusal, Stop, Trial, What};
use tv_asm::AsmWhy;
use tv_check::Verdict;
use tv_container::ReadWhy;
use tv_step::{End, NotRun};

/// What is said of words that are no command's.
const USAGE: &str =
    "usage: asm, disasm, run, build, witness, check, extract, trial, shrink, listing";

/// A line of this text.
fn text_line(text: &str) -> Line
    requires { length text.now ≤ LINE_BYTES }
    ensures { result.bytes ≡ text.now }
{
    let mut line = Line::new();
    line.push_str(text);
    line
}

/// A line of a text, a number, and another text.
fn number_line(text: &str, number: u64, after: &str) -> Line
    requires { length text.now + length after.now + 20 ≤ LINE_BYTES }
    ensures text { result.bytes ≡ text.now ++ decimal number ++ after.now }
    ensures room { array_string_len result ≤ length text.now + length after.now + 20 }
{
    let mut line = text_line(text);
    push_number(&mut line, number);
    line.push_str(after);
    line
}

/// A line of two numbers, each after a text, and another text.
fn pair_line(text: &str, first: u64, between: &str, second: u64, after: &str) -> Line
    requires { length text.now + length between.now + length after.now + 40 ≤ LINE_BYTES }
    ensures text { result.bytes ≡
        text.now ++ decimal first ++ between.now ++ decimal second ++ after.now }
    ensures room { array_string_len result ≤
        length text.now + length between.now + length after.now + 40 }
{
    let mut line = number_line(text, first, between);
    push_number(&mut line, second);
    line.push_str(after);
    line
}

/// The line of a run's end, without its own end.
fn end_line(end: End) -> Line
    ensures text { result.bytes ≡ end_text end }
    ensures room { array_string_len result ≤ 80 }
{
    match end {
        End::Answer { value, step } => {
            pair_line("answer ", u64::from(value), " at step ", step, "")
        }
        End::Undefined { op, step } => {
            pair_line("undefined opcode ", u64::from(op), " at step ", step, "")
        }
        End::Silent { steps } => number_line("no answer in ", steps, " steps"),
    }
}

/// The line of a run that doesn't answer, without its own end.
fn no_run_line(end: End) -> Line
    ensures text { result.bytes ≡ codes "no run: " ++ end_text end }
    ensures room { array_string_len result < LINE_BYTES }
{
    let mut line = text_line("no run: ");
    line.push_str(end_line(end).as_str());
    line
}

/// The line of an assignment that has no run, without its end.
fn not_run_line(why: NotRun) -> Line
    ensures text { result.bytes ≡ codes "not a run: " ++ not_run_text why }
    ensures room { array_string_len result < LINE_BYTES }
{
    match why {
        NotRun::WireCount { has, wants } => {
            pair_line("not a run: ", has, " wires, ", wants, " wanted")
        }
        NotRun::WideWire { at } => number_line("not a run: wire ", at, " is wide"),
        NotRun::NotARun { end } => {
            let mut line = text_line("not a run: ");
            line.push_str(end_line(end).as_str());
            line
        }
    }
}

/// The line of a verdict, without its end.
fn verdict_line(verdict: Verdict) -> Line
    ensures text { result.bytes ≡ verdict_text verdict }
    ensures room { array_string_len result < LINE_BYTES }
{
    match verdict {
        Verdict::Yes => text_line("yes"),
        Verdict::WireCount { has, wants } => pair_line("no: ", has, " wires, ", wants, " wanted"),
        Verdict::NoPublic { at } => number_line("no: public wire ", at, ""),
        Verdict::NoConstraint { at } => number_line("no: constraint ", at, ""),
    }
}

/// The line of a refused program, without its end.
fn program_line(number: u64, why: AsmWhy) -> Line
    ensures text { result.bytes ≡
        codes "bad program: line " ++ decimal number ++ codes ": " ++ asm_text why }
    ensures room { array_string_len result < LINE_BYTES }
{
    let mut line = number_line("bad program: line ", number, ": ");
    push_asm(&mut line, why);
    line
}

/// The line of a refused container, without its end.
fn container_line(text: &str, at: u64, why: ReadWhy) -> Line
    requires { length text.now ≤ 20 }
    ensures text { result.bytes ≡ text.now ++ decimal at ++ codes ": " ++ read_text why }
    ensures room { array_string_len result < LINE_BYTES }
{
    let mut line = number_line(text, at, ": ");
    push_read(&mut line, why);
    line
}

/// The line of a limit, without its end.
fn limit_line(what: What, has: u64, most: u64) -> Line
    ensures text { result.bytes ≡ limit_text what has most }
    ensures room { array_string_len result < LINE_BYTES }
{
    let mut line = text_line("limit: ");
    line.push_str(what_name(what));
    line.push_str(" ");
    push_number(&mut line, has);
    line.push_str(", most ");
    push_number(&mut line, most);
    line
}

/// The line of refused words, without its end.
fn refusal_line(why: Refusal) -> Line
    ensures text { result.bytes ≡ refusal_text why }
    ensures room { array_string_len result < LINE_BYTES }
{
    match why {
        Refusal::Usage => text_line(USAGE),
        Refusal::SameName { first, second } => pair_line(
            "same name: words ",
            u64::from(first),
            " and ",
            u64::from(second),
            "",
        ),
        Refusal::Limit { what, has, most } => limit_line(what, has, most),
    }
}

/// The line of refused contents, without its end.
fn bad_line(bad: Bad) -> Line
    ensures text { result.bytes ≡ bad_text bad }
    ensures room { array_string_len result < LINE_BYTES }
{
    match bad {
        Bad::Program { line, why } => program_line(line, why),
        Bad::Tape { word, at } => pair_line("bad tape: word ", u64::from(word), ", item ", at, ""),
        Bad::System { at, why } => container_line("bad system: byte ", at, why),
        Bad::Witness { at, why } => container_line("bad witness: byte ", at, why),
        Bad::Image { len } => number_line("bad image: ", len, " bytes"),
        Bad::Limit { what, has, most } => limit_line(what, has, most),
    }
}

/// The line of a trial, without its end.
fn trial_line(trial: Trial) -> Line
    ensures text { result.bytes ≡ trial_text trial }
    ensures room { array_string_len result < LINE_BYTES }
{
    let (steps, wires) = (u64::from(trial.steps), u64::from(trial.wires));
    let mut line = pair_line("trial: steps ", steps, ", wires ", wires, ", constraints ");
    push_number(&mut line, u64::from(trial.constraints));
    line.push_str(", sum ");
    push_number(&mut line, trial.sum);
    line.push_str(", satisfied ");
    push_number(&mut line, u64::from(trial.satisfied));
    line
}

/// A line with its line feed.
fn ended(mut line: Line) -> Line
    requires { array_string_len line < LINE_BYTES }
    ensures { result.bytes ≡ line.bytes ++ 10 ∷ [] }
{
    line.push('\n');
    line
}

/// The line of an end and its line feed.
pub(crate) fn printed_line(ending: Ending) -> Option<Line>
    ensures { Reads (λ line. line.bytes) result (says ending) }
{
    match ending {
        Ending::Refused(why) => Some(ended(refusal_line(why))),
        Ending::Stopped(Stop::Contents(bad)) => Some(ended(bad_line(bad))),
        Ending::Stopped(_) | Ending::Finished(Finish::Quiet) => None,
        Ending::Finished(Finish::Run(end)) => Some(ended(end_line(end))),
        Ending::Finished(Finish::NoRun(end)) => Some(ended(no_run_line(end))),
        Ending::Finished(Finish::NotARun(why)) => Some(ended(not_run_line(why))),
        Ending::Finished(Finish::Verdict(verdict)) => Some(ended(verdict_line(verdict))),
        Ending::Finished(Finish::Trial(trial)) => Some(ended(trial_line(trial))),
    }
}
