//! A program and an assignment of its system, each read and judged before the next, and the run
//! that the assignment has.
ghost use Rattle.std.specs.Prelude.{◌≡◌, [], ◌∷◌, Ok, IfOk, IfErr};
ghost use Rattle.tv_extract.specs.Extraction.{IsFaultOf};
ghost use Rattle.tv_plan.specs.Finds.{Finds, reading};
ghost use Rattle.tv_plan.specs.Plan.{named};
ghost use Rattle.tv_plan.specs.Programs.{HasImage};
ghost use Rattle.tv_top.specs.Assignment.{assigned_flaws, kept_in, kept_of, kept_run, not_run};
ghost use Rattle.tv_top.specs.Build.{program_system};

use std::alloc::Global;
use tv_extract::{ExtractFault, NotRun, Run, extract};
use tv_files::Files;
use tv_layout::wires;
use tv_plan::{
    Finish, Place, Program, Steps, Stop, TapeWords, Width, read_first_witness, read_program,
};
use tv_stages::Net;
use tv_wtns::FirstValues;

/// A program, and of an assignment as many values as the program's system has wires.
#[derive(Drop)]
pub(crate) struct Assignment {
    pub(crate) program: Program,
    pub(crate) first: FirstValues,
}

/// How many wires the system of a program has.
#[tactic(auto, unfolding(crate::specs::Build::program_system))]
fn wires_of(program: &Program, n: &TapeWords, t: &Steps, net: Net) -> u32
    requires { HasImage program.now }
    ensures { result ≡ (program_system net n.now t.now program.now).wires }
{
    let image = program.words.as_slice();
    let (n, t) = (n.number(), t.number());
    match program.width {
        Width::Bits16 => wires::<16>(image, n, t, net),
        Width::Bits32 => wires::<32>(image, n, t, net),
    }
}

/// A program, and then an assignment, of whose values as many are kept as the program's system has
/// wires.
pub(crate) fn read_assigned<D: Files>(
    alloc: Global,
    files: &mut D,
    text: Place<'_>,
    n: &TapeWords,
    t: &Steps,
    net: Net,
    witness: Place<'_>,
) -> Result<Assignment, Stop>
    ensures found { Finds kept_in
        (reading (text.entry.word ∷ witness.entry.word ∷ []) assigned_flaws
        (kept_of net n.now t.now (named text.entry) (named witness.entry)))
        (D.seen files.old) (D.seen files.new) result }
    ensures fits { IfOk result (λ assigned. HasImage assigned.program) }
{
    let program = read_program(alloc, files, text)?;
    let wires = wires_of(&program, n, t, net);
    let first = read_first_witness(alloc, files, witness, wires)?;
    Ok(Assignment { program, first })
}

/// The run that an assignment has, or why it has none: first of all because it has more values than
/// the program's system has wires, or fewer.
#[tactic(auto, using(crate::proofs::AssignmentLaws::kept))]
pub(crate) fn run_of(
    alloc: Global,
    assigned: &Assignment,
    n: &TapeWords,
    t: &Steps,
    net: Net,
) -> Result<Run, ExtractFault>
    requires { HasImage assigned.now.program }
    ensures run { IfOk result (λ run. kept_run net n.now t.now (kept_in assigned.now) ≡ Ok run) }
    ensures fault { IfErr result (IsFaultOf (kept_run net n.now t.now (kept_in assigned.now))) }
{
    let has = u64::from(assigned.first.count);
    let wants = u64::from(wires_of(&assigned.program, n, t, net));
    if has != wants {
        return Err(ExtractFault::WireCount { has, wants });
    }
    let image = assigned.program.words.as_slice();
    let values = assigned.first.values.as_slice();
    let (n, t) = (n.number(), t.number());
    match assigned.program.width {
        Width::Bits16 => extract::<16>(alloc, image, n, t, net, values),
        Width::Bits32 => extract::<32>(alloc, image, n, t, net, values),
    }
}

/// The end where an assignment has no run, unless memory ran out.
pub(crate) fn not_run(fault: ExtractFault) -> Result<Finish, Stop>
    ensures { result ≡ not_run fault }
{
    let why = match fault {
        ExtractFault::WireCount { has, wants } => NotRun::WireCount { has, wants },
        ExtractFault::WideWire { at } => NotRun::WideWire { at },
        ExtractFault::NotARun { end } => NotRun::NotARun { end },
        ExtractFault::Memory => return Err(Stop::Memory),
    };
    Ok(Finish::NotARun(why))
}
