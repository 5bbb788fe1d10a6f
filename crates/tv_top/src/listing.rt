//! `listing TEXT N T WITNESS BY OUT`: the lines of memory and tapes that an assignment of a
//! program's system has.
ghost use Rattle.std.specs.Prelude.{◌≡◌, ◌≤◌, [], ◌∷◌, IfOk, refl};
ghost use Rattle.tv_plan.specs.Ends.{Completes};
ghost use Rattle.tv_plan.specs.Plan.{named};
ghost use Rattle.tv_plan.specs.Programs.{HasImage};
ghost use Rattle.tv_top.specs.Assignment.{assigned_in};
ghost use Rattle.tv_top.specs.Listing.{assigned_text, by_word, lines_written};
ghost use Rattle.tv_top.specs.Listing.{listing_asks, listing_form};

use crate::assignment::{Assignment, not_run, read_assigned, run_of};
use crate::words::{granted, number};
use std::alloc::{AllocError, Global};
use tv_extract::Run;
use tv_files::Files;
use tv_listing::{By, listing};
use tv_plan::{Finish, Job, Place, Refusal, Steps, Stop, TapeWords, Width, write_bytes};
use tv_stages::Net;

/// The words of `listing`.
#[derive(Drop)]
pub(crate) struct ListingArgs<'a> {
    pub(crate) text: Place<'a>,
    /// How many words the tape has.
    pub(crate) n: TapeWords,
    /// The most steps.
    pub(crate) t: Steps,
    pub(crate) witness: Place<'a>,
    pub(crate) by: By,
    pub(crate) out: Place<'a>,
}

impl<'a> Job<'a> for ListingArgs<'a> {
    ghost form = { listing_form };

    ghost asks = { listing_asks };

    fn read(words: &'a [String]) -> Result<ListingArgs<'a>, Refusal> {
        let [text, n, t, witness, by, out] = words else {
            return Err(Refusal::Usage);
        };
        let (Some(by), Some(n), Some(t)) = (by_word(by.as_str()), number(n), number(t)) else {
            return Err(Refusal::Usage);
        };
        let (text, witness) = (Place::at(1, text.as_str()), Place::at(4, witness.as_str()));
        let out = Place::at(6, out.as_str());
        let (n, t) = granted(&[text, witness], &[out], n, t)?;
        Ok(ListingArgs {
            text,
            n,
            t,
            witness,
            by,
            out,
        })
    }

    fn perform<D: Files>(self, alloc: Global, files: &mut D) -> Result<Finish, Stop> {
        let (n, t, net) = (&self.n, &self.t, Net::Benes);
        let assigned = read_assigned(alloc, files, self.text, n, t, net, self.witness)?;
        match run_of(alloc, &assigned, n, t, net) {
            Ok(run) => write_lines(alloc, files, &assigned, &run, &self),
            Err(fault) => not_run(fault),
        }
    }

    ghost apart = { λ _. refl };
}

/// The order that a word names.
fn by_word(word: &str) -> Option<By>
    ensures { result ≡ by_word word.now }
{
    match word {
        "time" => Some(By::Time),
        "cell" => Some(By::Cell),
        _ => None,
    }
}

/// The text of the lines of an assignment up to a step.
#[tactic(auto, unfolding(crate::specs::Listing::assigned_text))]
fn lines_text(
    alloc: Global,
    assigned: &Assignment,
    step: u64,
    args: &ListingArgs<'_>,
) -> Result<Vec<u8>, AllocError>
    requires image { HasImage assigned.now.program }
    requires within { step ≤ args.now.t }
    ensures { IfOk result (λ text. text.items ≡
        assigned_text args.now.by args.now.n args.now.t step (assigned_in assigned.now)) }
{
    let image = assigned.program.words.as_slice();
    let values = assigned.first.values.as_slice();
    let (n, t) = (args.n.number(), args.t.number());
    match assigned.program.width {
        Width::Bits16 => listing::<16>(alloc, image, n, t, step, values, args.by),
        Width::Bits32 => listing::<32>(alloc, image, n, t, step, values, args.by),
    }
}

/// Writes the lines of an assignment up to the step that answers.
fn write_lines<D: Files>(
    alloc: Global,
    files: &mut D,
    assigned: &Assignment,
    run: &Run,
    args: &ListingArgs<'_>,
) -> Result<Finish, Stop>
    requires image { HasImage assigned.now.program }
    requires within { run.now.step ≤ args.now.t }
    ensures { Completes (named args.now.out ∷ [])
        (lines_written args.now.by args.now.n args.now.t (assigned_in assigned.now) run.now)
        (D.seen files.old) (D.seen files.new) result }
{
    let text = lines_text(alloc, assigned, run.step, args)?;
    write_bytes(files, args.out, &text)?;
    Ok(Finish::Quiet)
}
