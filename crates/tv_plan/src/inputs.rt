//! A program and the two tapes of its run, each read and judged before the next.
ghost use Rattle.std.specs.Prelude.{[], ◌∷◌, IfOk};
ghost use Rattle.tv_plan.specs.Finds.{Finds, reading};
ghost use Rattle.tv_plan.specs.Inputs.{AreInputs, input_flaws, inputs_of};
ghost use Rattle.tv_plan.specs.Plan.{named};

use crate::place::Place;
use crate::programs::{Program, read_program};
use crate::refusal::{Stop, What};
use crate::tapes::read_words;
use std::alloc::Global;
use tv_core::limits::{AUX_WORDS, TAPE_WORDS};
use tv_files::Files;
use tv_word::Words;

/// A program and the tapes of its run.
#[derive(Drop)]
pub struct Inputs {
    pub program: Program,
    pub tape: Words,
    pub aux: Words,
}

/// A program, and then the two tapes.
pub fn read_inputs<D: Files>(
    alloc: Global,
    files: &mut D,
    text: Place<'_>,
    tape: Place<'_>,
    aux: Place<'_>,
) -> Result<Inputs, Stop>
    ensures found { Finds (λ inputs. inputs)
        (reading (text.entry.word ∷ tape.entry.word ∷ aux.entry.word ∷ [])
        (input_flaws tape.entry.word aux.entry.word)
        (inputs_of (named text.entry) (named tape.entry) (named aux.entry)))
        (D.seen files.old) (D.seen files.new) result }
    ensures fit { IfOk result AreInputs }
{
    let program = read_program(alloc, files, text)?;
    let below = program.width.word_bound();
    let tape = read_words(alloc, files, tape, What::TapeWords, below, TAPE_WORDS)?;
    let aux = read_words(alloc, files, aux, What::AuxWords, below, AUX_WORDS)?;
    Ok(Inputs { program, tape, aux })
}
