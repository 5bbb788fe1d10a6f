//! The labels of a text, and their addresses.
ghost use Rattle.std.specs.Prelude.{◌≡◌, ℕ, List, IfOk, OnOk, if◌then◌else◌};
ghost use Rattle.std.specs.Option.{option_map, option_or};
ghost use Rattle.std.specs.Str.{bytes_eq};
ghost use Rattle.tv_asm.specs.Labels.{says_instruction, says_label};
ghost use Rattle.tv_asm.specs.Text.{lines};
ghost use Rattle.tv_word.specs.Widths.{IsWidth};
ghost use Rattle.tv_asm.specs.Views.{AreLabelsOf, address_in, is_earlier, place_in, said_by};

use crate::line::{Statement, code_of};
use crate::text::next_line;
use std::alloc::{AllocError, Global};
use std::collections::BTreeMap;
use tv_word::arithmetic::sum;

/// Where a label is defined first, and the address that it has.
#[derive(Clone, Copy)]
pub(crate) struct Place {
    pub(crate) line: u64,
    pub(crate) address: u32,
}

/// The labels of a text, each with its place.
#[derive(Drop)]
pub(crate) struct Labels<'a> {
    places: BTreeMap<&'a [u8], Place>,
}

impl<'a> Labels<'a> {
    /// Returns the labels of all lines of a text. Whatever the labels are, takes the time that it
    /// takes to compare each of them with a logarithm of their number of others.
    pub(crate) fn of<const W: u32>(alloc: Global, text: &'a [u8]) -> Result<Labels<'a>, AllocError>
        requires { IsWidth W }
        ensures { IfOk result (λ labels. AreLabelsOf W labels (lines text.now)) }
    {
        let mut labels = Labels {
            places: BTreeMap::new(alloc),
        };
        let mut place = Place {
            line: 0,
            address: 0,
        };
        let mut rest = text;
        while let Some((line, remaining)) = next_line(rest) {
            place.line += 1;
            let statement = Statement::of(code_of(line));
            labels.note(statement, place)?;
            if has_instruction(statement) {
                place.address = sum::<W>(place.address, W / 4);
            }
            rest = remaining;
        }
        Ok(labels)
    }

    /// Notes the label that a line defines.
    fn note(&mut self, statement: Option<Statement<'a>>, place: Place) -> Result<(), AllocError>
        ensures { OnOk result ((name : List ℕ) → place_in self.new name
            ≡ option_or (place_in self.old name) (if says_label name
            (option_map said_by statement.entry) then Some place else None)) }
    {
        if let Some(label) = statement.and_then(|statement| statement.label) {
            self.define(label, place)?;
        }
        Ok(())
    }

    /// Notes a label's place, unless the label has one already.
    fn define(&mut self, label: &'a [u8], place: Place) -> Result<(), AllocError>
        ensures { OnOk result ((name : List ℕ) → place_in self.new name
            ≡ option_or (place_in self.old name) (if bytes_eq label.now name then Some place
            else None)) }
    {
        self.places.entry(label)?.or_insert(place);
        Ok(())
    }

    /// Returns the address of a label; `None` for a label that no line defines.
    pub(crate) fn address(&self, name: &[u8]) -> Option<u32>
        ensures { result ≡ address_in self.now name.now }
    {
        self.places.get(name).map(|place| place.address)
    }

    /// Returns whether a line before this one defines the label.
    pub(crate) fn is_earlier(&self, name: &[u8], line: u64) -> bool
        ensures { result ≡ is_earlier self.now line name.now }
    {
        self.places.get(name).is_some_and(|place| place.line < line)
    }
}

/// Returns whether a line has an instruction, good or bad.
fn has_instruction(statement: Option<Statement<'_>>) -> bool
    ensures { result ≡ says_instruction (option_map said_by statement.entry) }
{
    statement.is_none_or(|statement| !statement.instruction.is_empty())
}
