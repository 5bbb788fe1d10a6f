//! A shrunk system, written to a file.
ghost use Rattle.std.specs.Prelude.{◌≡◌, ◌*◌, ◌+◌, ◌-◌, ◌≤◌, ◌<◌, ◌^◌, length};
ghost use Rattle.std.specs.List.{filter_map};
ghost use Rattle.tv_core.specs.Meanings.{terms_in};
ghost use Rattle.tv_shrink.specs.Tidy.{AreWithin};
ghost use Rattle.tv_shrink.specs.Output.{Writes};

use crate::emission::{make_wires, put_rows};
use crate::row::Row;
use crate::rows::Rows;
use crate::shrunk::Shrunk;
use tv_core::{Counts, SinkFault};
use tv_files::Files;
use tv_r1cs_write::StreamSink;

/// How many constraints were not dropped, and how many terms they have.
#[derive(Clone, Copy)]
pub(crate) struct Tally {
    constraints: u32,
    pub(crate) terms: u64,
}

impl Tally {
    // Counts one more constraint.
    fn add(&mut self, row: &Row<'_>)
        requires constraints { self.old.constraints < 2 ^ 32 - 1 }
        requires terms { self.old.terms < 2 ^ 60 }
        requires short { length row.now.a + (length row.now.b + length row.now.c) ≤ 384 }
        ensures constraints { self.new.constraints ≡ self.old.constraints + 1 }
        ensures terms { self.new.terms ≡ self.old.terms
            + (length row.now.a + length row.now.b + length row.now.c) }
    {
        self.constraints += 1;
        self.terms += (row.a.len() + row.b.len() + row.c.len()) as u64;
    }
}

/// Counts the constraints that were not dropped, and their terms.
pub(crate) fn count_rows(rows: &Rows, wires: u32) -> Tally
    requires few { length rows.now < 2 ^ 32 }
    requires within { AreWithin wires rows.now }
    ensures constraints { result.constraints ≡ length (filter_map (λ row. row) rows.now) }
    ensures terms { result.terms ≡ terms_in (filter_map (λ row. row) rows.now) }
    ensures bound { result.terms ≤ 384 * length rows.now }
    ensures few { result.constraints ≤ length rows.now }
{
    let mut tally = Tally {
        constraints: 0,
        terms: 0,
    };
    for at in 0..rows.len() {
        if let Some(row) = rows.get(at) {
            tally.add(&row);
        }
    }
    tally
}

impl Shrunk {
    /// Writes the system to an r1cs file, whose head has the number of the old system's wires as
    /// number of labels; each wire's label is its old number.
    ///
    /// After a refusal the name is as it was, or has a first part of the bytes. Takes no memory.
    pub fn write<D: Files>(&self, files: &mut D, name: &str) -> Result<(), SinkFault>
        ensures { Writes (D.seen files.old) (D.seen files.new) name.now self.now result }
    {
        let tally = count_rows(&self.rows, self.kept);
        let counts = Counts {
            wires: self.kept,
            outputs: self.outputs,
            inputs: self.inputs,
            constraints: tally.constraints,
            terms: tally.terms,
        };
        let private = counts.wires - (1 + self.outputs + self.inputs);
        let labels = u64::from(self.wires);
        let mut sink = match StreamSink::begin_labelled(files, name, counts, labels) {
            Ok(sink) => sink,
            Err(refused) => return Err(refused.why),
        };
        make_wires(&mut sink, private);
        put_rows(&mut sink, &self.rows)?;
        sink.finish_without(&self.gone)
    }
}
