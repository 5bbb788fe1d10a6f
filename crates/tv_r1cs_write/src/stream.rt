//! The sink that writes to a file.
ghost use Rattle.std.specs.Prelude.{◌≡◌, ◌+◌, ◌≤◌, ◌<◌, ◌^◌, false, is_err, length, Ok};
ghost use Rattle.std.specs.Prelude.{IfOk, IfErr};
ghost use Rattle.std.specs.List.{range_with_len};
ghost use Rattle.std.specs.List.Sorted.{IsStrictlyIncreasing};
ghost use Rattle.tv_files.specs.Calls.{Creates};
ghost use Rattle.tv_r1cs_write.specs.Bytes.{others};
ghost use Rattle.tv_r1cs_write.specs.Streams.{stream, stream_meaning, Begins, Finishes};
ghost use Rattle.tv_container.specs.Written.{NotCreated};

use crate::head::head;
use crate::parts::{Labels, put_row, write_labels};
use tv_container::{NotBegun, Pending, sink_fault};
use tv_core::{Counts, Lc, Put, Sink, Wire};
use tv_files::Files;

/// A sink that writes each constraint to an r1cs file, which it borrows.
///
/// It allocates nothing: it holds at most 8,192 bytes, and appends them by 4,096. The file's head
/// counts the constraints and their terms, so both numbers are passed before the first constraint.
#[derive(Drop)]
pub struct StreamSink<'a, D: Files> {
    pub(crate) files: &'a mut D,
    pub(crate) name: &'a str,
    pub(crate) pending: Pending,
    pub(crate) counts: Counts,
    pub(crate) labels: u64,
    pub(crate) wires: u32,
    pub(crate) constraints: u32,
}

impl<'a, D: Files> StreamSink<'a, D> {
    /// Creates the file of a system with these counts, whose wires have the labels 0, 1, ..
    ///
    /// The next wire is the first after the public ones. A refusal returns the files; the name
    /// is then as it was, or has no bytes.
    pub fn begin(
        files: &'a mut D,
        name: &'a str,
        counts: Counts,
    ) -> Result<StreamSink<'a, D>, NotBegun<'a, D>>
        requires wires { 1 + counts.outputs + counts.inputs ≤ counts.wires }
        requires terms { counts.terms < 2 ^ 60 }
        ensures ok_same { IfOk result (λ sink. sink.files.ghost_name ≡ files.entry.ghost_name) }
        ensures ok_creates { IfOk result (λ sink. Creates (D.seen files.old) (D.seen sink.files.now)
            name.now (Ok tt)) }
        ensures begins { IfOk result (λ sink. Begins name.now counts counts.wires
            (stream D.seen sink)) }
        ensures err_same { IfErr result (λ refused. refused.files.ghost_name
            ≡ files.entry.ghost_name) }
        ensures err_creates { IfErr result (λ refused. NotCreated (D.seen files.old)
            (D.seen refused.files.now) name.now refused.why) }
    {
        StreamSink::begin_labelled(files, name, counts, u64::from(counts.wires))
    }

    /// Like `begin`, but the head has this number of labels: the number of wires of the original
    /// system.
    pub fn begin_labelled(
        files: &'a mut D,
        name: &'a str,
        counts: Counts,
        labels: u64,
    ) -> Result<StreamSink<'a, D>, NotBegun<'a, D>>
        requires wires { 1 + counts.outputs + counts.inputs ≤ counts.wires }
        requires terms { counts.terms < 2 ^ 60 }
        ensures ok_same { IfOk result (λ sink. sink.files.ghost_name ≡ files.entry.ghost_name) }
        ensures ok_creates { IfOk result (λ sink. Creates (D.seen files.old) (D.seen sink.files.now)
            name.now (Ok tt)) }
        ensures begins { IfOk result (λ sink. Begins name.now counts labels (stream D.seen sink)) }
        ensures err_same { IfErr result (λ refused. refused.files.ghost_name
            ≡ files.entry.ghost_name) }
        ensures err_creates { IfErr result (λ refused. NotCreated (D.seen files.old)
            (D.seen refused.files.now) name.now refused.why) }
    {
        match files.create(name) {
            Ok(()) => Ok(StreamSink {
                files,
                name,
                pending: Pending::begin(head(&counts, labels)),
                wires: 1 + counts.outputs + counts.inputs,
                counts,
                labels,
                constraints: 0,
            }),
            Err(why) => Err(NotBegun {
                files,
                why: sink_fault(why),
            }),
        }
    }

    /// Writes the labels 0, 1, .. of the wires, and what is still held: the file is that of the
    /// list. No constraint was refused before.
    ///
    /// After a refusal the file has a first part of these bytes.
    pub fn finish(self) -> Put<()>
        requires whole { is_err (stream D.seen self).progress.outcome ≡ false }
        ensures { Finishes (stream D.seen self.entry) (D.seen self.exit.0.now)
            (range_with_len 0 self.entry.counts.wires) result }
    {
        let StreamSink {
            files,
            name,
            mut pending,
            counts,
            ..
        } = self;
        let labels = Labels::Others {
            count: u64::from(counts.wires),
            but: &[],
        };
        write_labels(&mut pending, files, name, counts.wires, &labels);
        pending.outcome
    }

    /// Writes these labels, one for each wire, and what is still held. Otherwise as `finish`.
    pub fn finish_labelled(self, labels: &[u32]) -> Put<()>
        requires whole { is_err (stream D.seen self).progress.outcome ≡ false }
        requires each { length labels.now ≡ self.counts.wires }
        ensures { Finishes (stream D.seen self.entry) (D.seen self.exit.0.now) labels.now result }
    {
        let StreamSink {
            files,
            name,
            mut pending,
            counts,
            ..
        } = self;
        let labels = Labels::Listed(labels);
        write_labels(&mut pending, files, name, counts.wires, &labels);
        pending.outcome
    }

    /// Writes as labels the numbers below how many there are, but for those of a rising list, and
    /// what is still held. Otherwise as `finish`.
    pub fn finish_without(self, gone: &[u32]) -> Put<()>
        requires whole { is_err (stream D.seen self).progress.outcome ≡ false }
        requires rising { IsStrictlyIncreasing gone.now }
        requires labels { length (others self.labels gone.now) ≡ self.counts.wires }
        ensures { Finishes (stream D.seen self.entry) (D.seen self.exit.0.now)
            (others self.entry.labels gone.now) result }
    {
        let StreamSink {
            files,
            name,
            mut pending,
            counts,
            labels,
            ..
        } = self;
        let labels = Labels::Others {
            count: labels,
            but: gone,
        };
        write_labels(&mut pending, files, name, counts.wires, &labels);
        pending.outcome
    }
}

impl<D: Files> Sink for StreamSink<'_, D> {
    ghost meaning = { stream_meaning (stream D.seen) };

    fn wires(&self) -> u32 {
        self.wires
    }

    #[tactic(auto, unfolding(tv_core::specs::Circuits::fresh))]
    fn fresh(&mut self) -> Wire {
        let next = Wire(self.wires);
        self.wires += 1;
        next
    }

    #[tactic(auto, unfolding(tv_core::specs::Circuits::put))]
    fn put(&mut self, a: &Lc, b: &Lc, c: &Lc) -> Put<()> {
        put_row(&mut self.pending, self.files, self.name, a, b, c);
        self.constraints += 1;
        self.pending.outcome
    }

    ghost counted = { λ sink list stands. stands.counted };

    ghost unbroken = { λ sink list stands. stands.whole };
}
