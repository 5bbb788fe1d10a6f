//! A taker of values that writes them to a file.

ghost use Rattle.std.specs.Prelude.{◌≡◌, [], false, is_err, Ok, IfOk, IfErr};
ghost use Rattle.tv_container.specs.Written.{NotCreated};
ghost use Rattle.tv_files.specs.Calls.{Creates};
ghost use Rattle.tv_wtns.specs.Bytes.{head_bytes};
ghost use Rattle.tv_wtns.specs.Takers.{begun, taker_giving, taker_of, Finishes, Stands};

use crate::assignment::{HEADER_BYTES, WTNS};
use tv_container::{Buffer, NotBegun, Pending, long_bytes, short_bytes, sink_fault};
use tv_core::{F, Put, Values};
use tv_files::Files;

/// A taker that writes each value to a wtns file, which it borrows.
///
/// It allocates nothing: it holds at most 8,192 bytes, and appends them by 4,096. The file's head
/// counts the values, so their number is passed before the first.
#[derive(Drop)]
pub struct FileValues<'a, D: Files> {
    pub(crate) files: &'a mut D,
    pub(crate) name: &'a str,
    pub(crate) pending: Pending,
    pub(crate) count: u32,
}

impl<'a, D: Files> FileValues<'a, D> {
    /// Creates the file of an assignment of this many values.
    ///
    /// A refusal returns the files; the name is then as it was, or has no bytes.
    pub fn begin(
        files: &'a mut D,
        name: &'a str,
        count: u32,
    ) -> Result<FileValues<'a, D>, NotBegun<'a, D>>
        ensures ok_same { IfOk result (λ taker. taker.files.ghost_name ≡ files.entry.ghost_name) }
        ensures ok_creates { IfOk result (λ taker. Creates (D.seen files.old)
            (D.seen taker.files.now) name.now (Ok tt)) }
        ensures name { IfOk result (λ taker. taker.name.now ≡ name.now) }
        ensures begun { IfOk result (λ taker. (taker_of D.seen taker).progress ≡ begun count) }
        ensures stands { IfOk result (λ taker. Stands (taker_of D.seen taker) []) }
        ensures err_same { IfErr result (λ refused. refused.files.ghost_name
            ≡ files.entry.ghost_name) }
        ensures err_creates { IfErr result (λ refused. NotCreated (D.seen files.old)
            (D.seen refused.files.now) name.now refused.why) }
    {
        match files.create(name) {
            Ok(()) => Ok(FileValues {
                files,
                name,
                pending: Pending::begin(head(count)),
                count,
            }),
            Err(why) => Err(NotBegun {
                files,
                why: sink_fault(why),
            }),
        }
    }

    /// Appends what is still held: the file is that of the values passed. None of them was refused.
    ///
    /// After a refusal the file has a first part of these bytes.
    pub fn finish(self) -> Put<()>
        requires whole { is_err (taker_of D.seen self).progress.outcome ≡ false }
        ensures { Finishes (taker_of D.seen self.entry) (D.seen self.exit.0.now) result }
    {
        let FileValues {
            files,
            name,
            mut pending,
            ..
        } = self;
        pending.flush(files, name);
        pending.outcome
    }
}

// All that stands before the values.
fn head(count: u32) -> Buffer
    ensures { result ≡ head_bytes count }
{
    let mut buffer = Buffer::new();
    buffer.push_front(WTNS.magic, WTNS.version, WTNS.singles);
    buffer.push_section(1, HEADER_BYTES);
    buffer.push_field();
    buffer.push(&short_bytes(count));
    buffer.push_section(2, 8 * u64::from(count));
    buffer
}

impl<D: Files> Values for FileValues<'_, D> {
    ghost giving = { taker_giving (taker_of D.seen) };

    fn give(&mut self, value: F) -> Put<()> {
        self.pending
            .put(self.files, self.name, &long_bytes(value.number()));
        self.pending.outcome
    }

    ghost unbroken = { λ taker values stands. stands.whole };
}
