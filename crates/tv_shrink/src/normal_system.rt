//! Reading a system's constraints, made normal.

ghost use Rattle.std.specs.Prelude.{IfOk, MatchResult};
ghost use Rattle.tv_container.specs.Reading.{Known};
ghost use Rattle.tv_shrink.specs.Answers.{HaltsBy, IsReady, IsRead, IsSmall, FaultMeans};

use crate::fault::ShrinkFault;
use crate::rows::Rows;
use std::alloc::Global;
use tv_core::Counts;
use tv_files::Files;
use tv_r1cs_read::{Row, SystemReader};

/// A system whose combinations are normal.
#[derive(Drop)]
pub(crate) struct NormalSystem {
    pub(crate) rows: Rows,
    pub(crate) counts: Counts,
}

/// Reads a file in which a survey found a system within the limit of terms, its constraints made
/// normal, up to the first combination that is too wide.
///
/// Memory is that of the terms, whatever wires and constraints the file counts: a constraint that
/// holds by constants is left out.
pub(crate) fn read<D: Files>(
    alloc: Global,
    files: &mut D,
    name: &str,
) -> Result<NormalSystem, ShrinkFault>
    requires small { Known (D.seen files.old) name.now IsSmall }
    ensures ready { IfOk result (λ read. IsReady read.counts read.rows) }
    ensures gives { Known (D.seen files.old) name.now (λ file. MatchResult result
        (λ read. IsRead read.counts read.rows file) (λ fault. FaultMeans fault file)) }
    ensures looks { HaltsBy (D.seen files.old) (D.seen files.new) name.now result }
{
    let mut reader = match SystemReader::begin(alloc, files, name) {
        Ok(reader) => reader,
        Err(unread) => return Err(ShrinkFault::from(unread.why)),
    };
    let counts = reader.counts();
    let mut rows = Rows::new(alloc);
    let mut row = Row::new(alloc);
    let mut scratch = Vec::new(alloc);
    while reader.next_into(&mut row)? {
        rows.add(&row, &mut scratch)?;
    }
    Ok(NormalSystem { rows, counts })
}
