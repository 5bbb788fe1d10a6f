//! Whole files, over any `Files`: read into memory, or written from it.
ghost use Rattle.std.specs.Prelude.{◌≡◌, ℕ, ◌≤◌, length, Some, None, IfOk, OnOk, OnErr};
ghost use Rattle.tv_files.specs.Outside.{OnlyReads, OnlyWrites, RanOut, SameCounts, WhereKnown};
ghost use Rattle.tv_files.specs.Outside.{MissesOnly};
ghost use Rattle.tv_files.specs.Whole.{IsLonger, HasBytes, HasPart, Leaves};
ghost use Rattle.tv_word.specs.Counts.{Rose};

use crate::calls::{FileRefusal, Files};
use crate::outcome::Slurp;
use std::alloc::Global;

/// The most bytes that one call reads or appends.
const PIECE: usize = 4096;

/// Reads the whole file, by calls of at most 4,096 bytes, until one returns none or more than
/// `most` bytes came.
///
/// `Ok` is the contents of the name, which are at most `most` bytes. `TooLong` comes exactly where
/// the name has more than that: byte number `most + 1` was read. `Fault` comes only where the count
/// of faults of reading rose, and a missing name is such a fault. `Memory` is an allocation
/// failure, here or outside. Nothing outside is changed but the counts, and these only where it
/// ends by `Fault` or `Memory`.
pub fn slurp<D: Files>(
    alloc: Global,
    files: &mut D,
    name: &str,
    most: u64,
) -> Result<Vec<u8>, Slurp>
    ensures whole { IfOk result (λ v. WhereKnown (D.seen files.old)
        (λ held. held name.now ≡ Some v.items)) }
    ensures short { IfOk result (λ v. length v.items ≤ most) }
    ensures longer { (limit : ℕ) → result ≡ Err (Slurp.TooLong limit) →
        (limit ≡ most) × WhereKnown (D.seen files.old) (λ held. IsLonger most (held name.now)) }
    ensures missing { WhereKnown (D.seen files.old)
        (λ held. held name.now ≡ None → result ≡ Err Slurp.Fault) }
    ensures only { OnlyReads (D.seen files.old) (D.seen files.new) }
    ensures leaves { Leaves result (D.seen files.old) (D.seen files.new) }
    ensures there { MissesOnly (D.seen files.old) (D.seen files.new) name.now }
{
    let mut contents = Vec::new(alloc);
    let mut piece = [0u8; PIECE];
    loop {
        let count = files.read(name, contents.len() as u64, &mut piece)?;
        if count == 0 {
            return Ok(contents);
        }
        if count as u64 > most - contents.len() as u64 {
            return Err(Slurp::TooLong { most });
        }
        contents.extend_from_slice(&piece[..count])?;
    }
}

/// Writes the whole file of this name: creates it, then appends pieces of 4,096 bytes, of which the
/// last may be shorter, and none for no bytes.
///
/// After a refusal the name is as it was, or has a first part of the bytes. Nothing else outside is
/// changed but the counts, and `absent` is not.
pub fn write_file<D: Files>(files: &mut D, name: &str, bytes: &[u8]) -> Result<(), FileRefusal>
    ensures whole { OnOk result (HasBytes (D.seen files.old) (D.seen files.new) name.now
        bytes.now) }
    ensures part { OnErr result (HasPart (D.seen files.old) (D.seen files.new) name.now bytes.now) }
    ensures failed { result ≡ Err FileRefusal.Failed →
        Rose (D.seen files.old).write_faults (D.seen files.new).write_faults }
    ensures memory { result ≡ Err FileRefusal.Memory
        → RanOut (D.seen files.old) (D.seen files.new) }
    ensures only { OnlyWrites (D.seen files.old) (D.seen files.new) }
    ensures counts { OnOk result (SameCounts (D.seen files.old) (D.seen files.new)) }
{
    files.create(name)?;
    for piece in bytes.chunks(PIECE) {
        files.append(name, piece)?;
    }
    Ok(())
}
