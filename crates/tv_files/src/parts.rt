//! The parts of files in memory: each takes the fields that it changes.
ghost use Rattle.std.specs.Prelude.{◌≡◌, ◌≤◌, ◌-◌, ◌++◌, min, length, take, drop, OnOk, OnErr, ◌⊎◌};
ghost use Rattle.std.specs.Prelude.{IsTrue};
ghost use Rattle.tv_files.specs.Outside.{with_bytes};
ghost use Rattle.tv_files.specs.MemFiles.{names_in, one_more, raised, is_listed, is_failed};
ghost use Rattle.tv_files.specs.MemFiles.{is_out_of_memory, first_half};

use crate::calls::FileRefusal;
use std::alloc::{AllocError, Global};
use std::collections::BTreeMap;

/// Counts one more; a counter stays at its last value.
pub fn raise(count: &mut u64)
    ensures counted { count.new ≡ one_more count.old }
    ensures later { count.old ≤ count.new }
{
    *count = count.saturating_add(1);
}

/// Counts the call, and returns whether it is to fail.
pub fn next_is_due(calls: &mut u64, failing: &[u64]) -> bool
    ensures counted { calls.new ≡ one_more calls.old }
    ensures due { result ≡ is_listed (one_more calls.old) failing.now }
{
    raise(calls);
    failing.contains(calls)
}

/// Sets the contents of the name to a copy of these bytes. Nothing changes where memory runs out.
pub fn put(
    alloc: Global,
    names: &mut BTreeMap<String, Vec<u8>>,
    name: &str,
    bytes: &[u8],
) -> Result<(), AllocError>
    ensures ok { OnOk result (names_in names.new
        ≡ with_bytes name.now bytes.now (names_in names.old)) }
    ensures err { OnErr result (names_in names.new ≡ names_in names.old) }
{
    let key = String::from_str(alloc, name)?;
    let value = Vec::from_slice(alloc, bytes)?;
    names.insert(key, value)?;
    Ok(())
}

/// Copies what the bytes have from place `at` on into the front of `into`, as much as fits.
pub fn copy_from(bytes: &[u8], at: u64, into: &mut [u8]) -> usize
    ensures count { result ≡ min (length into.old) (length bytes.now - at) }
    ensures copied { into.new ≡ take result (drop at bytes.now) ++ drop result into.old }
{
    if at >= bytes.len() as u64 {
        return 0;
    }
    let rest = &bytes[at as usize..];
    let count = rest.len().min(into.len());
    into[..count].copy_from_slice(&rest[..count]);
    count
}

/// Adds the bytes at the end, or where the call is to fail the first half of them.
pub fn add(
    to: &mut Vec<u8>,
    bytes: &[u8],
    due: bool,
    faults: &mut u64,
    wants: &mut u64,
) -> Result<(), FileRefusal>
    ensures ok { OnOk result (to.new.items ≡ to.old.items ++ bytes.now) }
    ensures failed { is_failed result ≡ due }
    ensures refused { OnErr result ((to.new.items ≡ to.old.items)
        ⊎ (IsTrue due × (to.new.items ≡ to.old.items ++ first_half bytes.now))) }
    ensures faults { faults.new ≡ raised (is_failed result) faults.old }
    ensures wants { wants.new ≡ raised (is_out_of_memory result) wants.old }
    ensures faults_later { faults.old ≤ faults.new }
    ensures wants_later { wants.old ≤ wants.new }
{
    if due {
        let _ = to.extend_from_slice(&bytes[..bytes.len() / 2]);
        raise(faults);
        return Err(FileRefusal::Failed);
    }
    if to.extend_from_slice(bytes).is_err() {
        raise(wants);
        return Err(FileRefusal::Memory);
    }
    Ok(())
}
