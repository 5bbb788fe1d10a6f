//! Constraints and labels, written after the head of a file.
ghost use Rattle.std.specs.Prelude.{◌≡◌, ◌*◌, ◌++◌, []};
ghost use Rattle.std.specs.List.Sorted.{IsStrictlyIncreasing};
ghost use Rattle.tv_container.specs.Bytes.{section_head};
ghost use Rattle.tv_container.specs.Taking.{TakesBytes};
ghost use Rattle.tv_r1cs_write.specs.Bytes.{constraint_bytes, label_bytes};
ghost use Rattle.tv_r1cs_write.specs.Bytes.{others};
ghost use Rattle.tv_r1cs_write.specs.Labels.{labels_of, HasOrder};
ghost use Rattle.tv_r1cs_write.specs.Narrow.{AreShort};

use tv_container::{Pending, long_bytes};
use tv_core::Lc;
use tv_files::Files;

// Writes a constraint: its three combinations, each as how many terms it has, and the terms.
pub(crate) fn put_row<D: Files>(
    pending: &mut Pending,
    files: &mut D,
    name: &str,
    a: &Lc,
    b: &Lc,
    c: &Lc,
)
    ensures took { TakesBytes name.now (D.seen files.old) pending.old (D.seen files.new) pending.new
        (constraint_bytes (record { a = a.now; b = b.now; c = c.now })) }
    ensures short { AreShort (record { a = a.now; b = b.now; c = c.now }) }
{
    pending.put_terms(files, name, a.terms());
    pending.put_terms(files, name, b.terms());
    pending.put_terms(files, name, c.terms());
}

/// The labels of a system's wires, in order.
#[derive(Clone, Copy)]
pub(crate) enum Labels<'a> {
    /// These numbers.
    Listed(&'a [u32]),
    /// The numbers below `count`, but for these, which rise.
    Others { count: u64, but: &'a [u32] },
}

/// Writes section 3, with these labels, one for each wire, and what is still held.
pub(crate) fn write_labels<D: Files>(
    pending: &mut Pending,
    files: &mut D,
    name: &str,
    wires: u32,
    labels: &Labels<'_>,
)
    requires { HasOrder labels.now }
    ensures took { TakesBytes name.now (D.seen files.old) pending.old (D.seen files.new) pending.new
        (section_head 3 (8 * wires) ++ label_bytes (labels_of labels.now)) }
    ensures none { pending.new.buffer ≡ [] }
{
    pending.put_pair(files, name, 3, 8 * u64::from(wires));
    put_labels(pending, files, name, labels);
    pending.flush(files, name);
}

// Writes labels.
fn put_labels<D: Files>(pending: &mut Pending, files: &mut D, name: &str, labels: &Labels<'_>)
    requires { HasOrder labels.now }
    ensures { TakesBytes name.now (D.seen files.old) pending.old (D.seen files.new) pending.new
        (label_bytes (labels_of labels.now)) }
{
    match labels {
        Labels::Listed(list) => put_listed(pending, files, name, list),
        Labels::Others { count, but } => put_others(pending, files, name, *count, but),
    }
}

// Writes these labels.
fn put_listed<D: Files>(pending: &mut Pending, files: &mut D, name: &str, labels: &[u32])
    ensures { TakesBytes name.now (D.seen files.old) pending.old (D.seen files.new) pending.new
        (label_bytes labels.now) }
{
    for label in labels {
        pending.put(files, name, &long_bytes(u64::from(*label)));
    }
}

// Writes the numbers below `count` as labels, but for these. Stops at a refusal, after which
// nothing is appended.
fn put_others<D: Files>(pending: &mut Pending, files: &mut D, name: &str, count: u64, but: &[u32])
    requires { IsStrictlyIncreasing but.now }
    ensures { TakesBytes name.now (D.seen files.old) pending.old (D.seen files.new) pending.new
        (label_bytes (others count but.now)) }
{
    let mut next = 0;
    for label in 0..count {
        if pending.outcome.is_err() {
            return;
        }
        if next < but.len() && u64::from(but[next]) == label {
            next += 1;
        } else {
            pending.put(files, name, &long_bytes(label));
        }
    }
}
