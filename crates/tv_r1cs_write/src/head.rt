//! What a file begins with.
ghost use Rattle.std.specs.Prelude.{◌≡◌, ◌+◌, ◌≤◌, ◌<◌, ◌^◌, ◌++◌, length};
ghost use Rattle.tv_r1cs_write.specs.Bytes.{head_bytes, numbers_bytes};

use tv_container::{Buffer, long_bytes, short_bytes};
use tv_core::Counts;
use tv_r1cs_read::{HEADER_BYTES, R1CS, TERM_BYTES};

// All that stands before the constraints.
pub(crate) fn head(counts: &Counts, labels: u64) -> Buffer
    requires { counts.now.terms < 2 ^ 60 }
    ensures { result ≡ head_bytes counts.now labels }
{
    let mut buffer = Buffer::new();
    buffer.push_front(R1CS.magic, R1CS.version, R1CS.singles);
    buffer.push_section(1, HEADER_BYTES);
    buffer.push_field();
    push_counts(&mut buffer, counts, labels);
    let size = 12 * u64::from(counts.constraints) + TERM_BYTES * counts.terms;
    buffer.push_section(2, size);
    buffer
}

// What section 1 counts.
fn push_counts(buffer: &mut Buffer, counts: &Counts, labels: u64)
    requires { length buffer.old + 28 ≤ 8192 }
    ensures bytes { buffer.new ≡ buffer.old ++ numbers_bytes counts.now labels }
    ensures size { length buffer.new ≡ length buffer.old + 28 }
{
    buffer.push(&short_bytes(counts.wires));
    buffer.push(&short_bytes(counts.outputs));
    buffer.push(&short_bytes(counts.inputs));
    buffer.push(&short_bytes(0));
    buffer.push(&long_bytes(labels));
    buffer.push(&short_bytes(counts.constraints));
}
