//! A refusal of a file as a fault of a sink.
ghost use Rattle.std.specs.Prelude.{◌≡◌};
ghost use Rattle.tv_container.specs.Faults.{sink_fault};

use tv_core::SinkFault;
use tv_files::FileRefusal;

/// Returns what a refused call makes of the sink, or the taker of values, that writes by it.
pub fn sink_fault(refusal: FileRefusal) -> SinkFault
    ensures { result ≡ sink_fault refusal }
{
    match refusal {
        FileRefusal::Failed => SinkFault::Failed,
        FileRefusal::Memory => SinkFault::Memory,
    }
}
