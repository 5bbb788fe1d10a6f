//! Wires by their distance from another wire.
ghost use Rattle.std.specs.Prelude.{◌≡◌, ◌+◌, ◌<◌, ◌^◌};

use crate::wire::Wire;

impl Wire {
    /// Returns the wire `count` places after this one.
    pub fn offset(self, count: u32) -> Wire
        requires { self + count < 2 ^ 32 }
        ensures { result ≡ self + count }
    {
        Wire(self.0 + count)
    }
}
