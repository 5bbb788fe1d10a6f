//! A list of values.
ghost use Rattle.std.specs.Prelude.{◌≡◌, [], false};
ghost use Rattle.tv_core.specs.Meanings.{Kept, kept_giving};

use crate::field::F;
use crate::sink::{Put, SinkFault};
use crate::values::Values;
use std::alloc::Global;
use std::marker::Model;

// For how many more values room is made, at least, where there is none left: a gadget of words
// assigns fewer.
const MORE: usize = 128;

/// A taker of values that keeps their list. It refuses only where memory runs out.
#[derive(Drop)]
pub struct ListValues {
    list: Vec<F>,
    broken: bool,
}

impl Model for ListValues {
    ghost Value = { Kept };

    ghost view = { λ v. record { list = v.list.items; broken = v.broken } };
}

impl ListValues {
    /// Returns an empty list.
    pub fn new(alloc: Global) -> ListValues
        ensures { result ≡ record { list = []; broken = false } }
    {
        ListValues {
            list: Vec::new(alloc),
            broken: false,
        }
    }

    /// Returns the values, in order; after a refusal those before the refused one.
    pub fn as_slice(&self) -> &[F]
        ensures { result.now ≡ self.now.list }
    {
        self.list.as_slice()
    }
}

impl Values for ListValues {
    ghost giving = { kept_giving };

    fn give(&mut self, value: F) -> Put<()> {
        let full = self.list.len() == self.list.capacity();
        if full && self.list.reserve(MORE).is_err() || self.list.push(value).is_err() {
            self.broken = true;
            return Err(SinkFault::Memory);
        }
        Ok(())
    }

    ghost unbroken = { λ taker list stands. stands.1 };
}
