//! The trait through which every byte of the outside world is read and written.
ghost use Rattle.tv_files.specs.Outside.{Outside};
ghost use Rattle.tv_files.specs.Calls.{Reads, Creates, Appends, Says};

use thiserror::Error;

/// Why a call was refused.
#[derive(Clone, Copy, PartialEq, Eq, Debug, Error)]
pub enum FileRefusal {
    /// The outside failed: the call's own count of faults rose.
    #[error("the file operation failed")]
    Failed,
    /// Memory ran out: the count `wants` rose, and no other count changed.
    #[error("out of memory")]
    Memory,
}

/// Named files and one stream of printed bytes.
///
/// What a value means is `seen`, an `Outside`: the files' contents and the printed bytes, where
/// they are known, and counts of faults, of allocation failures and of names that were absent. No
/// count ever falls, `Ok` leaves all of them, `Memory` all but `wants`, and "rose" includes
/// standing at 2^64 - 1.
pub trait Files {
    ghost seen: { Self → Outside };

    /// Puts bytes of the file, from place `at` on, into the front of `into`, and answers how many:
    /// 0 only at or past the end, or for an empty `into`. A missing name is a fault.
    fn read(&mut self, name: &str, at: u64, into: &mut [u8]) -> Result<usize, FileRefusal>
        ensures { Reads (seen self.old) (seen self.new) name.now at into.new result };

    /// Creates an empty file of this name, in place of one that is there. After a refusal it is as
    /// before, or empty.
    fn create(&mut self, name: &str) -> Result<(), FileRefusal>
        ensures { Creates (seen self.old) (seen self.new) name.now result };

    /// Adds the bytes at the end of the file. After a refusal a prefix of them was added. A missing
    /// name is a fault.
    fn append(&mut self, name: &str, bytes: &[u8]) -> Result<(), FileRefusal>
        ensures { Appends (seen self.old) (seen self.new) name.now bytes.now result };

    /// Prints the bytes. After a refusal a prefix of them was printed.
    fn say(&mut self, bytes: &[u8]) -> Result<(), FileRefusal>
        ensures { Says (seen self.old) (seen self.new) bytes.now result };
}
