//! What the calls of the library return, beside the statuses of the commands.
ghost use Rattle.std.specs.Prelude.{◌≡◌};
ghost use Rattle.tinyr1cs_c.specs.Answer.{code_of};

/// How a call of the library ended.
#[derive(Clone, Copy)]
pub enum Answer {
    /// The call did what it is for.
    Done,
    /// Memory was refused.
    Memory,
    /// A name or a word isn't UTF-8.
    NotUtf8,
    /// The handle holds no session.
    Closed,
    /// The handle already holds a session.
    Opened,
    /// There is more than the caller has room for.
    Short,
    /// There is no file of this name.
    Absent,
}

impl Answer {
    /// Returns the number that C sees. Those of `Done`, `Memory` and `NotUtf8` are the program's
    /// exit codes.
    pub fn code(self) -> u32
        ensures { result ≡ code_of self }
    {
        match self {
            Answer::Done => 0,
            Answer::Memory => 9,
            Answer::NotUtf8 => 14,
            Answer::Closed => 15,
            Answer::Opened => 16,
            Answer::Short => 17,
            Answer::Absent => 18,
        }
    }
}
