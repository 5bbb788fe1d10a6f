//! The reducer as a static library: a session keeps files in memory, and runs the program's
//! commands on them. `include/tinyr1cs.h` declares the calls for C.
#![tactic(auto)]

ghost use Rattle.std.specs.Prelude.{◌≡◌, None};
ghost use Rattle.tinyr1cs_c.specs.Calls.{Opens, OnSession};
ghost use Rattle.tinyr1cs_c.specs.Command.{Runs};
ghost use Rattle.tinyr1cs_c.specs.Session.{Sets, AddsWord, CopiesFile, CopiesLine, CopiesNone};

mod answer;
mod handle;
mod owner;
mod parts;
mod session;

use answer::Answer;
pub use handle::Handle;
use std::alloc::Global;

/// Opens a session without files or words in a handle that holds none. `Opened` where it holds one,
/// which stays as it is, and `Memory` where memory for the session is refused.
#[unsafe(no_mangle)]
pub extern "C" fn tinyr1cs_c_open(alloc: Global, handle: &mut Handle) -> u32
    ensures { Opens handle.old.owner.held handle.new.owner.held result }
{
    handle.begin(alloc).code()
}

/// Frees the session and all its files. The handle holds none after it, as it may have before.
#[unsafe(no_mangle)]
pub extern "C" fn tinyr1cs_c_close(alloc: Global, handle: &mut Handle)
    ensures { handle.new.owner.held ≡ None }
{
    drop(handle.take(alloc));
}

/// Makes the name stand for a copy of the contents. `NotUtf8` where the name isn't UTF-8, and
/// `Memory` where memory is refused; all stays as it was then.
#[unsafe(no_mangle)]
#[tactic(auto, using(crate::proofs::Done::on_session))]
pub extern "C" fn tinyr1cs_c_set(
    alloc: Global,
    handle: &mut Handle,
    name: &[u8],
    contents: &[u8],
) -> u32
    ensures { OnSession handle.old.owner.held handle.new.owner.held result
        (Sets name.now contents.now) }
{
    let Some(mut session) = handle.take(alloc) else {
        return Answer::Closed.code();
    };
    let answer = session.as_mut().set(name, contents);
    handle.put(session);
    answer.code()
}

/// Adds a word to those of the next command. `NotUtf8` where it isn't UTF-8, and `Memory` where
/// memory is refused; all stays as it was then.
#[unsafe(no_mangle)]
#[tactic(auto, using(crate::proofs::Done::on_session))]
pub extern "C" fn tinyr1cs_c_word(alloc: Global, handle: &mut Handle, word: &[u8]) -> u32
    ensures { OnSession handle.old.owner.held handle.new.owner.held result (AddsWord word.now) }
{
    let Some(mut session) = handle.take(alloc) else {
        return Answer::Closed.code();
    };
    let answer = session.as_mut().add_word(alloc, word);
    handle.put(session);
    answer.code()
}

/// Runs the command of the words, as `command` does over the session's files, and returns the code
/// of its status. The next command has no words after it.
#[unsafe(no_mangle)]
pub extern "C" fn tinyr1cs_c_run(alloc: Global, handle: &mut Handle) -> u32
    ensures { OnSession handle.old.owner.held handle.new.owner.held result Runs }
{
    let Some(mut session) = handle.take(alloc) else {
        return Answer::Closed.code();
    };
    let status = session.as_mut().run(alloc);
    handle.put(session);
    u32::from(status.code())
}

/// Copies the file's bytes from a place on, as many as there is room for, and stores in `has` how
/// many the file has from there on. `Short` where that is more than the room, and `Absent` where
/// there is no such file; `has` is 0 then.
#[unsafe(no_mangle)]
#[tactic(auto, using(crate::proofs::Done::on_session))]
pub extern "C" fn tinyr1cs_c_copy(
    alloc: Global,
    handle: &mut Handle,
    name: &[u8],
    from: u64,
    into: &mut [u8],
    has: &mut u64,
) -> u32
    ensures does { OnSession handle.old.owner.held handle.new.owner.held result
        (CopiesFile name.now from
        (record { before = into.old; after = into.new; has = has.new })) }
    ensures closed { handle.old.owner.held ≡ None →
        CopiesNone (record { before = into.old; after = into.new; has = has.new }) }
{
    *has = 0;
    let Some(session) = handle.take(alloc) else {
        return Answer::Closed.code();
    };
    let answer = session.as_ref().copy(name, from, into, has);
    handle.put(session);
    answer.code()
}

/// Copies the line that the last command printed, as `tinyr1cs_c_copy` copies a file from its first
/// byte on; an empty one before the first command.
#[unsafe(no_mangle)]
#[tactic(auto, using(crate::proofs::Done::on_session))]
pub extern "C" fn tinyr1cs_c_line(
    alloc: Global,
    handle: &mut Handle,
    into: &mut [u8],
    has: &mut u64,
) -> u32
    ensures does { OnSession handle.old.owner.held handle.new.owner.held result
        (CopiesLine (record { before = into.old; after = into.new; has = has.new })) }
    ensures closed { handle.old.owner.held ≡ None →
        CopiesNone (record { before = into.old; after = into.new; has = has.new }) }
{
    *has = 0;
    let Some(session) = handle.take(alloc) else {
        return Answer::Closed.code();
    };
    let answer = session.as_ref().copy_line(into, has);
    handle.put(session);
    answer.code()
}
