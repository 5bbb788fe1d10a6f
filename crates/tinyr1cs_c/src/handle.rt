//! What C holds of a session.
ghost use Rattle.std.specs.Prelude.{◌≡◌, ◌==◌, not, None, Some, MatchOption, is_some};
ghost use Rattle.tinyr1cs_c.specs.Answer.{code_of};
ghost use Rattle.tinyr1cs_c.specs.Calls.{Opens};

use crate::answer::Answer;
use crate::owner::Owner;
use crate::parts::Parts;
use crate::session::Session;
use std::alloc::Global;
use std::mem::replace;

/// What C holds of a session: whether there is one, and its owner. All zeros hold none.
#[repr(C)]
#[derive(Drop)]
pub struct Handle {
    opened: u64,
    pub(crate) owner: Owner,
    ghost ok: { is_some owner.held ≡ not (opened == 0) },
}

impl Handle {
    /// Returns the handle of no session.
    fn none(alloc: Global) -> Handle
        ensures { result.owner.held ≡ None }
    {
        Handle {
            opened: 0,
            owner: Owner::none(alloc),
        }
    }

    /// Takes the session out, where there is one, and leaves none.
    pub fn take(&mut self, alloc: Global) -> Option<Box<Session>>
        ensures taken { MatchOption result
            (self.old.owner.held ≡ None)
            (λ session. self.old.owner.held ≡ Some session.value) }
        ensures left { self.new.owner.held ≡ None }
    {
        let Handle { opened, owner } = replace(self, Handle::none(alloc));
        if opened == 0 {
            return None;
        }
        Some(owner.into_parts().into_box())
    }

    /// Puts a session in.
    pub fn put(&mut self, session: Box<Session>)
        ensures { self.new.owner.held ≡ Some session.value }
    {
        *self = Handle {
            opened: 1,
            owner: Owner::of_parts(Parts::of(session)),
        };
    }

    /// Opens a session, where there is none.
    #[tactic(auto, using(crate::proofs::Done::opens))]
    pub fn begin(&mut self, alloc: Global) -> Answer
        ensures { Opens self.old.owner.held self.new.owner.held (code_of result) }
    {
        if self.opened != 0 {
            return Answer::Opened;
        }
        match Box::new(alloc, Session::new(alloc)) {
            Ok(session) => {
                self.put(session);
                Answer::Done
            }
            Err(_) => Answer::Memory,
        }
    }
}
