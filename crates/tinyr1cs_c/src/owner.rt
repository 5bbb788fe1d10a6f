//! The pointer to a session, and what it owns.
ghost use Rattle.std.specs.Prelude.{◌≡◌, Option, Some, None, IsTrue, is_some};
ghost use Rattle.tinyr1cs_c.specs.declared.session.Session.{Session};
ghost use Rattle.tinyr1cs_c.specs.Owner.{held_coded, owner_owns};

use crate::parts::Parts;
use crate::session::Session;
use std::alloc::Global;
use std::marker::Model;

/// The pointer of a session on the heap, or null. Its type names no type of Rattle, since C holds
/// it.
#[repr(C)]
#[derive(Drop)]
pub struct Owner {
    ptr: *mut u8,
    alloc: Global,
    pub(crate) ghost held: { Option Session } by { held_coded },
}

impl Model for Owner {
    ghost also_owns = { λ o. owner_owns o.alloc o.ptr o.held };
}

impl Owner {
    /// Returns the owner of no session.
    pub fn none(alloc: Global) -> Owner
        ensures { result.held ≡ None }
    {
        Owner {
            ptr: std::ptr::null_mut(),
            alloc,
        }
    }

    /// Returns the owner of the session of a box.
    pub fn of_parts(parts: Parts<Session, Global>) -> Owner
        ensures { result.held ≡ Some parts.value }
    {
        let Parts { ptr, alloc } = parts;
        Owner {
            ptr: ptr as *mut u8,
            alloc,
        }
    }

    /// Returns the box of the session that is owned.
    pub fn into_parts(self) -> Parts<Session, Global>
        requires { IsTrue (is_some self.held) }
        ensures { self.held ≡ Some result.value }
    {
        let Owner { ptr, alloc } = self;
        Parts {
            ptr: ptr as *mut Session,
            alloc,
        }
    }
}
