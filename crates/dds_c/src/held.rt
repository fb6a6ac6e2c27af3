//! A box with a session as its pointer, or none: what lies in the memory of a caller.

ghost use Rattle.std.specs.Prelude.{◌≡◌, IsTrue, IsFalse, IfSome};
ghost use Rattle.std.specs.declared.option.Option.{Option};
ghost use Rattle.std.specs.declared.option.Option.TheVariants.{None, Some};
ghost use Rattle.dds_c.specs.declared.session.Session.{Session};
ghost use Rattle.dds_c.specs.Held.{has_session, held_owns, session_coded};

use crate::parts::Parts;
use crate::session::Session;
use std::alloc::Global;
use std::marker::Model;
use std::ptr;

/// A session that is held by its address, or none. It can't be dropped, so no function loses a session.
#[repr(C)]
pub struct Held {
    at: *mut u8,
    alloc: Global,
    pub ghost session: { Option Session } by { session_coded },
}

impl Model for Held {
    ghost also_owns = { λ h. held_owns h.alloc h.at h.session };
}

impl Held {
    /// None.
    pub fn empty(alloc: Global) -> Held
        ensures { result.session ≡ None }
    {
        Held {
            at: ptr::null_mut(),
            alloc,
        }
    }

    /// Lets go of what holds none.
    pub fn discard(self)
        requires { IsFalse (has_session self.session) }
    {
        let Held { at: _, alloc: _ } = self;
    }

    /// Holds the session of these parts.
    pub fn of_parts(parts: Parts<Session, Global>) -> Held
        ensures { result.session ≡ Some parts.value }
    {
        let Parts { ptr, alloc } = parts;
        Held {
            at: ptr as *mut u8,
            alloc,
        }
    }

    /// The parts of the session that is held.
    pub fn into_parts(self) -> Parts<Session, Global>
        requires { IsTrue (has_session self.session) }
        ensures { IfSome self.session (λ s. result.value ≡ s) }
    {
        let Held { at, alloc } = self;
        Parts {
            ptr: at as *mut Session,
            alloc,
        }
    }
}

unsafe impl Send for Held {}
