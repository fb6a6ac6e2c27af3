//! What a caller holds of a peer.
//!
//! The interface for C is this project's own.

ghost use Rattle.std.specs.Prelude.{◌≡◌, IfSome, IfNone};
ghost use Rattle.std.specs.declared.option.Option.TheVariants.{None, Some};
ghost use Rattle.dds_c.specs.Held.{has_session};

use crate::held::Held;
use crate::parts::Parts;
use crate::session::Session;
use std::alloc::Global;
use std::mem;

/// A peer that is open, or none. All bytes zero is none.
#[repr(C)]
pub struct Peer {
    is_open: bool,
    pub held: Held,
    ghost agrees: { is_open ≡ has_session held.session },
}

impl Peer {
    /// None.
    fn closed(alloc: Global) -> Peer
        ensures none { result.held.session ≡ None }
    {
        Peer {
            is_open: false,
            held: Held::empty(alloc),
        }
    }

    /// Takes the session out, if there is one.
    pub fn take(&mut self, alloc: Global) -> Option<Box<Session>>
        ensures session { IfSome result (λ b. self.old.held.session ≡ Some b.value) }
        ensures absent { IfNone result (self.old.held.session ≡ None) }
        ensures none { self.new.held.session ≡ None }
    {
        let peer = mem::replace(self, Peer::closed(alloc));
        let Peer { is_open, held } = peer;
        if is_open {
            Some(held.into_parts().into_box())
        } else {
            held.discard();
            None
        }
    }

    /// Puts a session in, where there is none.
    pub fn put(&mut self, session: Box<Session>)
        requires { self.old.held.session ≡ None }
        ensures session { self.new.held.session ≡ Some session.value }
    {
        let held = Held::of_parts(Parts::of(session));
        let old = mem::replace(
            self,
            Peer {
                is_open: true,
                held,
            },
        );
        let Peer { is_open: _, held } = old;
        held.discard();
    }
}
