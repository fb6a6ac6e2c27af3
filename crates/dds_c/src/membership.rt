//! What a caller holds of a participant.
//!
//! The interface for C is this project's own.

ghost use Rattle.std.specs.Prelude.{◌≡◌, IfSome, IfNone};
ghost use Rattle.std.specs.declared.option.Option.TheVariants.{None, Some};
ghost use Rattle.dds_c.specs.HeldMember.{has_member};

use crate::held_member::HeldMember;
use crate::member::Member;
use crate::parts::Parts;
use std::alloc::Global;
use std::mem;

/// A participant that is open, or none. All bytes zero is none.
#[repr(C)]
pub struct Membership {
    is_open: bool,
    pub held: HeldMember,
    ghost agrees: { is_open ≡ has_member held.member },
}

impl Membership {
    /// None.
    fn closed(alloc: Global) -> Membership
        ensures none { result.held.member ≡ None }
    {
        Membership {
            is_open: false,
            held: HeldMember::empty(alloc),
        }
    }

    /// Takes the member out, if there is one.
    pub fn take(&mut self, alloc: Global) -> Option<Box<Member>>
        ensures member { IfSome result (λ b. self.old.held.member ≡ Some b.value) }
        ensures absent { IfNone result (self.old.held.member ≡ None) }
        ensures none { self.new.held.member ≡ None }
    {
        let membership = mem::replace(self, Membership::closed(alloc));
        let Membership { is_open, held } = membership;
        if is_open {
            Some(held.into_parts().into_box())
        } else {
            held.discard();
            None
        }
    }

    /// Puts a member in, where there is none.
    pub fn put(&mut self, member: Box<Member>)
        requires { self.old.held.member ≡ None }
        ensures member { self.new.held.member ≡ Some member.value }
    {
        let held = HeldMember::of_parts(Parts::of(member));
        let old = mem::replace(
            self,
            Membership {
                is_open: true,
                held,
            },
        );
        let Membership { is_open: _, held } = old;
        held.discard();
    }
}
