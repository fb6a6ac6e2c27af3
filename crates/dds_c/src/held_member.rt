//! A box with a member as its pointer, or none: what lies in the memory of a caller.

ghost use Rattle.std.specs.Prelude.{◌≡◌, IsTrue, IsFalse, IfSome};
ghost use Rattle.std.specs.declared.option.Option.{Option};
ghost use Rattle.std.specs.declared.option.Option.TheVariants.{None, Some};
ghost use Rattle.dds_c.specs.declared.member.Member.{Member};
ghost use Rattle.dds_c.specs.HeldMember.{has_member, member_coded, member_owns};

use crate::member::Member;
use crate::parts::Parts;
use std::alloc::Global;
use std::marker::Model;
use std::ptr;

/// A member that is held by its address, or none. It can't be dropped, so no function loses one.
#[repr(C)]
pub struct HeldMember {
    at: *mut u8,
    alloc: Global,
    pub ghost member: { Option Member } by { member_coded },
}

impl Model for HeldMember {
    ghost also_owns = { λ h. member_owns h.alloc h.at h.member };
}

impl HeldMember {
    /// None.
    pub fn empty(alloc: Global) -> HeldMember
        ensures { result.member ≡ None }
    {
        HeldMember {
            at: ptr::null_mut(),
            alloc,
        }
    }

    /// Lets go of what holds none.
    pub fn discard(self)
        requires { IsFalse (has_member self.member) }
    {
        let HeldMember { at: _, alloc: _ } = self;
    }

    /// Holds the member of these parts.
    pub fn of_parts(parts: Parts<Member, Global>) -> HeldMember
        ensures { result.member ≡ Some parts.value }
    {
        let Parts { ptr, alloc } = parts;
        HeldMember {
            at: ptr as *mut u8,
            alloc,
        }
    }

    /// The parts of the member that is held.
    pub fn into_parts(self) -> Parts<Member, Global>
        requires { IsTrue (has_member self.member) }
        ensures { IfSome self.member (λ s. result.value ≡ s) }
    {
        let HeldMember { at, alloc } = self;
        Parts {
            ptr: at as *mut Member,
            alloc,
        }
    }
}

unsafe impl Send for HeldMember {}
