//! What a reply says to one who waits.
//!
//! DDS 1.4, 2.2.2.1 (WaitSet, wait).

ghost use Rattle.std.specs.Prelude.{◌≡◌, ◌↔◌, IsTrue};
ghost use Rattle.dds_base.specs.declared.code.Code.TheVariants.{Memory};
ghost use Rattle.dds_machine.specs.declared.reply.Reply.TheVariants as reply_of;
ghost use Rattle.dds_shared.specs.Locks.{Says};

use dds_base::Code;
use dds_machine::Reply;

/// What a reply says to one who waits.
#[derive(Clone, Copy)]
pub struct Said {
    /// It is `Done`: a wait that asked so has begun.
    pub done: bool,
    /// It is `Waiting`: nothing is true yet.
    pub waiting: bool,
    /// It is a refusal for want of memory.
    pub memory: bool,
}

#[inline(always)]
fn is_done(reply: &Reply) -> bool
    ensures done { IsTrue result ↔ (reply.now ≡ reply_of.Done) }
{
    matches!(reply, Reply::Done)
}

#[inline(always)]
fn is_waiting(reply: &Reply) -> bool
    ensures waiting { IsTrue result ↔ (reply.now ≡ reply_of.Waiting) }
{
    matches!(reply, Reply::Waiting)
}

#[inline(always)]
fn found_no_memory(reply: &Reply) -> bool
    ensures missed { IsTrue result ↔ (reply.now ≡ reply_of.Refused Memory) }
{
    matches!(reply, Reply::Refused(Code::Memory))
}

impl Said {
    /// What this reply says to one who waits.
    #[inline(always)]
    pub fn of(reply: &Reply) -> Said
        ensures says { Says reply.now result }
    {
        Said {
            done: is_done(reply),
            waiting: is_waiting(reply),
            memory: found_no_memory(reply),
        }
    }
}
