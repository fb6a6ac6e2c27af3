//! A peer and its last answer.
//!
//! The interface for C is this project's own.

ghost use Rattle.std.specs.Prelude.{◌≡◌, ◌≢◌, [], None, IfOk, IfErr};
ghost use Rattle.dds_base.specs.Refusal.{Refuses};
ghost use Rattle.dds_core.specs.Listening.{Steps};
ghost use Rattle.dds_core.specs.Opening.{core_refusal};
ghost use Rattle.dds_ends.specs.Sending.{AreMessages};
ghost use Rattle.dds_conditions.specs.Filtered.{tests_of};
ghost use Rattle.dds_protocol.specs.declared.event.Event.TheVariants as event;
ghost use Rattle.dds_c.specs.Answering.{code_number, refusing_number};
ghost use Rattle.dds_c.specs.Meaning.{prefix_meaning, recorder_notices, recorder_capacity, recorder_becomes};
ghost use Rattle.dds_c.specs.Opening.{IsOpening};

use dds_base::{Code, Config, Sequence};
use dds_core::Mindful;
use dds_machine::Reply;
use dds_notices::Recorder;
use dds_protocol::{Event, Output};
use dds_script::{Prefix, Side};
use std::alloc::Global;
use std::mem;

/// A peer whose filters are prefixes, and whose listeners record.
pub type Core = Mindful<Prefix, Recorder>;

/// A peer, and what it gave back last.
#[derive(Drop)]
pub struct Session {
    pub core: Core,
    pub last: Output,
    /// Whose matches the last event looked at, if it was such a look.
    pub side: Side,
    /// The recorder that was replaced or taken away last.
    pub told: Option<Recorder>,
}

/// The number of the code that a reply refuses with, 0 of another reply.
pub fn code_of(reply: &Reply) -> u8
    ensures number { result ≡ code_number reply.now }
{
    match reply {
        Reply::Refused(code) => code.number(),
        _ => 0,
    }
}

/// The number of a code that refuses: that of ERROR for OK, with which nothing is refused.
pub fn refusal(code: Code) -> u8
    ensures number { result ≡ refusing_number code }
    ensures refuses { result ≢ 0 }
{
    match code {
        Code::Ok => Code::Error.number(),
        code => code.number(),
    }
}

/// Whose matches an event looks at, if it is such a look.
fn side_of(event: &Event) -> Side {
    match event {
        Event::Call(call) => Side::of(call),
        _ => Side::Reader,
    }
}

/// No answer to any event, with nothing to send. Takes no memory.
fn nothing(alloc: Global) -> Output
    ensures { result ≡ record { reply = Reply.Done; packets = []; unsent = 0 } }
{
    Output {
        reply: Reply::Done,
        packets: Sequence::from_vec(Vec::new(alloc)),
        unsent: 0,
    }
}

impl Session {
    /// The peer of this number, at its opening.
    ///
    /// # Errors
    ///
    /// As `Core::open` has them.
    pub fn open(alloc: Global, config: &Config, peer: u32) -> Result<Session, Code>
        ensures opening { IfOk result (IsOpening config.now peer) }
        ensures refused { IfErr result (Refuses (core_refusal config.now.peers peer)) }
    {
        let core: Core = Core::open(alloc, config, peer)?;
        Ok(Session {
            core,
            last: nothing(alloc),
            side: Side::Reader,
            told: None,
        })
    }

    /// Gives the lists of the last answer back to the peer.
    #[inline(always)]
    fn recycle(&mut self, alloc: Global)
        ensures core { self.new.core ≡ self.old.core }
        ensures told { self.new.told ≡ self.old.told }
    {
        let last = mem::replace(&mut self.last, nothing(alloc));
        self.core.reuse(last);
    }

    /// An event at the peer, whose answer takes the place of the last one.
    pub fn step(&mut self, alloc: Global, event: Event)
        ensures step { Steps recorder_notices recorder_capacity recorder_becomes
            (tests_of prefix_meaning self.old.core.filtered.filters)
            self.old.core event self.new.last self.new.core }
        ensures messages { AreMessages self.new.last.packets }
        ensures told { self.new.told ≡ self.old.told }
    {
        self.recycle(alloc);
        self.side = side_of(&event);
        self.last = self.core.step(event);
    }

    /// A datagram comes at the peer, and the answer takes the place of the last one.
    pub fn deliver(&mut self, alloc: Global, datagram: &[u8])
        ensures step { Steps recorder_notices recorder_capacity recorder_becomes
            (tests_of prefix_meaning self.old.core.filtered.filters)
            self.old.core (event.Deliver datagram.now) self.new.last self.new.core }
        ensures messages { AreMessages self.new.last.packets }
        ensures told { self.new.told ≡ self.old.told }
    {
        self.recycle(alloc);
        self.last = self.core.deliver(datagram);
    }
}
