//! A peer, and the one way in.
//!
//! DDS 1.4, 2.2.2.4 and 2.2.2.5 (DataWriter, DataReader); RTPS 2.5, 8.4 (behaviour).

ghost use Rattle.std.specs.Prelude.{◌≡◌, ◌*◌, ◌<◌, ◌≤◌};
ghost use Rattle.dds_base.specs.Bounds.{max_ends};
ghost use Rattle.dds_machine.specs.Matching.{max_known};
ghost use Rattle.dds_protocol.specs.declared.event.Event.TheVariants as event;
ghost use Rattle.dds_core.specs.Lending.{event_of};
ghost use Rattle.dds_core.specs.Remembering.{AreMisses};
ghost use Rattle.dds_core.specs.Stepping.{Sends, Steps, SoundStepsBy};
ghost use Rattle.dds_ends.specs.Sending.{AreMessages, max_unsent};
ghost use Rattle.dds_ends.specs.Twins.{IsPlain, Twins};

use crate::lent_event::LentEvent;
use crate::misses::Misses;
use crate::spare_lists::SpareLists;
use dds_base::{Code, GuidPrefix, MOMENT_END, Moment, Sequence};
use dds_conditions::{Filters, Watch};
use dds_ends::{
    Announced, ReaderEnd, Twin, WriterEnd, answered, counts_deaths, expire_all, tick_all,
};
use dds_machine::Reply;
use dds_names::KnownNames;
use dds_protocol::Output;
use std::alloc::Global;
use std::marker::Model;

/// A peer: its writers and its readers, each numbered from 1, and its moment.
///
/// It asks for memory where a call, a change or a sample needs it, and keeps it for what comes later. A writer lets the
/// changes go that its history need not keep, a reader the samples that were taken and, now and then, those that are no
/// longer present; what a reader knows of an instance stays, and its place at each writer that it ever knew. A call costs
/// what its writer or reader does; a delivery looks at each of the peer's readers once for each DATA.
#[derive(Drop)]
pub struct Peer {
    pub(crate) alloc: Global,
    pub(crate) prefix: GuidPrefix,
    pub(crate) moment: Moment,
    pub(crate) writers: Vec<WriterEnd>,
    pub(crate) readers: Vec<ReaderEnd>,
    /// By which names it speaks of ends, its own and others'.
    pub(crate) names: KnownNames,
    pub(crate) watch: Watch,
    /// Of what callers gave back. No event depends on it.
    pub(crate) spare: SpareLists,
}

impl Model for Peer {
    ghost use Rattle.std.specs.Prelude.{length, ◌≤◌};
    ghost use Rattle.dds_core.specs.Kept.{PeerKept};

    ghost Value = { PeerKept };

    ghost view = { λ c. record {
      prefix = c.prefix;
      moment = c.moment;
      writers = c.writers.items;
      readers = c.readers.items;
      names = c.names;
      watch = c.watch;
    } };

    ghost invariant = { λ c. (length c.writers.items ≤ 16) × (length c.readers.items ≤ 16) };
}

impl Peer {
    /// One event: a call, the peer's time that goes on, the bytes of a packet that come, or the places of a reader that are
    /// tried again. The filters tell which samples its query conditions match, by their numbers. Where two replies are
    /// asked for, all memory for both is asked for before anything changes.
    #[inline(always)]
    pub fn step_by<T: Filters>(
        &mut self,
        filters: &T,
        event: LentEvent,
        twin: &mut Twin,
        misses: &mut Misses,
    ) -> Output
        // What conditions are said to have found nothing did so, in each state that the peer stands for.
        requires right { AreMisses (T.meaning filters.now) self.old misses.old }
        // For each state that the peer stands for, the event is a step by what the filters mean, and by the rules of
        // the protocol.
        // By `MeetReader` and `MeetWriter` it is so in each roster that has whom the peer meets.
        ensures step { SoundStepsBy (T.meaning filters.now) self.old (event_of event.entry) result
            self.new }
        // What goes out is the written form of a message.
        ensures messages { AreMessages result.packets }
        // Few packets find no memory.
        ensures few { result.unsent < max_unsent }
        // Where two replies are asked for, there is the reply once more.
        ensures twin { Twins twin.old result.reply twin.new }
        // So did those that are remembered now, before the event.
        ensures right { AreMisses (T.meaning filters.now) self.old misses.new }
    {
        match event {
            LentEvent::Call(call) => self.call(filters, call, twin, misses),
            LentEvent::Tick(now) => self.tick(now),
            LentEvent::Deliver(packet) => self.deliver(packet, twin),
            LentEvent::Resume { reader } => self.resume(reader, twin),
        }
    }

    /// The time of the peer goes on: not back, and not to 2^63 or beyond. Those whose lease is over die at its readers,
    /// then the HEARTBEATs that are due are sent. Deaths are counted before the first: `docs/DECISIONS.md`, "Peers and
    /// the network".
    fn tick(&mut self, now: Moment) -> Output
        ensures step { Steps self.old (event.Tick now) result self.new }
        ensures sends { Sends self.old (event.Tick now) result }
        ensures messages { AreMessages result.packets }
        ensures few { result.unsent ≤ max_ends * max_known }
        ensures plain { IsPlain result.reply }
    {
        if now.units() < self.moment.units() || MOMENT_END <= now.units() {
            return answered(self.alloc, Reply::Refused(Code::BadParameter));
        }
        if !counts_deaths(self.readers.as_slice(), now) {
            return answered(self.alloc, Reply::Refused(Code::Memory));
        }
        expire_all(self.readers.as_mut_slice(), now);
        let Announced { packets, unsent } = tick_all(
            self.alloc,
            self.prefix,
            self.writers.as_mut_slice(),
            now,
        );
        self.moment = now;
        Output {
            reply: Reply::Done,
            packets: Sequence::from_vec(packets),
            unsent,
        }
    }
}
