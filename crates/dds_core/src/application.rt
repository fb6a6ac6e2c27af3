//! A peer with the filters and the listeners of its application, and the one way in.
//!
//! DDS 1.4, 2.2.2.1 (Entity, set_listener), 2.2.2.5 (QueryCondition), 2.2.4.3 (access through listeners).

ghost use Rattle.std.specs.Prelude.{◌≡◌, ◌<◌, [], None, Some, IfErr, IfOk, OnErr, OnOk};
ghost use Rattle.dds_base.specs.Refusal.{Refuses};
ghost use Rattle.dds_conditions.specs.Filtered.{tests_of};
ghost use Rattle.dds_base.specs.Number.{at_number};
ghost use Rattle.dds_conditions.specs.Watched.{is_used, uses_in};
ghost use Rattle.dds_notices.specs.Listeners.{ByEntity, at_entity, shown};
ghost use Rattle.dds_core.specs.Lending.{event_of};
ghost use Rattle.dds_core.specs.Listening.{Adds, AreKept, RefusesEntity, RefusesFilter, RefusesListener, Sets, StandsFor, Steps, no_listeners};
ghost use Rattle.dds_core.specs.Observing.{Observes};
ghost use Rattle.dds_core.specs.Opening.{InRosters, InRostersAt, coming_refusal, core_refusal, opening_peer};
ghost use Rattle.dds_core.specs.Pairs.{IsPair};
ghost use Rattle.dds_core.specs.Remembering.{AreMisses};
ghost use Rattle.dds_ends.specs.Sending.{AreMessages, max_unsent};
ghost use Rattle.dds_core.specs.Standing.{StandsFor as PeerStandsFor};
ghost use Rattle.dds_core.specs.Ruling.{IsSound};
ghost use Rattle.dds_ends.specs.Twins.{Twins};
ghost use Rattle.dds_machine.specs.Opening.{coming_part};
ghost use Rattle.dds_machine.specs.Part.{how_of, is_attached, own_proxies, place_of};
ghost use Rattle.dds_protocol.specs.declared.event.Event.TheVariants as event;
ghost use Rattle.dds_protocol.specs.Coming.{coming_peer};
ghost use Rattle.dds_protocol.specs.Roster.{Roster, roster_of};
ghost use Rattle.dds_protocol.specs.Peer.{Peer as PeerState};

use crate::filtered_peer::FilteredPeer;
use crate::lent_event::LentEvent;
use crate::misses::Misses;
use crate::observing::Observed;
use crate::pairing::Pair;
use dds_base::{Code, Config, Endpoint, Entity, GuidPrefix, Moment, Sn};
use dds_conditions::Filter;
use dds_ends::{Marks, Twin, pair_of};
use dds_notices::{Listener, Notice, Slots, StatusMask};
use dds_protocol::{Event, Output};
use std::alloc::Global;
use std::marker::Model;

/// A peer, with the filters and the listeners that its application handed it: boxes, unless `F` and `L` name types of
/// the application's own.
#[derive(Drop)]
pub struct Core<F = Box<dyn Filter + Send>, L = Box<dyn Listener + Send>> {
    filtered: FilteredPeer<F>,
    listeners: Slots<L>,
    // Of the step that is being made. They stand here, as a step without listeners needs no place for them.
    marks: Marks,
}

impl<F, L> Model for Core<F, L> {
    ghost use Rattle.dds_core.specs.Listening.{CoreKept};

    ghost Value = { CoreKept F L };

    ghost view = { λ c. record { filtered = c.filtered; listeners = c.listeners } };
}

impl<F: Filter, L: Listener> Core<F, L> {
    /// The peer of this number, at its opening, without filters and listeners. Its writers and readers are matched with
    /// those of equal topic. The room for all listeners that will be set is made here.
    ///
    /// # Errors
    ///
    /// The first of these: what `Config::check` answers; `BadParameter` where the configuration has no peer of this
    /// number; `Memory` where a growth was refused.
    pub fn open(alloc: Global, config: &Config, peer: u32) -> Result<Core<F, L>, Code>
        // The peer stands for its opening in the roster of the configuration.
        ensures opening { IfOk result
            (λ core. StandsFor L.notices L.capacity L.becomes
            (no_listeners (opening_peer config.now peer).part) core (roster_of config.now)
            (opening_peer config.now peer)) }
        // All that is known of it there was claimed.
        ensures known { OnOk result (IsSound (roster_of config.now) (opening_peer config.now peer)) }
        // Both are so in each roster in which the peers of the configuration come first.
        ensures roster { IfOk result (λ core. InRosters config.now
            (λ roster. StandsFor L.notices L.capacity L.becomes
            (no_listeners (opening_peer config.now peer).part) core roster (opening_peer config.now peer)
            × IsSound roster (opening_peer config.now peer))) }
        // It has no filters.
        ensures none { IfOk result (λ core. core.filtered.filters ≡ []) }
        // Against what is opened there is no cause.
        ensures taken { IfOk result (λ core. core_refusal config.now.peers peer ≡ None) }
        // A refusal is by the first cause that there is, or for want of memory.
        ensures refused { IfErr result (Refuses (core_refusal config.now.peers peer)) }
    {
        let filtered = FilteredPeer::open(alloc, config, peer)?;
        let listeners = Slots::open(alloc, filtered.writers(), filtered.readers())?;
        Ok(Core {
            filtered,
            listeners,
            marks: Marks::NOTHING,
        })
    }

    /// The one peer of a configuration, as it comes to a network under this number, without filters and listeners. Its
    /// writers and readers are matched with its own alone, until they are told of others. The room for all listeners
    /// that will be set is made here.
    ///
    /// # Errors
    ///
    /// The first of these: what `Config::check` answers; `BadParameter` where the configuration has more peers than one,
    /// or the number is 0; `Memory` where a growth was refused.
    ///
    /// RTPS 2.5, 8.2 (Participant).
    pub fn come(alloc: Global, config: &Config, number: u32) -> Result<Core<F, L>, Code>
        // By the roster of each list that has the peer under this number it stands for it as it comes, and all that is
        // known of it was claimed.
        ensures coming { IfOk result (λ core. InRostersAt config.now number
            (λ roster p. StandsFor L.notices L.capacity L.becomes (no_listeners (coming_part number p)) core
            roster (coming_peer number p) × IsSound roster (coming_peer number p))) }
        // It has no filters.
        ensures none { IfOk result (λ core. core.filtered.filters ≡ []) }
        // Against what comes there is no cause.
        ensures taken { IfOk result (λ core. coming_refusal config.now.peers number ≡ None) }
        // A refusal is by the first cause that there is, or for want of memory.
        ensures refused { IfErr result (Refuses (coming_refusal config.now.peers number)) }
    {
        let filtered = FilteredPeer::come(alloc, config, number)?;
        let listeners = Slots::open(alloc, filtered.writers(), filtered.readers())?;
        Ok(Core {
            filtered,
            listeners,
            marks: Marks::NOTHING,
        })
    }

    /// One event: a call, the peer's time that goes on, the bytes of a packet that come, or the places of a reader that are
    /// tried again.
    ///
    /// A call is answered as `Call` says, a tick as `Event::Tick`, a packet by a report of what it moved, whatever its bytes
    /// are, and where places are tried again as `Event::Resume` says. At a tick those whose lease is over die at the peer's readers, then its writers lose their
    /// liveliness whose own lease is over, and then HEARTBEATs are sent. What is refused changes nothing, but for
    /// `NoData`, which is entered as the access that it is, and `Timeout` of a look at a WaitSet, which ends the wait.
    /// At the end of an event each status that was raised in it is told, once, to the listener of its entity, or else
    /// to that of the participant, and its flag is cleared, as by a look; where none takes it the flag stays. The
    /// writers come first, in their order, then the readers, and the statuses of each by ascending bit.
    /// Packets go out for a change that was made and for an assertion, one for each peer with a matched reader; at a
    /// tick for each writer, HEARTBEATs to each peer with a reader that is behind, has asked for one since the last
    /// tick by an ACKNACK that is not final and asks for no change, or was greeted and has not answered; and at a
    /// delivery the ACKNACKs that its HEARTBEATs ask for, and the changes and GAPs that its ACKNACKs do. Those for
    /// which there is no memory are counted in `unsent`.
    ///
    /// DDS 1.4, 2.2.2.4 and 2.2.2.5 (DataWriter, DataReader), 2.2.4.3 (access through listeners); RTPS 2.5, 8.4
    /// (behaviour).
    // Within a caller that makes the event, LLVM leaves what is for other events and other calls away.
    #[inline(always)]
    pub fn step(&mut self, event: Event) -> Output
        // For each state that the peer stands for, the event is a step, by what its filters mean, whose end listeners
        // are told of, to one that it stands for afterwards; what a call enters is announced, what is due at a tick is
        // sent, a delivered packet is taken up by the rules of the protocol, and what is due by them is sent, and places
        // that are tried again go as far as those let them.
        // By `MeetReader` and `MeetWriter` it is so in each roster that has whom the peer meets.
        ensures step { Steps L.notices L.capacity L.becomes
            (tests_of F.meaning self.old.filtered.filters) self.old event result self.new }
        // What goes out is the written form of a message.
        ensures messages { AreMessages result.packets }
    {
        let mut misses = Misses::nowhere(self.memory());
        self.step_with(event, &mut Twin::Unasked, &mut misses)
    }

    /// One event, as `step` has it, and two equal outputs. All memory for both is asked for before anything changes, but
    /// for that of the packets: a reply whose copy finds none is refused for want of memory, or a packet's report ends at
    /// the submessage that found none, as in `step`, and one of places that are tried again at the writer; a packet to be
    /// sent whose copy finds none is in neither output, and counted in `unsent` of both.
    ///
    /// DDS 1.4, 2.2.2.4 and 2.2.2.5 (DataWriter, DataReader), 2.2.4.3 (access through listeners); RTPS 2.5, 8.4
    /// (behaviour).
    pub fn step_pair(&mut self, event: Event) -> (Output, Output)
        // For each state that the peer stands for, the event is a step, by what its filters mean, whose end listeners
        // are told of, to one that it stands for afterwards; what a call enters is announced, what is due at a tick is
        // sent, a delivered packet is taken up by the rules of the protocol, and what is due by them is sent, and places
        // that are tried again go as far as those let them.
        // By `MeetReader` and `MeetWriter` it is so in each roster that has whom the peer meets.
        ensures step { Steps L.notices L.capacity L.becomes
            (tests_of F.meaning self.old.filtered.filters) self.old event result.0 self.new }
        // What goes out is the written form of a message.
        ensures messages { AreMessages result.0.packets }
        // The second output is the first one.
        ensures equal { result.0 ≡ result.1 }
    {
        let alloc = self.memory();
        let mut misses = Misses::nowhere(alloc);
        let mut twin = Twin::Asked;
        let output = self.step_with(event, &mut twin, &mut misses);
        pair_of(alloc, output, twin)
    }

    /// The bytes of a packet come, as by `step`, and stay with whoever keeps them: no memory is needed to hand them over.
    ///
    /// RTPS 2.5, 8.3.4 (the message receiver), 8.4 (behaviour).
    #[inline(always)]
    pub fn deliver(&mut self, packet: &[u8]) -> Output
        // It is the step at which these bytes are delivered.
        ensures step { Steps L.notices L.capacity L.becomes
            (tests_of F.meaning self.old.filtered.filters) self.old (event.Deliver packet.now)
            result self.new }
        // What goes out is the written form of a message.
        ensures messages { AreMessages result.packets }
    {
        let mut misses = Misses::nowhere(self.memory());
        self.happen(LentEvent::Deliver(packet), &mut Twin::Unasked, &mut misses)
    }

    /// One event, and where two replies are asked for, the reply once more. What conditions are said to have found nothing
    /// did so.
    #[inline(always)]
    pub(crate) fn step_with(&mut self, event: Event, twin: &mut Twin, misses: &mut Misses) -> Output
        requires right { AreMisses
            (tests_of F.meaning self.old.filtered.filters) self.old.filtered.peer misses.old }
        ensures step { Steps L.notices L.capacity L.becomes
            (tests_of F.meaning self.old.filtered.filters) self.old event result self.new }
        ensures messages { AreMessages result.packets }
        ensures few { result.unsent < max_unsent }
        ensures twin { Twins twin.old result.reply twin.new }
        ensures right { AreMisses
            (tests_of F.meaning self.old.filtered.filters) self.old.filtered.peer misses.new }
    {
        match event {
            Event::Call(call) => self.happen(LentEvent::Call(call), twin, misses),
            Event::Tick(now) => self.happen(LentEvent::Tick(now), twin, misses),
            Event::Deliver(packet) => self.happen(
                LentEvent::Deliver(packet.as_slice()),
                twin,
                misses,
            ),
            Event::Resume { reader } => self.happen(LentEvent::Resume { reader }, twin, misses),
        }
    }

    /// The same of one whose packet is lent.
    #[inline(always)]
    pub(crate) fn happen(
        &mut self,
        event: LentEvent,
        twin: &mut Twin,
        misses: &mut Misses,
    ) -> Output
        requires right { AreMisses
            (tests_of F.meaning self.old.filtered.filters) self.old.filtered.peer misses.old }
        ensures step { Steps L.notices L.capacity L.becomes
            (tests_of F.meaning self.old.filtered.filters) self.old (event_of event.entry) result
            self.new }
        ensures messages { AreMessages result.packets }
        ensures few { result.unsent < max_unsent }
        ensures twin { Twins twin.old result.reply twin.new }
        ensures right { AreMisses
            (tests_of F.meaning self.old.filtered.filters) self.old.filtered.peer misses.new }
    {
        let is_told = self.listeners.has_listeners();
        if is_told {
            self.filtered.mark(&mut self.marks);
        }
        let output = self.filtered.step(event, twin, misses);
        if is_told {
            self.filtered.end(&mut self.listeners, &self.marks);
        }
        output
    }

    /// Where its lists have their memory from.
    pub(crate) fn memory(&self) -> Global {
        self.filtered.memory()
    }

    /// Takes the lists of an answer back, which its caller has read, for the answers that follow: a caller who gives each
    /// answer back has most of them made without asking for memory. It keeps the memory of a few lists, of at most 128
    /// places each, and lets their elements go; it takes none.
    #[inline(always)]
    pub fn reuse(&mut self, output: Output)
        // The peer is as it was, whatever is given back.
        ensures same { self.new ≡ self.old }
    {
        self.filtered.reuse(output);
    }

    /// Adds a filter, by the next number, from 1: query conditions can name it from then on. What it answers is what it
    /// means, for every key and value.
    ///
    /// # Errors
    ///
    /// `OutOfResources` where 2^32 - 1 filters were added, else `Memory` where a growth was refused. The filter comes
    /// back, and nothing changes.
    ///
    /// DDS 1.4, 2.2.2.5 (QueryCondition).
    pub fn add_filter(&mut self, filter: F) -> Result<u32, (Code, F)>
        // It is the last one, by the next number, and nothing else changes.
        ensures ok { IfOk result
            (λ number. Adds L.notices L.capacity L.becomes self.old filter number self.new) }
        // A refusal is for want of a number, exactly then, or for want of memory.
        ensures refused { IfErr result (λ e. RefusesFilter L.notices L.capacity L.becomes self.old e.0) }
        // What is refused comes back.
        ensures back { IfErr result (λ e. e.1 ≡ filter) }
        // A refusal changes nothing.
        ensures err { OnErr result (self.new ≡ self.old) }
    {
        self.filtered.add_filter(filter)
    }

    /// Sets the listener of an entity, with the statuses that it is told of, and hands back the one that was set
    /// before, as what it became by being told; `None` takes the listener away. It takes no memory.
    ///
    /// # Errors
    ///
    /// `BadParameter` where there is no such entity, else `PreconditionNotMet` where the listener keeps notices
    /// already. It comes back, and nothing changes.
    ///
    /// DDS 1.4, 2.2.2.1 (Entity, set_listener), 2.2.4.3 (access through listeners).
    pub fn set_listener(
        &mut self,
        entity: Entity,
        mask: StatusMask,
        listener: Option<L>,
    ) -> Result<Option<L>, (Code, Option<L>)>
        // It is set, and nothing else changes; the one of before is what that which was set became by being told of all
        // that its place was, one after another, and has kept the last ones.
        ensures ok { IfOk result
            (λ handed. Sets L.notices L.capacity L.becomes self.old entity mask listener handed self.new) }
        // A refusal is by the first cause that there is, exactly then.
        ensures refused { IfErr result
            (λ e. RefusesListener L.notices L.capacity L.becomes self.old entity listener e.0) }
        // What is refused comes back.
        ensures back { IfErr result (λ e. e.1 ≡ listener) }
        // A refusal changes nothing.
        ensures err { OnErr result (self.new ≡ self.old) }
    {
        self.listeners.set(entity, mask, listener)
    }

    /// The notices that the listener of an entity keeps, the oldest first; none where there is no listener.
    ///
    /// # Errors
    ///
    /// `BadParameter` where there is no such entity, else `Memory` where a growth was refused, which only a listener that
    /// keeps a notice needs.
    ///
    /// DDS 1.4, 2.2.4.3 (access through listeners).
    pub fn notices(&self, entity: Entity) -> Result<Vec<Notice>, Code>
        // They are the last ones of all that was told there, as many as there is room for.
        ensures ok { IfOk result
            (λ kept. AreKept L.notices L.capacity L.becomes self.now entity kept.items) }
        // A refusal is for its cause, or for want of memory, where a notice is kept.
        ensures refused { IfErr result (RefusesEntity L.notices L.capacity L.becomes self.now entity) }
    {
        self.listeners.notices(self.filtered.memory(), entity)
    }

    /// Of which statuses the listener of an entity is told, and how many notices it can keep; `None` where there is none,
    /// or no such entity.
    ///
    /// DDS 1.4, 2.2.2.1 (Entity: get_listener).
    pub fn slot(&self, entity: Entity) -> Option<(StatusMask, usize)>
        // So it is in each state that the peer stands for.
        ensures slot { (given : ByEntity L) (roster : Roster) (peer : PeerState)
            → StandsFor L.notices L.capacity L.becomes given self.now roster peer
            → result ≡ shown (at_entity peer.part.dds.listeners entity) }
    {
        self.listeners.slot(entity)
    }

    /// In how many WaitSets somebody waits.
    ///
    /// DDS 1.4, 2.2.2.1 (WaitSet, wait).
    pub fn in_use(&self) -> u32
        // So it is in each state that the peer stands for.
        ensures used { (roster : Roster) (peer : PeerState)
            → PeerStandsFor self.now.filtered.peer roster peer
            → result ≡ uses_in peer.part.dds.watch.wait_sets }
    {
        self.filtered.in_use()
    }

    /// Whether somebody waits in the WaitSet of this number; not in one that there isn't.
    ///
    /// DDS 1.4, 2.2.2.1 (WaitSet, wait).
    pub fn is_in_use(&self, number: u32) -> bool
        // So it is in each state that the peer stands for.
        ensures used { (roster : Roster) (peer : PeerState)
            → PeerStandsFor self.now.filtered.peer roster peer
            → result ≡ is_used (at_number peer.part.dds.watch.wait_sets number) }
    {
        self.filtered.is_in_use(number)
    }

    /// The prefix of the GUIDs of its ends, which no other peer has.
    ///
    /// RTPS 2.5, 8.2 (GuidPrefix_t).
    pub fn prefix(&self) -> GuidPrefix
        // It is that of the peer in each roster in which it stands for one.
        ensures prefix { (roster : Roster) (peer : PeerState)
            → PeerStandsFor self.now.filtered.peer roster peer
            → result ≡ roster.prefix peer.number }
        // So it is what the peer keeps.
        ensures kept { result ≡ self.now.filtered.peer.prefix }
    {
        self.filtered.prefix()
    }

    /// The peer's moment: 0, or that of the last tick that was done.
    pub fn moment(&self) -> Moment
        // It is the moment of each state that the peer stands for.
        ensures moment { (roster : Roster) (peer : PeerState)
            → PeerStandsFor self.now.filtered.peer roster peer
            → result ≡ peer.part.dds.moment }
    {
        self.filtered.moment()
    }

    /// The writer of this number and a reader, by their entity ids, whether the reader is behind, and the number of the
    /// writer's last change; `None` where they are not matched, or where there are no such ends.
    ///
    /// RTPS 2.5, 8.4.7 (StatefulWriter: matched_readers; ReaderProxy: unacked_changes).
    pub fn pair(&self, writer: u8, reader: Endpoint) -> Option<Pair>
        // They are matched exactly if a pair is found, and the ids are those of the roster; the reader is behind
        // exactly where it has not acknowledged some change, and the last number is how many changes the writer has
        // made.
        ensures pair { (roster : Roster) (peer : PeerState)
            → PeerStandsFor self.now.filtered.peer roster peer
            → IsPair roster peer writer reader result }
    {
        self.filtered.pair(writer, reader)
    }

    /// The place of the reader of this number at a writer of its topic: the number of the change that it has next, from
    /// 1; `None` where there are no such ends. It is kept where the reader is matched with the writer no longer.
    ///
    /// RTPS 2.5, 8.4.10 (StatefulReader, WriterProxy).
    pub fn place(&self, reader: u8, writer: Endpoint) -> Option<Sn>
        // It is the place in each state that the peer stands for, and there is one exactly if the reader knows the
        // writer.
        ensures place { (roster : Roster) (peer : PeerState)
            → PeerStandsFor self.now.filtered.peer roster peer
            → result ≡ place_of (own_proxies peer.part reader) writer }
    {
        self.filtered.place(reader, writer)
    }

    /// Whether the reader of this number is matched with a writer now; it is not where there are no such ends.
    ///
    /// RTPS 2.5, 8.4.10 (StatefulReader: matched_writers).
    pub fn is_matched(&self, reader: u8, writer: Endpoint) -> bool
        // It is so exactly if it is in each state that the peer stands for.
        ensures matched { (roster : Roster) (peer : PeerState)
            → PeerStandsFor self.now.filtered.peer roster peer
            → result ≡ is_attached (how_of (own_proxies peer.part reader) writer) }
    {
        self.filtered.is_matched(reader, writer)
    }

    /// What a datagram holds that would be nothing to the peer, as it stands before the datagram is delivered. It changes
    /// nothing, and takes no memory.
    ///
    /// RTPS 2.5, 8.3.4 (the message receiver), 8.4.10 (StatefulReader, WriterProxy).
    pub fn observe(&self, datagram: &[u8]) -> Observed
        // So much is old, or to nobody, in each state that the peer stands for; of bytes that are no message nothing.
        ensures observes { (roster : Roster) (peer : PeerState)
            → PeerStandsFor self.now.filtered.peer roster peer
            → Observes roster peer None datagram.now result }
    {
        self.filtered.observe(None, datagram)
    }

    /// The same, with the old DATA and HEARTBEATs of this writer alone: none where it is matched with no reader of the peer.
    ///
    /// RTPS 2.5, 8.3.4 (the message receiver), 8.4.10 (StatefulReader, WriterProxy).
    pub fn observe_writer(&self, writer: Endpoint, datagram: &[u8]) -> Observed
        // So much of that writer is old, in each state that the peer stands for; of bytes that are no message nothing.
        ensures observes { (roster : Roster) (peer : PeerState)
            → PeerStandsFor self.now.filtered.peer roster peer
            → Observes roster peer (Some writer) datagram.now result }
    {
        self.filtered.observe(Some(writer), datagram)
    }
}
