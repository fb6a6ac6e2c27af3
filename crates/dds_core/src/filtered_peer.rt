//! A peer with the filters of its application.
//!
//! DDS 1.4, 2.2.2.5 (QueryCondition). `docs/DECISIONS.md`, "Listeners, filters and WaitSets", says why it is a layer.

ghost use Rattle.std.specs.Prelude.{◌≡◌, ◌<◌, [], None, IfErr, IfOk, OnErr, length};
ghost use Rattle.dds_base.specs.Refusal.{Refuses};
ghost use Rattle.dds_base.specs.Number.{at_number};
ghost use Rattle.dds_conditions.specs.Filtered.{tests_of};
ghost use Rattle.dds_conditions.specs.Watched.{is_used, uses_in};
ghost use Rattle.dds_machine.specs.Noticing.{at_end};
ghost use Rattle.dds_machine.specs.Part.{Part, how_of, is_attached, own_proxies, place_of};
ghost use Rattle.dds_protocol.specs.Coming.{coming_peer};
ghost use Rattle.dds_protocol.specs.Roster.{Roster, roster_of};
ghost use Rattle.dds_protocol.specs.Peer.{Peer as PeerState};
ghost use Rattle.dds_core.specs.Filtering.{StandsFor};
ghost use Rattle.dds_core.specs.FilteredSteps.{Adds, RefusesFilter, Steps};
ghost use Rattle.dds_core.specs.Lending.{event_of};
ghost use Rattle.dds_core.specs.Noticing.{AreMarksOf, MarksPeer, Tells};
ghost use Rattle.dds_core.specs.Observing.{Observes};
ghost use Rattle.dds_core.specs.Opening.{InRosters, InRostersAt, coming_refusal, core_refusal, opening_peer};
ghost use Rattle.dds_core.specs.Pairs.{IsPair};
ghost use Rattle.dds_core.specs.Remembering.{AreMisses};
ghost use Rattle.dds_ends.specs.Sending.{AreMessages, max_unsent};
ghost use Rattle.dds_core.specs.Standing.{StandsFor as PeerStandsFor};
ghost use Rattle.dds_core.specs.Stepping.{SoundStepsBy};
ghost use Rattle.dds_ends.specs.Twins.{Twins};

use crate::lent_event::LentEvent;
use crate::misses::Misses;
use crate::observing::Observed;
use crate::pairing::Pair;
use crate::peer::Peer;
use dds_base::{Code, Config, Endpoint, GuidPrefix, Moment, Sn};
use dds_conditions::{Filter, FilterList};
use dds_ends::{Marks, Twin};
use dds_notices::{Listener, Slots};
use dds_protocol::Output;
use std::alloc::Global;
use std::marker::Model;

/// A peer, and the filters that its application handed it: boxes, unless `F` names a type of the application's own.
#[derive(Drop)]
pub struct FilteredPeer<F = Box<dyn Filter + Send>> {
    peer: Peer,
    filters: FilterList<F>,
}

impl<F> Model for FilteredPeer<F> {
    ghost use Rattle.dds_core.specs.Filtering.{FilteredKept};

    ghost Value = { FilteredKept F };

    ghost view = { λ c. record { peer = c.peer; filters = c.filters } };
}

impl<F: Filter> FilteredPeer<F> {
    /// The peer of this number, at its opening, without filters. Its writers and readers are matched with those of
    /// equal topic.
    ///
    /// # Errors
    ///
    /// The first of these: what `Config::check` answers; `BadParameter` where the configuration has no peer of this
    /// number; `Memory` where a growth was refused.
    pub fn open(alloc: Global, config: &Config, peer: u32) -> Result<FilteredPeer<F>, Code>
        // The peer stands for its opening in the roster of the configuration.
        ensures opening { IfOk result
            (λ core. StandsFor core (roster_of config.now) (opening_peer config.now peer)) }
        // So it does in each roster in which the peers of the configuration come first.
        ensures roster { IfOk result (λ core. InRosters config.now
            (λ roster. StandsFor core roster (opening_peer config.now peer))) }
        // It has no filters.
        ensures none { IfOk result (λ core. core.filters ≡ []) }
        // Against what is opened there is no cause.
        ensures taken { IfOk result (λ core. core_refusal config.now.peers peer ≡ None) }
        // A refusal is by the first cause that there is, or for want of memory.
        ensures refused { IfErr result (Refuses (core_refusal config.now.peers peer)) }
    {
        let peer = Peer::open(alloc, config, peer)?;
        Ok(FilteredPeer {
            peer,
            filters: FilterList::new(alloc),
        })
    }

    /// The one peer of a configuration, as it comes to a network under this number, without filters. Its writers and
    /// readers are matched with its own alone, until they are told of others.
    ///
    /// # Errors
    ///
    /// The first of these: what `Config::check` answers; `BadParameter` where the configuration has more peers than one,
    /// or the number is 0; `Memory` where a growth was refused.
    pub fn come(alloc: Global, config: &Config, number: u32) -> Result<FilteredPeer<F>, Code>
        // By the roster of each list that has the peer under this number it stands for it as it comes.
        ensures coming { IfOk result (λ core. InRostersAt config.now number
            (λ roster p. StandsFor core roster (coming_peer number p))) }
        // It has no filters.
        ensures none { IfOk result (λ core. core.filters ≡ []) }
        // Against what comes there is no cause.
        ensures taken { IfOk result (λ core. coming_refusal config.now.peers number ≡ None) }
        // A refusal is by the first cause that there is, or for want of memory.
        ensures refused { IfErr result (Refuses (coming_refusal config.now.peers number)) }
    {
        let peer = Peer::come(alloc, config, number)?;
        Ok(FilteredPeer {
            peer,
            filters: FilterList::new(alloc),
        })
    }

    /// One event: a call, the peer's time that goes on, the bytes of a packet that come, or the places of a reader that are
    /// tried again.
    ///
    /// A call is answered as `Call` says, a tick as `Event::Tick`, a packet by a report of what it moved, whatever its bytes
    /// are, and where places are tried again as `Event::Resume` says. At a tick those whose lease is over die at the peer's readers, then its writers lose their
    /// liveliness whose own lease is over, and then HEARTBEATs are sent. What is refused changes nothing, but for
    /// `NoData`, which is entered as the access that it is, and `Timeout` of a look at a WaitSet, which ends the wait.
    /// Packets go out for a change that was made and for an assertion, one for each peer with a matched reader; at a
    /// tick for each writer, HEARTBEATs to each peer with a reader that is behind, has asked for one since the last
    /// tick by an ACKNACK that is not final and asks for no change, or was greeted and has not answered; and at a
    /// delivery the ACKNACKs that its HEARTBEATs ask for, and the changes and GAPs that its ACKNACKs do. Those for
    /// which there is no memory are counted in `unsent`. Where two replies are asked for, all memory for both is asked
    /// for before anything changes.
    ///
    /// DDS 1.4, 2.2.2.4 and 2.2.2.5 (DataWriter, DataReader); RTPS 2.5, 8.4 (behaviour).
    #[inline(always)]
    pub fn step(&mut self, event: LentEvent, twin: &mut Twin, misses: &mut Misses) -> Output
        // What conditions are said to have found nothing did so, in each state that the peer stands for.
        requires right { AreMisses (tests_of F.meaning self.old.filters) self.old.peer misses.old }
        // For each state that the peer stands for, the event is a step, by what its filters mean, to one that it stands
        // for afterwards; what a call enters is announced, what is due at a tick is sent, and a delivered packet is
        // taken up by the rules of the protocol, and what is due by them is sent.
        // By `MeetReader` and `MeetWriter` it is so in each roster that has whom the peer meets.
        ensures step { Steps (tests_of F.meaning self.old.filters) self.old (event_of event.entry)
            result self.new }
        // The same of what it keeps beside the filters.
        ensures peer { SoundStepsBy
            (tests_of F.meaning self.old.filters) self.old.peer (event_of event.entry) result
            self.new.peer }
        // What goes out is the written form of a message.
        ensures messages { AreMessages result.packets }
        // Few packets find no memory.
        ensures few { result.unsent < max_unsent }
        // Where two replies are asked for, there is the reply once more.
        ensures twin { Twins twin.old result.reply twin.new }
        // So did those that are remembered now, before the event.
        ensures right { AreMisses (tests_of F.meaning self.old.filters) self.old.peer misses.new }
    {
        self.peer.step_by(&self.filters, event, twin, misses)
    }

    /// Takes an answer's lists back, as `Core::reuse` has it.
    #[inline(always)]
    pub(crate) fn reuse(&mut self, output: Output)
        ensures { self.new ≡ self.old }
    {
        self.peer.reuse(output);
    }

    /// Adds a filter, by the next number, from 1: query conditions can name it from then on. What it answers is what it
    /// means, for every key and value.
    ///
    /// # Errors
    ///
    /// `OutOfResources` where 2^32 - 1 filters were added, else `Memory` where a growth was refused. The filter comes
    /// back, and nothing changes.
    ///
    /// DDS 1.4, 2.2.2.5 (QueryCondition).
    pub fn add_filter(&mut self, filter: F) -> Result<u32, (Code, F)>
        // It is the last one, by the next number, and nothing else changes.
        ensures ok { IfOk result (λ number. Adds self.old filter number self.new) }
        // A refusal is for want of a number, exactly then, or for want of memory.
        ensures refused { IfErr result (λ e. RefusesFilter self.old e.0) }
        // What is refused comes back, and changes nothing.
        ensures back { IfErr result (λ e. e.1 ≡ filter) }
        ensures err { OnErr result (self.new ≡ self.old) }
    {
        if let Err(code) = self.peer.next_filter() {
            return Err((code, filter));
        }
        if let Err(filter) = self.filters.add(filter) {
            return Err((Code::Memory, filter));
        }
        match self.peer.add_filter() {
            Ok(number) => Ok(number),
            // A number is left: next_filter gave it.
            Err(_) => unreachable!(),
        }
    }

    /// How many writers it has.
    pub(crate) fn writers(&self) -> usize
        ensures { result ≡ length self.now.peer.writers }
    {
        self.peer.writers.len()
    }

    /// How many readers it has.
    pub(crate) fn readers(&self) -> usize
        ensures { result ≡ length self.now.peer.readers }
    {
        self.peer.readers.len()
    }

    /// Where its lists have their memory from.
    pub(crate) fn memory(&self) -> Global {
        self.peer.alloc
    }

    /// In how many WaitSets somebody waits.
    pub(crate) fn in_use(&self) -> u32
        ensures { result ≡ uses_in self.now.peer.watch.wait_sets }
    {
        self.peer.watch.in_use()
    }

    /// Whether somebody waits in the WaitSet of this number.
    pub(crate) fn is_in_use(&self, number: u32) -> bool
        ensures { result ≡ is_used (at_number self.now.peer.watch.wait_sets number) }
    {
        self.peer.watch.is_in_use(number)
    }

    /// What its statuses say before an event.
    // Few steps have listeners, and the others need no place for what it makes.
    #[inline(never)]
    pub(crate) fn mark(&self, marks: &mut Marks)
        ensures { MarksPeer self.now.peer marks.new }
    {
        *marks = self.peer.marks();
    }

    /// The end of an event, before which the peer had these marks: listeners are told what it raised.
    pub(crate) fn end<L: Listener>(&mut self, slots: &mut Slots<L>, marks: &Marks)
        ensures told { (before : Part) → AreMarksOf marks.now before
            → Tells L.notices L.capacity L.becomes
            (at_end before) self.old.peer slots.old self.new.peer slots.new }
        ensures filters { self.new.filters ≡ self.old.filters }
    {
        self.peer.end(slots, marks);
    }

    /// The prefix of the GUIDs of its ends.
    pub(crate) fn prefix(&self) -> GuidPrefix
        ensures { result ≡ self.now.peer.prefix }
    {
        self.peer.prefix
    }

    /// The peer's moment: 0, or that of the last tick that was done.
    pub fn moment(&self) -> Moment
        // It is the moment of each state that the peer stands for.
        ensures moment { (roster : Roster) (peer : PeerState)
            → PeerStandsFor self.now.peer roster peer
            → result ≡ peer.part.dds.moment }
    {
        self.peer.moment()
    }

    /// The writer of this number and a reader, by their entity ids, whether the reader is behind, and the number of the
    /// writer's last change; `None` where they are not matched, or where there are no such ends.
    ///
    /// RTPS 2.5, 8.4.7 (StatefulWriter: matched_readers; ReaderProxy: unacked_changes).
    pub fn pair(&self, writer: u8, reader: Endpoint) -> Option<Pair>
        // They are matched exactly if a pair is found, and the ids are those of the roster; the reader is behind
        // exactly where it has not acknowledged some change, and the last number is how many changes the writer has
        // made.
        ensures pair { (roster : Roster) (peer : PeerState)
            → PeerStandsFor self.now.peer roster peer
            → IsPair roster peer writer reader result }
    {
        self.peer.pair(writer, reader)
    }

    /// The place of the reader of this number at a writer of its topic: the number of the change that it has next, from
    /// 1; `None` where there are no such ends. It is kept where the reader is matched with the writer no longer.
    ///
    /// RTPS 2.5, 8.4.10 (StatefulReader, WriterProxy).
    pub fn place(&self, reader: u8, writer: Endpoint) -> Option<Sn>
        // It is the place in each state that the peer stands for, and there is one exactly if the reader knows the
        // writer.
        ensures place { (roster : Roster) (peer : PeerState)
            → PeerStandsFor self.now.peer roster peer
            → result ≡ place_of (own_proxies peer.part reader) writer }
    {
        self.peer.place(reader, writer)
    }

    /// Whether the reader of this number is matched with a writer now; it is not where there are no such ends.
    ///
    /// RTPS 2.5, 8.4.10 (StatefulReader: matched_writers).
    pub fn is_matched(&self, reader: u8, writer: Endpoint) -> bool
        // It is so exactly if it is in each state that the peer stands for.
        ensures matched { (roster : Roster) (peer : PeerState)
            → PeerStandsFor self.now.peer roster peer
            → result ≡ is_attached (how_of (own_proxies peer.part reader) writer) }
    {
        self.peer.is_matched(reader, writer)
    }

    /// What a datagram holds that would be nothing to the peer, as it stands before the datagram is delivered. It changes
    /// nothing, and takes no memory. Where one writer is asked for, old is counted of that one alone.
    ///
    /// RTPS 2.5, 8.3.4 (the message receiver), 8.4.10 (StatefulReader, WriterProxy).
    pub fn observe(&self, of: Option<Endpoint>, datagram: &[u8]) -> Observed
        // So much is old, or to nobody, in each state that the peer stands for; of bytes that are no message nothing.
        ensures observes { (roster : Roster) (peer : PeerState)
            → PeerStandsFor self.now.peer roster peer
            → Observes roster peer of datagram.now result }
    {
        self.peer.observe(of, datagram)
    }
}
