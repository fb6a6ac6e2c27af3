//! A peer that remembers which conditions found nothing.
//!
//! DDS 1.4, 2.2.2.5 (ReadCondition, QueryCondition: get_trigger_value). `docs/DECISIONS.md`, "Listeners, filters and
//! WaitSets", says why it is a type of its own.

ghost use Rattle.std.specs.Prelude.{◌≡◌, [], None, IfErr, IfOk, OnErr, OnOk};
ghost use Rattle.dds_base.specs.Number.{at_number};
ghost use Rattle.dds_base.specs.Refusal.{Refuses};
ghost use Rattle.dds_conditions.specs.Filtered.{tests_of};
ghost use Rattle.dds_conditions.specs.Watched.{is_used, uses_in};
ghost use Rattle.dds_core.specs.Listening.{Adds, RefusesFilter, RefusesListener, Sets, StandsFor, Steps, no_listeners};
ghost use Rattle.dds_core.specs.Opening.{InRosters, core_refusal, opening_peer};
ghost use Rattle.dds_core.specs.Ruling.{IsSound};
ghost use Rattle.dds_ends.specs.Sending.{AreMessages};
ghost use Rattle.dds_core.specs.Standing.{StandsFor as PeerStandsFor};
ghost use Rattle.dds_protocol.specs.declared.event.Event.TheVariants as event;
ghost use Rattle.dds_protocol.specs.Roster.{Roster, roster_of};
ghost use Rattle.dds_protocol.specs.Peer.{Peer as PeerState};

use crate::application::Core;
use crate::lent_event::LentEvent;
use crate::misses::Misses;
use dds_base::{Code, Config, Entity};
use dds_conditions::Filter;
use dds_ends::{Twin, pair_of};
use dds_notices::{Listener, StatusMask};
use dds_protocol::{Event, Output};
use std::alloc::Global;
use std::marker::Model;

/// A peer as `Core` is one, which remembers of its read and query conditions which found nothing: until something happens at
/// its reader, such a condition is answered without going over the samples again. It answers as `Core` does.
///
/// A type that the prover is to know can't hold one whose filters or listeners hold a `dyn`: what it remembers is right by
/// what its filters mean, and is part of what is true of the type.
#[derive(Drop)]
pub struct Mindful<F: Filter = Box<dyn Filter + Send>, L: Listener = Box<dyn Listener + Send>> {
    core: Core<F, L>,
    // No answer depends on it.
    misses: Misses,
}

impl<F: Filter, L: Listener> Model for Mindful<F, L> {
    ghost use Rattle.dds_core.specs.Listening.{CoreKept};
    ghost use Rattle.dds_core.specs.Remembering.{Remembers};

    ghost Value = { CoreKept F L };

    ghost view = { λ m. m.core };

    ghost invariant = { λ m. Remembers L.notices L.capacity L.becomes F.meaning m.core m.misses };
}

impl<F: Filter, L: Listener> Mindful<F, L> {
    /// The peer of this number, at its opening, without filters and listeners. Its writers and readers are matched with
    /// those of equal topic. The room for all listeners that will be set is made here.
    ///
    /// # Errors
    ///
    /// The first of these: what `Config::check` answers; `BadParameter` where the configuration has no peer of this
    /// number; `Memory` where a growth was refused.
    pub fn open(alloc: Global, config: &Config, peer: u32) -> Result<Mindful<F, L>, Code>
        // The peer stands for its opening in the roster of the configuration.
        ensures opening { IfOk result
            (λ core. StandsFor L.notices L.capacity L.becomes
            (no_listeners (opening_peer config.now peer).part) core (roster_of config.now)
            (opening_peer config.now peer)) }
        // All that is known of it there was claimed.
        ensures known { OnOk result (IsSound (roster_of config.now) (opening_peer config.now peer)) }
        // Both are so in each roster in which the peers of the configuration come first.
        ensures roster { IfOk result (λ core. InRosters config.now
            (λ roster. StandsFor L.notices L.capacity L.becomes
            (no_listeners (opening_peer config.now peer).part) core roster (opening_peer config.now peer)
            × IsSound roster (opening_peer config.now peer))) }
        // It has no filters.
        ensures none { IfOk result (λ core. core.filtered.filters ≡ []) }
        // Against what is opened there is no cause.
        ensures taken { IfOk result (λ core. core_refusal config.now.peers peer ≡ None) }
        // A refusal is by the first cause that there is, or for want of memory.
        ensures refused { IfErr result (Refuses (core_refusal config.now.peers peer)) }
    {
        let core = Core::open(alloc, config, peer)?;
        Ok(Mindful {
            core,
            misses: Misses::new(alloc),
        })
    }

    /// One event, as `Core::step` has it.
    ///
    /// DDS 1.4, 2.2.2.4 and 2.2.2.5 (DataWriter, DataReader), 2.2.4.3 (access through listeners); RTPS 2.5, 8.4
    /// (behaviour).
    // Within a caller that makes the event, LLVM leaves what is for other events and other calls away.
    #[inline(always)]
    pub fn step(&mut self, event: Event) -> Output
        // For each state that the peer stands for, the event is a step, by what its filters mean, whose end listeners
        // are told of, to one that it stands for afterwards; what a call enters is announced, what is due at a tick is
        // sent, a delivered packet is taken up by the rules of the protocol, and what is due by them is sent, and places
        // that are tried again go as far as those let them.
        // By `MeetReader` and `MeetWriter` it is so in each roster that has whom the peer meets.
        ensures step { Steps L.notices L.capacity L.becomes
            (tests_of F.meaning self.old.filtered.filters) self.old event result self.new }
        // What goes out is the written form of a message.
        ensures messages { AreMessages result.packets }
    {
        self.core
            .step_with(event, &mut Twin::Unasked, &mut self.misses)
    }

    /// One event, as `step` has it, and two equal outputs. All memory for both is asked for before anything changes, but
    /// for that of the packets: a reply whose copy finds none is refused for want of memory, or a packet's report ends at
    /// the submessage that found none, as in `step`, and one of places that are tried again at the writer; a packet to be
    /// sent whose copy finds none is in neither output, and counted in `unsent` of both.
    ///
    /// DDS 1.4, 2.2.2.4 and 2.2.2.5 (DataWriter, DataReader), 2.2.4.3 (access through listeners); RTPS 2.5, 8.4
    /// (behaviour).
    pub fn step_pair(&mut self, event: Event) -> (Output, Output)
        // For each state that the peer stands for, the event is a step, by what its filters mean, whose end listeners
        // are told of, to one that it stands for afterwards; what a call enters is announced, what is due at a tick is
        // sent, a delivered packet is taken up by the rules of the protocol, and what is due by them is sent, and places
        // that are tried again go as far as those let them.
        // By `MeetReader` and `MeetWriter` it is so in each roster that has whom the peer meets.
        ensures step { Steps L.notices L.capacity L.becomes
            (tests_of F.meaning self.old.filtered.filters) self.old event result.0 self.new }
        // What goes out is the written form of a message.
        ensures messages { AreMessages result.0.packets }
        // The second output is the first one.
        ensures equal { result.0 ≡ result.1 }
    {
        let alloc = self.core.memory();
        let mut twin = Twin::Asked;
        let output = self.core.step_with(event, &mut twin, &mut self.misses);
        pair_of(alloc, output, twin)
    }

    /// The bytes of a packet come, as by `step`, and stay with whoever keeps them: no memory is needed to hand them over.
    ///
    /// RTPS 2.5, 8.3.4 (the message receiver), 8.4 (behaviour).
    #[inline(always)]
    pub fn deliver(&mut self, packet: &[u8]) -> Output
        // It is the step at which these bytes are delivered.
        ensures step { Steps L.notices L.capacity L.becomes
            (tests_of F.meaning self.old.filtered.filters) self.old (event.Deliver packet.now)
            result self.new }
        // What goes out is the written form of a message.
        ensures messages { AreMessages result.packets }
    {
        self.core.happen(
            LentEvent::Deliver(packet),
            &mut Twin::Unasked,
            &mut self.misses,
        )
    }

    /// Takes the lists of an answer back, which its caller has read, for the answers that follow: a caller who gives each
    /// answer back has most of them made without asking for memory. It keeps the memory of a few lists, of at most 128
    /// places each, and lets their elements go; it takes none.
    #[inline(always)]
    pub fn reuse(&mut self, output: Output)
        // The peer is as it was, whatever is given back.
        ensures same { self.new ≡ self.old }
    {
        self.core.reuse(output);
    }

    /// Adds a filter, by the next number, from 1: query conditions can name it from then on. What it answers is what it
    /// means, for every key and value.
    ///
    /// # Errors
    ///
    /// `OutOfResources` where 2^32 - 1 filters were added, else `Memory` where a growth was refused. The filter comes
    /// back, and nothing changes.
    ///
    /// DDS 1.4, 2.2.2.5 (QueryCondition).
    pub fn add_filter(&mut self, filter: F) -> Result<u32, (Code, F)>
        // It is the last one, by the next number, and nothing else changes.
        ensures ok { IfOk result
            (λ number. Adds L.notices L.capacity L.becomes self.old filter number self.new) }
        // A refusal is for want of a number, exactly then, or for want of memory.
        ensures refused { IfErr result (λ e. RefusesFilter L.notices L.capacity L.becomes self.old e.0) }
        // What is refused comes back.
        ensures back { IfErr result (λ e. e.1 ≡ filter) }
        // A refusal changes nothing.
        ensures err { OnErr result (self.new ≡ self.old) }
    {
        match self.core.add_filter(filter) {
            Ok(number) => {
                self.misses.forget();
                Ok(number)
            }
            Err(refused) => Err(refused),
        }
    }

    /// Sets the listener of an entity, with the statuses that it is told of, and hands back the one that was set
    /// before, as what it became by being told; `None` takes the listener away. It takes no memory.
    ///
    /// # Errors
    ///
    /// `BadParameter` where there is no such entity, else `PreconditionNotMet` where the listener keeps notices
    /// already. It comes back, and nothing changes.
    ///
    /// DDS 1.4, 2.2.2.1 (Entity, set_listener), 2.2.4.3 (access through listeners).
    pub fn set_listener(
        &mut self,
        entity: Entity,
        mask: StatusMask,
        listener: Option<L>,
    ) -> Result<Option<L>, (Code, Option<L>)>
        // It is set, and nothing else changes; the one of before is what that which was set became by being told of all
        // that its place was, one after another, and has kept the last ones.
        ensures ok { IfOk result
            (λ handed. Sets L.notices L.capacity L.becomes self.old entity mask listener handed self.new) }
        // A refusal is by the first cause that there is, exactly then.
        ensures refused { IfErr result
            (λ e. RefusesListener L.notices L.capacity L.becomes self.old entity listener e.0) }
        // What is refused comes back.
        ensures back { IfErr result (λ e. e.1 ≡ listener) }
        // A refusal changes nothing.
        ensures err { OnErr result (self.new ≡ self.old) }
    {
        self.core.set_listener(entity, mask, listener)
    }

    /// In how many WaitSets somebody waits.
    ///
    /// DDS 1.4, 2.2.2.1 (WaitSet, wait).
    pub fn in_use(&self) -> u32
        // So it is in each state that the peer stands for.
        ensures used { (roster : Roster) (peer : PeerState)
            → PeerStandsFor self.now.filtered.peer roster peer
            → result ≡ uses_in peer.part.dds.watch.wait_sets }
    {
        self.core.in_use()
    }

    /// Whether somebody waits in the WaitSet of this number; not in one that there isn't.
    ///
    /// DDS 1.4, 2.2.2.1 (WaitSet, wait).
    pub fn is_in_use(&self, number: u32) -> bool
        // So it is in each state that the peer stands for.
        ensures used { (roster : Roster) (peer : PeerState)
            → PeerStandsFor self.now.filtered.peer roster peer
            → result ≡ is_used (at_number peer.part.dds.watch.wait_sets number) }
    {
        self.core.is_in_use(number)
    }

    /// The peer, to be asked what changes nothing.
    pub fn core(&self) -> &Core<F, L>
        ensures same { result.now ≡ self.now }
    {
        &self.core
    }

    /// The peer, which remembers nothing from then on.
    pub fn into_core(self) -> Core<F, L>
        ensures same { result ≡ self }
    {
        let Mindful { core, misses: _ } = self;
        core
    }
}
