//! The network.
//!
//! It is this project's own; its peers behave by RTPS 2.5, 8.4, and answer by DDS 1.4, 2.2.2.4 and 2.2.2.5.

ghost use Rattle.std.specs.Prelude.{◌≡◌, ℕ, ◌&&◌, ◌+◌, ◌-◌, ◌^◌, ◌<◌, ◌≤◌, false, nat_lt, nat_le, IfOk, IfErr, OnErr, MatchOption, length, map, slice_get, None, [], vec_len, vec_capacity};
ghost use Rattle.std.specs.Option.{option_copied};
ghost use Rattle.dds_base.specs.Checked.{check_refusal};
ghost use Rattle.dds_base.specs.Refusal.{Refuses};
ghost use Rattle.dds_base.specs.declared.code.Code.TheVariants.{Memory};
ghost use Rattle.dds_notices.specs.Listeners.{ByEntity};
ghost use Rattle.dds_machine.specs.declared.event.WorldEvent.TheVariants as event;
ghost use Rattle.dds_protocol.specs.Roster.{Roster, roster_of};
ghost use Rattle.dds_protocol.specs.Traffic.{no_traffic};
ghost use Rattle.dds_machine.specs.Machine.{Machine, part_at, place_at};
ghost use Rattle.dds_machine.specs.Part.{how_of, is_attached, own_proxies};
ghost use Rattle.dds_machine.specs.Opening.{opening};
ghost use Rattle.dds_machine.specs.Runs.{Runs, Steps};
ghost use Rattle.dds_machine.specs.Numbered.{numbered};
ghost use Rattle.dds_protocol.specs.Opening.{opening_world};
ghost use Rattle.dds_core.specs.Opening.{InRosters, opening_peer};
ghost use Rattle.dds_core.specs.Listening.{StandsFor as CoreStandsFor, no_listeners};
ghost use Rattle.dds_world.specs.WorldStanding.{KeepsRules, MachineStands, MeetsByConfig, RunsByRules, StandsFor, traffic};
ghost use Rattle.dds_world.specs.Posting.{Posts};
ghost use Rattle.dds_world.specs.Acting.{Counts, IsQuiet, OpensFirst};
ghost use Rattle.dds_world.specs.Holding.{Adds, RefusesFilter, RefusesListener, Sets, MachineStandsFor, filters_of, kept_of, none_given, tests_by, tests_in};
ghost use Rattle.dds_world.specs.HeldSteps.{ActsIn, IsOfPeer, StepsIn};

use dds_base::{Code, Config, Endpoint, Entity, Sequence, Sn, index_of_peer};
use dds_conditions::Filter;
use dds_core::Core;
use dds_machine::{Reply, WorldEvent};
use dds_notices::{Listener, StatusMask};
use dds_protocol::{Event, Output, Packet};
use std::alloc::Global;
use std::marker::Model;

/// Peers, which are numbered from 1, and all packets that they ever sent. Their filters and their listeners are boxes,
/// unless `F` and `L` name types of the application's own.
///
/// It keeps each packet, so that it can be delivered at any time and again: its memory grows with what is sent, without
/// a bound, and is given back when the network is dropped.
#[derive(Drop)]
pub struct World<F = Box<dyn Filter + Send>, L = Box<dyn Listener + Send>> {
    pub(crate) alloc: Global,
    pub(crate) peers: Vec<Core<F, L>>,
    pub(crate) sent: Vec<Packet>,
    pub(crate) unsent: u64,
}

impl<F, L> Model for World<F, L> {
    ghost use Rattle.std.specs.Prelude.{◌<◌, ◌^◌};
    ghost use Rattle.dds_world.specs.Holding.{Held};

    ghost Value = { Held F L };

    ghost view = { λ w. record { cores = w.peers.items; sent = w.sent.items; unsent = w.unsent } };

    ghost invariant = { λ w. w.unsent < 2 ^ 64 };
}

/// Sends packets, and gives how many found no memory.
fn post(sent: &mut Vec<Packet>, packets: Sequence<Packet>) -> u64
    ensures posted { Posts sent.old.items packets sent.new.items }
    ensures counted { length sent.new.items + result ≡ length sent.old.items + length packets }
{
    let before = sent.len();
    let total = packets.as_slice().len();
    for packet in packets.into_vec() {
        let _ = sent.push(packet);
    }
    (total - (sent.len() - before)) as u64
}

/// The index of a packet of this number, counted from 1, among so many.
fn packet_index(number: u64, count: u64) -> Option<usize>
    ensures { MatchOption result ((nat_lt 0 number && nat_le number count) ≡ false)
        (λ index. (number ≡ index + 1) × (index < count)) }
{
    if number == 0 || count < number {
        None
    } else {
        Some((number - 1) as usize)
    }
}

/// The peer of this index, at its opening.
fn open_peer<F: Filter, L: Listener>(
    alloc: Global,
    config: &Config,
    index: usize,
) -> Result<Core<F, L>, Code>
    requires within { index < length config.now.peers }
    requires few { length config.now.peers ≤ 16 }
    ensures opening { IfOk result
        (λ core. InRosters config.now (λ roster. CoreStandsFor L.notices L.capacity L.becomes
        (no_listeners (opening_peer config.now (index + 1)).part) core roster
        (opening_peer config.now (index + 1)))) }
    ensures none { IfOk result (λ core. core.filtered.filters ≡ []) }
    ensures taken { IfOk result (λ core. check_refusal config.now.peers ≡ None) }
    ensures refused { IfErr result (Refuses (check_refusal config.now.peers)) }
{
    Core::open(alloc, config, (index + 1) as u32)
}

/// The peers of a checked configuration, at their opening.
fn open_peers<F: Filter, L: Listener>(
    alloc: Global,
    config: &Config,
) -> Result<Vec<Core<F, L>>, Code>
    requires checked { check_refusal config.now.peers ≡ None }
    requires some { 1 ≤ length config.now.peers }
    requires few { length config.now.peers ≤ 16 }
    ensures opening { IfOk result
        (λ peers. OpensFirst L.notices L.capacity L.becomes config.now
        (length config.now.peers) peers.items) }
    ensures refused { IfErr result (Refuses (check_refusal config.now.peers)) }
{
    let mut peers = Vec::new(alloc);
    for index in 0..config.peers.as_slice().len() {
        let peer = open_peer(alloc, config, index)?;
        peers.push(peer)?;
    }
    Ok(peers)
}

/// Room for so many replies. Where there is to be none it takes no memory.
fn room_for(alloc: Global, count: usize) -> Result<Vec<Reply>, Code>
    ensures items { IfOk result (λ replies. replies.items ≡ []) }
    ensures len { IfOk result (λ replies. vec_len replies ≡ 0) }
    ensures capacity { IfOk result (λ replies. count ≤ vec_capacity replies) }
    ensures memory { IfErr result (λ code. (code ≡ Memory) × (1 ≤ count)) }
{
    Ok(Vec::with_capacity(alloc, count)?)
}

impl<F: Filter, L: Listener> World<F, L> {
    /// The network of a configuration, at its opening: its peers, 1 to 16, in their order, without filters and
    /// listeners.
    ///
    /// # Errors
    ///
    /// What `Config::check` answers, else `Memory` where a growth was refused.
    pub fn open(alloc: Global, config: &Config) -> Result<World<F, L>, Code>
        // The network stands for the machine at the opening of its configuration, and no listener was given.
        ensures opening { IfOk result
            (λ world. MachineStandsFor L.notices L.capacity L.becomes (none_given (opening config.now))
            world config.now (opening config.now)) }
        // Its peers are at their opening too, and know nothing.
        ensures rules { IfOk result
            (λ world. StandsFor (kept_of L.notices L.capacity L.becomes (none_given (opening config.now)) world)
            (roster_of config.now) (opening_world config.now)) }
        // Both are so by the roster of each list in which the peers of the configuration come first.
        ensures roster { IfOk result
            (λ world. InRosters config.now (λ roster.
            MachineStands (kept_of L.notices L.capacity L.becomes (none_given (opening config.now)) world)
            roster (opening config.now)
            × StandsFor (kept_of L.notices L.capacity L.becomes (none_given (opening config.now)) world)
            roster (opening_world config.now))) }
        // No peer has a filter.
        ensures none { IfOk result
            (λ world. (peer : ℕ) → numbered (filters_of world) peer [] ≡ []) }
        // Nothing was sent, and nothing is counted.
        ensures quiet { IfOk result
            (λ world. (given : ℕ → ByEntity L)
            → traffic (kept_of L.notices L.capacity L.becomes given world) ≡ no_traffic) }
        // Against what is opened there is no cause.
        ensures taken { IfOk result (λ world. check_refusal config.now.peers ≡ None) }
        // A refusal is by the first cause that there is, or for want of memory.
        ensures refused { IfErr result (Refuses (check_refusal config.now.peers)) }
    {
        config.check()?;
        let peers = open_peers(alloc, config)?;
        Ok(World {
            alloc,
            peers,
            sent: Vec::new(alloc),
            unsent: 0,
        })
    }

    /// One event: a call at a peer, its time that goes on, the delivery of a packet that was sent, at a peer, or a reader
    /// whose places are tried again.
    ///
    /// An event at a peer that does not exist, and the delivery of a packet that was never sent, are refused with
    /// `BadParameter`. A call is answered as `Call` says, a reader whose places are tried again as `Event::Resume`, and
    /// a tick as `Event::Tick`: at it writers die whose lease is over. What is refused changes nothing, but for `NoData`, which is entered as the access that it is, and
    /// `Timeout` of a look at a WaitSet, which ends the wait. At the end of an event the listeners of its peer are told
    /// what it raised, as `Core::step` says.
    pub fn step(&mut self, event: WorldEvent) -> Reply
        // Whatever listeners the peers were given: for each machine that the network stands for, the reply is one that
        // the machine without packets gives, by what the filters mean, and the network stands for the machine at the
        // event's end, once listeners were told: this is the theorem.
        ensures step { (given : ℕ → ByEntity L) → Steps (MachineStandsFor L.notices L.capacity L.becomes given) MeetsByConfig
            (tests_by F.meaning (map (λ core. core.filtered.filters) self.old.cores)) (length self.old.sent)
            self.old event result self.new }
        // The event is one by the rules of the protocol, by which that is so: each message that they make due is sent,
        // or counted, and a delivered packet is taken up, submessage by submessage.
        ensures rules { (given : ℕ → ByEntity L) → KeepsRules (tests_in F.meaning self.old)
            (kept_of L.notices L.capacity L.becomes given self.old) event result
            (kept_of L.notices L.capacity L.becomes given self.new) }
        // No filter is added.
        ensures filters { filters_of self.new ≡ filters_of self.old }
    {
        self.happen(event)
    }

    /// Events one after the other, and the reply to each.
    ///
    /// # Errors
    ///
    /// `Memory` where no memory was found for the replies; nothing was done then. No events need none.
    pub fn run(&mut self, events: Vec<WorldEvent>) -> Result<Sequence<Reply>, Code>
        // The replies are a run of the machine without packets.
        ensures run { IfOk result
            (λ replies. (given : ℕ → ByEntity L) → Runs (MachineStandsFor L.notices L.capacity L.becomes given)
            MeetsByConfig (tests_in F.meaning self.old) (length self.old.sent) self.old events.items replies
            (length self.new.sent) self.new) }
        // They are one of the network's peers by the rules of the protocol.
        ensures rules { IfOk result
            (λ replies. (given : ℕ → ByEntity L) → RunsByRules (tests_in F.meaning self.old)
            (kept_of L.notices L.capacity L.becomes given self.old) events.items replies
            (kept_of L.notices L.capacity L.becomes given self.new)) }
        // No filter is added.
        ensures filters { filters_of self.new ≡ filters_of self.old }
        // It is refused for want of memory alone, and never where there are no events.
        ensures memory { IfErr result (λ code. (code ≡ Memory) × (1 ≤ length events.items)) }
        // A refusal leaves the network as it was.
        ensures err { OnErr result (self.new ≡ self.old) }
    {
        let mut replies = room_for(self.alloc, events.len())?;
        for event in events {
            let reply = self.step(event);
            if replies.push(reply).is_err() {
                // The list was made with room for each reply.
                unreachable!();
            }
        }
        Ok(Sequence::from_vec(replies))
    }

    /// Adds a filter at a peer, by the next number there, from 1: query conditions of the peer can name it from then
    /// on. What it answers is what it means, for every key and value.
    ///
    /// # Errors
    ///
    /// `BadParameter` where there is no such peer, `OutOfResources` where 2^32 - 1 filters were added there, else
    /// `Memory` where a growth was refused. The filter comes back, and nothing changes.
    ///
    /// DDS 1.4, 2.2.2.5 (QueryCondition).
    pub fn add_filter(&mut self, peer: u32, filter: F) -> Result<u32, (Code, F)>
        // It is the last one there, by the next number, and nothing else changes.
        ensures ok { IfOk result
            (λ number. Adds L.notices L.capacity L.becomes self.old peer filter number self.new) }
        // A refusal is by the first cause that there is, or for want of memory.
        ensures refused { IfErr result (λ e. RefusesFilter L.notices L.capacity L.becomes self.old peer e.0) }
        // What is refused comes back.
        ensures back { IfErr result (λ e. e.1 ≡ filter) }
        // A refusal changes nothing.
        ensures err { OnErr result (self.new ≡ self.old) }
    {
        match index_of_peer(peer, self.count()) {
            Some(index) => self.peers[index].add_filter(filter),
            None => Err((Code::BadParameter, filter)),
        }
    }

    /// Sets the listener of an entity of a peer, with the statuses that it is told of, and hands back the one that was
    /// set before, with the last notices that it was told; `None` takes the listener away. It takes no memory.
    ///
    /// # Errors
    ///
    /// `BadParameter` where there is no such peer, or no such entity at it, else `PreconditionNotMet` where the
    /// listener keeps notices already. It comes back, and nothing changes.
    ///
    /// DDS 1.4, 2.2.2.1 (Entity, set_listener), 2.2.4.3 (access through listeners).
    pub fn set_listener(
        &mut self,
        peer: u32,
        entity: Entity,
        mask: StatusMask,
        listener: Option<L>,
    ) -> Result<Option<L>, (Code, Option<L>)>
        // It is set, and nothing else changes; the one of before is what that which was given became by being told of
        // all that its place was, one after another, and has kept the last ones.
        ensures ok { IfOk result
            (λ handed. Sets L.notices L.capacity L.becomes self.old peer entity mask listener handed
            self.new) }
        // A refusal is by the first cause that there is, exactly then.
        ensures refused { IfErr result
            (λ e. RefusesListener L.notices L.capacity L.becomes self.old peer entity listener e.0) }
        // What is refused comes back.
        ensures back { IfErr result (λ e. e.1 ≡ listener) }
        // A refusal changes nothing.
        ensures err { OnErr result (self.new ≡ self.old) }
    {
        match index_of_peer(peer, self.count()) {
            Some(index) => self.peers[index].set_listener(entity, mask, listener),
            None => Err((Code::BadParameter, listener)),
        }
    }

    /// How many peers there are.
    pub(crate) fn count(&self) -> usize
        ensures { result ≡ length self.now.cores }
    {
        self.peers.len()
    }

    fn happen(&mut self, event: WorldEvent) -> Reply
        ensures { StepsIn F.meaning L.notices L.capacity L.becomes self.old event result self.new }
    {
        match event {
            WorldEvent::Call { peer, call } => self.happen_to(peer, Event::Call(call)),
            WorldEvent::Tick { peer, now } => self.happen_to(peer, Event::Tick(now)),
            WorldEvent::Deliver { peer, packet } => self.deliver(peer, packet),
            WorldEvent::Resume { peer, reader } => self.happen_to(peer, Event::Resume { reader }),
        }
    }

    /// An event of the peer of this number that is no delivery.
    fn happen_to(&mut self, peer: u32, event: Event) -> Reply
        ensures { (whole : WorldEvent) → IsOfPeer whole peer event
            → StepsIn F.meaning L.notices L.capacity L.becomes self.old whole result self.new }
    {
        match index_of_peer(peer, self.count()) {
            Some(index) => self.happen_at(index, event),
            None => Reply::Refused(Code::BadParameter),
        }
    }

    fn deliver(&mut self, peer: u32, packet: u64) -> Reply
        ensures { StepsIn F.meaning L.notices L.capacity L.becomes self.old
            (event.Deliver peer packet) result self.new }
    {
        match packet_index(packet, self.sent()) {
            Some(sent) => self.deliver_sent(peer, sent),
            None => Reply::Refused(Code::BadParameter),
        }
    }

    /// Delivers the packet of this index.
    fn deliver_sent(&mut self, peer: u32, sent: usize) -> Reply
        requires sent { sent < length self.old.sent }
        ensures { StepsIn F.meaning L.notices L.capacity L.becomes self.old
            (event.Deliver peer (sent + 1)) result self.new }
    {
        match index_of_peer(peer, self.count()) {
            Some(index) => self.deliver_at(index, sent),
            None => Reply::Refused(Code::BadParameter),
        }
    }

    /// Delivers the packet of this index to the peer of this index, which reads it where it is kept.
    fn deliver_at(&mut self, index: usize, sent: usize) -> Reply
        requires within { index < length self.old.cores }
        requires sent { sent < length self.old.sent }
        ensures { StepsIn F.meaning L.notices L.capacity L.becomes self.old
            (event.Deliver (index + 1) (sent + 1)) result self.new }
    {
        let output = self.peers[index].deliver(self.sent[sent].bytes.as_slice());
        self.posted(output)
    }

    /// One event of the peer of this index. Sends what the peer gives back, and gives its answer.
    fn happen_at(&mut self, index: usize, event: Event) -> Reply
        requires { index < length self.old.cores }
        ensures { ActsIn F.meaning L.notices L.capacity L.becomes self.old index event result self.new }
    {
        let output = self.peers[index].step(event);
        self.posted(output)
    }

    /// Sends what a peer gives back, and gives its answer.
    fn posted(&mut self, output: Output) -> Reply
        ensures reply { result ≡ output.reply }
        ensures cores { self.new.cores ≡ self.old.cores }
        ensures posted { Posts self.old.sent output.packets self.new.sent }
        ensures unsent { (given : ℕ → ByEntity L) → Counts (kept_of L.notices L.capacity L.becomes given self.old) output
            (kept_of L.notices L.capacity L.becomes given self.new) }
        ensures quiet { (given : ℕ → ByEntity L) → IsQuiet (kept_of L.notices L.capacity L.becomes given self.old) output
            (kept_of L.notices L.capacity L.becomes given self.new) }
    {
        let Output {
            reply,
            packets,
            unsent,
        } = output;
        let lost = post(&mut self.sent, packets);
        self.unsent = self.unsent.saturating_add(unsent).saturating_add(lost);
        reply
    }

    /// The packet of this number, counted from 1 among all that were sent; `None` where fewer were, and for 0.
    pub fn packet(&self, number: u64) -> Option<&Packet>
        // The packet of this number, exactly if it was sent.
        ensures found { 1 ≤ number → option_copied result ≡ slice_get self.now.sent (number - 1) }
        // No packet has the number 0.
        ensures none { number ≡ 0 → result ≡ None }
    {
        if number == 0 {
            return None;
        }
        self.sent.get((number - 1) as usize)
    }

    /// How many packets were sent.
    pub fn sent(&self) -> u64
        ensures sent { result ≡ length self.now.sent }
    {
        self.sent.len() as u64
    }

    /// How many packets found no memory; it stays at its greatest value.
    pub fn unsent(&self) -> u64
        ensures unsent { result ≡ self.now.unsent }
    {
        self.unsent
    }

    /// The place of a reader at a writer: the number of the change that it has next, from 1; `None` where the reader
    /// doesn't know the writer, or where there are no such ends. It is kept also of a writer with which the reader is no
    /// longer matched.
    ///
    /// RTPS 2.5, 8.4.10 (StatefulReader, WriterProxy).
    pub fn place(&self, reader: Endpoint, writer: Endpoint) -> Option<Sn>
        // It is the place in each machine that the network stands for, and there is one exactly if the writer is known.
        ensures place { (given : ℕ → ByEntity L) (roster : Roster) (m : Machine)
            → MachineStands (kept_of L.notices L.capacity L.becomes given self.now) roster m
            → result ≡ place_at m reader writer }
    {
        let Some(index) = index_of_peer(reader.peer, self.count()) else {
            return None;
        };
        self.peers[index].place(reader.number, writer)
    }

    /// Whether a reader is matched with a writer, as its peer was told; `false` where there are no such ends.
    ///
    /// RTPS 2.5, 8.4.10 (StatefulReader: matched_writers).
    pub fn is_matched(&self, reader: Endpoint, writer: Endpoint) -> bool
        // So it is in each machine that the network stands for.
        ensures matched { (given : ℕ → ByEntity L) (roster : Roster) (m : Machine)
            → MachineStands (kept_of L.notices L.capacity L.becomes given self.now) roster m
            → result
            ≡ is_attached (how_of (own_proxies (part_at m reader.peer) reader.number) writer) }
    {
        let Some(index) = index_of_peer(reader.peer, self.count()) else {
            return false;
        };
        self.peers[index].is_matched(reader.number, writer)
    }
}
