//! Our peer, and those whom it is told of.
//!
//! `specs/Exchanges.antt` says it.
//!
//! DDS 1.4, 2.2.2.2.1 (DomainParticipant); RTPS 2.5, 8.4 (behaviour), 8.5.4 (SEDP).

ghost use Rattle.std.specs.Prelude.{◌≡◌, ◌↔◌, ◌++◌, IsTrue, drop, is_some, length, map, slice_get, IfOk, IfErr, OnOk, OnErr};
ghost use Rattle.dds_base.specs.Refusal.{Refuses};
ghost use Rattle.dds_core.specs.Opening.{core_refusal};
ghost use Rattle.dds_core.specs.Pairs.{IsPair};
ghost use Rattle.dds_core.specs.Standing.{StandsFor};
ghost use Rattle.dds_machine.specs.Part.{how_of, is_attached, is_reader_behind, own_proxies, own_writer};
ghost use Rattle.dds_network.specs.Networks.{Does};
ghost use Rattle.dds_protocol.specs.Peer.{Peer as PeerState};
ghost use Rattle.dds_protocol.specs.Roster.{Roster};
ghost use Rattle.dds_exchange.specs.Exchanges.{Calls, Finds, GoesOut, Hears, IsOpened, MakesCall, found_no_memory, known_of, other_kind, own_end};
ghost use Rattle.dds_exchange.specs.Told.{due_of};
ghost use Rattle.dds_exchange.specs.Behind.{is_behind, is_end_behind};
ghost use Rattle.dds_exchange.specs.Fitting.{Fits};
ghost use Rattle.dds_exchange.specs.Naming.{guid_at};

use crate::ends::{OwnEnd, end_number, guid_at};
use crate::fitting::fits;
use crate::going::{Known, address_of, turned_in, turned_out};
use crate::naming::{NamedEnd, name, prefix_of};
use crate::told::{Due, call_of, dues_of, far_of, own_of};
use dds_base::{Code, Config, Endpoint, EntityId, Guid, GuidPrefix};
use dds_core::{Core, Pair};
use dds_machine::{Call, Reply};
use dds_network::{NoFilter, NoListener};
use dds_protocol::{Event, Output, Packet};
use rtps_announcements::EndpointKind;
use rtps_discovery::{Packet as Datagram, Row};
use rtps_matching::{Far, Told};
use std::alloc::Global;
use std::marker::Model;

/// Our peer, with its writers and readers, and the endpoints of others that it was told of.
///
/// DDS 1.4, 2.2.2.2.1 (DomainParticipant).
#[derive(Drop)]
pub struct Exchange {
    own: GuidPrefix,
    core: Core<NoFilter, NoListener>,
    writers: Vec<OwnEnd>,
    readers: Vec<OwnEnd>,
    named: Vec<NamedEnd>,
    due: Vec<Due>,
}

impl Model for Exchange {
    ghost use Rattle.dds_exchange.specs.States.{State};

    ghost Value = { State };

    ghost view = { λ e. record {
      own = e.own;
      core = e.core;
      writers = e.writers.items;
      readers = e.readers.items;
      named = e.named.items;
      due = e.due.items;
    } };
}

/// The kind of the other endpoint of a match.
fn other_kind(kind: EndpointKind) -> EndpointKind
    ensures { result ≡ other_kind kind }
{
    match kind {
        EndpointKind::Writer => EndpointKind::Reader,
        EndpointKind::Reader => EndpointKind::Writer,
    }
}

/// Whether a call found no memory.
fn found_no_memory(reply: &Reply) -> bool
    ensures { result ≡ found_no_memory reply.now }
{
    matches!(reply, Reply::Refused(Code::Memory))
}

impl Exchange {
    /// Our peer is the first of a configuration, whose prefix is `own`, and nobody is known to it. `writers` and `readers`
    /// say more of those of the configuration, in its order.
    ///
    /// # Errors
    ///
    /// As those of `Core::open`.
    pub fn open(
        alloc: Global,
        own: GuidPrefix,
        config: &Config,
        writers: Vec<OwnEnd>,
        readers: Vec<OwnEnd>,
    ) -> Result<Exchange, Code>
        // It is the first peer of the configuration, and no endpoint of others has a name.
        ensures opened { IfOk result
            (IsOpened own config.now writers.items readers.items) }
        // A refusal is by the first cause that there is, or for want of memory.
        ensures refused { IfErr result (Refuses (core_refusal config.now.peers 1)) }
    {
        let core = Core::open(alloc, config, 1)?;
        Ok(Exchange {
            own,
            core,
            writers,
            readers,
            named: Vec::new(alloc),
            due: Vec::new(alloc),
        })
    }

    /// Endpoints of others that have names, in the order in which they got them.
    pub fn named(&self) -> &[NamedEnd]
        ensures named { result.now ≡ self.now.named }
    {
        let all = self.named.as_slice();
        all
    }

    /// A writer of ours and a reader, and whether the reader is behind; `None` where they are not matched.
    ///
    /// RTPS 2.5, 8.4.7 (StatefulWriter: matched_readers).
    pub fn pair(&self, writer: u8, reader: Endpoint) -> Option<Pair>
        // It is that of our peer.
        ensures pair { (roster : Roster) (peer : PeerState)
            → StandsFor self.now.core.filtered.peer roster peer
            → IsPair roster peer writer reader result }
    {
        self.core.pair(writer, reader)
    }

    /// Whether a reader of ours is matched with a writer.
    ///
    /// RTPS 2.5, 8.4.10 (StatefulReader: matched_writers).
    pub fn is_matched(&self, reader: u8, writer: Endpoint) -> bool
        // It is so exactly if it is in each state that our peer stands for.
        ensures matched { (roster : Roster) (peer : PeerState)
            → StandsFor self.now.core.filtered.peer roster peer
            → result ≡ is_attached (how_of (own_proxies peer.part reader) writer) }
    {
        self.core.is_matched(reader, writer)
    }

    /// Whether a reader has not acknowledged all changes of a writer of ours that it is matched with.
    fn is_reader_behind(&self, writer: u8, reader: Endpoint) -> bool
        ensures { (roster : Roster) (peer : PeerState)
            → StandsFor self.now.core.filtered.peer roster peer
            → result ≡ is_reader_behind (own_writer peer.part writer) reader }
    {
        match self.pair(writer, reader) {
            Some(pair) => pair.is_behind,
            None => false,
        }
    }

    /// The same of an endpoint that has a name.
    fn is_end_behind(&self, writer: u8, end: &NamedEnd) -> bool
        ensures { (roster : Roster) (peer : PeerState)
            → StandsFor self.now.core.filtered.peer roster peer
            → result ≡ is_end_behind (own_writer peer.part writer) end.now }
    {
        match end.kind {
            EndpointKind::Writer => false,
            EndpointKind::Reader => self.is_reader_behind(writer, end.name),
        }
    }

    /// Whether a matched reader has not acknowledged all changes of a writer of ours; a best-effort one acknowledges none, and
    /// is never behind.
    ///
    /// DDS 1.4, 2.2.2.4 (wait_for_acknowledgments); RTPS 2.5, 8.4.7 (ReaderProxy: unacked_changes).
    pub fn is_behind(&self, writer: u8) -> bool
        // It is so exactly if one that has a name is behind, in each state that our peer stands for.
        ensures behind { (roster : Roster) (peer : PeerState)
            → StandsFor self.now.core.filtered.peer roster peer
            → result ≡ is_behind peer.part self.now.named writer }
    {
        for end in &self.named {
            if self.is_end_behind(writer, end) {
                return true;
            }
        }
        false
    }

    /// Whether what a call asks of a writer of ours is of the type that its topic carries: a value is a payload of it and has the
    /// key, and a key can be said alone. Each call fits that names no key, or none of our writers.
    ///
    /// RTPS 2.5, clause 10 (SerializedPayload), 9.6.4.8 (KeyHash).
    pub fn fits(&self, call: &Call) -> bool
        // It is so exactly where the adapter says so of the change.
        ensures fits { IsTrue result ↔ Fits self.now.writers call.now }
    {
        fits(&self.writers, call)
    }

    /// What a writer or a reader of ours is called on the network, by its number; `None` where there is none.
    pub fn guid(&self, kind: EndpointKind, number: u8) -> Option<Guid>
        // It is that of the one of this number.
        ensures guid { result ≡ guid_at self.now.own kind number self.now.writers self.now.readers }
    {
        match kind {
            EndpointKind::Writer => guid_at(self.own, &self.writers, number),
            EndpointKind::Reader => guid_at(self.own, &self.readers, number),
        }
    }

    /// How many readers we have.
    pub fn readers(&self) -> usize
        ensures count { result ≡ length self.now.readers }
    {
        self.readers.len()
    }

    fn known(&self) -> Known<'_>
        ensures { known_of self.now result }
    {
        Known {
            own: self.own,
            writers: self.writers.as_slice(),
            readers: self.readers.as_slice(),
            named: self.named.as_slice(),
        }
    }

    /// Whether something that was told is due.
    pub fn has_due(&self) -> bool
        ensures due { result ≡ is_some (slice_get self.now.due 0) }
    {
        self.first_due().is_some()
    }

    /// Discovery told this of matches, and knows these endpoints of others: it is due from now on.
    ///
    /// # Errors
    ///
    /// `Memory` where there is none.
    pub fn tell(&mut self, alloc: Global, told: &[Told], far: &[Far]) -> Result<(), Code>
        // It is due behind all that was.
        ensures due { OnOk result
            (self.new.due ≡ self.old.due ++ map (due_of far.now) told.now) }
        // Nothing else changes.
        ensures rest { OnOk result (self.new ≡ record self.old { due = self.new.due }) }
        // A refusal changes nothing.
        ensures err { OnErr result (self.new ≡ self.old) }
        // The only refusal is for want of memory.
        ensures memory { IfErr result (λ e. e ≡ Code.Memory) }
    {
        let mut dues = dues_of(alloc, far, told)?;
        self.due.append(&mut dues)?;
        Ok(())
    }

    /// Whether an endpoint of ours is a writer or a reader, and its number there; `None` where there is none.
    fn own_end(&self, entity: EntityId) -> Option<(EndpointKind, u8)>
        ensures { result ≡ own_end entity self.now.writers self.now.readers }
    {
        if let Some(number) = end_number(&self.writers, entity) {
            return Some((EndpointKind::Writer, number));
        }
        let number = end_number(&self.readers, entity)?;
        Some((EndpointKind::Reader, number))
    }

    /// The call that is due of what was told; `None` where it is none. The other endpoint has a name from then on.
    fn call_for(&mut self, due: &Due) -> Result<Option<Call>, Code>
        ensures call { IfOk result (λ call. Calls due.now self.old call self.new) }
        ensures err { OnErr result (self.new ≡ self.old) }
        ensures memory { IfErr result (λ e. e ≡ Code.Memory) }
    {
        let Some((kind, number)) = self.own_end(own_of(due.told).entity) else {
            return Ok(None);
        };
        let far = far_of(due.told);
        match name(&mut self.named, far, other_kind(kind), number)? {
            Some(end) => Ok(call_of(due, kind, number, &end)),
            None => Ok(None),
        }
    }

    fn first_due(&self) -> Option<Due>
        ensures { result ≡ slice_get self.now.due 0 }
    {
        self.due.first().copied()
    }

    /// The first is due no more.
    fn drop_due(&mut self)
        ensures { self.new ≡ record self.old { due = drop 1 self.old.due } }
    {
        if !self.due.is_empty() {
            let _ = self.due.remove(0);
        }
    }

    /// The call that is due next, of what was told; `None` where the first that is due is none, which is then due no more, or where
    /// nothing is due. `make` makes it.
    ///
    /// # Errors
    ///
    /// `Memory` where there is none for the name of the other endpoint: then it is due still.
    ///
    /// RTPS 2.5, 8.4.7.4, 8.4.10.3 (matched_reader_add, matched_writer_add and their removals).
    pub fn next_call(&mut self) -> Result<Option<Call>, Code>
        // It is that of the first that is due.
        ensures next { IfOk result (λ call. Finds self.old call self.new) }
        // A refusal changes nothing.
        ensures err { OnErr result (self.new ≡ self.old) }
        // The only refusal is for want of memory.
        ensures memory { IfErr result (λ e. e ≡ Code.Memory) }
    {
        let Some(due) = self.first_due() else {
            return Ok(None);
        };
        let call = self.call_for(&due)?;
        if call.is_none() {
            self.drop_due();
        }
        Ok(call)
    }

    /// The call of `next_call` is made. It is due no more, unless it finds no memory.
    pub fn make(&mut self, call: Call) -> Output
        // It is one step of our peer.
        ensures made { MakesCall call self.old result self.new }
    {
        let output = self.core.step(Event::Call(call));
        if !found_no_memory(&output.reply) {
            self.drop_due();
        }
        output
    }

    /// How much that was told is due.
    pub fn count_due(&self) -> usize
        ensures count { result ≡ length self.now.due }
    {
        self.due.len()
    }

    /// What was told and is due, in its order.
    pub fn due(&self) -> &[Due]
        ensures due { result.now ≡ self.now.due }
    {
        let all = self.due.as_slice();
        all
    }

    /// A call of the application, or the time that goes on.
    ///
    /// DDS 1.4, 2.2.2.4 and 2.2.2.5 (DataWriter, DataReader).
    pub fn happen(&mut self, event: Event) -> Output
        // It is one step of our peer.
        ensures step { Does self.old.core event result self.new.core }
        // Nothing else changes.
        ensures rest { self.new ≡ record self.old { core = self.new.core } }
    {
        self.core.step(event)
    }

    /// A datagram comes. `None` where it gets longer than a datagram may be, and our peer is told of nothing.
    ///
    /// # Errors
    ///
    /// `Memory` where there is none to turn it: then it is lost.
    ///
    /// RTPS 2.5, 8.3.4 (the message receiver).
    pub fn hear(&mut self, alloc: Global, bytes: &[u8]) -> Result<Option<Output>, Code>
        // What it turns into is one delivery at our peer.
        ensures heard { IfOk result (λ output. Hears self.old bytes.now output self.new) }
        // Nothing else changes.
        ensures rest { self.new ≡ record self.old { core = self.new.core } }
        // A refusal changes nothing.
        ensures err { OnErr result (self.new ≡ self.old) }
        // The only refusal is for want of memory.
        ensures memory { IfErr result (λ e. e ≡ Code.Memory) }
    {
        let Some(turned) = turned_in(alloc, &self.known(), bytes)? else {
            return Ok(None);
        };
        Ok(Some(self.core.deliver(turned.as_slice())))
    }

    /// A packet of our peer, as it goes to the network; `None` where its participant can't be reached, or where it gets longer
    /// than a datagram may be.
    ///
    /// # Errors
    ///
    /// `Memory` where there is none: then it is lost.
    pub fn outgoing(
        &self,
        alloc: Global,
        rows: &[Row],
        packet: &Packet,
    ) -> Result<Option<Datagram>, Code>
        // It goes to the address of its participant as it is turned.
        ensures goes { IfOk result (GoesOut self.now rows.now packet.now) }
        // The only refusal is for want of memory.
        ensures memory { IfErr result (λ e. e ≡ Code.Memory) }
    {
        let Some(prefix) = prefix_of(&self.named, packet.to) else {
            return Ok(None);
        };
        let Some(to) = address_of(rows, &prefix) else {
            return Ok(None);
        };
        match turned_out(alloc, &self.known(), prefix, packet.bytes.as_slice())? {
            Some(bytes) => Ok(Some(Datagram { to, bytes })),
            None => Ok(None),
        }
    }
}
