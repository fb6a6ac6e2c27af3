//! A writer of the peer.
//!
//! RTPS 2.5, 8.4.7 (StatefulWriter); DDS 1.4, 2.2.2.4 (DataWriter).

ghost use Rattle.std.specs.Prelude.{◌≡◌, ◌≢◌, ◌+◌, ◌*◌, ◌^◌, ◌<◌, ◌≤◌, ◌⊎◌, [], Option, length, map, nat_le, slice_get, slice_index, Some, None, true, false, IfSome, IfNone, IfOk, IfErr, OnOk, OnErr};
ghost use Rattle.dds_base.specs.Bounds.{greatest_value, max_changes, max_ends, window_width};
ghost use Rattle.dds_base.specs.Checked.{check_refusal};
ghost use Rattle.dds_base.specs.declared.code.Code.TheVariants.{Memory, OutOfResources, PreconditionNotMet};
ghost use Rattle.dds_base.specs.Kept.{append_refusal};
ghost use Rattle.dds_base.specs.Refusal.{Refuses};
ghost use Rattle.dds_base.specs.Written.{Asserted, Registered, Changed, LookedAt, StrengthSet, is_key_registered, liveliness_lost_status};
ghost use Rattle.rtps_wire.specs.Content.{content_of};
ghost use Rattle.rtps_writer.specs.Standing.{StandsFor as RtpsStandsFor};
ghost use Rattle.rtps_writer.specs.WriterState.{WriterState};
ghost use Rattle.dds_base.specs.declared.endpoint.Endpoint.{Endpoint as EndpointOf};
ghost use Rattle.dds_machine.specs.Matching.{max_known, publication_matched};
ghost use Rattle.dds_machine.specs.Noticing.{loss_raised, publication_raised};
ghost use Rattle.dds_machine.specs.Watching.{writer_statuses};
ghost use Rattle.dds_machine.specs.Refusals.{strength_of, unregister_kind};
ghost use Rattle.dds_machine.specs.Part.{ReaderProxy, Writer, history_of, writer_changes};
ghost use Rattle.dds_protocol.specs.Contact.{Contact};
ghost use Rattle.dds_ends.specs.declared.matching.ReaderName.{ReaderName as NameOf};
ghost use Rattle.dds_ends.specs.Answering.{HasRoom, AreRooms, IsAskedAt, IsUnaskedAt, IsUnasked, TakesAckNack, is_beyond, is_heeded};
ghost use Rattle.dds_ends.specs.Beating.{BeatsOf, BeatsOfAll, HasNoCount, TellsOf};
ghost use Rattle.dds_ends.specs.Coming.{LooksAtMatches};
ghost use Rattle.dds_ends.specs.MatchedEnds.{is_named, known_as};
ghost use Rattle.dds_ends.specs.Identity.{writer_identity};
ghost use Rattle.dds_ends.specs.Noticing.{MarksWriter, WriterRaisesSo, WriterSeesStatus};
ghost use Rattle.dds_ends.specs.OpeningEnds.{OpensWriter};
ghost use Rattle.dds_ends.specs.Readiness.{receiver_at};
ghost use Rattle.dds_ends.specs.Sending.{AreMessages};
ghost use Rattle.dds_ends.specs.Announcing.{AreAnnouncements};
ghost use Rattle.dds_ends.specs.Standing.{IsShort, WriterStands};
ghost use Rattle.dds_ends.specs.Stepping.{Enters, Ticks, AllTick};

use crate::answering::{Answering, Room, is_from, mark_heard, rooms, send_answers};
use crate::heartbeat::{Beat, send_beats, send_to_all};
use crate::limits::limit_of;
use crate::marks::WriterMark;
use crate::match_counts::MatchCounts;
use crate::matching::{
    Destination, LastCount, ReaderName, TopicName, destinations, first_counts, names_of,
    reliable_readers, topic_names,
};
use crate::receiver::MessageReceiver;
use crate::sending::{Announced, Sender, announce};
use crate::status_bits::bit_if;
use bitflags::Flags;
use dds_base::{
    Change, ChangeKind, Code, Endpoint, EntityId, GuidPrefix, Key, LivelinessLostStatus, MAX_VALUE,
    MatchedStatus, Moment, Octets, PeerConfig, Sn, WriterConfig,
};
use dds_notices::{Status, StatusMask};
use dds_protocol::Packet;
use rtps_wire::{AckNack, DataContent};
use rtps_writer::{Answered, StatefulWriter};
use std::alloc::{AllocError, Global};
use std::marker::Model;

/// A writer, with those that it sends to.
#[derive(Drop)]
pub struct WriterEnd {
    pub(crate) entity: EntityId,
    pub(crate) autodispose: bool,
    pub(crate) max_value: u32,
    /// The readers of its topic that it knows, in the order in which it was told of them.
    pub(crate) known: Vec<TopicName>,
    /// Its matched readers, reliable or not, in the order in which they came.
    pub(crate) matched: Vec<ReaderName>,
    /// Their peers.
    pub(crate) destinations: Vec<Destination>,
    /// Its matched reliable readers, in the order of their indices in `writer`.
    pub(crate) readers: Vec<ReaderName>,
    /// Of each reliable reader that it is or was matched with.
    pub(crate) counts: Vec<LastCount>,
    pub(crate) matches: MatchCounts,
    pub(crate) writer: StatefulWriter,
}

impl Model for WriterEnd {
    ghost use Rattle.dds_ends.specs.Kept.{WriterKept};
    ghost use Rattle.dds_ends.specs.Sending.{AreMessages};
    ghost use Rattle.dds_ends.specs.Standing.{IsWhole};

    ghost Value = { WriterKept };

    ghost view = { λ w. record {
      entity = w.entity;
      autodispose = w.autodispose;
      max_value = w.max_value;
      known = w.known.items;
      matched = w.matched.items;
      destinations = w.destinations.items;
      readers = w.readers.items;
      counts = w.counts.items;
      matches = w.matches;
      writer = w.writer;
    } };

    ghost invariant = { λ w. IsWhole w.max_value w.known.items w.matched.items w.destinations.items
        w.readers.items w.writer };
}

impl WriterEnd {
    /// A writer of a peer, which has written nothing; the first of these peers has this number.
    pub fn open(
        alloc: Global,
        first: u32,
        peers: &[PeerConfig],
        config: &WriterConfig,
    ) -> Result<WriterEnd, AllocError>
        requires checked { check_refusal peers.now ≡ None }
        requires room { first + length peers.now ≤ 2 ^ 32 }
        ensures { IfOk result (OpensWriter first peers.now config.now) }
    {
        let known = topic_names(alloc, first, peers, config.topic)?;
        let matched = names_of(alloc, known.as_slice())?;
        let destinations = destinations(alloc, first, peers, config.topic)?;
        let readers = reliable_readers(alloc, first, peers, config.topic)?;
        let counts = first_counts(alloc, readers.as_slice())?;
        let limit = limit_of(config.max_samples);
        let (history, lease) = (config.history, config.lease);
        let strength = config.carried_strength();
        let reliable = readers.len();
        let matches = MatchCounts::with_readers(matched.as_slice());
        let opened = StatefulWriter::open(alloc, history, limit, lease, strength, reliable);
        let Ok(writer) = opened else {
            return Err(AllocError);
        };
        Ok(WriterEnd {
            entity: config.entity,
            autodispose: config.autodispose,
            max_value: config.max_value,
            known,
            matched,
            destinations,
            readers,
            counts,
            matches,
            writer,
        })
    }

    /// Its name within the peer.
    pub fn entity(&self) -> EntityId
        ensures { result ≡ self.now.entity }
    {
        self.entity
    }

    /// The peers with a matched reader.
    pub fn destinations(&self) -> &[Destination]
        ensures { result.now ≡ self.now.destinations }
    {
        self.destinations.as_slice()
    }

    /// Its matched reliable readers, by their names.
    pub fn readers(&self) -> &[ReaderName]
        ensures { result.now ≡ self.now.readers }
    {
        self.readers.as_slice()
    }

    /// Whether the matched reader of this row, from 0, has not acknowledged all its changes.
    pub fn is_behind(&self, row: usize) -> bool
        requires within { row < length self.now.readers }
        ensures behind { (w : Writer) (answered : EndpointOf → Contact)
            → WriterStands self.now w answered
            → result
            ≡ nat_le (slice_index (map (λ (p : ReaderProxy). p.acknowledged) w.readers) row)
            (length (writer_changes w)) }
    {
        self.writer.is_behind(row)
    }

    /// The number of its last change; 0 before the first.
    pub fn last(&self) -> Sn
        ensures { (w : Writer) (answered : EndpointOf → Contact) → WriterStands self.now w answered
            → result ≡ length (writer_changes w) }
    {
        self.writer.last()
    }

    /// What it knows of this reader, if that is one of its topic.
    pub fn knows(&self, reader: Endpoint) -> Option<TopicName>
        ensures { result ≡ known_as self.now.known reader }
    {
        for row in 0..self.known.len() {
            let known = self.known[row];
            if known.name.reader == reader {
                return Some(known);
            }
        }
        None
    }

    /// Whether it is matched with this reader.
    pub fn is_matched(&self, reader: Endpoint) -> bool
        ensures { result ≡ is_named self.now.matched reader }
    {
        self.matched
            .as_slice()
            .iter()
            .any(|name| name.reader == reader)
    }

    /// Whether it has registered the instance.
    pub fn is_registered(&self, key: Key) -> bool
        ensures { (w : Writer) (answered : EndpointOf → Contact) → WriterStands self.now w answered
            → result ≡ is_key_registered key w.written }
    {
        self.writer.is_registered(key)
    }

    /// What an unregister makes (DDS 1.4, 2.2.3, WRITER_DATA_LIFECYCLE).
    pub fn unregister_kind(&self) -> ChangeKind
        ensures { (w : Writer) (answered : EndpointOf → Contact) → WriterStands self.now w answered
            → result ≡ unregister_kind w.autodispose }
    {
        if self.autodispose {
            ChangeKind::DisposeUnregister
        } else {
            ChangeKind::Unregister
        }
    }

    /// Whether a value has more octets than one may have here.
    pub fn is_too_long(&self, value: &Octets) -> bool
        ensures short { result ≡ false → IsShort self.now.max_value value.now }
        ensures long { result ≡ true
            → (self.now.max_value < length value.now) ⊎ (greatest_value < length value.now) }
    {
        let len = value.as_slice().len();
        (self.max_value as usize) < len || MAX_VALUE < len
    }

    /// The strength that its next change carries (DDS 1.4, 2.2.3, OWNERSHIP_STRENGTH).
    pub fn strength(&self) -> Option<i32>
        ensures { (w : Writer) (answered : EndpointOf → Contact) → WriterStands self.now w answered
            → result ≡ strength_of w }
    {
        self.writer.strength()
    }

    /// Sets the strength that its changes carry from now on.
    ///
    /// # Errors
    ///
    /// `PreconditionNotMet` of a writer of shared ownership, which is then as it was.
    ///
    /// DDS 1.4, 2.2.3 (OWNERSHIP_STRENGTH).
    pub fn set_strength(&mut self, strength: i32) -> Result<(), Code>
        ensures ok { OnOk result (Enters self.old (StrengthSet strength) self.new) }
        ensures accepted { (w : Writer) (answered : EndpointOf → Contact)
            → WriterStands self.old w answered → OnOk result (w.strength ≢ None) }
        ensures refused { (w : Writer) (answered : EndpointOf → Contact)
            → WriterStands self.old w answered
            → IfErr result (λ code. (w.strength ≡ None) × (code ≡ PreconditionNotMet)) }
        ensures err { OnErr result (self.new ≡ self.old) }
    {
        self.writer.set_strength(strength)
    }

    /// How often its liveliness was lost, in all and since the last look.
    ///
    /// DDS 1.4, 2.2.4.1 (LivelinessLostStatus).
    pub fn liveliness_lost(&self) -> LivelinessLostStatus
        ensures { (w : Writer) (answered : EndpointOf → Contact) → WriterStands self.now w answered
            → result ≡ liveliness_lost_status w.lease w.written }
    {
        self.writer.liveliness_status()
    }

    /// How many matches it has had and has, and since the last look.
    ///
    /// DDS 1.4, 2.2.4.1 (PublicationMatchedStatus).
    pub fn publication_matched(&self) -> MatchedStatus
        ensures { (w : Writer) (answered : EndpointOf → Contact) → WriterStands self.now w answered
            → result ≡ publication_matched w }
    {
        self.matches.status(self.matched.len())
    }

    /// Looks at how many matches it has had and has, and since the last look.
    ///
    /// DDS 1.4, 2.2.2.4 (get_publication_matched_status).
    pub fn get_publication_matched(&mut self) -> MatchedStatus
        ensures status { (w : Writer) (answered : EndpointOf → Contact)
            → WriterStands self.old w answered → result ≡ publication_matched w }
        ensures looks { LooksAtMatches self.old self.new }
    {
        let status = self.publication_matched();
        self.matches.see(self.matched.len());
        status
    }

    /// What its statuses say, by which is known what an event raised.
    ///
    /// DDS 1.4, 2.2.4.1 (LIVELINESS_LOST, PUBLICATION_MATCHED).
    pub fn mark(&self) -> WriterMark
        ensures { MarksWriter self.now result }
    {
        WriterMark {
            losses: self.liveliness_lost().total_count,
            matched: self.matched.len() as u32,
        }
    }

    /// Its LIVELINESS_LOST, if that was lost since it was so.
    ///
    /// DDS 1.4, 2.2.4.2.1 (changes in plain communication status).
    pub fn loss_raised(&self, mark: &WriterMark) -> Option<Status>
        ensures { WriterRaisesSo loss_raised self.now mark.now result }
    {
        let status = self.liveliness_lost();
        if mark.losses < status.total_count {
            Some(Status::LivelinessLost(status))
        } else {
            None
        }
    }

    /// Its PUBLICATION_MATCHED, if more or fewer readers are matched with it than when it was so.
    ///
    /// DDS 1.4, 2.2.4.2.1 (changes in plain communication status).
    pub fn publication_raised(&self, mark: &WriterMark) -> Option<Status>
        ensures { WriterRaisesSo publication_raised self.now mark.now result }
    {
        if self.matched.len() as u32 == mark.matched {
            None
        } else {
            Some(Status::PublicationMatched(self.publication_matched()))
        }
    }

    /// Looks at this status of it.
    pub fn see(&mut self, status: &Status)
        ensures { WriterSeesStatus self.old status.now self.new }
    {
        if let Status::PublicationMatched(_) = status {
            let _ = self.get_publication_matched();
        } else {
            let _ = self.get_liveliness_lost();
        }
    }

    /// Looks at how often its liveliness was lost, in all and since the last look.
    ///
    /// DDS 1.4, 2.2.2.4 (get_liveliness_lost_status).
    pub fn get_liveliness_lost(&mut self) -> LivelinessLostStatus
        ensures status { (w : Writer) (answered : EndpointOf → Contact)
            → WriterStands self.old w answered
            → result ≡ liveliness_lost_status w.lease w.written }
        ensures enters { Enters self.old LookedAt self.new }
    {
        self.writer.liveliness_lost()
    }

    /// Which of its statuses are flagged.
    ///
    /// DDS 1.4, 2.2.2.1 (get_status_changes), 2.2.4.2 (changes in status).
    pub fn status_changes(&self) -> StatusMask
        ensures { (w : Writer) (answered : EndpointOf → Contact) → WriterStands self.now w answered
            → result ≡ writer_statuses w }
    {
        let lost = bit_if(self.writer.is_lost(), StatusMask::LIVELINESS_LOST);
        let is_flagged = self.matches.is_flagged(self.matched.len());
        let matched = bit_if(is_flagged, StatusMask::PUBLICATION_MATCHED);
        StatusMask::from_bits_retain(lost + matched)
    }

    /// Registers an instance.
    ///
    /// # Errors
    ///
    /// `Memory` where it is not registered yet, and a growth was refused; the writer is then as it was.
    ///
    /// DDS 1.4, 2.2.2.4 (register_instance).
    pub fn register(&mut self, key: Key) -> Result<(), Code>
        ensures ok { OnOk result (Enters self.old (Registered key) self.new) }
        ensures err { OnErr result (self.new ≡ self.old) }
        ensures memory { IfErr result (λ code. code ≡ Memory) }
        ensures unregistered { (w : Writer) (answered : EndpointOf → Contact)
            → WriterStands self.old w answered
            → OnErr result (is_key_registered key w.written ≡ false) }
    {
        self.writer.register(key)
    }

    /// The number that this change would get, or why it would be refused, but for want of memory.
    ///
    /// # Errors
    ///
    /// `OutOfResources` after 2^48 changes, `Timeout` where more than `max_samples` numbers would be kept.
    pub fn next(&self, change: &Change) -> Result<Sn, Code>
        ensures accepted { IfOk result
            (λ number. (w : Writer) (told : EndpointOf → Contact) → WriterStands self.now w told
            → (append_refusal (history_of w) change.now ≡ None)
            × (number ≡ length (writer_changes w) + 1)) }
        ensures refused { IfErr result
            (λ code. (w : Writer) (answered : EndpointOf → Contact)
            → WriterStands self.now w answered
            → Refuses (append_refusal (history_of w) change.now) code) }
        ensures number { IfOk result (λ number. (1 ≤ number) × (number ≤ max_changes)) }
    {
        if let Some(code) = self.writer.refusal(change) {
            return Err(code);
        }
        Ok(Sn::new(self.writer.last().number() + 1))
    }

    /// Announces a change, which is to get this number, to each peer with a matched reader, at the moment of its peer, of
    /// this prefix. The change is lent before the history takes it: so it is announced whatever the history keeps, and a
    /// packet is counted as unsent for want of memory alone. `docs/DECISIONS.md`, "Peers and the network". The packets
    /// stand in this empty list.
    pub fn announce(
        &self,
        alloc: Global,
        list: Vec<Packet>,
        prefix: GuidPrefix,
        moment: Moment,
        number: Sn,
        change: &Change,
    ) -> Announced
        requires empty { list.items ≡ [] }
        requires first { 1 ≤ number }
        requires small { number ≤ max_changes }
        requires short { length change.now.value ≤ greatest_value }
        ensures counted { length result.packets.items + result.unsent
            ≡ length self.now.destinations }
        ensures few { result.unsent ≤ max_known }
        ensures announces { AreAnnouncements
            (record { prefix = prefix; entity = self.now.entity; moment = moment }) number
            (content_of change.now) self.now.destinations result.packets.items }
        ensures messages { AreMessages result.packets.items }
    {
        // This shows the prover how many octets a key has.
        let _key = change.key.as_slice();
        let sender = Sender {
            prefix,
            entity: self.entity,
            moment,
        };
        let content = DataContent::of_change(change);
        announce(
            alloc,
            list,
            &sender,
            self.destinations.as_slice(),
            number,
            content,
        )
    }

    /// Makes a change, and gives its number. A write or a dispose registers its instance, the others end its
    /// registration.
    ///
    /// # Errors
    ///
    /// In this order, and each leaves the writer as it was: `OutOfResources` after 2^48 changes, `Timeout` where more
    /// than `max_samples` numbers would be kept, `Memory` where a growth was refused.
    pub fn append(&mut self, change: Change) -> Result<Sn, Code>
        requires short { IsShort self.old.max_value change.value }
        ensures ok { OnOk result (Enters self.old (Changed change) self.new) }
        ensures accepted { IfOk result
            (λ number. (w : Writer) (answered : EndpointOf → Contact)
            → WriterStands self.old w answered →
            (append_refusal (history_of w) change ≡ None)
            × (number ≡ length (writer_changes w) + 1)) }
        ensures refused { IfErr result
            (λ code. (w : Writer) (answered : EndpointOf → Contact)
            → WriterStands self.old w answered
            → Refuses (append_refusal (history_of w) change) code) }
        ensures number { IfOk result (λ number. (1 ≤ number) × (number ≤ max_changes)) }
        ensures err { OnErr result (self.new ≡ self.old) }
    {
        self.writer.write(change)
    }

    /// The reader of this row.
    pub fn reader(&self, row: usize) -> Endpoint
        requires { row < length self.now.readers }
        ensures { (name : NameOf) → slice_get self.now.readers row ≡ Some name
            → result ≡ name.reader }
    {
        self.readers[row].reader
    }

    /// Whether an ACKNACK acknowledges changes that the writer has not made.
    ///
    /// RTPS 2.5, 8.3.8 (AckNack: readerSNState).
    pub fn is_beyond(&self, body: &AckNack) -> bool
        ensures { (s : WriterState) → RtpsStandsFor self.now.writer s
            → result ≡ is_beyond s body.now.reader_sn_state.base }
    {
        let next = self.writer.last().number().saturating_add(1);
        next < body.reader_sn_state.base().number()
    }

    /// Whether an ACKNACK of its reader of this row is applied, or acknowledges changes that the writer has not made.
    fn heeds(&self, row: usize, body: &AckNack) -> bool
        requires row { row < length self.now.readers }
        ensures { (s : WriterState) → RtpsStandsFor self.now.writer s
            → result ≡ is_heeded s row body.now.reader_sn_state.base body.now.count }
    {
        self.writer
            .applies(row, body.reader_sn_state.base(), body.count)
            || self.is_beyond(body)
    }

    /// Whether an ACKNACK is from its reader of this row, and is heeded.
    fn is_asked(
        &self,
        own: &GuidPrefix,
        receiver: &MessageReceiver,
        body: &AckNack,
        row: usize,
    ) -> bool
        requires row { row < length self.now.readers }
        ensures asked { result ≡ true
            → IsAskedAt own.now (receiver_at receiver.now) body.now self.now row }
        ensures unasked { result ≡ false
            → IsUnaskedAt own.now (receiver_at receiver.now) body.now self.now row }
    {
        if !is_from(own, receiver, body, self.entity, &self.readers[row]) {
            return false;
        }
        self.heeds(row, body)
    }

    /// The first of its readers that an ACKNACK is from, of those for which it is heeded.
    pub fn asked_row(
        &self,
        own: &GuidPrefix,
        receiver: &MessageReceiver,
        body: &AckNack,
    ) -> Option<usize>
        ensures asked { IfSome result
            (IsAskedAt own.now (receiver_at receiver.now) body.now self.now) }
        ensures none { IfNone result
            (IsUnasked own.now (receiver_at receiver.now) body.now self.now) }
    {
        for row in 0..self.readers.len() {
            if self.is_asked(own, receiver, body, row) {
                return Some(row);
            }
        }
        None
    }

    /// Room for the answers to each of its readers that an ACKNACK is from.
    ///
    /// # Errors
    ///
    /// Where a growth was refused.
    pub fn rooms(
        &self,
        alloc: Global,
        own: &GuidPrefix,
        receiver: &MessageReceiver,
        body: &AckNack,
    ) -> Result<Vec<Option<Room>>, AllocError>
        ensures few { IfOk result (λ all. length all.items ≤ max_known) }
        ensures rooms { IfOk result
            (λ all. AreRooms own.now self.now.entity
            (receiver_at receiver.now) body.now self.now.readers all.items) }
    {
        let readers = self.readers.as_slice();
        rooms(alloc, own, receiver, body, self.entity, readers)
    }

    /// Takes an ACKNACK of its reader of this row, with room for the answers, and sends them. One that is applied asks
    /// for a HEARTBEAT, which the next tick sends, or the reader has answered by it. Gives the number below which the
    /// reader has acknowledged all, where that is greater than before.
    ///
    /// RTPS 2.5, 8.4.7 (ReaderProxy).
    pub fn take_acknack(
        &mut self,
        alloc: Global,
        prefix: GuidPrefix,
        row: usize,
        body: &AckNack,
        room: Room,
        sent: &mut Announced,
    ) -> Option<Sn>
        requires row { row < length self.old.readers }
        requires base { 1 ≤ body.now.reader_sn_state.base }
        requires room { HasRoom body.now.reader_sn_state room }
        requires low { sent.old.unsent < 2 ^ 60 }
        ensures takes { TakesAckNack self.old prefix row body.now sent.old self.new result
            sent.new }
        ensures same { writer_identity self.new ≡ writer_identity self.old }
        ensures matches { self.new.matches ≡ self.old.matches }
        ensures few { sent.new.unsent ≤ sent.old.unsent + window_width }
        ensures messages { AreMessages sent.old.packets.items → AreMessages sent.new.packets.items }
    {
        let set = &body.reader_sn_state;
        let base = set.base();
        let is_applied = self.writer.applies(row, base, body.count);
        let Room { answers } = room;
        let Answered {
            acknowledged,
            answers,
        } = self
            .writer
            .take_acknack(row, base, set, body.count, answers);
        let answering = Answering {
            own: prefix,
            entity: self.entity,
            reader: self.readers[row],
            max_value: self.max_value,
        };
        send_answers(alloc, &answering, &self.writer, answers.as_slice(), sent);
        mark_heard(&mut self.writer, row, body, is_applied);
        acknowledged
    }

    /// Asserts its liveliness, at the moment of its peer, of this prefix, and tells each peer with a matched reader.
    ///
    /// # Errors
    ///
    /// `OutOfResources` where its HEARTBEAT counts are used up; the writer is then as it was.
    ///
    /// DDS 1.4, 2.2.2.4 (assert_liveliness); RTPS 2.5, 8.7.2.2 (LIVELINESS).
    pub fn assert(
        &mut self,
        alloc: Global,
        prefix: GuidPrefix,
        now: Moment,
    ) -> Result<Announced, Code>
        ensures ok { OnOk result (Enters self.old (Asserted now) self.new) }
        ensures tells { IfOk result
            (λ sent. TellsOf prefix self.old sent.packets.items sent.unsent) }
        ensures few { IfOk result (λ sent. sent.unsent ≤ max_known) }
        ensures refused { IfErr result (λ code. (code ≡ OutOfResources) × HasNoCount self.old) }
        ensures messages { IfOk result (λ sent. AreMessages sent.packets.items) }
        ensures err { OnErr result (self.new ≡ self.old) }
    {
        let is_matched = 0 < self.destinations.len();
        let Some(due) = self.writer.assert(is_matched, now)? else {
            return Ok(Announced {
                packets: Vec::new(alloc),
                unsent: 0,
            });
        };
        let beat = Beat {
            prefix,
            entity: self.entity,
            due,
            asserts: true,
        };
        Ok(send_to_all(
            alloc,
            &beat,
            &self.writer,
            self.readers.as_slice(),
            self.matched.as_slice(),
            self.destinations.as_slice(),
        ))
    }

    /// The time of its peer, of this prefix, has gone on to this moment: sends the HEARTBEATs that are then due. No reader
    /// asks for one any longer.
    ///
    /// RTPS 2.5, 8.4.9 (reliable StatefulWriter: heartbeatPeriod).
    pub fn tick(&mut self, alloc: Global, prefix: GuidPrefix, now: Moment, sent: &mut Announced)
        requires room { sent.old.unsent ≤ max_ends * max_known }
        ensures few { sent.new.unsent ≤ sent.old.unsent + max_known }
        ensures ticks { Ticks self.old now self.new }
        ensures beats { BeatsOf prefix self.old sent.old.packets.items sent.old.unsent
            sent.new.packets.items sent.new.unsent }
        ensures messages { AreMessages sent.old.packets.items → AreMessages sent.new.packets.items }
    {
        if let Some(due) = self.writer.tick(now) {
            let beat = Beat {
                prefix,
                entity: self.entity,
                due,
                asserts: false,
            };
            send_beats(alloc, &beat, &self.writer, self.readers.as_slice(), sent);
        }
        self.writer.tell_all();
    }
}

/// The time of a peer, of this prefix, has gone on to this moment: each of its writers ticks.
pub fn tick_all(
    alloc: Global,
    prefix: GuidPrefix,
    writers: &mut [WriterEnd],
    now: Moment,
) -> Announced
    requires few { length writers.old ≤ max_ends }
    ensures ticks { AllTick writers.old now writers.new }
    ensures beats { BeatsOfAll prefix writers.old result.packets.items result.unsent }
    ensures few { result.unsent ≤ max_ends * max_known }
    ensures messages { AreMessages result.packets.items }
{
    let mut sent = Announced {
        packets: Vec::new(alloc),
        unsent: 0,
    };
    for writer in writers.iter_mut() {
        writer.tick(alloc, prefix, now, &mut sent);
    }
    sent
}
