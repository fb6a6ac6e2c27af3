//! What a datagram holds that would be nothing to the peer, as it stands before the datagram is delivered.
//!
//! RTPS 2.5, 8.3.4 (the message receiver), 8.3.8 (Data: writerSN; Heartbeat: count), 8.4.10 (StatefulReader,
//! WriterProxy).

ghost use Rattle.std.specs.Prelude.{◌≡◌, ◌+◌, ◌^◌, ◌≤◌, true, length, IfNone, IfSome};
ghost use Rattle.rtps_wire.specs.declared.acknack.AckNack.{AckNack as AckNackOf};
ghost use Rattle.rtps_wire.specs.declared.submessage.Submessage.TheVariants as submessage_of;
ghost use Rattle.dds_protocol.specs.Roster.{Roster};
ghost use Rattle.dds_protocol.specs.Claims.{is_for};
ghost use Rattle.dds_protocol.specs.Peer.{Peer as PeerState};
ghost use Rattle.dds_core.specs.Observing.{Observes, Sums};
ghost use Rattle.dds_core.specs.ObservingKept.{AtMost, CountsOld, IsFromNobody, IsFromReader, IsNamedReader, IsNamedWriter, NamesNoReader, NamesNoWriter, ObservesBody, ObservesFrame, ObservesSubmessage, OldToReaders, ToNobodyOf};
ghost use Rattle.dds_ends.specs.Readiness.{NamedBy, receiver_at};
ghost use Rattle.dds_core.specs.Standing.{StandsFor};

use crate::peer::Peer;
use dds_base::{Endpoint, EntityId, GuidPrefix};
use dds_ends::{
    Ids, MessageReceiver, ReaderEnd, ReaderName, WriterEnd, ids_of, is_for, is_from, receiver_for,
};
use rtps_wire::{AckNack, Frame, MAX_MESSAGE, Submessage, begin_message, next_frame};

/// What a datagram holds that would be nothing to a peer.
///
/// A peer that was opened anew under its old name counts from 1 again: what it sends is old until its numbers come to
/// where they were.
#[derive(Clone, Copy)]
pub struct Observed {
    /// DATA of a writer for a reader of the peer that knows it, whose number lies below the reader's place: one for each
    /// such reader.
    pub old_data: u64,
    /// HEARTBEATs of a writer for a reader of the peer that knows it, whose count is not later than that of the last one
    /// that it took: one for each such reader.
    pub old_heartbeats: u64,
    /// DATA, GAPs, HEARTBEATs and ACKNACKs, in parts of the message that are for this peer, that concern no reader and no
    /// writer of it. A reader is concerned by what comes of writers that it knows, a writer by an ACKNACK of a reader that
    /// it is matched with, a reliable one.
    pub to_nobody: u64,
}

impl Observed {
    /// Nothing of all that.
    pub const NOTHING: Observed = Observed {
        old_data: 0,
        old_heartbeats: 0,
        to_nobody: 0,
    };

    /// Both together.
    fn and(self, more: Observed) -> Observed
        requires few { AtMost (2 ^ 32) self }
        requires few_more { AtMost (2 ^ 32) more }
        ensures old_data { result.old_data ≡ self.old_data + more.old_data }
        ensures old_heartbeats { result.old_heartbeats ≡ self.old_heartbeats + more.old_heartbeats }
        ensures to_nobody { result.to_nobody ≡ self.to_nobody + more.to_nobody }
    {
        Observed {
            old_data: self.old_data + more.old_data,
            old_heartbeats: self.old_heartbeats + more.old_heartbeats,
            to_nobody: self.to_nobody + more.to_nobody,
        }
    }
}

/// To how many of the readers of the peer of this prefix a submessage is old, which names these, where its writer is the
/// one that is asked for, or none is.
fn count_old(
    readers: &[ReaderEnd],
    own: &GuidPrefix,
    of: Option<Endpoint>,
    receiver: &MessageReceiver,
    ids: &Ids,
    submessage: &Submessage,
) -> u64
    requires by { NamedBy submessage.now ids.now.reader ids.now.writer }
    requires few { length readers.now ≤ 16 }
    ensures sums { Sums (CountsOld own.now of (receiver_at receiver.now) submessage.now) readers.now
        result }
    ensures few { result ≤ 16 }
{
    let mut count: u64 = 0;
    for reader in readers {
        if reader.is_old(own, of, receiver, ids, submessage) {
            count += 1;
        }
    }
    count
}

/// The first of the readers of the peer of this prefix that a submessage is for, which names these.
fn named_reader(
    readers: &[ReaderEnd],
    own: &GuidPrefix,
    receiver: &MessageReceiver,
    ids: &Ids,
) -> Option<usize>
    ensures found { IfSome result (IsNamedReader own.now
        (receiver_at receiver.now) ids.now.reader ids.now.writer readers.now) }
    ensures none { IfNone result (NamesNoReader own.now
        (receiver_at receiver.now) ids.now.reader ids.now.writer readers.now) }
{
    for (index, reader) in readers.iter().enumerate() {
        if let Some(_row) = reader.row_of(own, receiver, &ids.reader, &ids.writer) {
            return Some(index);
        }
    }
    None
}

/// The first of the readers of the writer of this entity that an ACKNACK is from.
fn row_from(
    names: &[ReaderName],
    entity: EntityId,
    own: &GuidPrefix,
    receiver: &MessageReceiver,
    body: &AckNack,
) -> Option<usize>
    ensures found { IfSome result
        (IsFromReader own.now entity (receiver_at receiver.now) body.now names.now) }
    ensures none { IfNone result
        (IsFromNobody own.now entity (receiver_at receiver.now) body.now names.now) }
{
    for (row, name) in names.iter().enumerate() {
        if is_from(own, receiver, body, entity, name) {
            return Some(row);
        }
    }
    None
}

/// The first of the readers of a writer that an ACKNACK is from.
fn reader_of(
    writer: &WriterEnd,
    own: &GuidPrefix,
    receiver: &MessageReceiver,
    body: &AckNack,
) -> Option<usize>
    ensures found { IfSome result (IsFromReader own.now writer.now.entity
        (receiver_at receiver.now) body.now writer.now.readers) }
    ensures none { IfNone result (IsFromNobody own.now writer.now.entity
        (receiver_at receiver.now) body.now writer.now.readers) }
{
    row_from(writer.readers(), writer.entity(), own, receiver, body)
}

/// The first of the writers of the peer of this prefix that an ACKNACK is for, of those where it is from a matched reader.
fn named_writer(
    writers: &[WriterEnd],
    own: &GuidPrefix,
    receiver: &MessageReceiver,
    body: &AckNack,
) -> Option<usize>
    ensures found { IfSome result
        (IsNamedWriter own.now (receiver_at receiver.now) body.now writers.now) }
    ensures none { IfNone result
        (NamesNoWriter own.now (receiver_at receiver.now) body.now writers.now) }
{
    for (index, writer) in writers.iter().enumerate() {
        if let Some(_row) = reader_of(writer, own, receiver, body) {
            return Some(index);
        }
    }
    None
}

impl Peer {
    /// 1 where an ACKNACK, in a part of the message that is for the peer, is from no reader that a writer of the peer is
    /// matched with, else 0.
    fn count_unasked(&self, receiver: &MessageReceiver, body: &AckNack) -> u64
        requires here { is_for (receiver_at receiver.now) self.now.prefix ≡ true }
        ensures nobody { ToNobodyOf self.now
            (receiver_at receiver.now) (submessage_of.AckNack body.now) result }
        ensures few { result ≤ 1 }
    {
        match named_writer(&self.writers, &self.prefix, receiver, body) {
            Some(_) => 0,
            None => 1,
        }
    }

    /// 1 where a submessage of a writer, in a part of the message that is for the peer, is for no reader of it, else 0.
    fn count_unnamed(&self, receiver: &MessageReceiver, submessage: &Submessage) -> u64
        requires here { is_for (receiver_at receiver.now) self.now.prefix ≡ true }
        requires other { (a : AckNackOf) → submessage.now ≡ submessage_of.AckNack a → ⊥ }
        ensures nobody { ToNobodyOf self.now (receiver_at receiver.now) submessage.now result }
        ensures few { result ≤ 1 }
    {
        let Some(ids) = ids_of(submessage) else {
            return 0;
        };
        match named_reader(&self.readers, &self.prefix, receiver, &ids) {
            Some(_) => 0,
            None => 1,
        }
    }

    /// 1 where a submessage that speaks to readers or to a writer, in a part of the message that is for the peer, concerns
    /// nobody here, else 0.
    fn count_to_nobody(&self, receiver: &MessageReceiver, submessage: &Submessage) -> u64
        ensures nobody { ToNobodyOf self.now (receiver_at receiver.now) submessage.now result }
        ensures few { result ≤ 1 }
    {
        if !is_for(receiver, &self.prefix) {
            return 0;
        }
        match submessage {
            Submessage::AckNack(body) => self.count_unasked(receiver, body),
            _ => self.count_unnamed(receiver, submessage),
        }
    }

    /// To how many of the peer's readers a submessage is old, where its writer is the one that is asked for, or none is.
    fn count_old(
        &self,
        of: Option<Endpoint>,
        receiver: &MessageReceiver,
        submessage: &Submessage,
    ) -> u64
        ensures old { OldToReaders self.now of (receiver_at receiver.now) submessage.now result }
        ensures few { result ≤ 16 }
    {
        match ids_of(submessage) {
            Some(ids) => count_old(&self.readers, &self.prefix, of, receiver, &ids, submessage),
            None => 0,
        }
    }

    /// What a submessage holds.
    fn observe_submessage(
        &self,
        of: Option<Endpoint>,
        receiver: &MessageReceiver,
        submessage: &Submessage,
    ) -> Observed
        ensures observes { ObservesSubmessage self.now of
            (receiver_at receiver.now) submessage.now result }
        ensures few { AtMost 16 result }
    {
        let to_nobody = self.count_to_nobody(receiver, submessage);
        match submessage {
            Submessage::Data(_) => Observed {
                old_data: self.count_old(of, receiver, submessage),
                old_heartbeats: 0,
                to_nobody,
            },
            Submessage::Heartbeat(_) => Observed {
                old_data: 0,
                old_heartbeats: self.count_old(of, receiver, submessage),
                to_nobody,
            },
            _ => Observed {
                old_data: 0,
                old_heartbeats: 0,
                to_nobody,
            },
        }
    }

    /// What a submessage holds whose body is not read yet.
    fn observe_frame(
        &self,
        of: Option<Endpoint>,
        receiver: &mut MessageReceiver,
        frame: &Frame,
    ) -> Observed
        ensures observes { ObservesFrame self.now of (receiver_at receiver.old)
            frame.now.id frame.now.flags frame.now.body.now result (receiver_at receiver.new) }
        ensures few { AtMost 16 result }
    {
        if let Some(prefix) = frame.info_dst() {
            receiver.note_destination(prefix);
            return Observed::NOTHING;
        }
        if let Some(stamp) = frame.info_ts() {
            receiver.note_timestamp(&self.prefix, stamp);
            return Observed::NOTHING;
        }
        self.observe_submessage(of, receiver, &frame.submessage())
    }

    /// What the submessages of a message of this sender hold.
    fn observe_body(&self, of: Option<Endpoint>, source: GuidPrefix, body: &[u8]) -> Observed
        requires few { length body.now ≤ MAX_MESSAGE }
        ensures { ObservesBody self.now of source body.now result }
    {
        let mut receiver = receiver_for(source);
        let mut seen = Observed::NOTHING;
        let mut left = body;
        while let Some((frame, rest)) = next_frame(left) {
            let more = self.observe_frame(of, &mut receiver, &frame);
            seen = seen.and(more);
            left = rest;
        }
        seen
    }

    /// What a datagram holds that would be nothing to the peer, as it stands before the datagram is delivered. It changes
    /// nothing, and takes no memory. Where one writer is asked for, old is counted of that one alone.
    ///
    /// RTPS 2.5, 8.3.4 (the message receiver), 8.4.10 (StatefulReader, WriterProxy).
    pub fn observe(&self, of: Option<Endpoint>, datagram: &[u8]) -> Observed
        // So much is old, or to nobody, in each state that the peer stands for; of bytes that are no message nothing.
        ensures observes { (roster : Roster) (peer : PeerState) → StandsFor self.now roster peer
            → Observes roster peer of datagram.now result }
    {
        match begin_message(datagram) {
            Some((source, body)) => self.observe_body(of, source, body),
            None => Observed::NOTHING,
        }
    }
}
