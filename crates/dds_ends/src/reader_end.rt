//! A reader of the peer.
//!
//! RTPS 2.5, 8.4.10 (StatefulReader, WriterProxy); DDS 1.4, 2.2.2.5 (DataReader).

ghost use Rattle.std.specs.Prelude.{◌≡◌, ◌^◌, ◌+◌, ◌↔◌, ◌<◌, ◌≤◌, ℕ, length, slice_get, None, Some, IsTrue, IfSome, IfNone, IfOk, Ok};
ghost use Rattle.dds_base.specs.Checked.{check_refusal};
ghost use Rattle.rtps_wire.specs.declared.submessage.Submessage.TheVariants as submessage;
ghost use Rattle.rtps_reader.specs.Tracked.{Tracked};
ghost use Rattle.dds_machine.specs.Matching.{max_known};
ghost use Rattle.dds_ends.specs.Identity.{reliable_in};
ghost use Rattle.dds_ends.specs.OpeningEnds.{OpensReader};
ghost use Rattle.dds_ends.specs.Readiness.{receiver_at, IsFirstName, IsNamedFor, IsPlaceAt};
ghost use Rattle.dds_protocol.specs.Claims.{is_for};

use crate::limits::limit_of;
use crate::match_counts::MatchCounts;
use crate::matching::{MatchedWriters, WriterName, matched_writers};
use crate::receiver::{MessageReceiver, is_for};
use crate::seen::Seen;
use crate::store::Store;
use dds_base::{EntityId, Guid, GuidPrefix, PeerConfig, ReaderConfig, ReaderQos, Sequence, Sn};
use rtps_reader::StatefulReader;
use std::alloc::{AllocError, Global};
use std::marker::Model;

/// A reader, with the names of the writers of its topic, what it knows of them, what it holds, and its matches.
#[derive(Drop)]
pub struct ReaderEnd {
    pub(crate) alloc: Global,
    pub(crate) entity: EntityId,
    /// By its policies, which the store has.
    pub(crate) is_reliable: bool,
    pub(crate) writers: Vec<WriterName>,
    pub(crate) reader: StatefulReader,
    pub(crate) store: Store,
    pub(crate) seen: Seen,
    pub(crate) matches: MatchCounts,
    /// How many writers it is matched with.
    pub(crate) here: u32,
}

impl Model for ReaderEnd {
    ghost use Rattle.dds_ends.specs.Kept.{ReaderKept};
    ghost use Rattle.dds_ends.specs.Identity.{FitsWriters};

    ghost Value = { ReaderKept };

    ghost view = { λ r. record {
      entity = r.entity;
      writers = r.writers.items;
      reader = r.reader;
      store = r.store;
      seen = r.seen;
      matches = r.matches;
      here = r.here;
    } };

    ghost invariant = { λ r. FitsWriters r.writers.items r.reader r.store r.is_reliable };
}

/// Whether it is the name of a writer of this GUID.
fn is_of(name: &WriterName, guid: &Guid) -> bool
    ensures { IsTrue result ↔ (name.now.guid ≡ guid.now) }
{
    name.guid == *guid
}

/// The first writer of this name.
fn find(names: &[WriterName], guid: &Guid) -> Option<usize>
    ensures found { IfSome result (IsFirstName names.now guid.now) }
    ensures none { IfNone result ((k : ℕ) → IsFirstName names.now guid.now k → ⊥) }
{
    for (index, name) in names.iter().enumerate() {
        if is_of(name, guid) {
            return Some(index);
        }
    }
    None
}

impl ReaderEnd {
    /// A reader of a peer, at which nothing has happened; the first of these peers has this number.
    pub fn open(
        alloc: Global,
        first: u32,
        peers: &[PeerConfig],
        config: &ReaderConfig,
    ) -> Result<ReaderEnd, AllocError>
        requires checked { check_refusal peers.now ≡ None }
        requires room { first + length peers.now ≤ 2 ^ 32 }
        ensures { IfOk result (OpensReader first peers.now config.now) }
    {
        let MatchedWriters { names, qos } = matched_writers(alloc, first, peers, config.topic)?;
        let here = names.len();
        let matches = MatchCounts::with_writers(names.as_slice());
        // Its only refusal is for want of memory.
        let Ok(reader) = StatefulReader::open(alloc, here) else {
            return Err(AllocError);
        };
        let qos = ReaderQos {
            ownership: config.ownership,
            reliability: config.reliability,
            history: config.history,
            max_samples: limit_of(config.max_samples),
            max_instances: limit_of(config.max_instances),
            max_arrivals: config.max_arrivals,
            writers: Sequence::from_vec(qos),
        };
        // So is this one's.
        let Ok(store) = Store::open(alloc, qos) else {
            return Err(AllocError);
        };
        Ok(ReaderEnd {
            alloc,
            entity: config.entity,
            is_reliable: config.reliability.is_reliable(),
            writers: names,
            reader,
            store,
            seen: Seen::NOTHING,
            matches,
            here: here as u32,
        })
    }

    /// Its name within the peer.
    pub fn entity(&self) -> EntityId
        ensures { result ≡ self.now.entity }
    {
        self.entity
    }

    /// Whether it is a reliable one.
    pub fn is_reliable(&self) -> bool
        ensures { result ≡ reliable_in self.now.store }
    {
        self.is_reliable
    }

    /// The writers of its topic, by their names: it is or was matched with each.
    pub fn writers(&self) -> &[WriterName]
        ensures { result.now ≡ self.now.writers }
    {
        self.writers.as_slice()
    }

    /// How many writers it knows, of which there are 2^31 - 1 at most.
    pub fn row_count(&self) -> usize
        ensures count { result ≡ length self.now.writers }
        ensures few { result ≤ max_known }
    {
        self.writers.len()
    }

    /// The writer of this row.
    pub fn writer(&self, row: usize) -> WriterName
        requires { row < length self.now.writers }
        ensures { slice_get self.now.writers row ≡ Some result }
    {
        self.writers[row]
    }

    /// The place at the writer of this row.
    pub fn place(&self, row: usize) -> Sn
        requires { row < length self.now.writers }
        ensures { (t : Tracked) → IsPlaceAt self.now row t result }
    {
        self.reader.place(row)
    }

    /// The row of the writer that a submessage is from, if it is for this reader of the peer of this prefix, and the
    /// writer is matched.
    pub fn row_of(
        &self,
        own: &GuidPrefix,
        receiver: &MessageReceiver,
        reader_id: &EntityId,
        writer_id: &EntityId,
    ) -> Option<usize>
        ensures found { IfSome result
            (IsNamedFor own.now self.now (receiver_at receiver.now) reader_id.now writer_id.now) }
        ensures none { IfNone result
            ((k : ℕ)
            → IsNamedFor own.now self.now (receiver_at receiver.now) reader_id.now writer_id.now k
            → ⊥) }
    {
        let is_named = *reader_id == self.entity || *reader_id == EntityId::UNKNOWN;
        if !is_named || !is_for(receiver, own) {
            return None;
        }
        let guid = Guid {
            prefix: receiver.source,
            entity: *writer_id,
        };
        find(&self.writers, &guid)
    }
}
