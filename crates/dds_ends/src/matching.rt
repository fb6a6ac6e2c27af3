//! Which writers and readers of other peers the peer's own ones are matched with: those of one topic.
//!
//! RTPS 2.5, 8.4.7 (StatefulWriter, matched_readers), 8.4.10 (StatefulReader, matched_writers).

ghost use Rattle.std.specs.Prelude.{◌≡◌, ◌+◌, ◌++◌, ◌^◌, ◌≤◌, length, map, IfOk, OnOk, None};
ghost use Rattle.dds_base.specs.Bounds.{max_ends, max_peers, max_readers};
ghost use Rattle.dds_base.specs.Checked.{check_refusal};
ghost use Rattle.dds_base.specs.Matched.{of_matched_writers};
ghost use Rattle.dds_base.specs.MatchedAt.{of_readers_in, of_writers_in};
ghost use Rattle.dds_ends.specs.Beating.{peer_of};
ghost use Rattle.dds_ends.specs.Matching.{has_reader, destinations};
ghost use Rattle.dds_ends.specs.MatchedEnds.{first_count};
ghost use Rattle.dds_ends.specs.EndNames.{topic_names, topic_names_in, reader_name, reader_names, writer_name, matched_writer};
ghost use Rattle.dds_ends.specs.declared.matching.TopicName.{TopicName as TopicNameOf};

use dds_base::{Endpoint, Guid, GuidPrefix, MatchedWriter, PeerConfig};
use std::alloc::{AllocError, Global};

/// A peer with a reader that a writer is matched with, by its number and by its name.
#[derive(Clone, Copy)]
pub struct Destination {
    pub peer: u32,
    pub prefix: GuidPrefix,
}

/// A reader that a writer is matched with, by its number and by its name.
#[derive(Clone, Copy)]
pub struct ReaderName {
    pub reader: Endpoint,
    pub guid: Guid,
}

impl ReaderName {
    /// Its peer.
    pub fn peer(&self) -> Destination
        ensures { result ≡ peer_of self.now }
    {
        Destination {
            peer: self.reader.peer,
            prefix: self.guid.prefix,
        }
    }
}

/// A reader of a writer's topic, by its number and by its name, and whether it is a reliable one.
#[derive(Clone, Copy)]
pub struct TopicName {
    pub name: ReaderName,
    pub is_reliable: bool,
}

/// A reliable reader that a writer is or was matched with, and the count of the last of its ACKNACKs that was applied
/// before it left, if it did.
#[derive(Clone, Copy)]
pub struct LastCount {
    pub reader: Endpoint,
    pub count: Option<i32>,
}

/// A writer that a reader is matched with, by its number and by its name.
#[derive(Clone, Copy)]
pub struct WriterName {
    pub writer: Endpoint,
    pub guid: Guid,
}

/// Whether a peer has a reader of the topic.
fn has_reader(peer: &PeerConfig, topic: u32) -> bool
    ensures { result ≡ has_reader topic peer.now.readers }
{
    peer.readers.as_slice().iter().any(|r| r.topic == topic)
}

/// The peers with a reader of the topic; the first of these peers has this number.
pub fn destinations(
    alloc: Global,
    first: u32,
    peers: &[PeerConfig],
    topic: u32,
) -> Result<Vec<Destination>, AllocError>
    requires few { length peers.now ≤ max_peers }
    requires room { first + length peers.now ≤ 2 ^ 32 }
    ensures names { IfOk result (λ all. all.items ≡ destinations topic first peers.now) }
    ensures few { IfOk result (λ all. length all.items ≤ max_peers) }
{
    let mut all = Vec::new(alloc);
    for (index, peer) in peers.iter().enumerate() {
        if has_reader(peer, topic) {
            all.push(Destination {
                peer: index as u32 + first,
                prefix: peer.prefix,
            })?;
        }
    }
    Ok(all)
}

/// Adds the readers of the topic among those of a peer, reliable or not.
fn push_topic_names(
    all: &mut Vec<TopicName>,
    number: u32,
    peer: &PeerConfig,
    topic: u32,
) -> Result<(), AllocError>
    requires few { length peer.now.readers ≤ max_ends }
    ensures names { OnOk result
        (all.new.items
        ≡ all.old.items ++ topic_names_in number peer.now topic 1 peer.now.readers) }
    ensures few { OnOk result (length all.new.items ≤ length all.old.items + 16) }
{
    for (index, reader) in peer.readers.as_slice().iter().enumerate() {
        if reader.topic == topic {
            let name = ReaderName {
                reader: Endpoint {
                    peer: number,
                    number: (index + 1) as u8,
                },
                guid: Guid {
                    prefix: peer.prefix,
                    entity: reader.entity,
                },
            };
            all.push(TopicName {
                name,
                is_reliable: reader.reliability.is_reliable(),
            })?;
        }
    }
    Ok(())
}

/// The readers of the topic, reliable or not; the first of these peers has this number.
pub fn topic_names(
    alloc: Global,
    first: u32,
    peers: &[PeerConfig],
    topic: u32,
) -> Result<Vec<TopicName>, AllocError>
    requires checked { check_refusal peers.now ≡ None }
    requires room { first + length peers.now ≤ 2 ^ 32 }
    ensures names { IfOk result (λ all. all.items ≡ topic_names topic first peers.now) }
    ensures many { IfOk result (λ all. length all.items ≤ max_readers) }
{
    let mut all = Vec::new(alloc);
    for (index, peer) in peers.iter().enumerate() {
        push_topic_names(&mut all, index as u32 + first, peer, topic)?;
    }
    Ok(all)
}

/// The names of these readers.
pub fn names_of(alloc: Global, known: &[TopicName]) -> Result<Vec<ReaderName>, AllocError>
    ensures { IfOk result (λ all. all.items ≡ map (λ (k : TopicNameOf). k.name) known.now) }
{
    let mut all = Vec::new(alloc);
    for reader in known {
        all.push(reader.name)?;
    }
    Ok(all)
}

/// For each of these readers, that it never left.
pub fn first_counts(alloc: Global, readers: &[ReaderName]) -> Result<Vec<LastCount>, AllocError>
    ensures { IfOk result (λ all. all.items ≡ map first_count readers.now) }
{
    let mut all = Vec::new(alloc);
    for name in readers {
        all.push(LastCount {
            reader: name.reader,
            count: None,
        })?;
    }
    Ok(all)
}

/// Adds the reliable readers of the topic among those of a peer.
fn push_readers(
    all: &mut Vec<ReaderName>,
    number: u32,
    peer: &PeerConfig,
    topic: u32,
) -> Result<(), AllocError>
    requires few { length peer.now.readers ≤ max_ends }
    ensures names { OnOk result
        (all.new.items
        ≡ all.old.items ++ of_readers_in (reader_name number peer.now) topic 1 peer.now.readers) }
    ensures few { OnOk result (length all.new.items ≤ length all.old.items + 16) }
{
    for (index, reader) in peer.readers.as_slice().iter().enumerate() {
        if reader.reliability.is_reliable() && reader.topic == topic {
            all.push(ReaderName {
                reader: Endpoint {
                    peer: number,
                    number: (index + 1) as u8,
                },
                guid: Guid {
                    prefix: peer.prefix,
                    entity: reader.entity,
                },
            })?;
        }
    }
    Ok(())
}

/// The reliable readers that a writer of the topic is matched with; the first of these peers has this number.
pub fn reliable_readers(
    alloc: Global,
    first: u32,
    peers: &[PeerConfig],
    topic: u32,
) -> Result<Vec<ReaderName>, AllocError>
    requires checked { check_refusal peers.now ≡ None }
    requires room { first + length peers.now ≤ 2 ^ 32 }
    ensures names { IfOk result (λ all. all.items ≡ reader_names topic first peers.now) }
    ensures many { IfOk result (λ all. length all.items ≤ max_readers) }
{
    let mut all = Vec::new(alloc);
    for (index, peer) in peers.iter().enumerate() {
        push_readers(&mut all, index as u32 + first, peer, topic)?;
    }
    Ok(all)
}

/// What a reader has of the writers that it is matched with, in the order of their publication handles.
#[derive(Drop)]
pub struct MatchedWriters {
    pub names: Vec<WriterName>,
    pub qos: Vec<MatchedWriter>,
}

/// Adds the writers of the topic among those of a peer.
fn push_writers(
    all: &mut MatchedWriters,
    number: u32,
    peer: &PeerConfig,
    topic: u32,
) -> Result<(), AllocError>
    requires few { length peer.now.writers ≤ max_ends }
    ensures names { OnOk result
        (all.new.names.items ≡ all.old.names.items
        ++ of_writers_in (writer_name number peer.now) topic 1 peer.now.writers) }
    ensures qos { OnOk result
        (all.new.qos.items ≡ all.old.qos.items
        ++ of_writers_in (matched_writer number peer.now) topic 1 peer.now.writers) }
    ensures few { OnOk result (length all.new.qos.items ≤ length all.old.qos.items + 16) }
{
    for (index, writer) in peer.writers.as_slice().iter().enumerate() {
        if writer.topic == topic {
            let guid = Guid {
                prefix: peer.prefix,
                entity: writer.entity,
            };
            let writer_number = Endpoint {
                peer: number,
                number: (index + 1) as u8,
            };
            all.names.push(WriterName {
                writer: writer_number,
                guid,
            })?;
            all.qos.push(MatchedWriter {
                guid,
                strength: writer.strength,
                lease: writer.lease,
            })?;
        }
    }
    Ok(())
}

/// The writers that a reader of the topic is matched with; the first of these peers has this number.
pub fn matched_writers(
    alloc: Global,
    first: u32,
    peers: &[PeerConfig],
    topic: u32,
) -> Result<MatchedWriters, AllocError>
    requires checked { check_refusal peers.now ≡ None }
    requires room { first + length peers.now ≤ 2 ^ 32 }
    ensures names { IfOk result
        (λ all. all.names.items ≡ of_matched_writers writer_name topic first peers.now) }
    ensures qos { IfOk result
        (λ all. all.qos.items ≡ of_matched_writers matched_writer topic first peers.now) }
    ensures many { IfOk result (λ all. length all.qos.items ≤ 256) }
{
    let mut all = MatchedWriters {
        names: Vec::new(alloc),
        qos: Vec::new(alloc),
    };
    for (index, peer) in peers.iter().enumerate() {
        push_writers(&mut all, index as u32 + first, peer, topic)?;
    }
    Ok(all)
}
