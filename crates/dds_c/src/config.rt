//! A configuration in arrays.
//!
//! DDS 1.4, 2.2.3 (supported QoS).

ghost use Rattle.std.specs.Prelude.{◌≡◌, IfOk, not};
ghost use Rattle.std.specs.List.{list_any};
ghost use Rattle.dds_base.specs.Number.{is_number};
ghost use Rattle.dds_c.specs.Opening.{config_of, history_of, lease_of, max_arrivals_of, max_value_of, names_no_peer, ownership_of, peer_of, reader_of, readers_of, reliability_of, writer_of, writers_of};

use dds_base::{
    Config, EntityId, GuidPrefix, HistoryQos, OwnershipQos, PeerConfig, ReaderConfig,
    ReliabilityQos, Sequence, USUAL_VALUE, WriterConfig, index_of_peer,
};
use std::alloc::{AllocError, Global};

/// A peer of a configuration.
///
/// RTPS 2.5, 8.2 (GuidPrefix_t).
#[repr(C)]
#[derive(Clone, Copy)]
pub struct FlatPeer {
    /// Not twelve zeros, and no other peer's.
    pub prefix: [u8; 12],
}

/// A writer of a configuration; `WriterConfig` of `dds_base` says which values are taken.
///
/// DDS 1.4, 2.2.3 (supported QoS).
#[repr(C)]
#[derive(Clone, Copy)]
pub struct FlatWriter {
    /// The number of its peer, from 1.
    pub peer: u32,
    /// Three octets of a key, and 0x02.
    pub entity: [u8; 4],
    /// Whether its ownership is exclusive; else it is shared.
    pub is_exclusive: bool,
    /// Whether it keeps the last changes of each instance, `depth` of them; else it keeps all.
    pub keeps_last: bool,
    /// Whether its lease ends, once `lease` has passed; else it never does.
    pub has_lease: bool,
    /// Whether an unregister disposes too.
    pub autodispose: bool,
    /// Whether it is best-effort; else it is reliable.
    pub is_best_effort: bool,
    /// Writers and readers of equal numbers match.
    pub topic: u32,
    /// From 1; it counts only where `keeps_last` is true.
    pub depth: u32,
    /// Positive, or -1 for no limit.
    pub max_samples: i32,
    /// Of the writers of an exclusive instance the strongest owns it.
    pub strength: i32,
    /// How many octets a value has at most, to 65,000; 0 says 1,024.
    pub max_value: u32,
    /// In units of 2^-32 second, from 1 to 2^63 - 1; it counts only where `has_lease` is true.
    pub lease: u64,
}

/// A reader of a configuration; `ReaderConfig` of `dds_base` says which values are taken.
///
/// DDS 1.4, 2.2.3 (supported QoS).
#[repr(C)]
#[derive(Clone, Copy)]
pub struct FlatReader {
    /// The number of its peer, from 1.
    pub peer: u32,
    /// Three octets of a key, and 0x07.
    pub entity: [u8; 4],
    /// Whether its ownership is exclusive; else it is shared.
    pub is_exclusive: bool,
    /// Whether it keeps the last samples of each instance, `depth` of them; else it keeps all.
    pub keeps_last: bool,
    /// Whether it takes only writers whose lease is at most `lease`; else it takes every lease.
    pub has_lease: bool,
    /// Whether it is best-effort; else it is reliable.
    pub is_best_effort: bool,
    /// Whether it takes `max_arrivals` changes in its life; else as many as `ReaderConfig::USUAL_ARRIVALS` says.
    pub has_max_arrivals: bool,
    /// Writers and readers of equal numbers match.
    pub topic: u32,
    /// From 1; it counts only where `keeps_last` is true.
    pub depth: u32,
    /// Positive, or -1 for no limit.
    pub max_samples: i32,
    /// Positive, or -1 for no limit.
    pub max_instances: i32,
    /// How many octets a value of a writer that it takes has at most, to 65,000; 0 says 1,024.
    pub max_value: u32,
    /// In units of 2^-32 second, from 1 to 2^63 - 1; it counts only where `has_lease` is true.
    pub lease: u64,
    /// From 1 to 2^63; it counts only where `has_max_arrivals` is true.
    pub max_arrivals: u64,
}

fn history(keeps_last: bool, depth: u32) -> HistoryQos
    ensures { result ≡ history_of keeps_last depth }
{
    if keeps_last {
        HistoryQos::KeepLast(depth)
    } else {
        HistoryQos::KeepAll
    }
}

/// A lease, where there is one.
pub fn lease(has_lease: bool, lease: u64) -> Option<u64>
    ensures { result ≡ lease_of has_lease lease }
{
    if has_lease { Some(lease) } else { None }
}

fn max_arrivals(has_max_arrivals: bool, max_arrivals: u64) -> u64
    ensures { result ≡ max_arrivals_of has_max_arrivals max_arrivals }
{
    if has_max_arrivals {
        max_arrivals
    } else {
        ReaderConfig::USUAL_ARRIVALS
    }
}

/// How many octets a value has at most.
pub fn max_value(most: u32) -> u32
    ensures { result ≡ max_value_of most }
{
    if most == 0 { USUAL_VALUE } else { most }
}

/// An OWNERSHIP.
pub fn ownership(is_exclusive: bool) -> OwnershipQos
    ensures { result ≡ ownership_of is_exclusive }
{
    if is_exclusive {
        OwnershipQos::Exclusive
    } else {
        OwnershipQos::Shared
    }
}

/// A RELIABILITY.
pub fn reliability(is_best_effort: bool) -> ReliabilityQos
    ensures { result ≡ reliability_of is_best_effort }
{
    if is_best_effort {
        ReliabilityQos::BestEffort
    } else {
        ReliabilityQos::Reliable
    }
}

fn writer_config(writer: &FlatWriter) -> WriterConfig
    ensures { result ≡ writer_of writer.now }
{
    WriterConfig {
        entity: EntityId(writer.entity),
        topic: writer.topic,
        ownership: ownership(writer.is_exclusive),
        reliability: reliability(writer.is_best_effort),
        history: history(writer.keeps_last, writer.depth),
        max_samples: writer.max_samples,
        strength: writer.strength,
        lease: lease(writer.has_lease, writer.lease),
        autodispose: writer.autodispose,
        max_value: max_value(writer.max_value),
    }
}

fn reader_config(reader: &FlatReader) -> ReaderConfig
    ensures { result ≡ reader_of reader.now }
{
    ReaderConfig {
        entity: EntityId(reader.entity),
        topic: reader.topic,
        ownership: ownership(reader.is_exclusive),
        reliability: reliability(reader.is_best_effort),
        history: history(reader.keeps_last, reader.depth),
        max_samples: reader.max_samples,
        max_instances: reader.max_instances,
        max_arrivals: max_arrivals(reader.has_max_arrivals, reader.max_arrivals),
        lease: lease(reader.has_lease, reader.lease),
        max_value: max_value(reader.max_value),
    }
}

/// The writers of the peer of a number.
fn writer_configs(
    alloc: Global,
    writers: &[FlatWriter],
    peer: usize,
) -> Result<Vec<WriterConfig>, AllocError>
    ensures { IfOk result (λ found. found.items ≡ writers_of writers.now peer) }
{
    let mut found = Vec::new(alloc);
    for writer in writers {
        if writer.peer as usize == peer {
            found.push(writer_config(writer))?;
        }
    }
    Ok(found)
}

/// The readers of the peer of a number.
fn reader_configs(
    alloc: Global,
    readers: &[FlatReader],
    peer: usize,
) -> Result<Vec<ReaderConfig>, AllocError>
    ensures { IfOk result (λ found. found.items ≡ readers_of readers.now peer) }
{
    let mut found = Vec::new(alloc);
    for reader in readers {
        if reader.peer as usize == peer {
            found.push(reader_config(reader))?;
        }
    }
    Ok(found)
}

fn peer_config(
    alloc: Global,
    prefix: [u8; 12],
    writers: &[FlatWriter],
    readers: &[FlatReader],
    number: usize,
) -> Result<PeerConfig, AllocError>
    ensures { IfOk result
        (λ made. made ≡ peer_of writers.now readers.now number (record { prefix = prefix })) }
{
    let writers = writer_configs(alloc, writers, number)?;
    let readers = reader_configs(alloc, readers, number)?;
    Ok(PeerConfig {
        prefix: GuidPrefix(prefix),
        writers: Sequence::from_vec(writers),
        readers: Sequence::from_vec(readers),
    })
}

/// The configuration of these peers, writers and readers. A writer or a reader of a peer that there isn't is left out.
pub fn config(
    alloc: Global,
    peers: &[FlatPeer],
    writers: &[FlatWriter],
    readers: &[FlatReader],
) -> Result<Config, AllocError>
    ensures { IfOk result (λ made. made ≡ config_of peers.now writers.now readers.now) }
{
    let mut configs = Vec::new(alloc);
    for (at, peer) in peers.iter().enumerate() {
        configs.push(peer_config(alloc, peer.prefix, writers, readers, at + 1)?)?;
    }
    Ok(Config {
        peers: Sequence::from_vec(configs),
    })
}

/// Whether there is no peer of this number among so many.
fn is_stranger(peer: u32, count: usize) -> bool
    ensures { result ≡ not (is_number peer count) }
{
    index_of_peer(peer, count).is_none()
}

fn writers_name_no_peer(count: usize, writers: &[FlatWriter]) -> bool
    ensures { result ≡ list_any (λ w. not (is_number w.peer count)) writers.now }
{
    writers.iter().any(|w| is_stranger(w.peer, count))
}

fn readers_name_no_peer(count: usize, readers: &[FlatReader]) -> bool
    ensures { result ≡ list_any (λ r. not (is_number r.peer count)) readers.now }
{
    readers.iter().any(|r| is_stranger(r.peer, count))
}

/// Whether a writer or a reader names a peer that there isn't, among so many.
pub fn name_no_peer(count: usize, writers: &[FlatWriter], readers: &[FlatReader]) -> bool
    ensures { result ≡ names_no_peer count writers.now readers.now }
{
    writers_name_no_peer(count, writers) || readers_name_no_peer(count, readers)
}
