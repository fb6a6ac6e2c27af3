//! A reader's cache.

use dds_base::{
    Arrival, Change, ChangeKind, EntityId, Guid, GuidPrefix, Handle, HistoryQos, Key,
    MatchedWriter, Moment, Octets, OwnershipQos, ReaderConfig, ReaderQos, ReliabilityQos, Sequence,
    Sn,
};
use dds_cache::ReaderCache;
use std::alloc::{AllocError, Global};

fn writer() -> MatchedWriter {
    MatchedWriter {
        guid: Guid {
            prefix: GuidPrefix([0, 0, 0, 0, 0, 0, 0, 0, 0, 0, 0, 1]),
            entity: EntityId([0, 0, 1, 2]),
        },
        strength: 0,
        lease: None,
    }
}

fn qos(alloc: Global) -> Result<ReaderQos, AllocError> {
    let writers = [writer()].to_vec(alloc)?;
    Ok(ReaderQos {
        ownership: OwnershipQos::Shared,
        reliability: ReliabilityQos::Reliable,
        history: HistoryQos::KeepLast(1),
        max_samples: None,
        max_instances: None,
        max_arrivals: ReaderConfig::USUAL_ARRIVALS,
        writers: Sequence::from_vec(writers),
    })
}

fn arrival(alloc: Global) -> Arrival {
    Arrival {
        writer: Handle::new(1),
        number: Sn::new(1),
        change: Change {
            kind: ChangeKind::Write,
            key: Key([0; 16]),
            value: Octets::from_vec(Vec::new(alloc)),
            source_timestamp: Moment::new(0),
            strength: None,
        },
        moment: Moment::new(0),
    }
}

/// Tries to have a change come; whether it did.
fn comes(alloc: Global, cache: &mut ReaderCache) -> bool {
    cache.reserve(1).is_ok() && cache.come(arrival(alloc)).is_ok()
}

/// A change comes; whether it was refused at first.
fn come(alloc: Global, cache: &mut ReaderCache) -> bool {
    if comes(alloc, cache) {
        return false;
    }
    let _ = comes(alloc, cache);
    true
}

/// How many of so many changes were refused at first.
fn come_all(alloc: Global, cache: &mut ReaderCache, count: u32) -> u32 {
    let mut refused = 0u32;
    for _ in 0..count {
        if come(alloc, cache) {
            refused = refused.wrapping_add(1);
        }
    }
    refused
}

/// How many of ten, and of a thousand more; where the policies find no memory, at a second try.
pub fn refused(alloc: Global) -> (u32, u32) {
    match qos(alloc) {
        Ok(qos) => of_a_cache(alloc, qos),
        Err(_) => match qos(alloc) {
            Ok(qos) => of_a_cache(alloc, qos),
            Err(_) => (1, 1),
        },
    }
}

fn of_a_cache(alloc: Global, qos: ReaderQos) -> (u32, u32) {
    let mut cache = ReaderCache::open(alloc, qos);
    let first = come_all(alloc, &mut cache, 10);
    (first, come_all(alloc, &mut cache, 1000))
}
