//! How long a take of many instances takes, which no clause says.

use dds_base::{
    Arrival, Change, ChangeKind, EntityId, Guid, GuidPrefix, Handle, HistoryQos, Key, Masks,
    MatchedWriter, Moment, Octets, OwnershipQos, ReaderConfig, ReaderQos, ReliabilityQos,
    Selection, Sequence, Sn,
};
use dds_cache::{AccessKind, Everything, ReaderCache};
use std::alloc::{AllocError, Global};
use std::io;
use std::time::Instant;

const WRITER: MatchedWriter = MatchedWriter {
    guid: Guid {
        prefix: GuidPrefix([0, 0, 0, 0, 0, 0, 0, 0, 0, 0, 0, 1]),
        entity: EntityId([0, 0, 1, 2]),
    },
    strength: 5,
    lease: Some(42_949_672_960),
};

fn qos(alloc: Global) -> Result<ReaderQos, AllocError> {
    let writers = [WRITER].to_vec(alloc)?;
    Ok(ReaderQos {
        ownership: OwnershipQos::Shared,
        reliability: ReliabilityQos::Reliable,
        history: HistoryQos::KeepAll,
        max_samples: None,
        max_instances: None,
        max_arrivals: ReaderConfig::USUAL_ARRIVALS,
        writers: Sequence::from_vec(writers),
    })
}

/// A write of a key of its own for each number.
fn numbered(alloc: Global, number: u16) -> Arrival {
    let [high, low] = number.to_be_bytes();
    Arrival {
        writer: Handle::new(1),
        number: Sn::new(u64::from(number)),
        change: Change {
            kind: ChangeKind::Write,
            key: Key([0, 0, 0, 0, 0, 0, 0, 0, 0, 0, 0, 0, 0, 0, high, low]),
            value: Octets::from_vec(Vec::new(alloc)),
            source_timestamp: Moment::new(0),
            strength: None,
        },
        moment: Moment::new(0),
    }
}

fn come_numbered(alloc: Global, cache: &mut ReaderCache, count: u16) {
    for number in 0..count {
        let _ = cache.come(numbered(alloc, number));
    }
}

/// How many samples a take of all gives.
fn take_all(cache: &mut ReaderCache) -> usize {
    let (max, masks) = (-1, Masks::ANY);
    let selection = Selection::Any { max, masks };
    match cache.access(AccessKind::Take, selection, &Everything) {
        Ok(samples) => samples.as_slice().len(),
        Err(_) => 0,
    }
}

/// How many of so many samples, each of an instance of its own, a take gives.
fn count_taken(alloc: Global, count: u16) -> usize {
    let Ok(qos) = qos(alloc) else {
        return 0;
    };
    let mut cache = ReaderCache::open(alloc, qos);
    come_numbered(alloc, &mut cache, count);
    take_all(&mut cache)
}

#[test]
fn a_thousand_samples_of_a_thousand_instances_are_taken_in_a_second(
    rt: HostRuntime,
) -> io::Result<()> {
    let start = Instant::now(&rt)?;
    let count = count_taken(rt.alloc(), 1000);
    let elapsed = start.elapsed(&rt)?;
    assert!(rt;
        count == 1000 && elapsed.as_millis() < 1000,
        "{count} samples in {elapsed:?}"
    );
    Ok(())
}
