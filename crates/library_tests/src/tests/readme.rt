//! The example of the README, with its configuration, and what it gives.

use dds_base::{
    Code, Config, EntityId, GuidPrefix, Key, Masks, Octets, PeerConfig, ReaderConfig, Selection,
    Sequence, WriterConfig,
};
use dds_world::{Call, Reply, World, WorldEvent};
use std::alloc::Global;

/// Two peers: a writer at the first, a reader at the second, both of topic 0.
fn two_peers(alloc: Global) -> Result<Config, Code> {
    let writer = WriterConfig::new(EntityId::writer([0, 0, 1]), 0);
    let reader = ReaderConfig::new(EntityId::reader([0, 0, 1]), 0);
    let first = PeerConfig {
        prefix: GuidPrefix([1; 12]),
        writers: Sequence::from_vec(vec![in alloc; writer]?),
        readers: Sequence::from_vec(Vec::new(alloc)),
    };
    let second = PeerConfig {
        prefix: GuidPrefix([2; 12]),
        writers: Sequence::from_vec(Vec::new(alloc)),
        readers: Sequence::from_vec(vec![in alloc; reader]?),
    };
    Ok(Config {
        peers: Sequence::from_vec(vec![in alloc; first, second]?),
    })
}

/// A sample that is written, delivered and taken.
fn first_sample(alloc: Global) -> Result<Reply, Code> {
    let config = two_peers(alloc)?;
    let mut world: World = World::open(alloc, &config)?;
    let call = Call::Write {
        writer: 1,
        key: Key([7; 16]),
        value: Octets::from_vec(vec![in alloc; 0x61, 0x62]?),
    };
    let _ = world.step(WorldEvent::Call { peer: 1, call }); // Done; packet 1 is sent
    let _ = world.step(WorldEvent::Deliver { peer: 2, packet: 1 }); // Reported: the place is now 2
    let selection = Selection::Any {
        max: -1,
        masks: Masks::ANY,
    };
    let call = Call::Take {
        reader: 1,
        selection,
    };
    Ok(world.step(WorldEvent::Call { peer: 2, call })) // Samples
}

fn count_of(reply: &Reply) -> usize {
    match reply {
        Reply::Samples(samples) => samples.as_slice().len(),
        _ => 0,
    }
}

#[test]
fn a_sample_is_written_delivered_and_taken(rt: HostRuntime) {
    if let Ok(reply) = first_sample(rt.alloc()) {
        let taken = count_of(&reply);
        if taken != 1 {
            panic!(rt; "{taken} samples");
        }
    } else {
        panic!(rt; "no network, or no memory");
    }
}
