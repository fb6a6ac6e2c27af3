//! Lines that tell a peer of ends that no configuration lists.
//!
//! After `meet` stand a writer or a reader of the peer, as `w1` or `r1`; the number of the participant by which the peer
//! speaks of the other end, and its number there; the last octet of its GUID prefix; the number of its entity and its
//! kind, and `besteffort` of a reader that asks for no more.

use dds_base::{EntityId, Guid, GuidPrefix, ReaderConfig, ReliabilityQos, WriterConfig};
use dds_machine::{Call, FarReader, FarWriter};
use dds_world::Endpoint;

fn octet_of(word: &str) -> u8 {
    word.parse().unwrap_or(0)
}

fn endpoint_of(peer: &str, number: &str) -> Endpoint {
    Endpoint {
        peer: peer.parse().unwrap_or(0),
        number: octet_of(number),
    }
}

fn guid_of(prefix: &str, entity: &str, kind: &str) -> Guid {
    Guid {
        prefix: GuidPrefix([0, 0, 0, 0, 0, 0, 0, 0, 0, 0, 0, octet_of(prefix)]),
        entity: EntityId([0, 0, octet_of(entity), octet_of(kind)]),
    }
}

fn meet_reader(writer: &str, endpoint: Endpoint, guid: Guid, reliability: ReliabilityQos) -> Call {
    let usual = ReaderConfig::new(guid.entity, 0);
    let asking = ReaderConfig {
        reliability,
        ..usual
    };
    Call::MeetReader {
        writer: octet_of(writer),
        far: FarReader {
            endpoint,
            guid,
            requested: asking.requested(),
        },
        greeted: false,
    }
}

fn meet_writer(reader: &str, endpoint: Endpoint, guid: Guid) -> Call {
    let usual = WriterConfig::new(guid.entity, 0);
    Call::MeetWriter {
        reader: octet_of(reader),
        far: FarWriter {
            endpoint,
            guid,
            offered: usual.offered(),
        },
    }
}

/// The call of the words behind `meet`, if they are such.
pub fn meeting_of(words: &[&str]) -> Option<Call> {
    let [end, peer, number, prefix, entity, kind, rest @ ..] = words else {
        return None;
    };
    let (endpoint, guid) = (endpoint_of(peer, number), guid_of(prefix, entity, kind));
    match (end.strip_prefix('w'), end.strip_prefix('r')) {
        (Some(writer), _) => {
            let reliability = if rest.is_empty() {
                ReliabilityQos::Reliable
            } else {
                ReliabilityQos::BestEffort
            };
            Some(meet_reader(writer, endpoint, guid, reliability))
        }
        (_, Some(reader)) => Some(meet_writer(reader, endpoint, guid)),
        _ => None,
    }
}
