//! Whom a line of a script tells a peer of, with all that discovery would say of that one.
//!
//! RTPS 2.5, 8.4.7.4, 8.4.10.3 (matched_reader_add, matched_writer_add).

use crate::peers::Peers;
use dds_base::{Endpoint, Guid, PeerConfig, ReaderConfig, WriterConfig, index_of};
use dds_machine::{Call, FarReader, FarWriter};

/// The writer of this number at a peer.
fn writer_of(peer: &PeerConfig, number: u8) -> Option<&WriterConfig> {
    let writers = peer.writers.as_slice();
    writers.get(index_of(number, writers.len())?)
}

/// The reader of this number at a peer.
fn reader_of(peer: &PeerConfig, number: u8) -> Option<&ReaderConfig> {
    let readers = peer.readers.as_slice();
    readers.get(index_of(number, readers.len())?)
}

/// Whether the peers of these numbers were not both there at the opening.
fn is_newcomer(peers: &Peers, own: u32, other: u32) -> bool {
    peers.is_later(own) || peers.is_later(other)
}

/// A reader of this name, of the topic of a peer's writer, if one of both peers came later.
fn far_reader(peers: &Peers, peer: u32, writer: u8, endpoint: Endpoint) -> Option<FarReader> {
    let own = writer_of(peers.get(peer)?, writer)?;
    let there = peers.get(endpoint.peer)?;
    let reader = reader_of(there, endpoint.number)?;
    if reader.topic != own.topic || !is_newcomer(peers, peer, endpoint.peer) {
        return None;
    }
    Some(FarReader {
        endpoint,
        guid: Guid {
            prefix: there.prefix,
            entity: reader.entity,
        },
        requested: reader.requested(),
    })
}

/// A writer of this name, of the topic of a peer's reader, if one of both peers came later.
fn far_writer(peers: &Peers, peer: u32, reader: u8, endpoint: Endpoint) -> Option<FarWriter> {
    let own = reader_of(peers.get(peer)?, reader)?;
    let there = peers.get(endpoint.peer)?;
    let writer = writer_of(there, endpoint.number)?;
    if writer.topic != own.topic || !is_newcomer(peers, peer, endpoint.peer) {
        return None;
    }
    Some(FarWriter {
        endpoint,
        guid: Guid {
            prefix: there.prefix,
            entity: writer.entity,
        },
        offered: writer.offered(),
    })
}

/// What a call of a script asks of the peer of this number. A match with an end of the set-up, of the same topic, tells it
/// of that end's GUID and policies too where one of both peers came later: it need not know the end. Any other call is as
/// it stands.
pub fn introduced(peers: &Peers, peer: u32, call: Call) -> Call {
    match call {
        Call::MatchReader {
            writer,
            reader,
            greeted,
        } => match far_reader(peers, peer, writer, reader) {
            Some(far) => Call::MeetReader {
                writer,
                far,
                greeted,
            },
            None => Call::MatchReader {
                writer,
                reader,
                greeted,
            },
        },
        Call::MatchWriter { reader, writer } => match far_writer(peers, peer, reader, writer) {
            Some(far) => Call::MeetWriter { reader, far },
            None => Call::MatchWriter { reader, writer },
        },
        call => call,
    }
}
