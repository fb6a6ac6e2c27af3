//! What a network may ask of a peer: its moment, by which entity ids a writer of it and a matched reader go, the place
//! of a reader of it, and which writers it is matched with.
//!
//! RTPS 2.5, 8.4.7 (StatefulWriter, matched_readers), 8.4.10 (StatefulReader, matched_writers).

ghost use Rattle.std.specs.Prelude.{◌≡◌, Some};
ghost use Rattle.dds_machine.specs.Part.{how_of, is_attached, own_proxies, place_of};
ghost use Rattle.dds_protocol.specs.Roster.{Roster};
ghost use Rattle.dds_protocol.specs.Peer.{Peer as PeerState};
ghost use Rattle.dds_core.specs.Pairs.{IsPair};
ghost use Rattle.dds_core.specs.Standing.{StandsFor};

use crate::peer::Peer;
use dds_base::{Endpoint, EntityId, Moment, Sn, index_of};
use dds_ends::{row_among, writer_row_among};

/// A writer and a reader that it is matched with, by their entity ids.
#[derive(Clone, Copy)]
pub struct Pair {
    /// The entity id of the writer at its peer.
    pub writer: EntityId,
    /// The entity id of the reader at its peer.
    pub reader: EntityId,
    /// Whether the reader has not acknowledged all changes of the writer.
    pub is_behind: bool,
    /// The number of the writer's last change; 0 before the first.
    pub last: Sn,
}

impl Peer {
    /// The peer's moment: 0, or that of the last tick that was done.
    pub fn moment(&self) -> Moment
        // It is the moment of each state that the peer stands for.
        ensures moment { (roster : Roster) (peer : PeerState) → StandsFor self.now roster peer
            → result ≡ peer.part.dds.moment }
    {
        self.moment
    }

    /// The writer of this number and a reader, by their entity ids, whether the reader is behind, and the number of the
    /// writer's last change; `None` where they are not matched, or where there are no such ends.
    ///
    /// RTPS 2.5, 8.4.7 (StatefulWriter: matched_readers; ReaderProxy: unacked_changes).
    pub fn pair(&self, writer: u8, reader: Endpoint) -> Option<Pair>
        // They are matched exactly if a pair is found, and the ids are those of the roster; the reader is behind
        // exactly where it has not acknowledged some change, and the last number is how many changes the writer has
        // made.
        ensures pair { (roster : Roster) (peer : PeerState) → StandsFor self.now roster peer
            → IsPair roster peer writer reader result }
    {
        let Some(index) = index_of(writer, self.writers.len()) else {
            return None;
        };
        let end = &self.writers[index];
        let Some(row) = row_among(end.readers(), reader) else {
            return None;
        };
        Some(Pair {
            writer: end.entity(),
            reader: end.readers()[row].guid.entity,
            is_behind: end.is_behind(row),
            last: end.last(),
        })
    }

    /// The place of the reader of this number at a writer of its topic: the number of the change that it has next, from
    /// 1; `None` where there are no such ends. It is kept where the reader is matched with the writer no longer.
    ///
    /// RTPS 2.5, 8.4.10 (StatefulReader, WriterProxy).
    pub fn place(&self, reader: u8, writer: Endpoint) -> Option<Sn>
        // It is the place in each state that the peer stands for, and there is one exactly if the reader knows the
        // writer.
        ensures place { (roster : Roster) (peer : PeerState) → StandsFor self.now roster peer
            → result ≡ place_of (own_proxies peer.part reader) writer }
    {
        let Some(index) = index_of(reader, self.readers.len()) else {
            return None;
        };
        let end = &self.readers[index];
        let Some(row) = writer_row_among(end.writers(), writer) else {
            return None;
        };
        Some(end.place(row))
    }

    /// Whether the reader of this number is matched with a writer now; it is not where there are no such ends.
    ///
    /// RTPS 2.5, 8.4.10 (StatefulReader: matched_writers).
    pub fn is_matched(&self, reader: u8, writer: Endpoint) -> bool
        // It is so exactly if it is in each state that the peer stands for.
        ensures matched { (roster : Roster) (peer : PeerState) → StandsFor self.now roster peer
            → result ≡ is_attached (how_of (own_proxies peer.part reader) writer) }
    {
        let Some(index) = index_of(reader, self.readers.len()) else {
            return false;
        };
        let end = &self.readers[index];
        let Some(row) = writer_row_among(end.writers(), writer) else {
            return false;
        };
        end.is_attached(row)
    }
}
