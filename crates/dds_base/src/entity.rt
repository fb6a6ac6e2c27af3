//! The entities of a peer.
//!
//! DDS 1.4, 2.2.2.1 (Entity).

/// The participant, a writer or a reader of a peer. Writers and readers are numbered from 1, in the order of the
/// configuration.
///
/// DDS 1.4, 2.2.2.1 (Entity, DomainParticipant), 2.2.2.4 (DataWriter), 2.2.2.5 (DataReader).
#[derive(Clone, Copy, Debug, PartialEq, Eq)]
pub enum Entity {
    /// The participant: the peer itself.
    Participant,
    /// The writer of this number.
    Writer(u8),
    /// The reader of this number.
    Reader(u8),
}
