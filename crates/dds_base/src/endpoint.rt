//! The names of writers and readers among all peers.
//!
//! RTPS 2.5, 8.2 (Endpoint).

/// A writer or a reader, by its peer and by its number there, both from 1: those of a configuration in its order.
/// Writers and readers are numbered apart, so an endpoint alone doesn't say which of the two it is.
///
/// RTPS 2.5, 8.2 (Endpoint).
#[derive(Clone, Copy, Debug, PartialEq, Eq)]
pub struct Endpoint {
    /// The number of its peer, from 1.
    pub peer: u32,
    /// Its number among the writers, or among the readers, of that peer, from 1.
    pub number: u8,
}
