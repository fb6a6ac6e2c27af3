//! Which way a datagram goes, and what is done with it.

/// Which way a datagram goes.
#[derive(Clone, Copy)]
pub enum Direction {
    /// From the network to a peer.
    Inward,
    /// From a peer to the network.
    Outward,
}

/// What is done with a datagram.
#[derive(Clone, Copy)]
pub enum Way {
    /// What of it has to be turned is turned.
    Turning(Direction),
    /// It is turned for a peer, and each number of it whose payload the peer could not read stands in a GAP.
    Filling,
}
