//! What happens to a network of peers.
//!
//! DDS 1.4, 2.2.2.4 and 2.2.2.5 (calls). Peers, and packets by their numbers, are this project's own.

use crate::call::Call;
use dds_base::Moment;

/// What happens to a network of peers, which are numbered from 1.
#[derive(Debug, Drop)]
pub enum WorldEvent {
    /// A call at a peer, as `Call` says.
    Call { peer: u32, call: Call },
    /// The time of a peer goes on to this moment: those whose lease is over die at its readers. `BadParameter` where
    /// it would go back, or to 2^63 units of 2^-32 second and beyond; `Memory` only where, with those that die, more
    /// than 2^64 - 1 entries would have happened at a reader: no death needs memory.
    Tick { peer: u32, now: Moment },
    /// The packet of this number, counted from 1 among all that were ever sent, comes at a peer.
    Deliver { peer: u32, packet: u64 },
    /// The places of a peer's reader are tried again, one after another, in the order of the writers' publication
    /// handles: each that has begun goes on as far as it can by what is known already. The answer is a `Report`, or
    /// `BadParameter` where there is no such reader.
    Resume { peer: u32, reader: u8 },
}
