//! A peer, with those whom discovery matches it with: what it is told of them, and its datagrams on the network.
//!
//! `Exchange` is a peer of `dds_core` with endpoints of ours. What discovery tells of a match is one call of it, a datagram
//! that comes is one delivery of what it turns into, and what it sends goes to the addresses of participants. So its life is
//! a history of the machine, whatever discovery tells, and whatever comes. Not here: discovery (`dds_discovery`), sockets
//! and the clock.
//!
//! DDS 1.4, 2.2.2.2.1 (DomainParticipant); RTPS 2.5, 8.2 (Endpoint), 8.5.4 (SEDP).
#![tactic(auto)]

mod carried;
mod ends;
mod entities;
mod exchange;
mod fitting;
mod going;
mod naming;
mod opening;
mod tables;
mod told;

pub use carried::Carried;
pub use ends::OwnEnd;
pub use exchange::Exchange;
pub use going::{address_of, called_in};
pub use naming::NamedEnd;
pub use opening::{can_hold, reader_config, writer_config};
pub use told::{Due, far_of};
