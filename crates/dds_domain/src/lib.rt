//! A participant of a domain: discovery, and our peer, which discovery tells of matches. No sockets, and no clock.
//!
//! `Participant` is given each datagram that comes and the time that goes on. What comes of it is a `Turn`: who appeared or is
//! gone, what changed of who is matched, and which datagrams are to be sent. Whatever discovery does, the life of our peer is a
//! history of the machine: each match that was told is one call of it, and a datagram is one delivery of what it turns
//! into, in that order. Where memory is wanting a datagram is lost, as a network may lose it, and what else is left to do is
//! done in a later turn.
//!
//! DDS 1.4, 2.2.2.2.1 (DomainParticipant); RTPS 2.5, 8.5 (discovery).
//!
//! ```rust
//! let mut participant = Participant::open(alloc, settings, ends)?;
//! let mut turn = Turn::new(alloc);
//! participant.hear(now, &address, &bytes, &mut turn); // a datagram came
//! participant.tick(now, &mut turn);                   // time went on
//! for datagram in &turn.datagrams {}                  // to be sent
//! let reply = participant.call(take, &mut turn);      // what came
//! ```
#![tactic(auto)]

mod asking;
mod early;
mod heard;
mod matched;
mod opening;
mod participant;
mod sharing;
mod telling;
mod turn;

pub use opening::{OurEnd, Unopened};
pub use participant::Participant;
pub use turn::Turn;
