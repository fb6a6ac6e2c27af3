//! The discovery machine of a participant: which participants are there, and which of their endpoints are matched with
//! ours.
//!
//! `Discovery` joins `Participants` of `rtps_discovery` (who is there), `Endpoints` of `rtps_matching` (which pairs are
//! matched), and for each participant that is known a `Network` of `dds_network`, by which both tell each other their
//! endpoints. It has no socket and no clock. An event leaves steps to do, and `settle` does them one by one: each tells
//! what it changed of who is matched, or gives a datagram to be sent. A step that finds no memory is refused as a whole,
//! and is left to do. Not here: what a match does to a peer.
//!
//! RTPS 2.5, 8.5 (discovery), 8.4.13 (the writer liveliness protocol).
//!
//! ```rust
//! let heard = discovery.deliver(alloc, now, &address, &bytes)?; // who appeared or is gone, our announcement to a newcomer
//! for _ in 0..u64::MAX {
//!     match discovery.settle(alloc)? {
//!         Step::Settled => break,
//!         Step::Done(done) => {} // done.told: who is matched; done.packet: to be sent
//!     }
//! }
//! ```
#![tactic(auto)]

mod again;
mod discovery;
mod due;
pub mod laws;
mod link;
mod opening;
mod serving;
mod tasks;

pub use discovery::{BUILTIN_ENDPOINTS, Discovery, Step};
pub use link::{Link, Removed};
pub use serving::Done;
