//! Which of our writers and readers are matched with which of others, and what changes with each announcement.
//!
//! `Endpoints` is the table of our own endpoints and of those that other participants announced. Who is matched follows
//! from the table alone, by `specs/Matches.antt`; what an event tells is the difference that it makes, as `laws` says.
//! Not here: how announcements come (`rtps_discovery` has the participants), and what a match does to a peer.
//!
//! DDS 1.4, 2.2.3 (supported QoS); RTPS 2.5, 8.5.4 (SEDP).
#![tactic(auto)]

mod end;
mod endpoints;
mod far;
pub mod laws;
mod misfits;
mod owned;
mod told;

pub use end::End;
pub use endpoints::Endpoints;
pub use far::Far;
pub use owned::Owned;
pub use told::{Misfitting, Told};
