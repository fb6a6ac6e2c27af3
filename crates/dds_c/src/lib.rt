//! Peers for programs in C, and in whatever calls C.
//!
//! DDS 1.4, 2.2.2.4 and 2.2.2.5 (DataWriter, DataReader); RTPS 2.5, 8.3.4 (the message receiver).
//! Each export is an event at a peer, or a fetch of what the last event gave back; `include/cinchwalnut.h` declares them,
//! and says what their caller owes. `specs/` says what an event does to what a caller holds.
//! Not here: what a peer answers (`dds_core`), where packets go and how, and what time it is.
#![tactic(auto)]

pub mod adapting;
pub mod answers;
mod config;
pub mod events;
mod far;
pub mod fault;
mod held;
mod held_member;
pub mod lines;
mod member;
mod membership;
pub mod observing;
pub mod opening;
mod out;
pub mod participant;
pub mod participant_answers;
pub mod participant_events;
pub mod participant_looks;
mod parts;
mod peer;
pub mod reading;
mod session;
mod settings;
pub mod sum;
pub mod watching;
pub mod writing;
