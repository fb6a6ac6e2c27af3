//! Our peer of the network of two peers, another participant and us, by which both tell each other their endpoints (SEDP).
//!
//! `Network` is a peer of `dds_core` with the builtin endpoints of `dds_builtin`: each of its events is a step of that peer,
//! and what comes at its builtin readers is taken. `Work` says what is to be done there, and in which order. Not here: whom
//! there is such a network with, what its datagrams turn into, and what is told of the samples.
//!
//! RTPS 2.5, 8.5.4 (SEDP), 8.4.13 (the writer liveliness protocol).
#![tactic(auto)]

mod network;
mod quiet;
mod work;

pub use network::Network;
pub use quiet::{NoFilter, NoListener};
pub use work::{Task, Work};
