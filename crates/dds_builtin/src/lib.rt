//! The builtin endpoints by which two participants tell each other their endpoints, but for the peer that they are of.
//!
//! `network_of` is the configuration of the two peers, and `with_kinds` turns the kinds of builtin entities in a datagram,
//! so that a peer reads them as those of a user; `turned_in` and `turned_out` are a datagram's way to a peer and back, lists
//! and kinds together. `hear` acts on a sample of them at the table of endpoints, and
//! `key_of`, `announcement` are what is written of an endpoint of ours. Not here: peers (`dds_network`).
//!
//! RTPS 2.5, 8.5.4 (SEDP), 8.4.13 (the writer liveliness protocol).
#![tactic(auto)]

mod announced;
mod builtin;
mod kinds;
mod reaching;
mod said;
mod sides;

pub use announced::{announcement, guid_of, key_of, message_key};
pub use builtin::{MAX_ANNOUNCEMENT, Topic, lists_of, network_of, number_of};
pub use kinds::{EntityKinds, with_kinds, with_kinds_of};
pub use reaching::reach;
pub use said::hear;
pub use sides::{turned_in, turned_out};
