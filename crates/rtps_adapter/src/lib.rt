//! Payloads of other types, between the network and a peer.
//!
//! A peer reads one type, the datum: a key, and a value of octets. `inward` turns a datagram so that the payload of
//! each DATA whose writer's topic carries another type stands in a datum, as its value, and `outward` turns it back;
//! all else stays as it is, octet for octet, and a datagram that needs nothing is not copied. `inward_with_gaps` does so
//! too, and puts a GAP in place of numbers whose payload a peer could not read. Which topic carries what, the caller
//! says by the GUIDs of writers. Not here: sockets, and what a peer does with a datagram.
//!
//! RTPS 2.5, 8.3.4 and 9.4.5 (messages and submessages), clause 10 (SerializedPayload).
#![tactic(auto)]

mod adapt;
mod change;
mod data;
mod direction;
mod filling;
mod key;
mod kinds;
pub mod laws;
mod listed;
mod payload;

pub use adapt::{Adapted, inward, inward_with_gaps, outward};
pub use direction::{Direction, Way};
pub use kinds::{Encoding, FieldSize, KeyField, KeyRule, Kind, WriterKind};
pub use payload::{fits, fits_key};
