//! One peer: its writers and readers, and what its calls, its time and the packets that come to it do to them.
//!
//! DDS 1.4, 2.2.2.1, 2.2.2.4 and 2.2.2.5 (Entity, DataWriter, DataReader); RTPS 2.5, 8.2 (Participant), 8.4
//! (behaviour).
//! Not here: the network between peers (`dds_world`), the bytes of messages (`rtps_wire`), and each end of a peer, a
//! writer or a reader, with what it keeps, says and is told (`dds_ends`).
//!
//! Both peers of the configuration in the head of `dds_base`, whose packets the caller carries:
//!
//! ```rust
//! use dds_base::{Key, Masks, Octets, Selection};
//! use dds_core::Core;
//! use dds_machine::Call;
//! use dds_protocol::Event;
//!
//! let mut writers: Core = Core::open(alloc, &config, 1)?;
//! let mut readers: Core = Core::open(alloc, &config, 2)?;
//! let call = Call::Write {
//!     writer: 1,
//!     key: Key([7; 16]),
//!     value: Octets::from_vec(vec![in alloc; 0x61, 0x62]?),
//! };
//! let output = writers.step(Event::Call(call)); // Done, with a packet for peer 2
//! for packet in output.packets.into_vec() {
//!     let _ = readers.step(Event::Deliver(packet.bytes)); // Reported: the place is now 2
//! }
//! let selection = Selection::Any {
//!     max: -1,
//!     masks: Masks::ANY,
//! };
//! let call = Call::Take {
//!     reader: 1,
//!     selection,
//! };
//! let output = readers.step(Event::Call(call)); // Samples
//! ```
#![tactic(auto)]

mod access;
mod application;
mod by_filter;
mod calls;
mod coming;
mod delivery;
mod effects;
mod far_ends;
mod filtered_peer;
mod lent_event;
mod matching_readers;
mod matching_writers;
mod mindful;
mod misses;
mod moves;
mod noticing;
mod observing;
mod opening;
mod pairing;
mod peer;
mod requests;
mod resuming;
mod spare_lists;
mod watching;

pub use application::Core;
pub use mindful::Mindful;
pub use observing::Observed;
pub use pairing::Pair;
