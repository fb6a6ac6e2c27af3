//! Peers in a simulated network, which delivers any packet that was ever sent, at any peer, any number of times or
//! never.
//!
//! The network is this project's own; its peers behave by RTPS 2.5, 8.4, and answer by DDS 1.4, 2.2.2.4 and
//! 2.2.2.5.
//! Not here: what one peer does with an event (`dds_core`).
//!
//! A network of the configuration in the head of `dds_base`, in which a sample is written, delivered and taken:
//!
//! ```rust
//! use dds_base::{Key, Masks, Octets, Selection};
//! use dds_world::{Call, World, WorldEvent};
//!
//! let mut world: World = World::open(alloc, &config)?;
//! let call = Call::Write {
//!     writer: 1,
//!     key: Key([7; 16]),
//!     value: Octets::from_vec(vec![in alloc; 0x61, 0x62]?),
//! };
//! let _ = world.step(WorldEvent::Call { peer: 1, call }); // Done; packet 1 is sent
//! let _ = world.step(WorldEvent::Deliver { peer: 2, packet: 1 }); // Reported: the place is now 2
//! let selection = Selection::Any {
//!     max: -1,
//!     masks: Masks::ANY,
//! };
//! let call = Call::Take {
//!     reader: 1,
//!     selection,
//! };
//! let reply = world.step(WorldEvent::Call { peer: 2, call }); // Samples
//! ```
#![tactic(auto)]

mod coming;
mod round;
mod world;

pub use dds_machine::{
    Call, Endpoint, LivelinessChangedStatus, LivelinessLostStatus, Move, PassedRun, Reply, Report,
    SampleLostStatus, WorldEvent,
};
pub use dds_protocol::{Event, Output, Packet};
pub use round::{Round, RoundReply};
pub use world::World;
