//! The writer's side of reliable RTPS: one writer with its matched reliable readers, named by an index from 0.
//!
//! RTPS 2.5, 8.4.7 (StatefulWriter, ReaderProxy); DDS 1.4, 2.2.2.4 (DataWriter).
//! Not here: who the readers are, and the packets.
#![tactic(auto)]

mod answer;
mod heartbeat;
pub mod laws;
mod liveliness;
mod registration;
mod stateful_writer;

pub use answer::{Answer, Answered};
pub use heartbeat::HeartbeatDue;
pub use stateful_writer::StatefulWriter;
