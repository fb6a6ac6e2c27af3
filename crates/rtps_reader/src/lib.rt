//! A reader's side of the protocol: how it stands to each writer that it knows, its place in that one's list, the
//! changes that wait there, and what it acknowledges; and how the place of a best-effort reader goes on.
//!
//! RTPS 2.5, 8.4.10 to 8.4.12 (StatefulReader, WriterProxy). Writers are named by index; what comes is handed to a
//! `Sink`.
//! Not here: packets, peers, GUIDs, and what the reader holds.
#![tactic(auto)]

mod attachment;
mod beginning;
mod held_changes;
mod known_writer;
mod sink;
mod stateful_reader;
mod step;
mod writer_proxy;

pub use attachment::Attachment;
pub use sink::Sink;
pub use stateful_reader::StatefulReader;
pub use step::{AckNackDue, HeartbeatSeen, Step};
