//! The machine without packets: what an application asks of its peer and what it is answered, and which answers are
//! right, where each writer is a list of changes, and each matched reader has a place in it.
//!
//! DDS 1.4, 2.2.2.4 and 2.2.2.5 (calls), 2.2.4.1 (communication statuses); RTPS 2.5, 8.4 (behaviour).
//! `specs/` holds the definitions of the machine, to which nobody needs a packet: no crate of the protocol stands below.
//! Not here: code that runs, but for the copy of a call; bytes, messages and what they claim
//! (`dds_protocol`).
#![tactic(auto)]

mod call;
mod event;
mod far;
mod reply;

pub use call::Call;
pub use dds_base::{
    Endpoint, LivelinessChangedStatus, LivelinessLostStatus, MatchedStatus, PassedRun,
    SampleLostStatus,
};
pub use event::WorldEvent;
pub use far::{FarReader, FarWriter};
pub use reply::{Move, Reply, Report};
