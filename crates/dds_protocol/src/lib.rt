//! What packets claim, the rules of the reliable protocol, and the laws between them and the machine without packets:
//! peers that rest on nothing but what packets claim are a machine without packets.
//!
//! RTPS 2.5, 8.3.8 (what messages say), 8.4 (behaviour); DDS 1.4, 2.2.3 (RELIABILITY).
//! `specs/` holds the definitions that the contracts of peers and of networks cite; the functions are laws.
//! Not here: what a call is answered (`dds_machine`); code that runs, but for the copies of events and packets.
#![tactic(auto)]

mod event;
pub mod laws;

pub use event::{Event, Output, Packet};
