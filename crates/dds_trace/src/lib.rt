//! What peers did: the trace of one, event by event, and an order of the entries of several that makes them one run.
//!
//! Traces are this project's own; what a peer does at an event is DDS 1.4, 2.2.2, and RTPS 2.5, 8.4.
//! Not here: who has a peer's events done, and when; the peer itself (`dds_core`).
//!
//! ```rust
//! use dds_core::Core;
//! use dds_protocol::Event;
//! use dds_trace::{Entry, Trace, weave};
//!
//! let mut core: Core = Core::open(alloc, &config, 1)?;
//! let mut trace = Trace::open(alloc, 1);
//! trace.reserve(1)?;
//! let event = Event::Call(call);
//! let copy = event.clone()?;
//! let output = core.step(event);
//! trace.push(Entry {
//!     seat: 1,
//!     event: copy,
//!     output,
//! });
//! // With the trace of peer 2, at which the packet of that output was delivered:
//! let run = weave(alloc, &[trace, other]); // the order 0, 1
//! ```
#![tactic(auto)]

pub mod laws;
mod sent_octets;
mod trace;
mod weaving;

pub use trace::{Entry, Trace};
pub use weaving::{Run, WeaveFault, weave};
