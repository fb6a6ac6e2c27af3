//! A peer that threads share: each event is done whole under one lock, and each thread carries a pass, which has what the
//! thread did, stored or known in proofs alone.
//!
//! DDS 1.4, 2.2.2.1 (Entity, WaitSet). Passes and their closing are this project's own.
//! Not here: the threads, and how packets travel between peers.
#![tactic(auto)]

mod closing;
mod flat;
mod locked;
mod named;
mod over;
mod pass;
mod recorded;
mod recording;
mod said;
mod scribe;
mod seed;
mod shared;
mod tally;
mod waiting;
mod whole;

pub use flat::{Flat, FlatPass};
pub use named::Named;
pub use pass::Pass;
pub use recorded::Closed;
pub use recording::{NotEnded, Recording};
pub use scribe::Scribe;
pub use seed::Seed;
pub use shared::{NotClosed, Shared};
