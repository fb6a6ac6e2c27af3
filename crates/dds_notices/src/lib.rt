//! What a listener is told and keeps of it, and which listener is told.
//!
//! DDS 1.4, 2.2.4.1 (communication statuses), 2.2.4.3 (access through listeners).
//! Not here: when a status is raised.
#![tactic(auto)]

pub mod laws;
mod listener;
mod mask;
mod notice;
mod recorder;
mod slot;
mod slots;

pub use listener::Listener;
pub use mask::StatusMask;
pub use notice::{Notice, Status};
pub use recorder::{MAX_ROOM, Recorder};
pub use slots::Slots;
