//! DATA_FRAGs, put together into DATA.
//!
//! A product may send a value in fragments. `Fragments` is given each datagram of the network, keeps the fragments of
//! known writers, and answers a message with one DATA once all fragments of a payload have come. The datagram stays as
//! it is, to be handed on too. Nothing is ever written in fragments. `write_nack_frag` makes the message that asks for
//! those that are missing, and `Fragments::again` says when a writer may wait for it. Not here: sockets, and what a peer
//! does with a message. The payload is only cut and put together: what it means is no matter of this crate. `specs/` has
//! the grammar (`DataFrag`, `NackFrag`), what is kept (`Keeping`), what is told (`Telling`, `Hearing`), what is asked for
//! (`Asking`), and what the laws say.
//!
//! A datagram of a writer that is known, and what comes of it:
//!
//! ```rust
//! let mut fragments = Fragments::new(alloc, &[writer])?;
//! let mut whole = Vec::new(alloc);
//! fragments.hear(alloc, datagram, &mut whole)?;
//! for message in &whole {
//!     // a message with one DATA: it goes where the datagram goes
//! }
//! ```
//!
//! RTPS 2.5, 8.3.8.3 and 9.4.5.4 (DataFrag).
#![tactic(auto)]

mod assembly;
mod data_frag;
mod field;
mod hearing;
mod kept;
pub mod laws;
mod nack_frag;
mod names;
mod row;
mod telling;

pub use hearing::Fragments;
pub use nack_frag::{ChangeId, write_nack_frag};
