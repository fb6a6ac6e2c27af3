//! Discovery: which participants are there, and which writers and readers are matched.
//!
//! `misfit` names the policy by which a writer and a reader of one topic do not fit, and `fits` says whether they are to
//! be matched. `Participants` is the table of participants that announced themselves, with what is sent to them;
//! `taken_lease` says how long one is taken to be there. `specs/` says so, and `laws` what follows. Not here: which
//! writers and readers a participant has.
//!
//! DDS 1.4, 2.2.3 (supported QoS); DDS-XTypes 1.3, 7.6.3.1.1; RTPS 2.5, 8.5 (discovery).
//!
//! ```rust
//! match misfit(&writer, &reader) {
//!     None => {}              // their policies fit
//!     Some(policy) => {}      // it is this one
//! }
//! ```
#![tactic(auto)]

mod discovery;
pub mod laws;
mod lease;
mod matching;
mod packet;
mod row;
mod spdp;
mod table;

pub use discovery::{Heard, Participants, Settings, Ticked};
pub use lease::taken_lease;
pub use matching::{fits, meet, misfit};
pub use packet::Packet;
pub use row::{Limits, Row, Told};
