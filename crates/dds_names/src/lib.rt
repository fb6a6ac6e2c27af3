//! The names by which a peer speaks of writers and readers, its own and others': which GUID each stands for, and which
//! name a newcomer may have.
//!
//! RTPS 2.5, 8.2 (GUID_t).
//! Not here: whom a writer or a reader is matched with.
#![tactic(auto)]

mod known_names;
mod named_end;
mod opening;

pub use known_names::KnownNames;
pub use named_end::NamedEnd;
