//! The leases of a reader's matched writers: which of them are alive, and which of them die.
//!
//! DDS 1.4, 2.2.3 (LIVELINESS), 2.2.4.1 (LIVELINESS_CHANGED).
//! Not here: when a writer is asserted or a moment has come, and what a death does to instances.
#![tactic(auto)]

pub mod laws;
mod leases;
mod track;

pub use leases::Leases;
