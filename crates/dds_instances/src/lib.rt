//! The instances of a reader: who owns each, its state, its counts and its view, kept up with what happens.
//!
//! DDS 1.4, 2.2.2.5 (SampleInfo), 2.2.3 (OWNERSHIP, OWNERSHIP_STRENGTH, LIVELINESS). `docs/MODEL.md`, "Instances".
//! Not here: who is registered for an instance, its samples, and what a read or a take returns.
#![tactic(auto)]

mod instances;
mod keeping;
mod known;
mod place;
mod track;

pub use instances::Instances;
pub use known::KnownInstance;
