//! Which of a reader's matched writers are registered for an instance, how strong they are, and who owns it.
//!
//! DDS 1.4, 2.2.3 (OWNERSHIP, OWNERSHIP_STRENGTH, LIVELINESS), 2.2.2.4 (register_instance, unregister_instance).
//! Not here: which instances are known, and what an accepted change does to one.
#![tactic(auto)]

pub mod laws;
mod owners;
mod ranking;
mod registration;
mod strengths;

pub use owners::Owners;
pub use strengths::Strengths;
