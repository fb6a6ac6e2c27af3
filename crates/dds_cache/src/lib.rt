//! What a reader holds: its present samples, and its instances, kept up with what happens by running counters.
//!
//! DDS 1.4, 2.2.2.5 (read, take, SampleInfo), 2.2.3 (OWNERSHIP, HISTORY). `docs/MODEL.md`, "What is
//! present" and "What an access returns".
//! Not here: which changes come, and when.
#![tactic(auto)]

mod access;
mod access_kind;
mod accessing;
mod arriving;
mod asking;
mod by_instance;
mod chains;
mod collection;
mod content;
mod dying;
mod ending;
mod entering;
mod first;
mod kept;
mod masks;
mod only;
mod pick;
mod positions;
mod pushing;
mod reader_cache;
mod returned;
mod room;
mod summary;
mod sweeping;
mod test;

pub use access_kind::AccessKind;
pub use reader_cache::ReaderCache;
pub use test::{Everything, Test};
