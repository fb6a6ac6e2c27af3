//! What is kept of that which was done at a shared peer: all, what was not handed out yet, or nothing, and then it is known
//! in proofs alone.
//!
//! Histories and passes are this project's own.
//! Not here: the lock under which it is done, and the word that counts it.
#![tactic(auto)]

mod counted;
mod keeping;
mod pieces;
mod recorded;

pub use counted::Counted;
pub use keeping::{Handing, Keeping};
pub use pieces::Pieces;
pub use recorded::Recorded;
