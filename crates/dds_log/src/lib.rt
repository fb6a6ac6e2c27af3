//! What happened, in proofs alone, and a word that counts it: whoever has a hand of it sees how far it was, and what it
//! did itself, and waits for nobody.
//!
//! Logs are this project's own.
//! Not here: what happened, and the lock under which it happens.
#![tactic(auto)]

mod hand;
mod keeper;
mod rule;
mod scribe;
mod word;

pub use hand::Hand;
pub use keeper::{Adding, Keeper};
pub use rule::Seated;
pub use scribe::Scribe;
pub use word::{HasWord, NewWord, Word};
