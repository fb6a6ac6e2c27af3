//! Sets of sequence numbers, as messages carry them, and the window in which a reader keeps what it heard of.
//!
//! RTPS 2.5, 8.3.5.5 (SequenceNumberSet), 8.4.12 (reliable StatefulReader).
//! Not here: the bytes of a set, and who asks for what is missing.
#![tactic(auto)]

mod bits;
mod mirror;
mod sn_set;
mod window;

pub use sn_set::{MAX_BITS, SnSet, max_bits_is_the_width};
pub use window::{Mark, WIDTH, Window};
