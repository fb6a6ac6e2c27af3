//! What the programs of discovery share: the words that announce an endpoint, addresses, and the lines that tell who is
//! there.
//!
//! Contracts say which addresses and times words are, and which line is printed of who is there, of what is sent and of
//! what is matched. Of the options of endpoints, and of how endpoints and participants are listed, they say nothing:
//! that is tested. Not here: which lines a program takes.
#![tactic(auto)]

mod addresses;
mod announced;
mod found;
mod text;
mod usual;

pub use addresses::{address, locator, one_locator};
pub use announced::{duration, end_of};
pub use found::{print_end, print_far, print_row};
pub use text::{
    print_misfit, print_open, print_packet, print_presence, print_told, print_withdrawn,
};
pub use usual::{USUAL_ENDPOINTS, USUAL_LEASE, USUAL_LIMITS};
