//! What a peer gives back.
//!
//! DDS 1.4, 2.2.1.1 (return codes).

ghost use Rattle.std.specs.Prelude.{◌≡◌, []};
ghost use Rattle.dds_ends.specs.Looking.{access_reply};

use dds_base::{Code, Sample, Sequence};
use dds_machine::{Reply, Report};
use dds_protocol::Output;
use std::alloc::Global;

/// An answer with nothing to send.
pub fn answered(alloc: Global, reply: Reply) -> Output
    ensures { result ≡ record { reply = reply; packets = []; unsent = 0 } }
{
    Output {
        reply,
        packets: Sequence::from_vec(Vec::new(alloc)),
        unsent: 0,
    }
}

/// A report of no move.
pub fn unmoved(alloc: Global, refused: Option<u32>) -> Report
    ensures { result ≡ record { moves = []; refused = refused } }
{
    Report {
        moves: Sequence::from_vec(Vec::new(alloc)),
        refused,
    }
}

/// The reply to an access.
pub fn reply_to_access(samples: Result<Sequence<Sample>, Code>) -> Reply
    ensures { result ≡ access_reply samples }
{
    match samples {
        Ok(samples) => Reply::Samples(samples),
        Err(code) => Reply::Refused(code),
    }
}
