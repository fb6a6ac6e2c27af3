//! What a delivery has done so far, but for what changed at the ends of the peer.

ghost use Rattle.std.specs.Prelude.{◌≡◌, []};
ghost use Rattle.dds_core.specs.Receiving.{NothingDone};

use crate::moves::Moves;
use dds_ends::Announced;
use dds_machine::Move;
use std::alloc::Global;

/// What the submessages of a packet moved, and what is sent for them.
#[derive(Drop)]
pub struct Effects {
    pub moves: Moves,
    pub sent: Announced,
}

impl Effects {
    /// None. The moves are to be kept twice, or once, in this empty list. Takes no memory.
    pub fn new(alloc: Global, twice: bool, list: Vec<Move>) -> Effects
        requires empty { list.items ≡ [] }
        ensures { NothingDone twice result }
    {
        Effects {
            moves: Moves::new(alloc, twice, list),
            sent: Announced {
                packets: Vec::new(alloc),
                unsent: 0,
            },
        }
    }
}
