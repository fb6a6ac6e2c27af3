//! A listener that only keeps what it is told.
//!
//! DDS 1.4, 2.2.4.3 (access through listeners).

ghost use Rattle.std.specs.Prelude.{◌≡◌, IfOk, IfErr, OnOk, None};
ghost use Rattle.dds_base.specs.Refusal.{Refuses};
ghost use Rattle.dds_notices.specs.Notices.{opened, room_refusal, told};

use crate::listener::Listener;
use crate::notice::Notice;
use circular_buffer::HeapCircularBuffer;
use dds_base::Code;
use std::alloc::Global;
use std::marker::Model;

/// The greatest room of a recorder, in notices.
pub const MAX_ROOM: usize = 65_536;

/// A listener that only keeps what it is told: the last notices, at most as many as it has room for.
///
/// DDS 1.4, 2.2.4.3 (access through listeners).
#[derive(Drop)]
pub struct Recorder {
    held: HeapCircularBuffer<Notice>,
}

impl Model for Recorder {
    ghost use Rattle.dds_notices.specs.Notices.{Recording};

    ghost Value = { Recording };

    ghost view = { λ r. record { notices = r.held.items; room = r.held.capacity } };
}

impl Recorder {
    /// One that keeps nothing yet, with room for so many notices: 1 to 65,536. What it will ever need is made here.
    ///
    /// # Errors
    ///
    /// `BadParameter` for another room, else `Memory` where a growth was refused.
    pub fn open(alloc: Global, room: usize) -> Result<Recorder, Code>
        // It keeps nothing, and has this room.
        ensures fresh { IfOk result (λ recorder. recorder ≡ opened room) }
        // The room is one that a recorder can have.
        ensures taken { OnOk result (room_refusal room ≡ None) }
        // A refusal is for the room, or for want of memory.
        ensures refused { IfErr result (Refuses (room_refusal room)) }
    {
        if room == 0 || MAX_ROOM < room {
            return Err(Code::BadParameter);
        }
        let held = HeapCircularBuffer::with_capacity(alloc, room)?;
        Ok(Recorder { held })
    }
}

impl Listener for Recorder {
    ghost notices = { λ r. r.notices };

    ghost capacity = { λ r. r.room };

    ghost becomes = { λ r n q. q ≡ record r { notices = told r.room r.notices n } };

    fn room(&self) -> usize {
        self.held.capacity()
    }

    fn is_fresh(&self) -> bool {
        self.held.is_empty()
    }

    fn held(&self, at: usize) -> Option<Notice> {
        self.held.get(at).copied()
    }

    fn on_notice(&mut self, notice: &Notice) {
        // In its parts, so that the prover sees the type of each.
        let Notice { entity, status } = *notice;
        self.held.push_back(Notice { entity, status });
    }
}
