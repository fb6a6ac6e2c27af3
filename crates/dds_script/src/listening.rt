//! The listeners that lines ask for.
//!
//! DDS 1.4, 2.2.4.3 (access through listeners).

use crate::number::decimal;
use crate::operand::{entity, status_mask};
use dds_base::{Code, Entity};
use dds_notices::{Recorder, StatusMask};
use std::alloc::Global;

/// The listener that an entity is to have.
#[derive(Clone, Copy)]
pub struct ListenerLine {
    /// Whose listener it is.
    pub entity: Entity,
    /// The statuses that the listener is told of.
    pub mask: StatusMask,
    /// How many notices it keeps at most; none where there is to be no listener.
    room: Option<u64>,
}

impl ListenerLine {
    /// The listener, which keeps no notices yet; none where there is to be none.
    ///
    /// # Errors
    ///
    /// `BadParameter` for a room that no recorder has, else `Memory` where there is none.
    pub fn recorder(self, alloc: Global) -> Result<Option<Recorder>, Code> {
        let Some(room) = self.room else {
            return Ok(None);
        };
        let room = usize::try_from(room).map_err(|_| Code::BadParameter)?;
        Ok(Some(Recorder::open(alloc, room)?))
    }
}

/// The listener that these words ask for at an entity; none where they speak of no listener.
pub fn listener_line(words: &[&str]) -> Option<ListenerLine> {
    match words {
        ["listener", word, mask, room] => Some(ListenerLine {
            entity: entity(word)?,
            mask: status_mask(mask)?,
            room: Some(decimal(room)?),
        }),
        ["unlisten", word] => Some(ListenerLine {
            entity: entity(word)?,
            mask: StatusMask::ANY,
            room: None,
        }),
        _ => None,
    }
}
