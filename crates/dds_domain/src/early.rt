//! HEARTBEATs that come before their writer is matched: a writer says one as it is matched, and the next one seconds later.
//!
//! RTPS 2.5, 8.4.9 (behaviour of a StatefulWriter), 9.4.5 (Heartbeat).

ghost use Rattle.std.specs.Prelude.{◌≡◌, [], slice_get, OnOk, OnErr};
ghost use Rattle.std.specs.Option.{option_map};
ghost use Rattle.dds_domain.specs.Earliness.{without, kept};

use dds_base::{EntityId, Guid, Octets, take_octets};
use rtps_wire::{begin_message, next_frame};
use std::alloc::{AllocError, Global};
use std::marker::Model;

/// HEARTBEAT.
const ID_HEARTBEAT: u8 = 0x07;

/// How many datagrams wait at most: the oldest goes.
pub const MOST_EARLY: usize = 16;

/// A datagram that waits.
#[derive(Drop)]
pub struct Waiting {
    /// For the match of this writer.
    pub writer: Guid,
    /// Its octets.
    pub bytes: Octets,
}

/// Datagrams that wait for the match of a writer.
#[derive(Drop)]
pub struct Early {
    waiting: Vec<Waiting>,
}

impl Model for Early {
    ghost use Rattle.std.specs.Prelude.{List};
    ghost use Rattle.dds_domain.specs.declared.early.Waiting.{Waiting};

    ghost Value = { List Waiting };

    ghost view = { λ e. e.waiting.items };
}

/// The writer of a HEARTBEAT's body.
fn writer_in(body: &[u8]) -> Option<EntityId> {
    let (_, rest) = take_octets(body, 4)?;
    let (octets, _) = take_octets(rest, 4)?;
    let mut entity = [0; 4];
    entity.copy_from_slice(octets);
    Some(EntityId(entity))
}

/// Whether it is a writer of a user, with a key or without.
///
/// RTPS 2.5, 9.3.1.2 (entityKind).
fn is_user_writer(entity: EntityId) -> bool {
    matches!(entity.0[3], 0x02 | 0x03)
}

/// The writer of the last HEARTBEAT of a user's writer in a datagram.
pub fn heartbeat_of(bytes: &[u8]) -> Option<Guid> {
    let (prefix, mut left) = begin_message(bytes)?;
    let mut found = None;
    for _ in 0..bytes.len() {
        let Some((frame, rest)) = next_frame(left) else {
            break;
        };
        if frame.id == ID_HEARTBEAT
            && let Some(entity) = writer_in(frame.body)
            && is_user_writer(entity)
        {
            found = Some(entity);
        }
        left = rest;
    }
    let entity = found?;
    Some(Guid { prefix, entity })
}

impl Early {
    /// None.
    pub fn new(alloc: Global) -> Early
        ensures none { result ≡ [] }
    {
        Early {
            waiting: Vec::new(alloc),
        }
    }

    /// Those that wait, in the order in which they came.
    pub fn waiting(&self) -> &[Waiting]
        ensures waiting { result.now ≡ self.now }
    {
        let waiting = self.waiting.as_slice();
        waiting
    }

    /// A datagram waits for the match of a writer: where 16 wait the oldest goes.
    pub fn keep(&mut self, alloc: Global, writer: Guid, bytes: &[u8]) -> Result<(), AllocError>
        ensures kept { OnOk result (self.new ≡ kept writer bytes.now self.old) }
        ensures err { OnErr result (self.new ≡ self.old) }
    {
        let bytes = Octets::from_vec(Vec::from_slice(alloc, bytes)?);
        self.waiting.push(Waiting { writer, bytes })?;
        if self.waiting.len() > MOST_EARLY {
            let _ = self.waiting.remove(0);
        }
        Ok(())
    }

    /// The datagram at this place, which waits no more.
    pub fn take(&mut self, place: usize) -> Option<Octets>
        ensures taken { result ≡ option_map (λ (w : Waiting). w.bytes) (slice_get self.old place) }
        ensures others { self.new ≡ without place self.old }
    {
        if place >= self.waiting.len() {
            return None;
        }
        let Waiting { bytes, .. } = self.waiting.remove(place);
        Some(bytes)
    }
}
