//! What the calls of a script name: writers, readers, instances, masks, entities and conditions.

use crate::number::{decimal_u8, decimal_u32};
use bitflags::Flags;
use dds_base::{
    Endpoint, Entity, Handle, InstanceStateMask, Masks, SampleStateMask, ViewStateMask,
};
use dds_conditions::Cond;
use dds_notices::StatusMask;

/// The number of a writer, as `w2`.
pub fn writer_number(word: &str) -> Option<u8> {
    decimal_u8(word.strip_prefix('w')?)
}

/// The number of a reader, as `r2`.
pub fn reader_number(word: &str) -> Option<u8> {
    decimal_u8(word.strip_prefix('r')?)
}

/// A writer with its peer, as `1.w2`.
pub fn writer_end(word: &str) -> Option<Endpoint> {
    let (peer, number) = word.split_once('.')?;
    Some(Endpoint {
        peer: decimal_u32(peer)?,
        number: writer_number(number)?,
    })
}

/// A reader with its peer, as `1.r2`.
pub fn reader_end(word: &str) -> Option<Endpoint> {
    let (peer, number) = word.split_once('.')?;
    Some(Endpoint {
        peer: decimal_u32(peer)?,
        number: reader_number(number)?,
    })
}

/// A mask: a number, or `any`.
pub fn mask(word: &str) -> Option<u32> {
    match word {
        "any" => Some(0xffff),
        _ => decimal_u32(word),
    }
}

/// Masks of sample, view and instance states.
pub fn masks(samples: &str, views: &str, instances: &str) -> Option<Masks> {
    Some(Masks {
        samples: SampleStateMask::from_bits_retain(mask(samples)?),
        views: ViewStateMask::from_bits_retain(mask(views)?),
        instances: InstanceStateMask::from_bits_retain(mask(instances)?),
    })
}

/// A mask of statuses.
pub fn status_mask(word: &str) -> Option<StatusMask> {
    Some(StatusMask::from_bits_retain(mask(word)?))
}

/// The handle of an instance.
pub fn handle(word: &str) -> Option<Handle> {
    Some(Handle::new(u64::from(decimal_u32(word)?)))
}

/// The participant, a writer or a reader, as `p`, `w2` and `r2`.
pub fn entity(word: &str) -> Option<Entity> {
    if word == "p" {
        return Some(Entity::Participant);
    }
    match writer_number(word) {
        Some(number) => Some(Entity::Writer(number)),
        None => Some(Entity::Reader(reader_number(word)?)),
    }
}

/// A condition: the number of one that was made, or the status condition of an entity, as `s:r2`.
pub fn condition(word: &str) -> Option<Cond> {
    match word.strip_prefix("s:") {
        Some(entity_word) => Some(Cond::Status(entity(entity_word)?)),
        None => Some(Cond::Made(decimal_u32(word)?)),
    }
}
