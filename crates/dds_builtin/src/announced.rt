//! The keys of builtin topics, and what is written of an endpoint of ours.
//!
//! `specs/Keys.antt` says it.
//!
//! RTPS 2.5, 8.5.4 (the keys of SEDP) and 9.6 (ParticipantMessageData).

ghost use Rattle.std.specs.Prelude.{◌≡◌, IfOk, IfErr};
ghost use Rattle.dds_builtin.specs.Keys.{Writes, guid_of, key_of, message_key};

use crate::builtin::MAX_ANNOUNCEMENT;
use dds_base::{Code, EntityId, Guid, GuidPrefix, Key, Octets};
use rtps_announcements::{is_writable_endpoint, write_endpoint};
use rtps_matching::End;
use std::alloc::Global;

/// The key of an endpoint: the octets of its GUID.
///
/// RTPS 2.5, 8.5.4 (the keys of SEDP).
pub fn key_of(guid: &Guid) -> Key
    // They are its octets.
    ensures key { result ≡ key_of guid.now }
{
    // These show the prover how many octets the names have.
    let _prefix = guid.prefix.as_slice();
    let _entity = guid.entity.as_slice();
    let GuidPrefix([a, b, c, d, e, f, g, h, i, j, k, l]) = guid.prefix;
    let EntityId([m, n, o, p]) = guid.entity;
    Key([a, b, c, d, e, f, g, h, i, j, k, l, m, n, o, p])
}

/// The endpoint of a key.
///
/// RTPS 2.5, 8.5.4 (the keys of SEDP).
pub fn guid_of(key: &Key) -> Guid
    // Its octets are those of the key.
    ensures guid { result ≡ guid_of key.now }
{
    // This shows the prover how many octets a key has.
    let _octets = key.as_slice();
    let [a, b, c, d, e, f, g, h, i, j, k, l, m, n, o, p] = key.0;
    Guid {
        prefix: GuidPrefix([a, b, c, d, e, f, g, h, i, j, k, l]),
        entity: EntityId([m, n, o, p]),
    }
}

/// The key of a participant's message that it is alive, of the kind AUTOMATIC_LIVELINESS_UPDATE.
///
/// RTPS 2.5, 9.6 (ParticipantMessageData).
pub fn message_key(prefix: &GuidPrefix) -> Key
    // It is its prefix, and the kind.
    ensures key { result ≡ message_key prefix.now }
{
    // This shows the prover how many octets a prefix has.
    let _octets = prefix.as_slice();
    let GuidPrefix([a, b, c, d, e, f, g, h, i, j, k, l]) = *prefix;
    Key([a, b, c, d, e, f, g, h, i, j, k, l, 0, 0, 0, 1])
}

/// What is written of an endpoint of ours; `None` where it has no written form, or one of more than 4,096 octets.
///
/// # Errors
///
/// `Memory` where there is none.
///
/// RTPS 2.5, 8.5.4 (SEDP).
pub fn announcement(alloc: Global, end: &End) -> Result<Option<Octets>, Code>
    // It is its written form, where that is short enough.
    ensures written { IfOk result (Writes end.now) }
    // The only refusal is for want of memory.
    ensures memory { IfErr result (λ e. e ≡ Code.Memory) }
{
    let endpoint = end.endpoint.lend();
    if !is_writable_endpoint(end.kind, &endpoint) {
        return Ok(None);
    }
    let octets = write_endpoint(alloc, end.kind, &endpoint)?;
    if octets.len() > MAX_ANNOUNCEMENT as usize {
        return Ok(None);
    }
    Ok(Some(Octets::from_vec(octets)))
}
