//! The kinds of entities, which stand otherwise on the network than a peer reads them.
//!
//! `specs/Kinds.antt` says it.
//!
//! RTPS 2.5, 9.3.1 (entity kinds: 0xc2 and 0xc7 are a builtin writer and reader with a key, 0x02 and 0x07 those of users),
//! 9.4.5 (AckNack, Data, Gap, Heartbeat).

ghost use Rattle.std.specs.Prelude.{◌≡◌, ◌+◌, ◌++◌, ◌≤◌, ◌<◌, length, slice_set, IfOk, IfErr, OnOk};
ghost use Rattle.dds_builtin.specs.Kinds.{Kinds, WithKinds, WithTheirKinds, entity_at, ids_at, turned_kind, with_kinds_at};
ghost use Rattle.dds_builtin.specs.Turned.{PutsTurned};

use dds_base::{Code, EntityId, Octets};
use rtps_wire::{begin_message, next_frame};
use std::alloc::Global;

/// ACKNACK.
const ID_ACKNACK: u8 = 0x06;

/// HEARTBEAT.
const ID_HEARTBEAT: u8 = 0x07;

/// GAP.
const ID_GAP: u8 = 0x08;

/// DATA.
const ID_DATA: u8 = 0x15;

/// Which kinds the reader and the writer have that a submessage names, by its id and by what they are called there.
///
/// RTPS 2.5, 9.3.1 (entity kinds).
pub trait EntityKinds {
    ghost use Rattle.std.specs.Prelude.{◌≡◌, ℕ};
    ghost use Rattle.dds_base.specs.declared.guid.EntityId.{EntityId};

    /// That of the reader.
    ghost of_reader: { Self → ℕ → EntityId → ℕ };

    /// That of the writer.
    ghost of_writer: { Self → ℕ → EntityId → ℕ };

    /// The kind of the reader of a submessage.
    fn reader_kind(&self, id: u8, reader: EntityId) -> u8
        ensures kind { result ≡ of_reader self.now id reader };

    /// The kind of the writer of a submessage.
    fn writer_kind(&self, id: u8, writer: EntityId) -> u8
        ensures kind { result ≡ of_writer self.now id writer };
}

/// The kind of a builtin entity for that of a user's, and the other way round; every other kind stays.
fn turned_kind(kind: u8) -> u8
    ensures { result ≡ turned_kind kind }
{
    match kind {
        0x02 => 0xc2,
        0xc2 => 0x02,
        0x07 => 0xc7,
        0xc7 => 0x07,
        other => other,
    }
}

/// Builtin entities stand for those of users, and the other way round.
#[derive(Clone, Copy)]
struct Builtin;

impl EntityKinds for Builtin {
    ghost use Rattle.dds_builtin.specs.Kinds.{kind_turned};

    ghost of_reader = { λ _. kind_turned };

    ghost of_writer = { λ _. kind_turned };

    fn reader_kind(&self, _: u8, reader: EntityId) -> u8 {
        turned_kind(reader.kind())
    }

    fn writer_kind(&self, _: u8, writer: EntityId) -> u8 {
        turned_kind(writer.kind())
    }
}

/// Where in a submessage the ids of a reader and of a writer stand, one behind the other; `None` of others.
fn ids_at(id: u8) -> Option<usize>
    ensures { result ≡ ids_at id }
{
    match id {
        ID_ACKNACK | ID_HEARTBEAT | ID_GAP => Some(4),
        ID_DATA => Some(8),
        _ => None,
    }
}

/// The entity id at a place.
fn entity_at(octets: &[u8], place: usize) -> EntityId
    requires within { place + 4 ≤ length octets.now }
    ensures { result ≡ entity_at place octets.now }
{
    let mut id = [0; 4];
    id.copy_from_slice(&octets[place..place + 4]);
    EntityId(id)
}

/// Gives the reader and the writer of a submessage their kinds.
fn turn_ids<K: EntityKinds>(kinds: &K, id: u8, octets: &mut [u8])
    ensures { octets.new
        ≡ with_kinds_at (K.of_reader kinds.now) (K.of_writer kinds.now) id (ids_at id) octets.old }
{
    if let Some(at) = ids_at(id)
        && at < octets.len()
        && octets.len() - at >= 8
    {
        let reader = kinds.reader_kind(id, entity_at(octets, at));
        let writer = kinds.writer_kind(id, entity_at(octets, at + 4));
        octets[at + 3] = reader;
        octets[at + 7] = writer;
    }
}

/// Appends a submessage of these octets, whose reader and writer get their kinds.
fn put_submessage<K: EntityKinds>(
    alloc: Global,
    kinds: &K,
    out: &mut Vec<u8>,
    id: u8,
    octets: &[u8],
) -> Result<(), Code>
    ensures ok { OnOk result (out.new.items ≡ out.old.items
        ++ with_kinds_at (K.of_reader kinds.now) (K.of_writer kinds.now) id (ids_at id) octets.now) }
    ensures memory { IfErr result (λ e. e ≡ Code.Memory) }
{
    let mut turned = Vec::from_slice(alloc, octets)?;
    turn_ids(kinds, id, &mut turned);
    out.extend_from_slice(&turned)?;
    Ok(())
}

/// Appends the submessages of a body, whose readers and writers get their kinds, and what is not read behind them.
fn put_all<K: EntityKinds>(
    alloc: Global,
    kinds: &K,
    out: &mut Vec<u8>,
    body: &[u8],
) -> Result<(), Code>
    ensures ok { OnOk result
        (PutsTurned (K.of_reader kinds.now) (K.of_writer kinds.now) body.now out.old.items out.new.items) }
    ensures memory { IfErr result (λ e. e ≡ Code.Memory) }
{
    let mut left = body;
    while let Some((frame, rest)) = next_frame(left) {
        let octets = &left[..left.len() - rest.len()];
        put_submessage(alloc, kinds, out, frame.id, octets)?;
        left = rest;
    }
    out.extend_from_slice(left)?;
    Ok(())
}

/// A datagram whose readers and writers get their kinds.
///
/// # Errors
///
/// `Memory` where there is none.
///
/// RTPS 2.5, 9.3.1 and 9.4.5.
pub fn with_kinds_of<K: EntityKinds>(alloc: Global, kinds: &K, bytes: &[u8]) -> Result<Octets, Code>
    // Each has its kind, and all else is as it was.
    ensures turned { IfOk result
        (WithTheirKinds (K.of_reader kinds.now) (K.of_writer kinds.now) bytes.now) }
    // The only refusal is for want of memory.
    ensures memory { IfErr result (λ e. e ≡ Code.Memory) }
{
    let mut out = Vec::new(alloc);
    let Some((_, body)) = begin_message(bytes) else {
        out.extend_from_slice(bytes)?;
        return Ok(Octets::from_vec(out));
    };
    out.extend_from_slice(&bytes[..bytes.len() - body.len()])?;
    put_all(alloc, kinds, &mut out, body)?;
    Ok(Octets::from_vec(out))
}

/// A datagram, with the kinds of the readers and writers that its submessages name turned: a builtin one for a user's, and
/// the other way round. So no entity of a user is taken for a builtin one.
///
/// # Errors
///
/// `Memory` where there is none.
///
/// RTPS 2.5, 9.3.1 and 9.4.5.
pub fn with_kinds(alloc: Global, bytes: &[u8]) -> Result<Octets, Code>
    ensures turned { IfOk result (WithKinds bytes.now) }
    ensures memory { IfErr result (λ e. e ≡ Code.Memory) }
{
    with_kinds_of(alloc, &Builtin, bytes)
}
