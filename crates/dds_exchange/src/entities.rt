//! What entities are called at our peer, and on the network: there the kind says whether the topic has a key.
//!
//! RTPS 2.5, 9.3.1 (entity kinds: 0x02 and 0x07 are a user's writer and reader with a key, 0x03 and 0x04 without one).

ghost use Rattle.std.specs.Prelude.{◌≡◌, find};
ghost use Rattle.std.specs.Option.{option_copied};
ghost use Rattle.dds_exchange.specs.Entities.{far_kind, is_of, is_own, keyed, keyed_kind, own_kind};

use crate::ends::OwnEnd;
use crate::naming::NamedEnd;
use dds_base::{EntityId, GuidPrefix};
use dds_builtin::EntityKinds;

/// ACKNACK, in which the reader speaks.
const ID_ACKNACK: u8 = 0x06;

/// The kind with a key for one without, as a peer has it; every other kind stays.
pub fn keyed_kind(kind: u8) -> u8
    ensures kind { result ≡ keyed_kind kind }
{
    match kind {
        0x03 => 0x02,
        0x04 => 0x07,
        other => other,
    }
}

/// What an entity is called at our peer.
pub fn keyed(entity: EntityId) -> EntityId
    ensures keyed { result ≡ keyed entity }
{
    let EntityId([first, second, third, kind]) = entity;
    EntityId([first, second, third, keyed_kind(kind)])
}

/// From the network to our peer.
#[derive(Clone, Copy)]
pub struct ToPeer;

impl EntityKinds for ToPeer {
    ghost use Rattle.dds_exchange.specs.Entities.{kind_at_peer};

    ghost of_reader = { λ _. kind_at_peer };

    ghost of_writer = { λ _. kind_at_peer };

    fn reader_kind(&self, _: u8, reader: EntityId) -> u8 {
        keyed_kind(reader.kind())
    }

    fn writer_kind(&self, _: u8, writer: EntityId) -> u8 {
        keyed_kind(writer.kind())
    }
}

/// Whether an endpoint of ours is called so at our peer.
fn is_own(end: &OwnEnd, entity: EntityId) -> bool
    ensures { result ≡ is_own entity end.now }
{
    keyed(end.entity) == entity
}

/// Whether an endpoint is of this participant, and called so at our peer.
fn is_of(end: &NamedEnd, prefix: &GuidPrefix, entity: EntityId) -> bool
    ensures { result ≡ is_of prefix.now entity end.now }
{
    end.guid.prefix == *prefix && keyed(end.guid.entity) == entity
}

/// The endpoint of ours that is called so at our peer.
fn own_end(ends: &[OwnEnd], entity: EntityId) -> Option<&OwnEnd>
    ensures { option_copied result ≡ find (is_own entity) ends.now }
{
    ends.iter().find(|end| is_own(end, entity))
}

/// The endpoint of this participant that is called so at our peer.
fn far_end<'a>(named: &'a [NamedEnd], prefix: &GuidPrefix, entity: EntityId) -> Option<&'a NamedEnd>
    ensures { option_copied result ≡ find (is_of prefix.now entity) named.now }
{
    named.iter().find(|end| is_of(end, prefix, entity))
}

/// The kind on the network of an endpoint of ours that is called so at our peer; the same where there is none.
fn own_kind(ends: &[OwnEnd], entity: EntityId) -> u8
    ensures { result ≡ own_kind ends.now entity }
{
    match own_end(ends, entity) {
        Some(end) => end.entity.kind(),
        None => entity.kind(),
    }
}

/// The kind on the network of an endpoint of this participant, likewise.
fn far_kind(named: &[NamedEnd], prefix: &GuidPrefix, entity: EntityId) -> u8
    ensures { result ≡ far_kind named.now prefix.now entity }
{
    match far_end(named, prefix, entity) {
        Some(end) => end.guid.entity.kind(),
        None => entity.kind(),
    }
}

/// From our peer to a participant.
#[derive(Clone, Copy)]
pub struct ToNetwork<'a> {
    /// Writers of ours.
    pub writers: &'a [OwnEnd],
    /// Readers of ours.
    pub readers: &'a [OwnEnd],
    /// Those of others.
    pub named: &'a [NamedEnd],
    /// The participant.
    pub to: GuidPrefix,
}

impl<'a> EntityKinds for ToNetwork<'a> {
    ghost use Rattle.dds_exchange.specs.Entities.{reader_kind, writer_kind};

    ghost of_reader = { λ t. reader_kind t.readers.now t.named.now t.to };

    ghost of_writer = { λ t. writer_kind t.writers.now t.named.now t.to };

    fn reader_kind(&self, id: u8, reader: EntityId) -> u8 {
        if id == ID_ACKNACK {
            own_kind(self.readers, reader)
        } else {
            far_kind(self.named, &self.to, reader)
        }
    }

    fn writer_kind(&self, id: u8, writer: EntityId) -> u8 {
        if id == ID_ACKNACK {
            far_kind(self.named, &self.to, writer)
        } else {
            own_kind(self.writers, writer)
        }
    }
}
