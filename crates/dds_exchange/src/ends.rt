//! Endpoints of ours.
//!
//! RTPS 2.5, 8.2 (Endpoint).

ghost use Rattle.std.specs.Prelude.{◌≡◌, position, option_map};
ghost use Rattle.std.specs.Option.{option_copied};
ghost use Rattle.dds_exchange.specs.Naming.{end_at, end_number, guid_of, has_entity};

use crate::carried::Carried;
use dds_base::{EntityId, Guid, GuidPrefix};

/// A writer or a reader of ours: those of a kind are numbered from 1, as they stand in the configuration of our peer.
///
/// RTPS 2.5, 8.2 (Endpoint).
#[derive(Drop)]
pub struct OwnEnd {
    /// What it is called on the network: its kind says whether its topic has a key.
    pub entity: EntityId,
    /// What its topic carries.
    pub carried: Carried,
    /// How many octets a value has at most.
    pub max_value: u32,
}

/// Whether an endpoint is called so on the network.
fn has_entity(end: &OwnEnd, entity: EntityId) -> bool
    ensures { result ≡ has_entity entity end.now }
{
    end.entity == entity
}

/// The place of the endpoint that is called so on the network.
fn place_of(ends: &[OwnEnd], entity: EntityId) -> Option<usize>
    ensures { result ≡ position (has_entity entity) ends.now }
{
    ends.iter().position(|end| has_entity(end, entity))
}

/// The number of the endpoint that is called so on the network; `None` where there is none.
pub fn end_number(ends: &[OwnEnd], entity: EntityId) -> Option<u8>
    ensures number { result ≡ end_number entity ends.now }
{
    match place_of(ends, entity) {
        Some(place) => u8::try_from(place.saturating_add(1)).ok(),
        None => None,
    }
}

/// The one of this number; `None` where there is none.
pub fn end_at(ends: &[OwnEnd], number: u8) -> Option<&OwnEnd>
    ensures end { option_copied result ≡ end_at number ends.now }
{
    if number == 0 {
        return None;
    }
    ends.get(number as usize - 1)
}

/// What the one of this number is called on the network, behind what our GUIDs begin with; `None` where there is none.
pub fn guid_at(own: GuidPrefix, ends: &[OwnEnd], number: u8) -> Option<Guid>
    ensures guid { result ≡ option_map (guid_of own) (end_at number ends.now) }
{
    match end_at(ends, number) {
        Some(end) => Some(Guid {
            prefix: own,
            entity: end.entity,
        }),
        None => None,
    }
}
