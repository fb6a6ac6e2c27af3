//! GUIDs of a sender.
//!
//! RTPS 2.5, 8.2 (GUID_t) and 9.3 (its octets).

ghost use Rattle.std.specs.Prelude.{◌≡◌, None, IfSome};
ghost use Rattle.std.specs.Option.{option_map, option_or};
ghost use Rattle.dds_base.specs.declared.guid.Guid.{Guid as GuidOf};
ghost use Rattle.rtps_announcements.specs.Guids.{ReadsGuid};
ghost use Rattle.rtps_announcements.specs.ListAt.{value_in};
ghost use Rattle.rtps_announcements.specs.Names.{pid_participant_guid, pid_endpoint_guid};
ghost use Rattle.rtps_announcements.specs.ValueAt.{said, guid_at};

use crate::list::{first_value, has_parameters, take_representation};
use crate::names::{
    LEN_ENTITY_ID, LEN_PREFIX, PID_DOMAIN_TAG, PID_ENDPOINT_GUID, PID_PARTICIPANT_GUID,
};
use dds_base::{Endianness, EntityId, Guid, GuidPrefix, take_octets};

/// The GUID that the bytes begin with, where it is one of this sender.
#[tactic(auto, unfolding(crate::specs::ValueAt::guid_at, crate::specs::ValueAt::guid_of))]
fn guid_of(source: GuidPrefix, bytes: &[u8]) -> Option<Guid>
    ensures { result ≡ option_map (λ x. x.0) (guid_at source bytes.now) }
{
    let (prefix, rest) = take_octets(bytes, LEN_PREFIX)?;
    let (octets, _) = take_octets(rest, LEN_ENTITY_ID)?;
    let mut id = [0; LEN_ENTITY_ID];
    id.copy_from_slice(octets);
    if prefix != source.as_slice() {
        return None;
    }
    Some(Guid {
        prefix: source,
        entity: EntityId(id),
    })
}

/// The GUID that the first parameter of this id says, where it is one of this sender.
pub fn guid_in(source: GuidPrefix, order: Endianness, list: &[u8], id: u16) -> Option<Guid>
    ensures { result ≡ said None (guid_at source) (value_in order list.now id) }
{
    let value = first_value(order, list, id)?;
    let guid = guid_of(source, value)?;
    Some(guid)
}

/// The GUID that names what a list is about: of an endpoint, or where there is none that of a participant.
fn named_in(source: GuidPrefix, order: Endianness, list: &[u8]) -> Option<Guid>
    ensures { result ≡ said None (guid_at source) (option_or
        (value_in order list.now pid_endpoint_guid) (value_in order list.now pid_participant_guid)) }
{
    if first_value(order, list, PID_ENDPOINT_GUID).is_some() {
        return guid_in(source, order, list, PID_ENDPOINT_GUID);
    }
    guid_in(source, order, list, PID_PARTICIPANT_GUID)
}

/// Which participant or endpoint the payload of a DATA of SPDP or SEDP is about, also where it says no more than that:
/// as it does where that one leaves, and the DATA has a status. `None` where it is no list of parameters, a parameter
/// that must be understood is not known, or it names none of the participant with the prefix `source`, which sent it.
/// Takes no memory.
///
/// RTPS 2.5, 8.5 (the keys of SPDP and SEDP), 9.4.2 and 9.6.
pub fn read_guid(source: GuidPrefix, bytes: &[u8]) -> Option<Guid>
    // What is read is named so.
    ensures found { IfSome result (λ guid. ReadsGuid source bytes.now guid) }
    // What is named so is read, and nothing else.
    ensures only { (guid : GuidOf) → ReadsGuid source bytes.now guid → result ≡ Some guid }
{
    // This shows the prover how many octets a prefix has.
    let _octets = source.as_slice();
    let (order, list) = take_representation(bytes)?;
    if !has_parameters(order, &[PID_DOMAIN_TAG], list) {
        return None;
    }
    named_in(source, order, list)
}
