//! A participant, as its announcement says it.
//!
//! `specs/Participants.antt` is the grammar.
//!
//! RTPS 2.5, 8.5 (SPDP) and 9.6 (ParameterId values).

ghost use Rattle.std.specs.Prelude.{◌≡◌, ◌↔◌, [], Some, None, IfSome, IsTrue};
ghost use Rattle.std.specs.Int.{w32};
ghost use Rattle.dds_base.specs.Fields.{number_at};
ghost use Rattle.rtps_announcements.specs.ListAt.{value_in};
ghost use Rattle.rtps_announcements.specs.Names.{pid_participant_guid, pid_protocol_version, pid_vendor_id, pid_domain_id, pid_domain_tag};
ghost use Rattle.rtps_announcements.specs.Participants.{ReadsParticipant, vendor_unknown, protocol_major};
ghost use Rattle.rtps_announcements.specs.ParticipantAt.{ParticipantAt};
ghost use Rattle.rtps_announcements.specs.ValueAt.{said, octet_at, vendor_at, name_at, guid_at};
ghost use Rattle.rtps_announcements.specs.Values.{participant_guid};
ghost use Rattle.rtps_announcements.specs.declared.participant.Participant.{Participant as ParticipantOf};

use crate::guid::guid_in;
use crate::list::{first_value, has_parameters, take_representation};
use crate::locator::{Locators, locators_in, locators_or_in};
use crate::name::take_name;
use crate::names::{
    PID_BUILTIN_ENDPOINT_SET, PID_DEFAULT_UNICAST_LOCATOR, PID_DOMAIN_ID, PID_DOMAIN_TAG,
    PID_METATRAFFIC_UNICAST_LOCATOR, PID_PARTICIPANT_GUID, PID_PARTICIPANT_LEASE_DURATION,
    PID_PROTOCOL_VERSION, PID_VENDOR_ID,
};
use crate::policies::duration_in;
use dds_base::{Duration, Endianness, EntityId, Guid, GuidPrefix, take_octets, take_u32};

/// The entity id of a participant itself.
///
/// RTPS 2.5, 9.3 (ENTITYID_PARTICIPANT).
pub const PARTICIPANT: EntityId = EntityId([0x00, 0x00, 0x01, 0xc1]);

/// The major version of the protocol.
pub const MAJOR_VERSION: u8 = 2;

/// Which builtin endpoints a participant has that says none: those of SPDP and SEDP.
const DEFAULT_BUILTIN_ENDPOINTS: u32 = 0x3f;

/// The lease of a participant that says none: 100 seconds.
///
/// RTPS 2.5, 9.6 (PID_PARTICIPANT_LEASE_DURATION).
const DEFAULT_LEASE: Duration = Duration {
    seconds: 100,
    fraction: 0,
};

/// Who made a participant.
///
/// RTPS 2.5, 9.3 (VendorId_t).
#[derive(Clone, Copy, Debug)]
pub struct VendorId(pub [u8; 2]);

impl VendorId {
    /// VENDORID_UNKNOWN.
    pub const UNKNOWN: VendorId = VendorId([0; 2]);
}

/// A participant, as it announces itself.
///
/// RTPS 2.5, 8.5 (SPDPdiscoveredParticipantData).
#[derive(Debug, Drop)]
pub struct Participant {
    /// What its GUIDs begin with: the sender's.
    pub prefix: GuidPrefix,
    /// Who made it.
    pub vendor: VendorId,
    /// Which builtin endpoints it has, by bits.
    ///
    /// RTPS 2.5, 9.3.2 (BuiltinEndpointSet_t).
    pub builtin_endpoints: u32,
    /// How long it is taken to be there after it was last heard.
    pub lease: Duration,
    /// Where its builtin endpoints can be reached by UDP over IPv4: one locator at least.
    pub metatraffic: Locators,
    /// Where its endpoints can be reached: as its builtin endpoints, where it does not say it.
    pub default: Locators,
}

/// The number that the first parameter of this id says.
fn number_in(order: Endianness, list: &[u8], id: u16, default: u32) -> Option<u32>
    ensures { result ≡ said (Some default) (number_at order w32) (value_in order list.now id) }
{
    let Some(value) = first_value(order, list, id) else {
        return Some(default);
    };
    let (number, _) = take_u32(order, value)?;
    Some(number)
}

/// The major version of the protocol.
#[tactic(auto, unfolding(crate::specs::ValueAt::octet_at))]
fn major_version_in(order: Endianness, list: &[u8]) -> Option<u8>
    ensures { result ≡ said (Some protocol_major) octet_at
        (value_in order list.now pid_protocol_version) }
{
    match first_value(order, list, PID_PROTOCOL_VERSION) {
        None => Some(MAJOR_VERSION),
        Some([major, ..]) => Some(*major),
        Some([]) => None,
    }
}

/// The vendor.
#[tactic(auto, unfolding(crate::specs::ValueAt::vendor_at))]
fn vendor_in(order: Endianness, list: &[u8]) -> Option<VendorId>
    ensures { result ≡ said (Some vendor_unknown) vendor_at
        (value_in order list.now pid_vendor_id) }
{
    let Some(value) = first_value(order, list, PID_VENDOR_ID) else {
        return Some(VendorId::UNKNOWN);
    };
    let (octets, _) = take_octets(value, 2)?;
    let mut vendor = [0; 2];
    vendor.copy_from_slice(octets);
    Some(VendorId(vendor))
}

/// Whether the GUID is that of the participant that sent it.
fn is_participant(source: GuidPrefix, order: Endianness, list: &[u8]) -> bool
    ensures { IsTrue result ↔ (said None (guid_at source)
        (value_in order list.now pid_participant_guid) ≡ Some (participant_guid source)) }
{
    let Some(guid) = guid_in(source, order, list, PID_PARTICIPANT_GUID) else {
        return false;
    };
    let own = Guid {
        prefix: source,
        entity: PARTICIPANT,
    };
    guid == own
}

/// Whether the major version of the protocol is 2.
fn is_of_version(order: Endianness, list: &[u8]) -> bool
    ensures { IsTrue result ↔ (said (Some protocol_major) octet_at
        (value_in order list.now pid_protocol_version) ≡ Some protocol_major) }
{
    match major_version_in(order, list) {
        Some(major) => major == MAJOR_VERSION,
        None => false,
    }
}

/// Whether the domain is this one.
fn is_of_domain(domain: u32, order: Endianness, list: &[u8]) -> bool
    ensures { IsTrue result ↔ (said (Some domain) (number_at order w32)
        (value_in order list.now pid_domain_id) ≡ Some domain) }
{
    match number_in(order, list, PID_DOMAIN_ID, domain) {
        Some(number) => number == domain,
        None => false,
    }
}

/// Whether the domain has no tag, or an empty one.
fn is_untagged(order: Endianness, list: &[u8]) -> bool
    ensures { IsTrue result ↔ (said (Some []) (name_at order)
        (value_in order list.now pid_domain_tag) ≡ Some []) }
{
    let Some(value) = first_value(order, list, PID_DOMAIN_TAG) else {
        return true;
    };
    let Some((name, _)) = take_name(order, value) else {
        return false;
    };
    name.as_slice().is_empty()
}

/// The participant that a list of parameters announces.
fn participant_in(
    source: GuidPrefix,
    domain: u32,
    order: Endianness,
    list: &[u8],
) -> Option<Participant>
    ensures found { IfSome result (λ p. ParticipantAt source domain order list.now p) }
    ensures only { (p : ParticipantOf) → ParticipantAt source domain order list.now p
        → result ≡ Some p }
{
    if !is_participant(source, order, list) {
        return None;
    }
    if !is_of_version(order, list)
        || !is_of_domain(domain, order, list)
        || !is_untagged(order, list)
    {
        return None;
    }
    let vendor = vendor_in(order, list)?;
    let builtin_endpoints = number_in(
        order,
        list,
        PID_BUILTIN_ENDPOINT_SET,
        DEFAULT_BUILTIN_ENDPOINTS,
    )?;
    let lease = duration_in(order, list, PID_PARTICIPANT_LEASE_DURATION, DEFAULT_LEASE)?;
    let metatraffic = locators_in(order, list, PID_METATRAFFIC_UNICAST_LOCATOR);
    if metatraffic.as_slice().is_empty() {
        return None;
    }
    Some(Participant {
        prefix: source,
        vendor,
        builtin_endpoints,
        lease,
        metatraffic,
        default: locators_or_in(
            order,
            list,
            PID_DEFAULT_UNICAST_LOCATOR,
            PID_METATRAFFIC_UNICAST_LOCATOR,
        ),
    })
}

/// The participant that the payload of a DATA of SPDP announces, which the participant with the prefix `source` sent:
/// one of this domain, with a locator of UDP over IPv4. `None` where it announces none: where the bytes are no list of
/// parameters, a parameter that must be understood is not known, one that must be there is not, or one has a value that
/// there is not. Takes no memory.
///
/// Of a repeated parameter the first counts, but of locators the first four that are read. What follows the sentinel,
/// and in a value what follows its fields, is not looked at.
///
/// RTPS 2.5, 8.5 (SPDP), 9.4.2 and 9.6.
pub fn read_participant(source: GuidPrefix, domain: u32, bytes: &[u8]) -> Option<Participant>
    // What is read is announced so.
    ensures found { IfSome result (λ p. ReadsParticipant source domain bytes.now p) }
    // What is announced so is read, and nothing else.
    ensures only { (p : ParticipantOf) → ReadsParticipant source domain bytes.now p
        → result ≡ Some p }
{
    // This shows the prover how many octets a prefix has.
    let _octets = source.as_slice();
    let (order, list) = take_representation(bytes)?;
    if !has_parameters(order, &[PID_DOMAIN_TAG], list) {
        return None;
    }
    participant_in(source, domain, order, list)
}
