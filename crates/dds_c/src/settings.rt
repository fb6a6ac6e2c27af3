//! What a participant announces, in structs.
//!
//! DDS 1.4, 2.2.3 (supported QoS); RTPS 2.5, 8.5 (discovery).

ghost use Rattle.std.specs.Prelude.{◌≡◌, ◌≤◌, ◌+◌, ◌⊎◌, ◌∷◌, ◌==◌, [], IfOk, IfErr, IfSome, IfNone, IsTrue, IsFalse, map, position};
ghost use Rattle.dds_base.specs.declared.code.Code.TheVariants.{BadParameter, Memory};
ghost use Rattle.dds_exchange.specs.Tables.{said_by};
ghost use Rattle.dds_c.specs.Adapting.{field_of};
ghost use Rattle.dds_c.specs.Announcing.{AreEnds, AreSettings, HasNoEnd, IsEnd, IsNoEnd, cut, endpoint_of, entity_of, has_no_field, kind_of, lease_of, locator_of, name_in, participant_of, policies_of, representation_of, row_of, said_in};

use crate::adapting::{FlatKeyField, FlatKind, fields_at, has_no_field, is_kind, key_fields};
use crate::config::{max_value, ownership, reliability};
use dds_base::{
    Code, DestinationOrderQos, DurabilityQos, Duration, EntityId, Guid, GuidPrefix, LivelinessKind,
    LivelinessQos, Policies, PresentationQos,
};
use dds_discovery::BUILTIN_ENDPOINTS;
use dds_domain::OurEnd;
use dds_exchange::Carried;
use rtps_adapter::{Encoding, KeyField};
use rtps_announcements::{
    Endpoint, EndpointKind, Locator, Locators, Name, Participant, Partitions, Representations,
    VendorId, is_writable_endpoint,
};
use rtps_discovery::{Limits, Settings};
use rtps_matching::{End, Owned};
use std::alloc::{AllocError, Global};

/// How long a participant is taken to be there where it does not say it: eight seconds.
const USUAL_LEASE: Duration = Duration {
    seconds: 8,
    fraction: 0,
};

/// What the topics of endpoints carry has numbers below this.
const CARRIED_END: u8 = 4;

/// A second.
const SECOND: u64 = 0x1_0000_0000;

/// How many other participants are known, in all and at one address.
const LIMITS: Limits = Limits {
    of_all: 64,
    of_one_address: 64,
};

/// An address of IPv4 and a port of UDP.
///
/// RTPS 2.5, 9.3.2 (Locator_t).
#[repr(C)]
#[derive(Clone, Copy)]
pub struct FlatLocator {
    pub address: [u8; 4],
    pub port: u16,
}

/// What a participant announces of itself.
///
/// RTPS 2.5, 8.5.3 (SPDP).
#[repr(C)]
#[derive(Clone, Copy)]
pub struct FlatSettings {
    /// Of its GUIDs: no other participant has it.
    pub prefix: [u8; 12],
    /// Where it is reached: no group's, and not nobody's.
    pub address: [u8; 4],
    /// Its port there, not 0.
    pub port: u16,
    /// Its domain.
    pub domain: u32,
    /// How long it is taken to be there after it was last heard, in units of 2^-32 second, below 2^63; 0 says eight seconds.
    pub lease: u64,
}

/// A writer or a reader of a participant.
///
/// DDS 1.4, 2.2.3 (supported QoS); RTPS 2.5, 8.5.4 (SEDP).
#[repr(C)]
#[derive(Clone, Copy)]
pub struct FlatEndpoint {
    /// The name of its topic, which ends before the first octet that is zero, or with the last one.
    pub topic_name: [u8; 256],
    /// The name of its topic's type, likewise.
    pub type_name: [u8; 256],
    /// 1 a writer, 2 a reader.
    pub kind: u8,
    /// What its topic carries: 0 the datum, 1 a type without a key, 2 one with key fields in CDR, 3 one with key fields in
    /// CDR2.
    pub carries: u8,
    /// Whether its ownership is exclusive; else it is shared.
    pub is_exclusive: bool,
    /// Whether it is best-effort; else it is reliable.
    pub is_best_effort: bool,
    /// Of the writers of an exclusive instance the strongest owns it.
    pub strength: i32,
    /// How many fields stand before its own, where `carries` is 2 or 3.
    pub first_field: u32,
    /// How many fields it has, at least one, where `carries` is 2 or 3.
    pub field_count: u32,
    /// How many octets a value has at most, to 65,000; 0 says 1,024.
    pub max_value: u32,
}

fn locator_of(flat: &FlatLocator) -> Locator
    ensures { result ≡ locator_of flat.now }
{
    Locator {
        address: flat.address,
        port: flat.port,
    }
}

fn one_locator(locator: Locator) -> Locators
    ensures { result ≡ locator ∷ [] }
{
    let mut locators = Locators::new();
    let _ = locators.push(locator);
    locators
}

/// A time in units of 2^-32 second, as it is announced; the usual lease where it is 0.
fn lease_of(units: u64) -> Duration
    ensures { result ≡ lease_of units }
{
    if units == 0 {
        return USUAL_LEASE;
    }
    Duration {
        seconds: (units / SECOND) as u32,
        fraction: (units % SECOND) as u32,
    }
}

fn participant_of(flat: &FlatSettings) -> Participant
    ensures { result ≡ participant_of flat.now }
{
    let locator = Locator {
        address: flat.address,
        port: flat.port,
    };
    Participant {
        prefix: GuidPrefix(flat.prefix),
        vendor: VendorId::UNKNOWN,
        builtin_endpoints: BUILTIN_ENDPOINTS,
        lease: lease_of(flat.lease),
        metatraffic: one_locator(locator),
        default: one_locator(locator),
    }
}

/// The settings of a participant that tells these addresses of itself.
pub fn settings_of(
    alloc: Global,
    flat: &FlatSettings,
    told: &[FlatLocator],
) -> Result<Settings, AllocError>
    ensures { IfOk result (AreSettings flat.now told.now) }
{
    let mut addresses = Vec::new(alloc);
    for one in told {
        addresses.push(locator_of(one))?;
    }
    Ok(Settings {
        participant: participant_of(flat),
        domain: flat.domain,
        addresses,
        limits: LIMITS,
    })
}

/// Where the first octet stands that is zero.
fn zero_in(octets: &[u8]) -> Option<usize>
    ensures { result ≡ position (λ o. o == 0) octets.now }
{
    octets.iter().position(|octet| *octet == 0)
}

/// What stands before a place, or all.
fn cut(octets: &[u8], at: Option<usize>) -> &[u8]
    ensures { result.now ≡ cut at octets.now }
{
    match at {
        Some(len) => {
            let len = len.min(octets.len());
            &octets[..len]
        }
        None => octets,
    }
}

/// The octets of a name before the first that is zero.
fn name_in(octets: &[u8]) -> &[u8]
    ensures { result.now ≡ name_in octets.now }
{
    cut(octets, zero_in(octets))
}

/// A writer or a reader.
pub(crate) fn kind_of(kind: u8) -> Option<EndpointKind>
    ensures { result ≡ kind_of kind }
{
    match kind {
        1 => Some(EndpointKind::Writer),
        2 => Some(EndpointKind::Reader),
        _ => None,
    }
}

/// The entity id of a writer or a reader of this number, whose topic has a key or none.
fn entity_of(kind: EndpointKind, number: u8, has_key: bool) -> EntityId
    ensures { result ≡ entity_of kind number has_key }
{
    let kind = match (kind, has_key) {
        (EndpointKind::Writer, true) => 0x02,
        (EndpointKind::Writer, false) => 0x03,
        (EndpointKind::Reader, true) => 0x07,
        (EndpointKind::Reader, false) => 0x04,
    };
    EntityId([0, 0, number, kind])
}

/// What it offers or asks for.
fn policies_of(flat: &FlatEndpoint) -> Policies
    ensures { result ≡ policies_of flat.now }
{
    Policies {
        reliability: reliability(flat.is_best_effort),
        durability: DurabilityQos::Volatile,
        liveliness: LivelinessQos {
            kind: LivelinessKind::Automatic,
            lease: Duration::INFINITE,
        },
        ownership: ownership(flat.is_exclusive),
        strength: flat.strength,
        deadline: Duration::INFINITE,
        latency_budget: Duration::ZERO,
        destination_order: DestinationOrderQos::ByReceptionTimestamp,
        presentation: PresentationQos::DEFAULT,
    }
}

/// How its values stand in octets.
fn representations_of(flat: &FlatEndpoint) -> Representations
    ensures { result ≡ representation_of flat.now.carries ∷ [] }
{
    let mut representations = Representations::new();
    let _ = representations.push(match flat.carries {
        3 => Representations::XCDR2,
        _ => Representations::XCDR1,
    });
    representations
}

/// The row of a table that says what its topic carries.
fn row_of(guid: &Guid, flat: &FlatEndpoint) -> FlatKind
    ensures { result ≡ row_of guid.now flat.now }
{
    FlatKind {
        prefix: guid.prefix.0,
        entity: guid.entity.0,
        kind: flat.carries,
        first_field: flat.first_field,
        field_count: flat.field_count,
        max_value: flat.max_value,
    }
}

/// What its topic carries, by a row of a kind below 4.
fn carried_of(alloc: Global, fields: &[KeyField], row: &FlatKind) -> Result<Carried, AllocError>
    ensures { IfOk result (λ carried. said_by carried ≡ said_in fields.now row.now) }
{
    let encoding = match row.kind {
        0 => return Ok(Carried::Datum),
        1 => return Ok(Carried::Keyless),
        2 => Encoding::Cdr,
        _ => Encoding::Cdr2,
    };
    let own = Vec::from_slice(alloc, fields_at(fields, row))?;
    Ok(Carried::Keyed(encoding, own))
}

/// What is announced of it.
fn announced(guid: Guid, flat: &FlatEndpoint) -> Endpoint<'_>
    ensures { result ≡ endpoint_of guid flat.now }
{
    Endpoint {
        guid,
        topic_name: Name::new(name_in(flat.topic_name.as_slice())),
        type_name: Name::new(name_in(flat.type_name.as_slice())),
        locators: Locators::new(),
        partitions: Partitions::new(),
        representations: representations_of(flat),
        policies: policies_of(flat),
    }
}

/// The writer or the reader of this number.
///
/// # Errors
///
/// `BadParameter` where it is none, or what is announced of it has no written form; `Memory`.
fn our_end(
    alloc: Global,
    prefix: &[u8; 12],
    number: u8,
    flat: &FlatEndpoint,
    fields: &[KeyField],
) -> Result<OurEnd, Code>
    ensures end { IfOk result (IsEnd prefix.now fields.now number flat.now) }
    ensures refused { IfErr result (λ code. (code ≡ Memory)
        ⊎ ((code ≡ BadParameter) × IsNoEnd prefix.now fields.now number flat.now)) }
{
    let Some(kind) = kind_of(flat.kind) else {
        return Err(Code::BadParameter);
    };
    if flat.carries >= CARRIED_END {
        return Err(Code::BadParameter);
    }
    let prefix = GuidPrefix(*prefix);
    let entity = entity_of(kind, number, flat.carries != 1);
    let guid = Guid { prefix, entity };
    let row = row_of(&guid, flat);
    let endpoint = announced(guid, flat);
    if !is_kind(fields.len(), &row) {
        return Err(Code::BadParameter);
    }
    if !is_writable_endpoint(kind, &endpoint) {
        return Err(Code::BadParameter);
    }
    let carried = carried_of(alloc, fields, &row)?;
    let endpoint = Owned::of(alloc, &endpoint)?;
    Ok(OurEnd {
        end: End { kind, endpoint },
        carried: Some(carried),
        max_value: max_value(flat.max_value),
    })
}

/// The number behind so many; `None` where there are 255.
fn number_behind(count: usize) -> Option<u8>
    ensures number { IfSome result (λ number. number ≡ count + 1) }
    ensures full { IfNone result (255 ≤ count) }
{
    u8::try_from(count.saturating_add(1)).ok()
}

/// The writers and readers, numbered in their order.
///
/// # Errors
///
/// `BadParameter` where there are more than 255, a field is none, or as `our_end` has it; `Memory`.
pub fn our_ends(
    alloc: Global,
    prefix: &[u8; 12],
    ends: &[FlatEndpoint],
    fields: &[FlatKeyField],
) -> Result<Vec<OurEnd>, Code>
    ensures ends { IfOk result (λ ours. AreEnds prefix.now (map field_of fields.now) ends.now ours.items) }
    ensures fields { IfOk result (λ _. IsFalse (has_no_field fields.now)) }
    ensures refused { IfErr result (λ code. (code ≡ Memory) ⊎ ((code ≡ BadParameter)
        × (IsTrue (has_no_field fields.now)
        ⊎ HasNoEnd prefix.now (map field_of fields.now) ends.now))) }
{
    if has_no_field(fields) {
        return Err(Code::BadParameter);
    }
    let all = key_fields(alloc, fields)?;
    let mut ours = Vec::new(alloc);
    for flat in ends {
        let Some(number) = number_behind(ours.len()) else {
            return Err(Code::BadParameter);
        };
        match our_end(alloc, prefix, number, flat, &all) {
            Ok(end) => ours.push(end)?,
            Err(code) => return Err(code),
        }
    }
    Ok(ours)
}
