//! Announcements to bytes.
//!
//! `specs/WrittenEndpoints.antt` and `specs/WrittenParticipants.antt` have the one written form of each.
//!
//! RTPS 2.5, 8.5 (SPDP, SEDP), clause 10 (PL_CDR_LE), 9.6 (ParameterId values).

ghost use Rattle.std.specs.Prelude.{◌≡◌, ◌++◌, OnOk, IfOk, IfErr};
ghost use Rattle.std.specs.List.{flat_map};
ghost use Rattle.rtps_announcements.specs.Written.{row_text};
ghost use Rattle.rtps_announcements.specs.Values.{IsName};
ghost use Rattle.rtps_announcements.specs.WrittenEndpoints.{reliability_row, durability_row, liveliness_row, ownership_row, strength_row, deadline_row, latency_budget_row, destination_order_row, presentation_row, name_rows, is_default_presentation, is_infinite, is_no_time, leaves_out_strength, policy_rows, text_of_endpoint, IsWritableEndpoint};
ghost use Rattle.rtps_announcements.specs.WrittenParticipants.{vendor_row, own_rows, pid_of_guid, text_of_guid, text_of_participant, IsWritableParticipant};

use crate::endpoint::Endpoint;
use crate::names::{
    PID_BUILTIN_ENDPOINT_SET, PID_DEADLINE, PID_DEFAULT_UNICAST_LOCATOR, PID_DESTINATION_ORDER,
    PID_DOMAIN_ID, PID_DURABILITY, PID_ENDPOINT_GUID, PID_LATENCY_BUDGET, PID_LIVELINESS,
    PID_METATRAFFIC_UNICAST_LOCATOR, PID_OWNERSHIP, PID_OWNERSHIP_STRENGTH, PID_PARTICIPANT_GUID,
    PID_PARTICIPANT_LEASE_DURATION, PID_PRESENTATION, PID_PROTOCOL_VERSION, PID_RELIABILITY,
    PID_SENTINEL, PID_TOPIC_NAME, PID_TYPE_NAME, PID_UNICAST_LOCATOR, PID_VENDOR_ID,
};
use crate::participant::{MAJOR_VERSION, PARTICIPANT, Participant, VendorId};
use crate::put::{
    put_guid, put_locators, put_name, put_number, put_partitions, put_representations, put_time,
    put_unless, put_value,
};
use crate::qos::EndpointKind;
use dds_base::{
    Code, DestinationOrderQos, DurabilityQos, Duration, Guid, LivelinessQos, OwnershipQos,
    Policies, PresentationQos, ReliabilityQos, destination_order_code, durability_code,
    liveliness_code, ownership_code, reliability_code, scope_code,
};
use std::alloc::Global;

/// PL_CDR_LE, and no options.
const HEAD: [u8; 4] = [0, 3, 0, 0];

/// The minor version of the protocol that is written.
const MINOR_VERSION: u8 = 5;

/// Whether the time is DURATION_INFINITE.
fn is_infinite(time: Duration) -> bool
    ensures { result ≡ is_infinite time }
{
    time.seconds == Duration::INFINITE.seconds && time.fraction == Duration::INFINITE.fraction
}

/// Whether the time is DURATION_ZERO.
fn is_no_time(time: Duration) -> bool
    ensures { result ≡ is_no_time time }
{
    time.seconds == 0 && time.fraction == 0
}

/// Whether PRESENTATION is the default.
fn is_default_presentation(presentation: PresentationQos) -> bool
    ensures { result ≡ is_default_presentation presentation }
{
    scope_code(presentation.scope) == 0
        && !presentation.coherent_access
        && !presentation.ordered_access
}

/// Whether the strength is 0, and nobody needs to know it.
fn leaves_out_strength(kind: EndpointKind, policies: &Policies) -> bool
    ensures { result ≡ leaves_out_strength kind policies.now }
{
    let needs_strength = match (kind, policies.ownership) {
        (EndpointKind::Writer, OwnershipQos::Exclusive) => true,
        (EndpointKind::Writer, OwnershipQos::Shared) => false,
        (EndpointKind::Reader, _) => false,
    };
    policies.strength == 0 && !needs_strength
}

/// Appends RELIABILITY, with a max_blocking_time of zero.
#[tactic(auto, unfolding(crate::specs::Written::row_text))]
fn put_reliability(out: &mut Vec<u8>, reliability: ReliabilityQos) -> Result<(), Code>
    ensures ok { OnOk result
        (out.new.items ≡ out.old.items ++ row_text (reliability_row reliability)) }
    ensures memory { IfErr result (λ e. e ≡ Code.Memory) }
{
    let code = reliability_code(reliability);
    let words = [code.to_le_bytes(), [0; 4], [0; 4]];
    put_value(out, PID_RELIABILITY, words.as_flattened())
}

/// Appends DURABILITY.
fn put_durability(out: &mut Vec<u8>, durability: DurabilityQos) -> Result<(), Code>
    ensures ok { OnOk result
        (out.new.items ≡ out.old.items ++ row_text (durability_row durability)) }
    ensures memory { IfErr result (λ e. e ≡ Code.Memory) }
{
    put_number(out, PID_DURABILITY, durability_code(durability))
}

/// Appends LIVELINESS.
#[tactic(auto, unfolding(crate::specs::Written::row_text))]
fn put_liveliness(out: &mut Vec<u8>, liveliness: LivelinessQos) -> Result<(), Code>
    ensures ok { OnOk result
        (out.new.items ≡ out.old.items ++ row_text (liveliness_row liveliness)) }
    ensures memory { IfErr result (λ e. e ≡ Code.Memory) }
{
    let code = liveliness_code(liveliness.kind);
    let lease = liveliness.lease;
    let words = [
        code.to_le_bytes(),
        lease.seconds.to_le_bytes(),
        lease.fraction.to_le_bytes(),
    ];
    put_value(out, PID_LIVELINESS, words.as_flattened())
}

/// Appends OWNERSHIP.
fn put_ownership(out: &mut Vec<u8>, ownership: OwnershipQos) -> Result<(), Code>
    ensures ok { OnOk result
        (out.new.items ≡ out.old.items ++ row_text (ownership_row ownership)) }
    ensures memory { IfErr result (λ e. e ≡ Code.Memory) }
{
    put_number(out, PID_OWNERSHIP, ownership_code(ownership))
}

/// Appends OWNERSHIP_STRENGTH, where it is said.
fn put_strength(out: &mut Vec<u8>, kind: EndpointKind, policies: &Policies) -> Result<(), Code>
    ensures ok { OnOk result
        (out.new.items ≡ out.old.items ++ row_text (strength_row kind policies.now)) }
    ensures memory { IfErr result (λ e. e ≡ Code.Memory) }
{
    let octets = policies.strength.cast_unsigned().to_le_bytes();
    let is_left_out = leaves_out_strength(kind, policies);
    put_unless(out, is_left_out, PID_OWNERSHIP_STRENGTH, &octets)
}

/// Appends DEADLINE, where it is said.
fn put_deadline(out: &mut Vec<u8>, deadline: Duration) -> Result<(), Code>
    ensures ok { OnOk result
        (out.new.items ≡ out.old.items ++ row_text (deadline_row deadline)) }
    ensures memory { IfErr result (λ e. e ≡ Code.Memory) }
{
    put_time(out, is_infinite(deadline), PID_DEADLINE, deadline)
}

/// Appends LATENCY_BUDGET, where it is said.
fn put_latency_budget(out: &mut Vec<u8>, budget: Duration) -> Result<(), Code>
    ensures ok { OnOk result
        (out.new.items ≡ out.old.items ++ row_text (latency_budget_row budget)) }
    ensures memory { IfErr result (λ e. e ≡ Code.Memory) }
{
    put_time(out, is_no_time(budget), PID_LATENCY_BUDGET, budget)
}

/// Appends DESTINATION_ORDER, where it is said.
fn put_destination_order(out: &mut Vec<u8>, order: DestinationOrderQos) -> Result<(), Code>
    ensures ok { OnOk result
        (out.new.items ≡ out.old.items ++ row_text (destination_order_row order)) }
    ensures memory { IfErr result (λ e. e ≡ Code.Memory) }
{
    let code = destination_order_code(order);
    put_unless(out, code == 0, PID_DESTINATION_ORDER, &code.to_le_bytes())
}

/// Appends PRESENTATION, where it is said, and zeros up to a multiple of 4.
fn put_presentation(out: &mut Vec<u8>, presentation: PresentationQos) -> Result<(), Code>
    ensures ok { OnOk result
        (out.new.items ≡ out.old.items ++ row_text (presentation_row presentation)) }
    ensures memory { IfErr result (λ e. e ≡ Code.Memory) }
{
    let code = scope_code(presentation.scope);
    let coherent = u8::from(presentation.coherent_access);
    let ordered = u8::from(presentation.ordered_access);
    let words = [code.to_le_bytes(), [coherent, ordered, 0, 0]];
    let is_left_out = is_default_presentation(presentation);
    put_unless(out, is_left_out, PID_PRESENTATION, words.as_flattened())
}

/// Appends the policies.
fn put_policies(out: &mut Vec<u8>, kind: EndpointKind, policies: &Policies) -> Result<(), Code>
    ensures ok { OnOk result
        (out.new.items ≡ out.old.items ++ flat_map row_text (policy_rows kind policies.now)) }
    ensures memory { IfErr result (λ e. e ≡ Code.Memory) }
{
    put_reliability(out, policies.reliability)?;
    put_durability(out, policies.durability)?;
    put_liveliness(out, policies.liveliness)?;
    put_ownership(out, policies.ownership)?;
    put_strength(out, kind, policies)?;
    put_deadline(out, policies.deadline)?;
    put_latency_budget(out, policies.latency_budget)?;
    put_destination_order(out, policies.destination_order)?;
    put_presentation(out, policies.presentation)?;
    Ok(())
}

/// Appends the GUIDs of an endpoint, and the names of its topic and its type.
fn put_names(out: &mut Vec<u8>, endpoint: &Endpoint) -> Result<(), Code>
    requires topic_name { IsName endpoint.now.topic_name }
    requires type_name { IsName endpoint.now.type_name }
    ensures ok { OnOk result
        (out.new.items ≡ out.old.items ++ flat_map row_text (name_rows endpoint.now)) }
    ensures memory { IfErr result (λ e. e ≡ Code.Memory) }
{
    let participant = Guid {
        prefix: endpoint.guid.prefix,
        entity: PARTICIPANT,
    };
    put_guid(out, PID_ENDPOINT_GUID, &endpoint.guid)?;
    put_guid(out, PID_PARTICIPANT_GUID, &participant)?;
    put_name(out, PID_TOPIC_NAME, &endpoint.topic_name)?;
    put_name(out, PID_TYPE_NAME, &endpoint.type_name)?;
    Ok(())
}

/// The one written form of an endpoint, which `read_endpoint` reads as that endpoint: the payload of a DATA of SEDP, in
/// little-endian.
///
/// # Errors
///
/// `Memory` where no memory was found for the bytes.
///
/// RTPS 2.5, 8.5 (SEDP) and 9.6.
pub fn write_endpoint(
    alloc: Global,
    kind: EndpointKind,
    endpoint: &Endpoint,
) -> Result<Vec<u8>, Code>
    // It has a written form.
    requires writable { IsWritableEndpoint kind endpoint.now }
    // The bytes are that form.
    ensures ok { IfOk result (λ bytes. bytes.items ≡ text_of_endpoint kind endpoint.now) }
    // The only refusal is for want of memory.
    ensures memory { IfErr result (λ e. e ≡ Code.Memory) }
{
    let mut out = Vec::new(alloc);
    out.extend_from_slice(&HEAD)?;
    put_names(&mut out, endpoint)?;
    put_policies(&mut out, kind, &endpoint.policies)?;
    put_partitions(alloc, &mut out, &endpoint.partitions)?;
    put_representations(&mut out, &endpoint.representations)?;
    put_locators(&mut out, PID_UNICAST_LOCATOR, &endpoint.locators)?;
    put_value(&mut out, PID_SENTINEL, &[])?;
    Ok(out)
}

/// Appends a vendor.
#[tactic(auto, unfolding(crate::specs::Written::row_text))]
fn put_vendor(out: &mut Vec<u8>, vendor: VendorId) -> Result<(), Code>
    ensures ok { OnOk result
        (out.new.items ≡ out.old.items ++ row_text (vendor_row vendor)) }
    ensures memory { IfErr result (λ e. e ≡ Code.Memory) }
{
    let [first, second] = vendor.0;
    put_value(out, PID_VENDOR_ID, &[first, second, 0, 0])
}

/// Appends what a participant says of itself but for its locators.
fn put_participant(out: &mut Vec<u8>, domain: u32, participant: &Participant) -> Result<(), Code>
    ensures ok { OnOk result
        (out.new.items ≡ out.old.items ++ flat_map row_text (own_rows domain participant.now)) }
    ensures memory { IfErr result (λ e. e ≡ Code.Memory) }
{
    let guid = Guid {
        prefix: participant.prefix,
        entity: PARTICIPANT,
    };
    put_guid(out, PID_PARTICIPANT_GUID, &guid)?;
    put_value(
        out,
        PID_PROTOCOL_VERSION,
        &[MAJOR_VERSION, MINOR_VERSION, 0, 0],
    )?;
    put_vendor(out, participant.vendor)?;
    put_number(out, PID_DOMAIN_ID, domain)?;
    put_number(out, PID_BUILTIN_ENDPOINT_SET, participant.builtin_endpoints)?;
    put_time(
        out,
        false,
        PID_PARTICIPANT_LEASE_DURATION,
        participant.lease,
    )?;
    Ok(())
}

/// The one written form of a participant of this domain, which `read_participant` reads as that participant: the payload
/// of a DATA of SPDP, in little-endian.
///
/// # Errors
///
/// `Memory` where no memory was found for the bytes.
///
/// RTPS 2.5, 8.5 (SPDP) and 9.6.
pub fn write_participant(
    alloc: Global,
    domain: u32,
    participant: &Participant,
) -> Result<Vec<u8>, Code>
    // It has a written form.
    requires writable { IsWritableParticipant participant.now }
    // The bytes are that form.
    ensures ok { IfOk result (λ bytes. bytes.items ≡ text_of_participant domain participant.now) }
    // The only refusal is for want of memory.
    ensures memory { IfErr result (λ e. e ≡ Code.Memory) }
{
    let mut out = Vec::new(alloc);
    out.extend_from_slice(&HEAD)?;
    put_participant(&mut out, domain, participant)?;
    put_locators(
        &mut out,
        PID_METATRAFFIC_UNICAST_LOCATOR,
        &participant.metatraffic,
    )?;
    put_locators(&mut out, PID_DEFAULT_UNICAST_LOCATOR, &participant.default)?;
    put_value(&mut out, PID_SENTINEL, &[])?;
    Ok(out)
}

/// The id that says which participant, or which endpoint, a list is about.
fn pid_of_guid(guid: &Guid) -> u16
    ensures { result ≡ pid_of_guid guid.now }
{
    if guid.entity.as_slice() == PARTICIPANT.as_slice() {
        return PID_PARTICIPANT_GUID;
    }
    PID_ENDPOINT_GUID
}

/// The one written form of who leaves, which `read_guid` reads as that GUID: the payload of a DATA of SPDP where it is a
/// participant, of one of SEDP where it is an endpoint, in little-endian.
///
/// # Errors
///
/// `Memory` where no memory was found for the bytes.
///
/// RTPS 2.5, 8.5 (the keys of SPDP and SEDP) and 9.6.
pub fn write_guid(alloc: Global, guid: &Guid) -> Result<Vec<u8>, Code>
    // The bytes are that form.
    ensures ok { IfOk result (λ bytes. bytes.items ≡ text_of_guid guid.now) }
    // The only refusal is for want of memory.
    ensures memory { IfErr result (λ e. e ≡ Code.Memory) }
{
    let mut out = Vec::new(alloc);
    out.extend_from_slice(&HEAD)?;
    put_guid(&mut out, pid_of_guid(guid), guid)?;
    put_value(&mut out, PID_SENTINEL, &[])?;
    Ok(out)
}
