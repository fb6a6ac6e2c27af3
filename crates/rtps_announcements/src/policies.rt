//! The policies of an endpoint, as its announcement says them.
//!
//! `specs/Endpoints.antt` has what says each, and its default.
//!
//! DDS 1.4, 2.2.3 (supported QoS); RTPS 2.5, 9.6 (ParameterId values).

ghost use Rattle.std.specs.Prelude.{◌≡◌, Some, pos, IfSome};
ghost use Rattle.std.specs.Option.{option_map};
ghost use Rattle.std.specs.Int.{w32};
ghost use Rattle.dds_base.specs.Fields.{number_at};
ghost use Rattle.dds_base.specs.declared.qos.OwnershipQos.TheVariants.{Shared};
ghost use Rattle.dds_base.specs.Policies.{default_presentation};
ghost use Rattle.dds_base.specs.declared.policies.Policies.{Policies as PoliciesOf};
ghost use Rattle.dds_base.specs.declared.policies.DestinationOrderQos.TheVariants.{ByReceptionTimestamp};
ghost use Rattle.dds_base.specs.declared.policies.DurabilityQos.TheVariants.{Volatile};
ghost use Rattle.rtps_wire.specs.FieldAt.{count_at};
ghost use Rattle.rtps_announcements.specs.Endpoints.{default_liveliness};
ghost use Rattle.rtps_announcements.specs.EndpointAt.{PoliciesAt};
ghost use Rattle.rtps_announcements.specs.ListAt.{value_in};
ghost use Rattle.rtps_announcements.specs.Names.{pid_reliability, pid_durability, pid_liveliness, pid_ownership, pid_ownership_strength, pid_deadline, pid_latency_budget, pid_destination_order, pid_presentation};
ghost use Rattle.rtps_announcements.specs.ValueAt.{said, partly, reliability_of, durability_of, ownership_of, liveliness_of, destination_order_of, scope_of, duration_at, liveliness_at, flag_at, presentation_at};
ghost use Rattle.rtps_announcements.specs.Values.{default_reliability};

use crate::list::first_value;
use crate::names::{
    PID_DEADLINE, PID_DESTINATION_ORDER, PID_DURABILITY, PID_LATENCY_BUDGET, PID_LIVELINESS,
    PID_OWNERSHIP, PID_OWNERSHIP_STRENGTH, PID_PRESENTATION, PID_RELIABILITY, SECONDS_END,
};
use crate::qos::{
    EndpointKind, destination_order_of, durability_of, liveliness_of, ownership_of, reliability_of,
    scope_of,
};
use dds_base::{
    DestinationOrderQos, DurabilityQos, Duration, Endianness, LivelinessKind, LivelinessQos,
    OwnershipQos, Policies, PresentationQos, ReliabilityQos, take_u32,
};

/// A duration, and the bytes after it.
#[tactic(auto, unfolding(crate::specs::ValueAt::duration_at, crate::specs::ValueAt::duration_of))]
fn take_duration(order: Endianness, bytes: &[u8]) -> Option<(Duration, &[u8])>
    ensures { option_map (λ x. (x.0, x.1.now)) result ≡ duration_at order bytes.now }
{
    let (seconds, rest) = take_u32(order, bytes)?;
    let (fraction, rest) = take_u32(order, rest)?;
    if seconds < SECONDS_END {
        return Some((Duration { seconds, fraction }, rest));
    }
    None
}

/// A boolean, and the bytes after it.
#[tactic(auto, unfolding(crate::specs::ValueAt::flag_at))]
fn take_flag(bytes: &[u8]) -> Option<(bool, &[u8])>
    ensures { option_map (λ x. (x.0, x.1.now)) result ≡ flag_at bytes.now }
{
    match bytes {
        [0, rest @ ..] => Some((false, rest)),
        [1, rest @ ..] => Some((true, rest)),
        _ => None,
    }
}

/// The LIVELINESS that the bytes begin with, and the bytes after it.
#[tactic(auto, unfolding(crate::specs::ValueAt::liveliness_at))]
fn take_liveliness(order: Endianness, bytes: &[u8]) -> Option<(LivelinessQos, &[u8])>
    ensures { option_map (λ x. (x.0, x.1.now)) result ≡ liveliness_at order bytes.now }
{
    let (code, rest) = take_u32(order, bytes)?;
    let kind = liveliness_of(code)?;
    let (lease, rest) = take_duration(order, rest)?;
    Some((LivelinessQos { kind, lease }, rest))
}

/// The PRESENTATION that the bytes begin with, and the bytes after it.
#[tactic(auto, unfolding(crate::specs::ValueAt::presentation_at))]
fn take_presentation(order: Endianness, bytes: &[u8]) -> Option<(PresentationQos, &[u8])>
    ensures { option_map (λ x. (x.0, x.1.now)) result ≡ presentation_at order bytes.now }
{
    let (code, rest) = take_u32(order, bytes)?;
    let scope = scope_of(code)?;
    let (coherent_access, rest) = take_flag(rest)?;
    let (ordered_access, rest) = take_flag(rest)?;
    let presentation = PresentationQos {
        scope,
        coherent_access,
        ordered_access,
    };
    Some((presentation, rest))
}

/// The strength that the bytes begin with, and the bytes after it.
#[tactic(auto, unfolding(rtps_wire::specs::FieldAt::count_at))]
fn take_strength(order: Endianness, bytes: &[u8]) -> Option<(i32, &[u8])>
    ensures { option_map (λ x. (x.0, x.1.now)) result ≡ count_at order bytes.now }
{
    let (number, rest) = take_u32(order, bytes)?;
    Some((number.cast_signed(), rest))
}

fn reliability_in(kind: EndpointKind, order: Endianness, list: &[u8]) -> Option<ReliabilityQos>
    ensures { result ≡ said (Some (default_reliability kind))
        (partly reliability_of (number_at order w32)) (value_in order list.now pid_reliability) }
{
    let Some(value) = first_value(order, list, PID_RELIABILITY) else {
        return Some(kind.default_reliability());
    };
    let (code, _) = take_u32(order, value)?;
    let reliability = reliability_of(code)?;
    Some(reliability)
}

fn durability_in(order: Endianness, list: &[u8]) -> Option<DurabilityQos>
    ensures { result ≡ said (Some Volatile)
        (partly durability_of (number_at order w32)) (value_in order list.now pid_durability) }
{
    let Some(value) = first_value(order, list, PID_DURABILITY) else {
        return Some(DurabilityQos::Volatile);
    };
    let (code, _) = take_u32(order, value)?;
    let durability = durability_of(code)?;
    Some(durability)
}

fn liveliness_in(order: Endianness, list: &[u8]) -> Option<LivelinessQos>
    ensures { result ≡ said (Some default_liveliness) (liveliness_at order)
        (value_in order list.now pid_liveliness) }
{
    let Some(value) = first_value(order, list, PID_LIVELINESS) else {
        return Some(LivelinessQos {
            kind: LivelinessKind::Automatic,
            lease: Duration::INFINITE,
        });
    };
    let (liveliness, _) = take_liveliness(order, value)?;
    Some(liveliness)
}

fn ownership_in(order: Endianness, list: &[u8]) -> Option<OwnershipQos>
    ensures { result ≡ said (Some Shared)
        (partly ownership_of (number_at order w32)) (value_in order list.now pid_ownership) }
{
    let Some(value) = first_value(order, list, PID_OWNERSHIP) else {
        return Some(OwnershipQos::Shared);
    };
    let (code, _) = take_u32(order, value)?;
    let ownership = ownership_of(code)?;
    Some(ownership)
}

fn strength_in(order: Endianness, list: &[u8]) -> Option<i32>
    ensures { result ≡ said (Some (pos 0)) (count_at order)
        (value_in order list.now pid_ownership_strength) }
{
    let Some(value) = first_value(order, list, PID_OWNERSHIP_STRENGTH) else {
        return Some(0);
    };
    let (strength, _) = take_strength(order, value)?;
    Some(strength)
}

/// The duration that the first parameter of this id says.
pub fn duration_in(order: Endianness, list: &[u8], id: u16, default: Duration) -> Option<Duration>
    ensures { result ≡ said (Some default) (duration_at order) (value_in order list.now id) }
{
    let Some(value) = first_value(order, list, id) else {
        return Some(default);
    };
    let (duration, _) = take_duration(order, value)?;
    Some(duration)
}

fn destination_order_in(order: Endianness, list: &[u8]) -> Option<DestinationOrderQos>
    ensures { result ≡ said (Some ByReceptionTimestamp)
        (partly destination_order_of (number_at order w32))
        (value_in order list.now pid_destination_order) }
{
    let Some(value) = first_value(order, list, PID_DESTINATION_ORDER) else {
        return Some(DestinationOrderQos::ByReceptionTimestamp);
    };
    let (code, _) = take_u32(order, value)?;
    let destination_order = destination_order_of(code)?;
    Some(destination_order)
}

fn presentation_in(order: Endianness, list: &[u8]) -> Option<PresentationQos>
    ensures { result ≡ said (Some default_presentation) (presentation_at order)
        (value_in order list.now pid_presentation) }
{
    let Some(value) = first_value(order, list, PID_PRESENTATION) else {
        return Some(PresentationQos::DEFAULT);
    };
    let (presentation, _) = take_presentation(order, value)?;
    Some(presentation)
}

/// The policies that the parameters say. `None` where one of them has a value that there is not.
pub fn policies_in(kind: EndpointKind, order: Endianness, list: &[u8]) -> Option<Policies>
    ensures found { IfSome result (λ p. PoliciesAt kind order list.now p) }
    ensures only { (p : PoliciesOf) → PoliciesAt kind order list.now p → result ≡ Some p }
{
    let reliability = reliability_in(kind, order, list)?;
    let durability = durability_in(order, list)?;
    let liveliness = liveliness_in(order, list)?;
    let ownership = ownership_in(order, list)?;
    let strength = strength_in(order, list)?;
    let deadline = duration_in(order, list, PID_DEADLINE, Duration::INFINITE)?;
    let latency_budget = duration_in(order, list, PID_LATENCY_BUDGET, Duration::ZERO)?;
    let destination_order = destination_order_in(order, list)?;
    let presentation = presentation_in(order, list)?;
    Some(Policies {
        reliability,
        durability,
        liveliness,
        ownership,
        strength,
        deadline,
        latency_budget,
        destination_order,
        presentation,
    })
}
