//! A DATA up to its payload.
//!
//! `specs/Opened.antt` draws it.
//!
//! RTPS 2.5, 9.4.5 (Data) and 9.4.2 (ParameterList).

ghost use Rattle.std.specs.Prelude.{◌≡◌, ◌≤◌, ◌<◌, length, IfSome};
ghost use Rattle.std.specs.Option.{option_map};
ghost use Rattle.rtps_wire.specs.Fields.{has_flag, order_of};
ghost use Rattle.rtps_wire.specs.FieldAt.{entity_id_at};
ghost use Rattle.rtps_wire.specs.ParametersAt.{parameter_at};
ghost use Rattle.rtps_adapter.specs.Opened.{after_parameters, after_inline, payload_at};

use dds_base::{Endianness, EntityId, take_octets, take_u16};

/// E: numbers are little-endian.
pub const FLAG_ENDIANNESS: u8 = 0x01;

/// Q: parameters follow.
const FLAG_INLINE_QOS: u8 = 0x02;

/// N, NonStandardPayloadFlag: the payload is not one of those that a reader takes it for.
pub const FLAG_NON_STANDARD: u8 = 0x10;

/// Ends the parameters.
const PID_SENTINEL: u16 = 0x0001;

/// octetsToInlineQos where no octets are skipped.
const LEAST_OCTETS_TO_INLINE_QOS: u16 = 16;

/// Whether a flag is set.
pub fn has_flag(flags: u8, flag: u8) -> bool
    ensures { result ≡ has_flag flags flag }
{
    flags & flag == flag
}

/// The order of bytes that the flags name.
pub fn order_of(flags: u8) -> Endianness
    ensures { result ≡ order_of flags }
{
    if has_flag(flags, FLAG_ENDIANNESS) {
        Endianness::Little
    } else {
        Endianness::Big
    }
}

/// An entity id, and the bytes after it.
#[tactic(auto, unfolding(rtps_wire::specs::FieldAt::entity_id_at))]
pub fn take_entity_id(bytes: &[u8]) -> Option<(EntityId, &[u8])>
    ensures value { option_map (λ x. (x.0, x.1.now)) result ≡ entity_id_at bytes.now }
    ensures rest { IfSome result (λ x. length x.1.now ≤ length bytes.now) }
{
    let (octets, rest) = take_octets(bytes, 4)?;
    let mut id = [0; 4];
    id.copy_from_slice(octets);
    Some((EntityId(id), rest))
}

/// One parameter: its id and its value, which is empty for the sentinel, and the bytes after it.
#[tactic(auto, unfolding(rtps_wire::specs::ParametersAt::parameter_at))]
fn take_parameter(order: Endianness, bytes: &[u8]) -> Option<(u16, &[u8], &[u8])>
    ensures value { option_map (λ x. (x.0, x.1.now, x.2.now)) result
        ≡ parameter_at order bytes.now }
    ensures rest { IfSome result (λ x. length x.2.now < length bytes.now) }
{
    let (id, rest) = take_u16(order, bytes)?;
    let (len, rest) = take_u16(order, rest)?;
    let len = if id == PID_SENTINEL { 0 } else { len as usize };
    let (value, rest) = take_octets(rest, len)?;
    Some((id, value, rest))
}

/// What follows the parameters and their sentinel. `None` where there is no sentinel.
fn skip_parameters(order: Endianness, bytes: &[u8]) -> Option<&[u8]>
    ensures value { option_map (λ x. x.now) result ≡ after_parameters order bytes.now }
    ensures rest { IfSome result (λ x. length x.now ≤ length bytes.now) }
{
    let mut left = bytes;
    while let Some((id, _, rest)) = take_parameter(order, left) {
        if id == PID_SENTINEL {
            return Some(rest);
        }
        left = rest;
    }
    None
}

/// What follows the parameters, where there are some.
#[tactic(auto, unfolding(crate::specs::Opened::after_inline))]
fn skip_inline(flags: u8, bytes: &[u8]) -> Option<&[u8]>
    ensures value { option_map (λ x. x.now) result ≡ after_inline flags bytes.now }
    ensures rest { IfSome result (λ x. length x.now ≤ length bytes.now) }
{
    if has_flag(flags, FLAG_INLINE_QOS) {
        return skip_parameters(order_of(flags), bytes);
    }
    Some(bytes)
}

/// The writer that a DATA names, and its payload. `None` where it is cut, has no sentinel, or says that the payload
/// is of no standard form.
#[tactic(auto, unfolding(crate::specs::Opened::payload_at))]
pub fn payload_of(flags: u8, body: &[u8]) -> Option<(EntityId, &[u8])>
    ensures value { option_map (λ x. (x.0, x.1.now)) result ≡ payload_at flags body.now }
    ensures rest { IfSome result (λ x. length x.1.now ≤ length body.now) }
{
    if has_flag(flags, FLAG_NON_STANDARD) {
        return None;
    }
    let order = order_of(flags);
    let (_, rest) = take_u16(order, body)?;
    let (way, named) = take_u16(order, rest)?;
    let (_, rest) = take_entity_id(named)?;
    let (writer, _) = take_entity_id(rest)?;
    if way < LEAST_OCTETS_TO_INLINE_QOS {
        return None;
    }
    let (_, rest) = take_octets(named, way as usize)?;
    let payload = skip_inline(flags, rest)?;
    Some((writer, payload))
}
