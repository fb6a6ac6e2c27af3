//! What a message says of its sender by SPDP.
//!
//! `specs/Spdp.antt` says it.
//!
//! RTPS 2.5, 8.5.3 (SPDP), 8.3.4 (the message receiver) and 9.4.5 (Data, InfoDestination).

ghost use Rattle.std.specs.Prelude.{◌≡◌, ◌&&◌, is_some, IfSome, Some};
ghost use Rattle.std.specs.Option.{option_map};
ghost use Rattle.rtps_wire.specs.Fields.{has_flag, order_of};
ghost use Rattle.rtps_wire.specs.FieldAt.{entity_id_at};
ghost use Rattle.rtps_discovery.specs.declared.spdp.Said.{Said};
ghost use Rattle.rtps_discovery.specs.Spdp.{head_at, has_status, content_at, spdp_at, IsSaid, for_us_after, SaysFirst};

use dds_base::{Endianness, EntityId, GuidPrefix, take_octets, take_u16};
use rtps_announcements::{Participant, first_value, read_participant};
use rtps_wire::{Frame, Submessage, next_frame, skip_parameters};

/// ENTITYID_SPDP_BUILTIN_PARTICIPANT_WRITER.
pub const SPDP_WRITER: EntityId = EntityId([0, 1, 0, 0xc2]);

/// ENTITYID_SPDP_BUILTIN_PARTICIPANT_READER.
pub const SPDP_READER: EntityId = EntityId([0, 1, 0, 0xc7]);

/// DATA.
pub const ID_DATA: u8 = 0x15;

/// E: numbers are little-endian.
pub const FLAG_ENDIANNESS: u8 = 0x01;

/// Q: parameters follow.
pub const FLAG_INLINE_QOS: u8 = 0x02;

/// PID_STATUS_INFO.
pub const PID_STATUS_INFO: u16 = 0x0071;

/// octetsToInlineQos where no octets are skipped.
const LEAST_OCTETS_TO_INLINE_QOS: u16 = 16;

/// What a participant says by SPDP.
///
/// RTPS 2.5, 8.5.3.
#[derive(Drop)]
pub enum Said {
    /// That it is there, and this.
    Announces(Participant),
    /// That it leaves.
    Leaves,
}

/// Whether a flag is set.
fn has_flag(flags: u8, flag: u8) -> bool
    ensures { result ≡ has_flag flags flag }
{
    flags & flag == flag
}

/// The order of bytes that the flags name.
fn order_of(flags: u8) -> Endianness
    ensures { result ≡ order_of flags }
{
    if has_flag(flags, FLAG_ENDIANNESS) {
        Endianness::Little
    } else {
        Endianness::Big
    }
}

/// An entity id, and the bytes after it.
#[tactic(auto, unfolding(rtps_wire::specs::FieldAt::entity_id_at))]
fn take_entity_id(bytes: &[u8]) -> Option<(EntityId, &[u8])>
    ensures { option_map (λ x. (x.0, x.1.now)) result ≡ entity_id_at bytes.now }
{
    let (octets, rest) = take_octets(bytes, 4)?;
    let mut id = [0; 4];
    id.copy_from_slice(octets);
    Some((EntityId(id), rest))
}

/// The writer of a DATA, and what follows its head.
#[tactic(auto, unfolding(crate::specs::Spdp::head_at))]
fn take_head(order: Endianness, body: &[u8]) -> Option<(EntityId, &[u8])>
    ensures { option_map (λ x. (x.0, x.1.now)) result ≡ head_at order body.now }
{
    let (_, rest) = take_u16(order, body)?;
    let (way, named) = take_u16(order, rest)?;
    let (_, rest) = take_entity_id(named)?;
    let (writer, _) = take_entity_id(rest)?;
    if way < LEAST_OCTETS_TO_INLINE_QOS {
        return None;
    }
    let (_, rest) = take_octets(named, way as usize)?;
    Some((writer, rest))
}

/// Whether parameters say that the instance is disposed of or unregistered.
fn has_status(order: Endianness, parameters: &[u8]) -> bool
    ensures { result ≡ has_status order parameters.now }
{
    match first_value(order, parameters, PID_STATUS_INFO) {
        Some([_, _, _, last, ..]) => *last % 4 != 0,
        _ => false,
    }
}

/// Whether a DATA says the end of its instance, and its payload.
#[tactic(auto, unfolding(crate::specs::Spdp::content_at))]
fn take_content(flags: u8, rest: &[u8]) -> Option<(bool, &[u8])>
    ensures { option_map (λ x. (x.0, x.1.now)) result ≡ content_at flags rest.now }
{
    if !has_flag(flags, FLAG_INLINE_QOS) {
        return Some((false, rest));
    }
    let order = order_of(flags);
    let payload = skip_parameters(order, rest)?;
    Some((has_status(order, rest), payload))
}

/// Whether a DATA of the SPDP writer says the end of its instance, and its payload.
#[tactic(auto, unfolding(crate::specs::Spdp::spdp_at))]
fn take_spdp(flags: u8, body: &[u8]) -> Option<(bool, &[u8])>
    ensures { option_map (λ x. (x.0, x.1.now)) result ≡ spdp_at flags body.now }
{
    let (writer, rest) = take_head(order_of(flags), body)?;
    if writer != SPDP_WRITER {
        return None;
    }
    take_content(flags, rest)
}

/// What a submessage says by SPDP.
fn said_by(source: GuidPrefix, domain: u32, frame: &Frame) -> Option<Said>
    ensures found { IfSome result
        (λ s. IsSaid source domain frame.now.id frame.now.flags frame.now.body.now s) }
    ensures only { (s : Said) → IsSaid source domain frame.now.id frame.now.flags frame.now.body.now s
        → result ≡ Some s }
{
    if frame.id != ID_DATA {
        return None;
    }
    let (has_ended, payload) = take_spdp(frame.flags, frame.body)?;
    if has_ended {
        return Some(Said::Leaves);
    }
    let participant = read_participant(source, domain, payload)?;
    Some(Said::Announces(participant))
}

/// Whether something is said, and to us.
fn is_told(for_us: bool, said: &Option<Said>) -> bool
    ensures { result ≡ (for_us && is_some said.now) }
{
    for_us && said.is_some()
}

/// Whether what follows a submessage is for us.
fn for_us_after(own: &GuidPrefix, for_us: bool, submessage: &Submessage) -> bool
    ensures { result ≡ for_us_after own.now for_us submessage.now }
{
    match submessage {
        Submessage::InfoDst(prefix) => *prefix == *own || *prefix == GuidPrefix::UNKNOWN,
        _ => for_us,
    }
}

/// What the first submessage that is for us and says something by SPDP says.
pub fn first_said(own: &GuidPrefix, source: GuidPrefix, domain: u32, body: &[u8]) -> Option<Said>
    ensures { SaysFirst own.now source domain body.now result }
{
    let mut left = body;
    let mut for_us = true;
    while let Some((frame, rest)) = next_frame(left) {
        let submessage = frame.submessage();
        let said = said_by(source, domain, &frame);
        if is_told(for_us, &said) {
            return said;
        }
        for_us = for_us_after(own, for_us, &submessage);
        left = rest;
    }
    None
}
