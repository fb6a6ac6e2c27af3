//! Numbers that a peer could not read, and GAPs for them.
//!
//! RTPS 2.5, 9.4.5 (Data, DataFrag and Gap).

ghost use Rattle.std.specs.Prelude.{◌≡◌, ◌≤◌, ◌<◌, ◌^◌, ◌++◌, length, IfSome, IfErr, OnOk};
ghost use Rattle.std.specs.Option.{option_map, option_map_or};
ghost use Rattle.dds_base.specs.declared.endianness.Endianness.TheVariants.{Little};
ghost use Rattle.rtps_wire.specs.Fields.{sn_text};
ghost use Rattle.rtps_wire.specs.FieldAt.{sn_at};
ghost use Rattle.rtps_wire.specs.Gap.{text_of_gap};
ghost use Rattle.rtps_adapter.specs.Turning.{Payload, foreign_payload, turned_payload};
ghost use Rattle.rtps_adapter.specs.declared.direction.Direction.TheVariants.{Inward};
ghost use Rattle.rtps_adapter.specs.PayloadText.{new_text};
ghost use Rattle.rtps_adapter.specs.Filling.{named_at, is_unread, is_lost, shows_payload, gap_of, lost};

use crate::change::{FLAG_DATA, FLAG_KEY, ID_DATA, foreign_payload, turned_payload};
use crate::data::{FLAG_NON_STANDARD, has_flag, order_of, take_entity_id};
use crate::direction::Direction;
use crate::kinds::{WriterKind, is_named, kind_of, most_of, rule_of};
use crate::payload::{NewPayload, payload_len};
use dds_base::{Code, Endianness, EntityId, GuidPrefix, take_octets, take_u32};
use rtps_wire::{Frame, MAX_SN};

/// DATA_FRAG, as its id says.
const ID_DATA_FRAG: u8 = 0x16;

/// GAP, as its id says.
pub const ID_GAP: u8 = 0x08;

/// The body of a GAP without a list: readerId, writerId, gapStart, and a list of base and number of bits.
pub const LEN_GAP: usize = 28;

/// The head of a DATA_FRAG.
const LEN_DATA_FRAG_HEAD: usize = 32;

/// What stands in a datum before its value: representation, options, key and length.
const LEN_DATUM_HEAD: usize = 24;

/// A sequence number has a high half and a low half of 32 bits.
const HALF_RANGE: u64 = 1 << 32;

/// What a DATA and a DATA_FRAG name.
#[derive(Clone, Copy)]
pub struct Named {
    /// The reader that it is for.
    pub reader: EntityId,
    /// The writer that speaks.
    pub writer: EntityId,
    /// The number, from 1 to 2^62 - 1.
    pub sn: u64,
}

/// A sequence number, and the bytes after it. `None` where it is above 2^62.
#[tactic(auto, unfolding(rtps_wire::specs::FieldAt::sn_at))]
fn take_sn(order: Endianness, bytes: &[u8]) -> Option<(u64, &[u8])>
    ensures value { option_map (λ x. (x.0, x.1.now)) result ≡ sn_at order bytes.now }
    ensures small { IfSome result (λ x. x.0 ≤ MAX_SN) }
{
    let (high, rest) = take_u32(order, bytes)?;
    let (low, rest) = take_u32(order, rest)?;
    let sn = high as u64 * HALF_RANGE + low as u64;
    if MAX_SN < sn {
        return None;
    }
    Some((sn, rest))
}

/// What a DATA and a DATA_FRAG name. `None` where the head is cut, or the number is none of those that a GAP can have.
#[tactic(auto, unfolding(crate::specs::Filling::named_at))]
fn named_in(flags: u8, body: &[u8]) -> Option<Named>
    ensures value { option_map (λ x. (x.reader, x.writer, x.sn)) result
        ≡ named_at flags body.now }
    ensures small { IfSome result (λ x. x.sn < MAX_SN) }
{
    let (_, from) = take_octets(body, 4)?;
    let (reader, from) = take_entity_id(from)?;
    let (writer, from) = take_entity_id(from)?;
    let (sn, _) = take_sn(order_of(flags), from)?;
    if sn < 1 || MAX_SN < sn + 1 {
        return None;
    }
    Some(Named { reader, writer, sn })
}

/// Whether no peer reads what a payload turns into, where values have at most so many octets.
fn is_unread(most: u32, payload: &Option<NewPayload>) -> bool
    ensures { result ≡ is_unread most (option_map new_text payload.now) }
{
    match payload {
        Some(payload) => LEN_DATUM_HEAD + (most as usize) < payload_len(payload),
        None => true,
    }
}

/// Whether a peer could not read a DATA of another type than the datum.
fn is_unread_data(kinds: &[WriterKind], source: &GuidPrefix, most: u32, frame: &Frame) -> bool
    ensures { result ≡ option_map_or (λ (x : Payload). is_unread most (turned_payload Inward x))
        (foreign_payload kinds.now source.now frame.now.id frame.now.flags frame.now.body.now)
        (shows_payload frame.now.flags) }
{
    match foreign_payload(kinds, source, frame) {
        Some(found) => is_unread(most, &turned_payload(Direction::Inward, &found)),
        None => {
            has_flag(frame.flags, FLAG_DATA)
                || has_flag(frame.flags, FLAG_KEY)
                || has_flag(frame.flags, FLAG_NON_STANDARD)
        }
    }
}

/// Whether a peer could not read the number that a submessage of this writer names.
fn is_lost(kinds: &[WriterKind], source: &GuidPrefix, writer: &EntityId, frame: &Frame) -> bool
    ensures { result ≡ is_lost kinds.now source.now writer.now frame.now.id frame.now.flags
        frame.now.body.now }
{
    if frame.id == ID_DATA {
        return rule_of(kind_of(kinds, source, writer)).is_some()
            && is_unread_data(kinds, source, most_of(kinds, source, writer), frame);
    }
    frame.id == ID_DATA_FRAG
        && is_named(kinds, source, writer)
        && LEN_DATA_FRAG_HEAD <= frame.body.len()
}

/// What a submessage names, where a peer could not read its number.
#[tactic(auto, unfolding(crate::specs::Filling::lost))]
pub fn lost_number(kinds: &[WriterKind], source: &GuidPrefix, frame: &Frame) -> Option<Named>
    ensures value { option_map (λ x. gap_of x.reader x.writer x.sn) result
        ≡ lost kinds.now source.now frame.now.id frame.now.flags frame.now.body.now }
    ensures small { IfSome result (λ x. x.sn < MAX_SN) }
{
    let named = named_in(frame.flags, frame.body)?;
    if is_lost(kinds, source, &named.writer, frame) {
        Some(named)
    } else {
        None
    }
}

/// Appends a sequence number, little-endian.
fn put_sn(out: &mut Vec<u8>, sn: u64) -> Result<(), Code>
    ensures ok { OnOk result (out.new.items ≡ out.old.items ++ sn_text Little sn) }
    ensures memory { IfErr result (λ e. e ≡ Code.Memory) }
{
    out.extend_from_slice(&((sn / HALF_RANGE) as u32).to_le_bytes())?;
    out.extend_from_slice(&((sn % HALF_RANGE) as u32).to_le_bytes())?;
    Ok(())
}

/// Appends the body of the GAP of a number.
pub fn put_gap_body(out: &mut Vec<u8>, named: &Named) -> Result<(), Code>
    requires { named.now.sn < MAX_SN }
    ensures ok { OnOk result (out.new.items ≡ out.old.items
        ++ text_of_gap (gap_of named.now.reader named.now.writer named.now.sn)) }
    ensures memory { IfErr result (λ e. e ≡ Code.Memory) }
{
    out.extend_from_slice(named.reader.as_slice())?;
    out.extend_from_slice(named.writer.as_slice())?;
    put_sn(out, named.sn)?;
    put_sn(out, named.sn + 1)?;
    out.extend_from_slice(&[0, 0, 0, 0])?;
    Ok(())
}
