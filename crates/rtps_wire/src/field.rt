//! The fields of submessages: read with the bytes after them, and written in little-endian.
//!
//! RTPS 2.5, 9.3 and 9.4.2.

ghost use Rattle.std.specs.Prelude.{◌≡◌, ◌≤◌, ◌/◌, ◌%◌, ◌++◌, length, IfSome, OnOk, IfErr};
ghost use Rattle.std.specs.Option.{option_map};
ghost use Rattle.std.specs.Int.{w16, w32};
ghost use Rattle.dds_base.specs.Fields.{number};
ghost use Rattle.dds_base.specs.FieldPairs.{both};
ghost use Rattle.dds_base.specs.declared.endianness.Endianness.TheVariants.{Little};
ghost use Rattle.rtps_wire.specs.Fields.{has_flag, order_of, sn_text, count_text};
ghost use Rattle.rtps_wire.specs.Names.{half_range};
ghost use Rattle.rtps_wire.specs.FieldAt.{entity_id_at, prefix_at, sn_at, count_at};

use crate::names::{FLAG_ENDIANNESS, HALF_RANGE, LEN_ENTITY_ID, LEN_PREFIX};
use dds_base::{Code, Endianness, EntityId, GuidPrefix, take_octets, take_u32};

/// The greatest sequence number that a field holds.
pub const MAX_SN: u64 = dds_base::MAX_SN;

/// Whether a flag is set.
pub fn has_flag(flags: u8, flag: u8) -> bool
    ensures { result ≡ has_flag flags flag }
{
    flags & flag == flag
}

/// The order of bytes that the flags of a submessage name.
pub fn order_of(flags: u8) -> Endianness
    ensures { result ≡ order_of flags }
{
    if has_flag(flags, FLAG_ENDIANNESS) {
        Endianness::Little
    } else {
        Endianness::Big
    }
}

/// An entity id.
#[tactic(auto, unfolding(crate::specs::FieldAt::entity_id_at))]
pub fn take_entity_id(bytes: &[u8]) -> Option<(EntityId, &[u8])>
    ensures { option_map (λ x. (x.0, x.1.now)) result ≡ entity_id_at bytes.now }
{
    let (octets, rest) = take_octets(bytes, LEN_ENTITY_ID)?;
    let mut id = [0; LEN_ENTITY_ID];
    id.copy_from_slice(octets);
    Some((EntityId(id), rest))
}

/// What most bodies have in front: readerId and writerId.
#[derive(Clone, Copy)]
pub struct Ids {
    /// The reader's.
    pub reader: EntityId,
    /// The writer's.
    pub writer: EntityId,
}

/// Two entity ids: a reader's and a writer's.
pub fn take_ids(bytes: &[u8]) -> Option<(Ids, &[u8])>
    ensures { option_map (λ x. ((x.0.reader, x.0.writer), x.1.now)) result
        ≡ both entity_id_at entity_id_at bytes.now }
{
    let (reader, rest) = take_entity_id(bytes)?;
    let (writer, rest) = take_entity_id(rest)?;
    Some((Ids { reader, writer }, rest))
}

/// A GUID prefix.
#[tactic(auto, unfolding(crate::specs::FieldAt::prefix_at))]
pub fn take_prefix(bytes: &[u8]) -> Option<(GuidPrefix, &[u8])>
    ensures value { option_map (λ x. (x.0, x.1.now)) result ≡ prefix_at bytes.now }
    ensures rest { IfSome result (λ x. length x.1.now ≤ length bytes.now) }
{
    let (octets, rest) = take_octets(bytes, LEN_PREFIX)?;
    let mut prefix = [0; LEN_PREFIX];
    prefix.copy_from_slice(octets);
    Some((GuidPrefix(prefix), rest))
}

/// A sequence number, of at most `MAX_SN`. A negative one has a high half of 2^31 and more.
#[tactic(auto, unfolding(crate::specs::FieldAt::sn_at))]
pub fn take_sn(order: Endianness, bytes: &[u8]) -> Option<(u64, &[u8])>
    ensures value { option_map (λ x. (x.0, x.1.now)) result ≡ sn_at order bytes.now }
    ensures small { IfSome result (λ x. x.0 ≤ MAX_SN) }
{
    let (high, rest) = take_u32(order, bytes)?;
    let (low, rest) = take_u32(order, rest)?;
    let number = u64::from(high) * HALF_RANGE + u64::from(low);
    if MAX_SN < number {
        return None;
    }
    Some((number, rest))
}

/// A count.
#[tactic(auto, unfolding(crate::specs::FieldAt::count_at))]
pub fn take_count(order: Endianness, bytes: &[u8]) -> Option<(i32, &[u8])>
    ensures { option_map (λ x. (x.0, x.1.now)) result ≡ count_at order bytes.now }
{
    let (count, rest) = take_u32(order, bytes)?;
    Some((count.cast_signed(), rest))
}

/// Two numbers of two octets.
pub fn put_u16s(out: &mut Vec<u8>, first: u16, second: u16) -> Result<(), Code>
    ensures ok { OnOk result
        (out.new.items ≡ out.old.items ++ (number Little w16 first ++ number Little w16 second)) }
    ensures memory { IfErr result (λ e. e ≡ Code.Memory) }
{
    out.extend_from_slice([first.to_le_bytes(), second.to_le_bytes()].as_flattened())?;
    Ok(())
}

/// The entity ids of a reader and of a writer.
pub fn put_ids(out: &mut Vec<u8>, reader: &EntityId, writer: &EntityId) -> Result<(), Code>
    ensures ok { OnOk result (out.new.items ≡ out.old.items ++ (reader.now.0 ++ writer.now.0)) }
    ensures memory { IfErr result (λ e. e ≡ Code.Memory) }
{
    out.extend_from_slice([reader.0, writer.0].as_flattened())?;
    Ok(())
}

/// The octets of a sequence number, or of a moment: two halves, the high one first.
pub fn halves_of(whole: u64) -> ([u8; 4], [u8; 4])
    ensures high { result.0 ≡ number Little w32 (whole / half_range) }
    ensures low { result.1 ≡ number Little w32 (whole % half_range) }
{
    let high = (whole / HALF_RANGE) as u32;
    let low = (whole % HALF_RANGE) as u32;
    (high.to_le_bytes(), low.to_le_bytes())
}

/// A sequence number, or a moment.
pub fn put_u64(out: &mut Vec<u8>, number: u64) -> Result<(), Code>
    ensures ok { OnOk result (out.new.items ≡ out.old.items ++ sn_text Little number) }
    ensures memory { IfErr result (λ e. e ≡ Code.Memory) }
{
    let (high, low) = halves_of(number);
    out.extend_from_slice([high, low].as_flattened())?;
    Ok(())
}

/// A count.
pub fn put_count(out: &mut Vec<u8>, count: i32) -> Result<(), Code>
    ensures ok { OnOk result (out.new.items ≡ out.old.items ++ count_text Little count) }
    ensures memory { IfErr result (λ e. e ≡ Code.Memory) }
{
    out.extend_from_slice(&count.cast_unsigned().to_le_bytes())?;
    Ok(())
}
