//! Fields at the front of octets, each with the octets after it, and flags.
//!
//! RTPS 2.5, 9.3 and 9.4.

ghost use Rattle.std.specs.Prelude.{◌≡◌, ◌≤◌, ◌<◌, ◌^◌, IfSome};
ghost use Rattle.std.specs.Option.{option_map};
ghost use Rattle.rtps_wire.specs.Fields.{has_flag, order_of};
ghost use Rattle.rtps_wire.specs.FieldAt.{entity_id_at, sn_at};

use crate::names::FLAG_ENDIANNESS;
use dds_base::{Endianness, EntityId, take_octets, take_u32};
use rtps_wire::MAX_SN;

/// A sequence number has a high half and a low half of 32 bits.
pub const HALF_RANGE: u64 = 1 << 32;

/// Whether a flag is set.
pub fn has_flag(flags: u8, flag: u8) -> bool
    ensures { result ≡ has_flag flags flag }
{
    flags & flag == flag
}

/// The order of octets that the flags name.
pub fn order_of(flags: u8) -> Endianness
    ensures { result ≡ order_of flags }
{
    if has_flag(flags, FLAG_ENDIANNESS) {
        Endianness::Little
    } else {
        Endianness::Big
    }
}

/// An entity id.
#[tactic(auto, unfolding(rtps_wire::specs::FieldAt::entity_id_at))]
pub fn take_entity_id(bytes: &[u8]) -> Option<(EntityId, &[u8])>
    ensures { option_map (λ x. (x.0, x.1.now)) result ≡ entity_id_at bytes.now }
{
    let (octets, rest) = take_octets(bytes, 4)?;
    let mut id = [0; 4];
    id.copy_from_slice(octets);
    Some((EntityId(id), rest))
}

/// A sequence number. `None` where it is above 2^62.
#[tactic(auto, unfolding(rtps_wire::specs::FieldAt::sn_at))]
pub fn take_sn(order: Endianness, bytes: &[u8]) -> Option<(u64, &[u8])>
    ensures value { option_map (λ x. (x.0, x.1.now)) result ≡ sn_at order bytes.now }
    ensures small { IfSome result (λ x. x.0 ≤ MAX_SN) }
{
    let (high, rest) = take_u32(order, bytes)?;
    let (low, rest) = take_u32(order, rest)?;
    let number = u64::from(high) * HALF_RANGE + u64::from(low);
    if MAX_SN < number {
        return None;
    }
    Some((number, rest))
}
