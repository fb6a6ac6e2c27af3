//! A list of parameters: whether the bytes are one, and the value of the first parameter of an id.
//!
//! `specs/Lists.antt` draws it.
//!
//! RTPS 2.5, clause 10 (PL_CDR_BE, PL_CDR_LE), 9.4.2 (ParameterList) and 9.6 (ids).

ghost use Rattle.std.specs.Prelude.{◌≡◌, ◌<◌, ◌↔◌, length, IfSome, IsTrue, Contains};
ghost use Rattle.std.specs.Option.{option_map};
ghost use Rattle.rtps_wire.specs.ParametersAt.{parameter_at};
ghost use Rattle.rtps_announcements.specs.Lists.{MustBeUnderstood};
ghost use Rattle.rtps_announcements.specs.ListAt.{list_at, IsWhole, HasParameters, value_in};

use crate::names::{
    LEN_ALIGNED, LEN_KEY, LEN_WORD, MUST_UNDERSTAND_IDS, PID_KEY_HASH, PID_OWNERSHIP_STRENGTH,
    PID_SENTINEL, PID_STATUS_INFO, VENDOR_IDS,
};
use dds_base::{Endianness, take_octets, take_u16};

/// One parameter.
#[derive(Clone, Copy)]
pub struct Parameter<'a> {
    pub id: u16,
    /// Empty for the sentinel.
    pub value: &'a [u8],
}

/// The order of bytes that the representation names, and the parameters.
#[tactic(auto, unfolding(crate::specs::ListAt::list_at))]
pub fn take_representation(bytes: &[u8]) -> Option<(Endianness, &[u8])>
    ensures { option_map (λ x. (x.0, x.1.now)) result ≡ list_at bytes.now }
{
    match bytes {
        [0, 2, _, _, rest @ ..] => Some((Endianness::Big, rest)),
        [0, 3, _, _, rest @ ..] => Some((Endianness::Little, rest)),
        _ => None,
    }
}

/// The parameter at the front, and the bytes after it.
#[tactic(auto, unfolding(rtps_wire::specs::ParametersAt::parameter_at))]
pub fn take_parameter(order: Endianness, bytes: &[u8]) -> Option<(Parameter<'_>, &[u8])>
    ensures value { option_map (λ x. (x.0.id, x.0.value.now, x.1.now)) result
        ≡ parameter_at order bytes.now }
    ensures rest { IfSome result (λ x. length x.1.now < length bytes.now) }
{
    let (id, rest) = take_u16(order, bytes)?;
    let (len, rest) = take_u16(order, rest)?;
    let len = if id == PID_SENTINEL { 0 } else { len as usize };
    let (value, rest) = take_octets(rest, len)?;
    Some((Parameter { id, value }, rest))
}

/// Whether a parameter has a length that its id allows.
fn is_whole(id: u16, value: &[u8]) -> bool
    ensures { IsTrue result ↔ IsWhole id value.now }
{
    let len = value.len();
    len % LEN_ALIGNED == 0
        && (id != PID_KEY_HASH || len == LEN_KEY)
        && (id != PID_STATUS_INFO || len == LEN_WORD)
        && (id != PID_OWNERSHIP_STRENGTH || len == LEN_WORD)
}

/// Whether a parameter of this id may be passed over, or is known.
fn is_understood(known: &[u16], id: u16) -> bool
    ensures { IsTrue result ↔ (MustBeUnderstood id → Contains known.now id) }
{
    id < MUST_UNDERSTAND_IDS || VENDOR_IDS <= id || known.contains(&id)
}

/// Whether the bytes begin with parameters up to a sentinel, all valid and understood.
pub fn has_parameters(order: Endianness, known: &[u16], bytes: &[u8]) -> bool
    ensures { IsTrue result ↔ HasParameters order known.now bytes.now }
{
    let mut left = bytes;
    while let Some((parameter, rest)) = take_parameter(order, left) {
        if parameter.id == PID_SENTINEL {
            return true;
        }
        if !is_whole(parameter.id, parameter.value) || !is_understood(known, parameter.id) {
            return false;
        }
        left = rest;
    }
    false
}

/// The value of the first parameter of this id before the sentinel. `None` where there is none, or a parameter before
/// it is cut. Takes no memory.
///
/// RTPS 2.5, 9.4.2 (ParameterList).
pub fn first_value(order: Endianness, bytes: &[u8], id: u16) -> Option<&[u8]>
    // Of a repeated parameter the first counts.
    ensures { option_map (λ v. v.now) result ≡ value_in order bytes.now id }
{
    let mut left = bytes;
    while let Some((parameter, rest)) = take_parameter(order, left) {
        if parameter.id == PID_SENTINEL {
            return None;
        }
        if parameter.id == id {
            return Some(parameter.value);
        }
        left = rest;
    }
    None
}
