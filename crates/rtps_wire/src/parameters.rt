//! The inline parameters of a DATA.
//!
//! `specs/Parameters.antt` draws them.
//!
//! RTPS 2.5, 9.4.2 (ParameterList) and 9.6 (strength, key hash, status info).

ghost use Rattle.std.specs.Prelude.{◌≡◌, ◌<◌, ◌^◌, ◌++◌, length, IfSome, OnOk, IfErr};
ghost use Rattle.std.specs.Option.{option_map};
ghost use Rattle.dds_base.specs.declared.endianness.Endianness.TheVariants.{Little};
ghost use Rattle.rtps_wire.specs.Parameters.{parameter_text};
ghost use Rattle.rtps_wire.specs.ParametersAt.{parameter_at, noted_at, parameters_at};

use crate::field::{put_u16s, take_count};
use crate::names::{
    LEN_ALIGNED, LEN_KEY, LEN_OWNERSHIP_STRENGTH, LEN_STATUS_INFO, PID_KEY_HASH,
    PID_OWNERSHIP_STRENGTH, PID_SENTINEL, PID_STATUS_INFO,
};
use dds_base::{Code, Endianness, Key, take_key, take_octets, take_u16};

/// What the parameters of a DATA say.
#[derive(Clone, Copy)]
pub struct Parameters {
    pub key_hash: Option<Key>,
    /// The last octet of the status info.
    pub status: Option<u8>,
    pub strength: Option<i32>,
}

impl Parameters {
    /// Nothing is said.
    pub const NONE: Parameters = Parameters {
        key_hash: None,
        status: None,
        strength: None,
    };
}

/// One parameter.
#[derive(Clone, Copy)]
struct Parameter<'a> {
    id: u16,
    /// Empty for the sentinel.
    value: &'a [u8],
}

/// The parameter at the front, and the bytes after it.
#[tactic(auto, unfolding(crate::specs::ParametersAt::parameter_at))]
fn take_parameter(order: Endianness, bytes: &[u8]) -> Option<(Parameter<'_>, &[u8])>
    ensures value { option_map (λ x. (x.0.id, x.0.value.now, x.1.now)) result
        ≡ parameter_at order bytes.now }
    ensures rest { IfSome result (λ x. length x.1.now < length bytes.now) }
{
    let (id, rest) = take_u16(order, bytes)?;
    let (len, rest) = take_u16(order, rest)?;
    let len = if id == PID_SENTINEL { 0 } else { len as usize };
    let (value, rest) = take_octets(rest, len)?;
    Some((Parameter { id, value }, rest))
}

/// What was found, with one more parameter: of a repeated one the first counts. `None` where it is not valid.
#[tactic(auto, unfolding(crate::specs::ParametersAt::noted_at))]
fn noted(order: Endianness, found: Parameters, id: u16, value: &[u8]) -> Option<Parameters>
    ensures { result ≡ noted_at order found id value.now }
{
    if value.len() % LEN_ALIGNED != 0 {
        return None;
    }
    if id == PID_KEY_HASH {
        if value.len() != LEN_KEY {
            return None;
        }
        let (key, _) = take_key(value)?;
        return Some(Parameters {
            key_hash: found.key_hash.or(Some(key)),
            status: found.status,
            strength: found.strength,
        });
    }
    if id == PID_STATUS_INFO {
        if value.len() != LEN_STATUS_INFO {
            return None;
        }
        return Some(Parameters {
            key_hash: found.key_hash,
            status: found.status.or(Some(value[3])),
            strength: found.strength,
        });
    }
    if id == PID_OWNERSHIP_STRENGTH {
        if value.len() != LEN_OWNERSHIP_STRENGTH {
            return None;
        }
        let (strength, _) = take_count(order, value)?;
        return Some(Parameters {
            key_hash: found.key_hash,
            status: found.status,
            strength: found.strength.or(Some(strength)),
        });
    }
    Some(found)
}

/// What the parameters up to the sentinel say, and the bytes after it. `None` where one is not valid, or there is no
/// sentinel.
pub fn take_parameters(order: Endianness, bytes: &[u8]) -> Option<(Parameters, &[u8])>
    ensures { option_map (λ x. (x.0, x.1.now)) result ≡ parameters_at order bytes.now }
{
    let mut found = Parameters::NONE;
    let mut left = bytes;
    while let Some((parameter, rest)) = take_parameter(order, left) {
        if parameter.id == PID_SENTINEL {
            return Some((found, rest));
        }
        found = noted(order, found, parameter.id, parameter.value)?;
        left = rest;
    }
    None
}

/// What follows parameters and their sentinel. `None` where one is not valid, or there is no sentinel.
///
/// RTPS 2.5, 9.4.2 (ParameterList) and 9.6.
pub fn skip_parameters(order: Endianness, bytes: &[u8]) -> Option<&[u8]>
    // It is what follows the parameters of the definitions.
    ensures value { option_map (λ x. x.now) result
        ≡ option_map (λ x. x.1) (parameters_at order bytes.now) }
{
    let (_, rest) = take_parameters(order, bytes)?;
    Some(rest)
}

/// Appends a parameter, or the sentinel with an empty value.
pub fn put_parameter(out: &mut Vec<u8>, id: u16, value: &[u8]) -> Result<(), Code>
    requires { length value.now < 2 ^ 16 }
    ensures ok { OnOk result (out.new.items
        ≡ out.old.items ++ parameter_text Little (record { id = id; value = value.now })) }
    ensures memory { IfErr result (λ e. e ≡ Code.Memory) }
{
    put_u16s(out, id, value.len() as u16)?;
    out.extend_from_slice(value)?;
    Ok(())
}
