//! Names of topics and types.
//!
//! RTPS 2.5, 9.4.2 (strings).

ghost use Rattle.std.specs.Prelude.{◌≡◌, []};
ghost use Rattle.std.specs.Option.{option_map};
ghost use Rattle.rtps_announcements.specs.ListAt.{value_in};
ghost use Rattle.rtps_announcements.specs.ValueAt.{name_at, said, zero_at};

use crate::list::first_value;
use crate::names::MAX_NAME;
use dds_base::{Endianness, take_octets, take_u32};
use std::marker::Model;

/// The name of a topic or a type: 0 to 256 octets without a zero. They are compared as they stand, and need be no UTF-8.
/// The announcement in which it was read lends it. Contracts see the octets.
///
/// DDS 1.4, 2.2.2.3 (Topic).
#[derive(Debug, Drop)]
pub struct Name<'a> {
    octets: &'a [u8],
}

impl<'a> Model for Name<'a> {
    ghost use Rattle.std.specs.Prelude.{ℕ, List};

    ghost Value = { List ℕ };

    ghost view = { λ n. n.octets.now };
}

impl<'a> Name<'a> {
    /// The name of these octets. Takes no memory.
    pub fn new(octets: &'a [u8]) -> Name<'a>
        ensures octets { result ≡ octets.now }
    {
        Name { octets }
    }

    /// The octets, as they are lent.
    pub fn as_slice(&self) -> &[u8]
        ensures octets { result.now ≡ self.now }
    {
        self.octets
    }
}

impl<'a> Default for Name<'a> {
    /// The name without octets.
    fn default() -> Name<'a>
        ensures empty { result ≡ [] }
    {
        Name { octets: &[] }
    }
}

/// What follows the octet that is zero.
#[tactic(auto, unfolding(crate::specs::ValueAt::zero_at))]
fn take_zero(bytes: &[u8]) -> Option<&[u8]>
    ensures { option_map (λ x. x.now) result ≡ zero_at bytes.now }
{
    match bytes {
        [0, rest @ ..] => Some(rest),
        _ => None,
    }
}

/// The name that the bytes begin with, and the bytes after it.
#[tactic(auto, unfolding(crate::specs::ValueAt::name_at))]
pub fn take_name(order: Endianness, bytes: &[u8]) -> Option<(Name<'_>, &[u8])>
    ensures { option_map (λ x. (x.0, x.1.now)) result ≡ name_at order bytes.now }
{
    let (count, rest) = take_u32(order, bytes)?;
    let count = count as usize;
    if count < 1 {
        return None;
    }
    if MAX_NAME < count - 1 {
        return None;
    }
    let (octets, rest) = take_octets(rest, count - 1)?;
    let rest = take_zero(rest)?;
    if octets.contains(&0) {
        return None;
    }
    Some((Name::new(octets), rest))
}

/// The name that the first parameter of this id says.
pub fn name_in(order: Endianness, list: &[u8], id: u16) -> Option<Name<'_>>
    ensures { result ≡ said None (name_at order) (value_in order list.now id) }
{
    let value = first_value(order, list, id)?;
    let (name, _) = take_name(order, value)?;
    Some(name)
}
