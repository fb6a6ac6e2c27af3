//! The key of a list of parameters: the GUID that it names.
//!
//! RTPS 2.5, 8.5.4 (the keys of SEDP), 9.4.2 (ParameterList) and 9.6 (ids).

ghost use Rattle.std.specs.Prelude.{◌≡◌, ℕ, ◌∷◌};
ghost use Rattle.std.specs.Option.{option_map, option_or};
ghost use Rattle.rtps_announcements.specs.ListAt.{value_in};
ghost use Rattle.rtps_announcements.specs.Names.{pid_endpoint_guid, pid_participant_guid};
ghost use Rattle.rtps_adapter.specs.Keys.{key_by_list, order_of_list};

use dds_base::{Endianness, Key, take_key};
use rtps_announcements::first_value;

/// GUID of a participant.
const PID_PARTICIPANT_GUID: u16 = 0x0050;

/// GUID of an endpoint.
pub const PID_ENDPOINT_GUID: u16 = 0x005a;

/// The order of octets that the representation of a list names. `None` where it is that of no list.
fn order_of_list(first: u8, second: u8) -> Option<Endianness>
    ensures { result ≡ order_of_list first second }
{
    match (first, second) {
        (0, 2) => Some(Endianness::Big),
        (0, 3) => Some(Endianness::Little),
        _ => None,
    }
}

/// The GUID of the endpoint that a list names, or where it names none of the participant.
fn guid_in(order: Endianness, body: &[u8]) -> Option<&[u8]>
    ensures { option_map (λ x. x.now) result ≡ option_or
        (value_in order body.now pid_endpoint_guid) (value_in order body.now pid_participant_guid) }
{
    match first_value(order, body, PID_ENDPOINT_GUID) {
        Some(guid) => Some(guid),
        None => first_value(order, body, PID_PARTICIPANT_GUID),
    }
}

/// The key of a list of this representation and body. `None` where the representation is that of no list, or it names
/// nobody.
#[tactic(auto, unfolding(crate::specs::Keys::key_by_list))]
pub fn key_by_list(representation: (u8, u8), body: &[u8]) -> Option<Key>
    ensures { (c d : ℕ)
        → result ≡ key_by_list (representation.0 ∷ representation.1 ∷ c ∷ d ∷ body.now) }
{
    let order = order_of_list(representation.0, representation.1)?;
    let guid = guid_in(order, body)?;
    let (key, _) = take_key(guid)?;
    Some(key)
}
