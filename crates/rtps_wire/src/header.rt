//! The header of a message.
//!
//! `specs/Messages.antt` draws it.
//!
//! RTPS 2.5, 9.4.4.

ghost use Rattle.std.specs.Prelude.{◌≡◌, ◌≤◌, length, IfSome};
ghost use Rattle.std.specs.Option.{option_map};
ghost use Rattle.rtps_wire.specs.HeaderAt.{header_at};

use crate::field::take_prefix;
use crate::names::{LEN_HEADER, MAJOR_VERSION, MAX_USUAL_SUBMESSAGE};
use dds_base::GuidPrefix;

/// The longest message, in octets: so many a UDP datagram over IPv4 carries, of 65,535 with both their headers.
pub const MAX_MESSAGE: usize = 65_507;

/// So many submessages have place in a message, whose values have at most `USUAL_VALUE` octets: 60.
pub const MAX_TOGETHER: usize = (MAX_MESSAGE - LEN_HEADER) / MAX_USUAL_SUBMESSAGE;

/// The sender's prefix, and the bytes after the header. `None` where there is no header of this protocol.
#[tactic(auto, unfolding(crate::specs::HeaderAt::header_at))]
pub fn take_header(bytes: &[u8]) -> Option<(GuidPrefix, &[u8])>
    ensures value { option_map (λ x. (x.0, x.1.now)) result ≡ header_at bytes.now }
    ensures left { IfSome result (λ x. length x.1.now ≤ length bytes.now) }
{
    let [r, t, p, s, major, _minor, _vendor, _product, rest @ ..] = bytes else {
        return None;
    };
    if *r == b'R' && *t == b'T' && *p == b'P' && *s == b'S' && *major == MAJOR_VERSION {
        return take_prefix(rest);
    }
    None
}
