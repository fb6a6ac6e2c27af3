//! Submessages as ids, flags and bodies.
//!
//! RTPS 2.5, 9.4.5.1 (submessage header).

ghost use Rattle.std.specs.Prelude.{◌≡◌, ◌<◌, length, IfSome};
ghost use Rattle.std.specs.Option.{option_map};
ghost use Rattle.rtps_wire.specs.Frames.{runs_to_end};
ghost use Rattle.rtps_wire.specs.FrameAt.{frame_at};

use crate::field::order_of;
use crate::names::{ID_INFO_TS, ID_PAD};
use dds_base::{take_octets, take_u16};

/// A submessage whose body is not read yet.
///
/// RTPS 2.5, 9.4.5.1 (submessageId, flags, submessageLength).
#[derive(Clone, Copy)]
pub struct Frame<'a> {
    /// What kind of submessage it is.
    pub id: u8,
    /// The lowest bit tells the order of octets in its numbers, the others depend on the kind.
    pub flags: u8,
    /// As many octets as its length says; where that is 0, and it is neither a PAD nor an INFO_TS, all to the message's end.
    pub body: &'a [u8],
}

/// Whether a submessage with this length goes on to the message's end.
fn runs_to_end(id: u8, len: u16) -> bool
    ensures { result ≡ runs_to_end id len }
{
    len == 0 && id != ID_PAD && id != ID_INFO_TS
}

/// The submessage at the front, and the bytes after it. `None` where reading ends.
#[tactic(auto, unfolding(crate::specs::FrameAt::frame_at))]
pub fn take_frame(bytes: &[u8]) -> Option<(Frame<'_>, &[u8])>
    ensures value { option_map (λ x. (x.0.id, x.0.flags, x.0.body.now, x.1.now)) result
        ≡ frame_at bytes.now }
    ensures rest { IfSome result (λ x. length x.1.now < length bytes.now) }
{
    let [id, flags, rest @ ..] = bytes else {
        return None;
    };
    let (id, flags) = (*id, *flags);
    let (len, rest) = take_u16(order_of(flags), rest)?;
    if runs_to_end(id, len) {
        let (body, rest) = rest.split_at(rest.len());
        return Some((Frame { id, flags, body }, rest));
    }
    let (body, rest) = take_octets(rest, len as usize)?;
    Some((Frame { id, flags, body }, rest))
}
