//! INFO_DST: whom what follows is for.
//!
//! `specs/InfoDst.antt` draws it.
//!
//! RTPS 2.5, 9.4.5 (InfoDestination).

ghost use Rattle.std.specs.Prelude.{◌≡◌};
ghost use Rattle.rtps_wire.specs.SubmessageAt.{info_dst_at};

use crate::field::take_prefix;
use dds_base::GuidPrefix;

/// The prefix of an INFO_DST, where its body is long enough.
#[tactic(auto, unfolding(crate::specs::SubmessageAt::info_dst_at))]
pub fn info_dst_of(body: &[u8]) -> Option<GuidPrefix>
    ensures { result ≡ info_dst_at body.now }
{
    let (prefix, _) = take_prefix(body)?;
    Some(prefix)
}
