//! INFO_TS: when what follows was made.
//!
//! `specs/InfoTs.antt` draws it.
//!
//! RTPS 2.5, 9.4.5 (InfoTimestamp).

ghost use Rattle.std.specs.Prelude.{◌≡◌};
ghost use Rattle.rtps_wire.specs.SubmessageAt.{info_ts_at};

use crate::field::{has_flag, order_of};
use crate::names::{FLAG_INVALIDATE, HALF_RANGE};
use dds_base::take_u32;

/// The moment of an INFO_TS, or that there is none, where its body is valid.
#[tactic(auto, unfolding(crate::specs::SubmessageAt::info_ts_at))]
pub fn info_ts_of(flags: u8, body: &[u8]) -> Option<Option<u64>>
    ensures { result ≡ info_ts_at flags body.now }
{
    if has_flag(flags, FLAG_INVALIDATE) {
        return Some(None);
    }
    let order = order_of(flags);
    let (seconds, rest) = take_u32(order, body)?;
    let (fraction, _) = take_u32(order, rest)?;
    Some(Some(u64::from(seconds) * HALF_RANGE + u64::from(fraction)))
}
