//! When a lease is over.
//!
//! DDS 1.4, 2.2.3 (LIVELINESS: lease_duration).

ghost use Rattle.std.specs.Prelude.{◌≡◌};
ghost use Rattle.dds_base.specs.Written.{is_over};

use crate::moment::Moment;

/// Whether a lease, in units of 2^-32 second, is over at this moment, for a writer that was asserted last at `since`.
/// It is over once it has passed in full, and never where there is no lease, or nobody was asserted.
///
/// DDS 1.4, 2.2.3 (LIVELINESS: lease_duration).
pub fn is_over(lease: Option<u64>, since: Option<Moment>, now: Moment) -> bool
    ensures over { result ≡ is_over lease since now }
{
    match (lease, since) {
        (Some(lease), Some(since)) => match now.units().checked_sub(since.units()) {
            Some(passed) => lease <= passed,
            None => false,
        },
        _ => false,
    }
}
