//! How long a participant is taken to be there.
//!
//! RTPS 2.5, 8.5 (SPDP) and 9.6 (PID_PARTICIPANT_LEASE_DURATION).

ghost use Rattle.std.specs.Prelude.{◌≡◌};
ghost use Rattle.rtps_discovery.specs.Leases.{taken_lease};

use rtps_announcements::Duration;

/// A second, in units of 2^-32 second: the shortest lease.
const LEAST_LEASE: u64 = 1 << 32;

/// 300 seconds: the longest lease.
const MOST_LEASE: u64 = 300 << 32;

/// How long a participant that announces this lease is taken to be there after it was last heard, in units of 2^-32
/// second: its lease, but a second at least and 300 seconds at most.
///
/// RTPS 2.5, 8.5 (SPDP).
pub fn taken_lease(lease: Duration) -> u64
    // It is within the limits, and what is announced where that is.
    ensures lease { result ≡ taken_lease lease }
{
    let units = lease.units().unwrap_or(MOST_LEASE);
    units.min(MOST_LEASE).max(LEAST_LEASE)
}
