//! The HEARTBEAT that a tick asks for, or that tells an assertion.
//!
//! RTPS 2.5, 8.4.9 (reliable StatefulWriter: heartbeatPeriod), 8.3.8 (Heartbeat), 8.7.2.2 (LIVELINESS).

use dds_base::Sn;

/// A HEARTBEAT that is due to the matched readers.
///
/// RTPS 2.5, 8.3.8 (Heartbeat: firstSN, lastSN, count).
#[derive(Clone, Copy, Debug, PartialEq, Eq)]
pub struct HeartbeatDue {
    /// The first number that is kept, or the one past the last.
    pub first: Sn,
    /// The number of the last change.
    pub last: Sn,
    /// From 1 to 2^31 - 1.
    pub count: i32,
}
