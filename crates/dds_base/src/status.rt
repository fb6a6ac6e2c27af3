//! The communication statuses of a reader, and of a writer.
//!
//! DDS 1.4, 2.2.4.1.

use crate::endpoint::Endpoint;
use crate::handle::Handle;

/// How many changes a reader passed over: those of its matched writers that will never come at it.
///
/// DDS 1.4, 2.2.4.1 (SAMPLE_LOST, SampleLostStatus).
#[derive(Clone, Copy, Debug, PartialEq, Eq)]
pub struct SampleLostStatus {
    /// How many there were. It stays at 2^64 - 1.
    pub total_count: u64,
    /// How many more than when the status was looked at last; at the first look, all of them.
    pub total_count_change: u64,
}

/// How many matched writers of a reader are alive, and how many died and are not alive.
///
/// DDS 1.4, 2.2.4.1 (LIVELINESS_CHANGED, LivelinessChangedStatus).
#[derive(Clone, Copy, Debug, PartialEq, Eq)]
pub struct LivelinessChangedStatus {
    /// How many are alive.
    pub alive_count: i32,
    /// How many died and are not alive.
    pub not_alive_count: i32,
    /// How many more are alive than when the status was looked at last; below 0 where there are fewer.
    pub alive_count_change: i32,
    /// How many more are not alive than when the status was looked at last; below 0 where there are fewer.
    pub not_alive_count_change: i32,
    /// The publication handle of the writer that last changed one of the two counts, `NIL` for none.
    pub last_publication_handle: Handle,
}

/// How often a writer's liveliness was lost: its lease ran out, and no assertion had come.
///
/// DDS 1.4, 2.2.4.1 (LIVELINESS_LOST, LivelinessLostStatus).
#[derive(Clone, Copy, Debug, PartialEq, Eq)]
pub struct LivelinessLostStatus {
    /// How often it was. It stays at 2^64 - 1.
    pub total_count: u64,
    /// How much oftener than when the status was looked at last; at the first look, all of them.
    pub total_count_change: u64,
}

/// PUBLICATION_MATCHED of a writer, or SUBSCRIPTION_MATCHED of a reader: how many matches there were and are.
///
/// DDS 1.4, 2.2.4.1 (PublicationMatchedStatus, SubscriptionMatchedStatus).
#[derive(Clone, Copy, Debug, PartialEq, Eq)]
pub struct MatchedStatus {
    /// How many there were. It stays at 2^64 - 1.
    pub total_count: u64,
    /// How many more than when the status was looked at last.
    pub total_count_change: u64,
    /// How many there are.
    pub current_count: i64,
    /// How many more than when the status was looked at last; below 0 where there are fewer.
    pub current_count_change: i64,
    /// The reader or writer with which the last one was made or ended; `None` before that.
    pub last: Option<Endpoint>,
}
