//! What a submessage of a writer says to a reader, and what it did there.
//!
//! RTPS 2.5, 8.3.8 (Heartbeat, AckNack), 8.4.12 (reliable StatefulReader).

use dds_base::{PassedRun, Sequence, Sn};
use rtps_sets::SnSet;

/// What a HEARTBEAT says.
///
/// RTPS 2.5, 8.3.8 (Heartbeat).
#[derive(Clone, Copy, Debug)]
pub struct HeartbeatSeen {
    /// firstSN: the writer has nothing more to say of the numbers below it. At most 2^62.
    pub first: Sn,
    /// lastSN: the number of the writer's newest change, firstSN - 1 where it has none.
    pub last: Sn,
    /// It grows with each HEARTBEAT of the writer.
    pub count: i32,
    /// FinalFlag: no answer is asked for.
    pub is_final: bool,
    /// LivelinessFlag: the writer asserts its liveliness.
    pub liveliness: bool,
}

/// An ACKNACK that is due to the writer: all numbers below the base came or were passed over, and those of the set are
/// missing.
///
/// RTPS 2.5, 8.3.8 (AckNack).
#[derive(Clone, Copy, Debug)]
pub struct AckNackDue {
    /// The reader's place, from 1 to 2^62.
    pub base: Sn,
    /// readerSNState, from the base on.
    pub missing: SnSet,
    /// From 1, one more with each ACKNACK of the reader to this writer.
    pub count: i32,
    /// FinalFlag: nothing is missing, and no HEARTBEAT is asked for.
    pub is_final: bool,
}

/// What a submessage of a writer did at a reader: where the reader's place began, if it waited, how far it went, over
/// what, and what the reader then sends back.
///
/// RTPS 2.5, 8.4.10 (WriterProxy), 8.4.12 (behaviour of a reliable StatefulReader).
#[derive(Drop)]
pub struct Step {
    /// Where the place began, if it did.
    pub begun: Option<Sn>,
    /// The place: the number of the next change.
    pub to: Sn,
    /// The numbers that were passed over, in order; all others up to the place came.
    pub passed: Sequence<PassedRun>,
    /// Whether the writer's liveliness was asserted without a change.
    pub heard: bool,
    /// What to send back.
    pub acknack: Option<AckNackDue>,
}
