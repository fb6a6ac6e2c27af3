//! The QoS policies of writers and readers, behind a checked configuration.
//!
//! DDS 1.4, 2.2.3 (supported QoS).

ghost use Rattle.std.specs.Prelude.{◌≡◌};
ghost use Rattle.dds_base.specs.Matched.{is_reliable};

use crate::guid::Guid;
use crate::sequence::Sequence;

/// Whether one writer alone may change an instance.
///
/// DDS 1.4, 2.2.3 (OWNERSHIP).
#[derive(Clone, Copy, Debug, PartialEq, Eq)]
pub enum OwnershipQos {
    /// Every writer may change it.
    Shared,
    /// Its owner alone may: of those registered for it the strongest, and of equals the one with the smallest GUID.
    Exclusive,
}

/// How many changes, or samples, of an instance are kept.
///
/// DDS 1.4, 2.2.3 (HISTORY).
#[derive(Clone, Copy, Debug, PartialEq, Eq)]
pub enum HistoryQos {
    /// All, until they are acknowledged or taken.
    KeepAll,
    /// The depth: how many of the newest, at least 1.
    KeepLast(u32),
}

/// Whether a reader gets each change that its writer keeps, or may miss some: a writer offers it, a reader asks for it.
///
/// DDS 1.4, 2.2.3 (RELIABILITY).
#[derive(Clone, Copy, Debug, PartialEq, Eq)]
pub enum ReliabilityQos {
    /// What comes, in the order of its writer: a reader asks for nothing, no writer waits for it, and what it misses is
    /// counted as lost.
    BestEffort,
    /// Each change that its writer keeps: what a reader misses it asks for, and what came it acknowledges.
    Reliable,
}

impl ReliabilityQos {
    /// Whether it is `Reliable`.
    pub fn is_reliable(self) -> bool
        // It is what writers and readers go by.
        ensures reliable { result ≡ is_reliable self }
    {
        match self {
            ReliabilityQos::BestEffort => false,
            ReliabilityQos::Reliable => true,
        }
    }
}

/// A writer that a reader is matched with.
#[derive(Clone, Copy)]
pub struct MatchedWriter {
    /// Its name, which no other writer has.
    pub guid: Guid,
    /// What it was configured with, or announced: its strength until a change with another one has come (DDS 1.4, 2.2.3,
    /// OWNERSHIP_STRENGTH).
    pub strength: i32,
    /// The lease of LIVELINESS, in units of 2^-32 second, from 1 to 2^63 - 1; `None` never ends (DDS 1.4, 2.2.3).
    pub lease: Option<u64>,
}

/// A reader's policies, and the writers that it was opened with. `None` is no limit.
///
/// DDS 1.4, 2.2.3 (supported QoS).
#[derive(Drop)]
pub struct ReaderQos {
    /// Which writers may change an instance.
    pub ownership: OwnershipQos,
    /// Whether it asks for what it misses.
    pub reliability: ReliabilityQos,
    /// How many samples of an instance are kept.
    pub history: HistoryQos,
    /// How many samples with data may be present (DDS 1.4, 2.2.3, RESOURCE_LIMITS).
    pub max_samples: Option<u32>,
    /// How many instances may be known (DDS 1.4, 2.2.3, RESOURCE_LIMITS).
    pub max_instances: Option<u32>,
    /// How many changes it takes in its life.
    pub max_arrivals: u64,
    /// The writers that were matched when it was opened, in the order of their publication handles, which count from 1.
    /// Those that join have the handles after them.
    pub writers: Sequence<MatchedWriter>,
}
