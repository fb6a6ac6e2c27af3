//! The configuration of all peers: who there is, on which topics, and with which policies.
//!
//! DDS 1.4, 2.2.3 (supported QoS). `Config::check` says which configurations are taken.

ghost use Rattle.std.specs.Prelude.{◌≡◌, None, true, pos, negsuc};
ghost use Rattle.dds_base.specs.declared.qos.OwnershipQos.TheVariants.{Shared};
ghost use Rattle.dds_base.specs.declared.qos.HistoryQos.TheVariants.{KeepAll};
ghost use Rattle.dds_base.specs.declared.qos.ReliabilityQos.TheVariants.{Reliable};
ghost use Rattle.dds_base.specs.Bounds.{usual_arrivals, usual_value};
ghost use Rattle.dds_base.specs.Offered.{offered, requested};
ghost use Rattle.dds_base.specs.Ownership.{carried};

use crate::duration::Duration;
use crate::guid::{EntityId, GuidPrefix};
use crate::policies::{
    DestinationOrderQos, DurabilityQos, LivelinessKind, LivelinessQos, Policies, PresentationQos,
};
use crate::qos::{HistoryQos, OwnershipQos, ReliabilityQos};
use crate::sequence::Sequence;

/// A writer of a peer. `WriterConfig::new` has the usual policies.
///
/// DDS 1.4, 2.2.3 (supported QoS).
#[derive(Clone, Copy, Debug)]
pub struct WriterConfig {
    /// Of kind 0x02, and no other writer's or reader's of its peer.
    pub entity: EntityId,
    /// Writers and readers of equal topic numbers match.
    pub topic: u32,
    /// The same as that of each matched reader (DDS 1.4, 2.2.3, OWNERSHIP).
    pub ownership: OwnershipQos,
    /// A best-effort one is matched at the opening with best-effort readers alone: it keeps nothing for them, and waits
    /// for none (DDS 1.4, 2.2.3, RELIABILITY).
    pub reliability: ReliabilityQos,
    /// A depth is at least 1, and at most `max_samples` where that is a limit.
    pub history: HistoryQos,
    /// How many changes it may keep until they are acknowledged: positive, or -1 for no limit (DDS 1.4, 2.2.3,
    /// RESOURCE_LIMITS, LENGTH_UNLIMITED). `docs/DECISIONS.md`, "Types", says why it is no `Option`.
    pub max_samples: i32,
    /// What it begins with: of the writers of an exclusive instance the strongest owns it (DDS 1.4, 2.2.3,
    /// OWNERSHIP_STRENGTH). It means nothing where ownership is shared.
    pub strength: i32,
    /// In units of 2^-32 second, from 1 to 2^63 - 1; `None` never ends. At most that of each matched reader (DDS 1.4,
    /// 2.2.3, LIVELINESS).
    pub lease: Option<u64>,
    /// Whether an unregister disposes too (DDS 1.4, 2.2.3, WRITER_DATA_LIFECYCLE).
    pub autodispose: bool,
    /// How many octets a value has at most, from 1 to `MAX_VALUE`. At most that of each matched reader. It is a limit of
    /// this project, as a bound of the topic type would be.
    pub max_value: u32,
}

/// A reader of a peer. `ReaderConfig::new` has the usual policies.
///
/// DDS 1.4, 2.2.3 (supported QoS).
#[derive(Clone, Copy, Debug)]
pub struct ReaderConfig {
    /// Of kind 0x07, and no other writer's or reader's of its peer.
    pub entity: EntityId,
    /// Writers and readers of equal topic numbers match.
    pub topic: u32,
    /// The same as that of each matched writer (DDS 1.4, 2.2.3, OWNERSHIP).
    pub ownership: OwnershipQos,
    /// A reliable one is matched with reliable writers alone (DDS 1.4, 2.2.3, RELIABILITY).
    pub reliability: ReliabilityQos,
    /// A depth is at least 1, and at most `max_samples` where that is a limit.
    pub history: HistoryQos,
    /// How many samples with data it may hold: positive, or -1 for no limit (DDS 1.4, 2.2.3, RESOURCE_LIMITS,
    /// LENGTH_UNLIMITED).
    pub max_samples: i32,
    /// How many instances it may know: positive, or -1 for no limit (DDS 1.4, 2.2.3, RESOURCE_LIMITS).
    pub max_instances: i32,
    /// How many changes it takes in its life, from 1 to 2^63: once so many came there is room for none. It is a limit of
    /// this project.
    pub max_arrivals: u64,
    /// The longest lease of a writer that it takes, in units of 2^-32 second; `None` takes all.
    pub lease: Option<u64>,
    /// The greatest `max_value` of a writer that it takes, from 1 to `MAX_VALUE`. It is a limit of this project.
    pub max_value: u32,
}

/// How many octets a value of a writer has at most, and that of a writer which a reader takes, unless the policy says
/// another number.
pub const USUAL_VALUE: u32 = 1024;

impl WriterConfig {
    /// A shared, reliable writer that keeps all its changes, without a limit or a lease, of strength 0, which disposes
    /// what it unregisters, and whose values have at most `USUAL_VALUE` octets: the standard's defaults but for HISTORY.
    ///
    /// DDS 1.4, 2.2.3 (supported QoS).
    pub fn new(entity: EntityId, topic: u32) -> WriterConfig
        ensures defaults { result ≡ record {
          entity = entity;
          topic = topic;
          ownership = Shared;
          reliability = Reliable;
          history = KeepAll;
          max_samples = negsuc 0;
          strength = pos 0;
          lease = None;
          autodispose = true;
          max_value = usual_value;
        } }
    {
        WriterConfig {
            entity,
            topic,
            ownership: OwnershipQos::Shared,
            reliability: ReliabilityQos::Reliable,
            history: HistoryQos::KeepAll,
            max_samples: -1,
            strength: 0,
            lease: None,
            autodispose: true,
            max_value: USUAL_VALUE,
        }
    }

    /// The strength that its changes carry at first: `None` of a writer of shared ownership, whose strength means
    /// nothing.
    ///
    /// DDS 1.4, 2.2.3 (OWNERSHIP_STRENGTH).
    pub fn carried_strength(&self) -> Option<i32>
        // It is that of the definitions.
        ensures carried { result ≡ carried self.now.ownership self.now.strength }
    {
        match self.ownership {
            OwnershipQos::Shared => None,
            OwnershipQos::Exclusive => Some(self.strength),
        }
    }

    /// What it offers the readers of its topic: its RELIABILITY, its OWNERSHIP and its lease; it is VOLATILE and
    /// MANUAL_BY_TOPIC, within an instance, by reception, without a DEADLINE and with a LATENCY_BUDGET of 0. A lease of
    /// 2^31 - 1 seconds or more is offered as one that never ends.
    ///
    /// DDS 1.4, 2.2.3 (supported QoS).
    pub fn offered(&self) -> Policies
        // It is what the definition says.
        ensures offered { result ≡ offered self.now }
    {
        let reliability = self.reliability;
        Policies {
            reliability,
            durability: DurabilityQos::Volatile,
            liveliness: LivelinessQos {
                kind: LivelinessKind::ManualByTopic,
                lease: Duration::lasting(self.lease),
            },
            ownership: self.ownership,
            strength: self.strength,
            deadline: Duration::INFINITE,
            latency_budget: Duration::ZERO,
            destination_order: DestinationOrderQos::ByReceptionTimestamp,
            presentation: PresentationQos::DEFAULT,
        }
    }
}

impl ReaderConfig {
    /// How many changes a reader takes in its life, unless its policy says another number: 2^31 - 2.
    pub const USUAL_ARRIVALS: u64 = (1 << 31) - 2;

    /// A shared, reliable reader that keeps all samples, without a limit but for `USUAL_ARRIVALS`, and takes every lease
    /// and a `max_value` of `USUAL_VALUE`: the standard's defaults but for HISTORY and RELIABILITY.
    ///
    /// DDS 1.4, 2.2.3 (supported QoS).
    pub fn new(entity: EntityId, topic: u32) -> ReaderConfig
        ensures defaults { result ≡ record {
          entity = entity;
          topic = topic;
          ownership = Shared;
          reliability = Reliable;
          history = KeepAll;
          max_samples = negsuc 0;
          max_instances = negsuc 0;
          max_arrivals = usual_arrivals;
          lease = None;
          max_value = usual_value;
        } }
    {
        ReaderConfig {
            entity,
            topic,
            ownership: OwnershipQos::Shared,
            reliability: ReliabilityQos::Reliable,
            history: HistoryQos::KeepAll,
            max_samples: -1,
            max_instances: -1,
            max_arrivals: ReaderConfig::USUAL_ARRIVALS,
            lease: None,
            max_value: USUAL_VALUE,
        }
    }

    /// What it asks of the writers of its topic: its RELIABILITY, its OWNERSHIP and its lease, and of all else for
    /// nothing. A lease of 2^31 - 1 seconds or more asks for none.
    ///
    /// DDS 1.4, 2.2.3 (supported QoS).
    pub fn requested(&self) -> Policies
        // It is what the definition says.
        ensures requested { result ≡ requested self.now }
    {
        Policies {
            reliability: self.reliability,
            durability: DurabilityQos::Volatile,
            liveliness: LivelinessQos {
                kind: LivelinessKind::Automatic,
                lease: Duration::lasting(self.lease),
            },
            ownership: self.ownership,
            strength: 0,
            deadline: Duration::INFINITE,
            latency_budget: Duration::INFINITE,
            destination_order: DestinationOrderQos::ByReceptionTimestamp,
            presentation: PresentationQos::DEFAULT,
        }
    }
}

/// A peer: what its GUIDs begin with, its writers and its readers.
///
/// DDS 1.4, 2.2.2.2 (DomainParticipant); RTPS 2.5, 8.2 (Participant).
#[derive(Debug, Drop)]
pub struct PeerConfig {
    /// Not `GuidPrefix::UNKNOWN`, and no other peer's.
    pub prefix: GuidPrefix,
    /// At most 16, which are numbered from 1 in their order.
    pub writers: Sequence<WriterConfig>,
    /// At most 16, which are numbered from 1 in their order, apart from the writers.
    pub readers: Sequence<ReaderConfig>,
}

/// All peers: each knows all others from the start, and who is matched with whom.
#[derive(Debug, Drop)]
pub struct Config {
    /// From 1 to 16, which are numbered from 1 in their order.
    pub peers: Sequence<PeerConfig>,
}
