//! Our endpoints, as our peer has them.
//!
//! DDS 1.4, 2.2.3 (supported QoS).

ghost use Rattle.std.specs.Prelude.{◌≡◌, ◌↔◌, IsTrue};
ghost use Rattle.dds_exchange.specs.Opening.{CanHold, reader_of, writer_of};

use crate::entities::keyed;
use dds_base::{
    DestinationOrderQos, DurabilityQos, Duration, LivelinessKind, LivelinessQos, Policies,
    PresentationQos, ReaderConfig, WriterConfig,
};
use rtps_matching::End;

/// Whether our peer holds to all that these policies offer or ask for, beside RELIABILITY and OWNERSHIP: they are volatile,
/// of automatic liveliness without an end, without a deadline, in the order of reception, and of no presentation.
///
/// DDS 1.4, 2.2.3 (supported QoS).
pub fn can_hold(policies: &Policies) -> bool
    // It is so of these alone.
    ensures held { IsTrue result ↔ CanHold policies.now }
{
    policies.durability == DurabilityQos::Volatile
        && policies.liveliness
            == LivelinessQos {
                kind: LivelinessKind::Automatic,
                lease: Duration::INFINITE,
            }
        && policies.deadline == Duration::INFINITE
        && policies.destination_order == DestinationOrderQos::ByReceptionTimestamp
        && policies.presentation == PresentationQos::DEFAULT
}

/// A writer of ours in the configuration of our peer, of a topic of its own.
///
/// DDS 1.4, 2.2.3 (RELIABILITY, OWNERSHIP, OWNERSHIP_STRENGTH).
pub fn writer_config(writer: &End, topic: u32, max_value: u32) -> WriterConfig
    // It has the policies that are announced, and else the usual ones.
    ensures config { result ≡ writer_of writer.now topic max_value }
{
    let endpoint = writer.endpoint.lend();
    let mut config = WriterConfig::new(keyed(endpoint.guid.entity), topic);
    config.reliability = endpoint.policies.reliability;
    config.ownership = endpoint.policies.ownership;
    config.strength = endpoint.policies.strength;
    config.max_value = max_value;
    config
}

/// A reader of ours, likewise.
///
/// DDS 1.4, 2.2.3 (RELIABILITY, OWNERSHIP).
pub fn reader_config(reader: &End, topic: u32, max_value: u32) -> ReaderConfig
    // It has the policies that are announced, and else the usual ones.
    ensures config { result ≡ reader_of reader.now topic max_value }
{
    let endpoint = reader.endpoint.lend();
    let mut config = ReaderConfig::new(keyed(endpoint.guid.entity), topic);
    config.reliability = endpoint.policies.reliability;
    config.ownership = endpoint.policies.ownership;
    config.max_value = max_value;
    config
}
