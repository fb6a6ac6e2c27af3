//! Which rule a peer, a writer or a reader of a configuration breaks.
//!
//! DDS 1.4, 2.2.3 (HISTORY, RESOURCE_LIMITS, LIVELINESS, OWNERSHIP, RELIABILITY); RTPS 2.5, 9.3 (entity kinds,
//! GUIDPREFIX_UNKNOWN).

ghost use Rattle.std.specs.Prelude.{◌≡◌, ◌&&◌, List};
ghost use Rattle.std.specs.List.{list_any};
ghost use Rattle.dds_base.specs.declared.config.PeerConfig.{PeerConfig};
ghost use Rattle.dds_base.specs.Access.{has_bit};
ghost use Rattle.dds_base.specs.Matched.{same_topic, matched_writers_of};
ghost use Rattle.dds_base.specs.Offered.{offered, requested};
ghost use Rattle.dds_base.specs.Offers.{unfit_policies};
ghost use Rattle.dds_base.specs.Checked.{prefix_count, entity_count, has_no_depth, is_maximum, is_bad_life, is_bad_lease, is_bad_value, exceeds_limit, is_longer};
ghost use Rattle.dds_base.specs.FaultAt.{first_broken, is_unfit, whole_rules, peer_rules, writer_rules, reader_rules};

use crate::config::{PeerConfig, ReaderConfig, WriterConfig};
use crate::config_fault::ConfigRule;
use crate::datum::MAX_VALUE;
use crate::guid::{EntityId, GuidPrefix};
use crate::moment::MOMENT_END;
use crate::offers::unfit_policies;
use crate::qos::HistoryQos;
use crate::unfit::UnfitPolicies;
use bitflags::Flags;

/// So many peers at most.
const MAX_PEERS: usize = 16;

/// So many writers, and so many readers, at most at a peer: a limit of this project.
pub const MAX_ENDS: usize = 16;

/// From this one on a lease is too long, in units of 2^-32 second.
const LEASE_END: u64 = MOMENT_END;

/// The most changes that a reader takes in its life: a limit of this project.
const MOST_ARRIVALS: u64 = 1 << 63;

/// Which rules are looked at: those of each parameter, or those of policies with one another. A bad parameter anywhere
/// goes before an inconsistent policy anywhere.
#[derive(Clone, Copy)]
pub enum Pass {
    /// The rules of each parameter by itself.
    Parameters,
    /// The rules of policies with one another.
    Policies,
}

/// The policies in which each writer has to fit the readers that it is matched with.
#[derive(Clone, Copy)]
enum PairPolicy {
    /// The same ownership.
    Ownership,
    /// Reliability, where the reader asks for it.
    Reliability,
    /// A lease that is no longer than the one that the reader asks for.
    Lease,
    /// A `max_value` that is no greater than the one that the reader takes.
    Value,
}

/// The rule that the peers break as a whole.
pub fn whole_rule(peers: &[PeerConfig]) -> Option<ConfigRule>
    ensures { result ≡ first_broken (whole_rules peers.now) }
{
    if peers.is_empty() || MAX_PEERS < peers.len() {
        return Some(ConfigRule::PeerCount);
    }
    None
}

/// The rule that a peer breaks, its writers and readers aside.
pub fn peer_rule(pass: Pass, peers: &[PeerConfig], peer: &PeerConfig) -> Option<ConfigRule>
    ensures { result ≡ first_broken (peer_rules pass peers.now peer.now) }
{
    match pass {
        Pass::Parameters => peer_parameter(peers, peer),
        Pass::Policies => None,
    }
}

/// The rule of a parameter that a peer breaks, its writers and readers aside.
fn peer_parameter(peers: &[PeerConfig], peer: &PeerConfig) -> Option<ConfigRule>
    ensures { result ≡ first_broken (peer_rules Pass.Parameters peers.now peer.now) }
{
    if peer.prefix == GuidPrefix::UNKNOWN {
        return Some(ConfigRule::KnownPrefix);
    }
    if 1 < count_prefix(peers, &peer.prefix) {
        return Some(ConfigRule::OwnPrefix);
    }
    if MAX_ENDS < peer.writers.as_slice().len() {
        return Some(ConfigRule::WriterCount);
    }
    if MAX_ENDS < peer.readers.as_slice().len() {
        return Some(ConfigRule::ReaderCount);
    }
    None
}

/// How many peers have a prefix.
fn count_prefix(peers: &[PeerConfig], prefix: &GuidPrefix) -> usize
    ensures { result ≡ prefix_count peers.now prefix.now }
{
    peers.iter().filter(|p| p.prefix == *prefix).count()
}

/// How many writers and readers of a peer are an entity.
fn count_entity(peer: &PeerConfig, entity: &EntityId) -> usize
    ensures { result ≡ entity_count peer.now entity.now }
{
    let writers = peer.writers.as_slice();
    let readers = peer.readers.as_slice();
    writers.iter().filter(|w| w.entity == *entity).count()
        + readers.iter().filter(|r| r.entity == *entity).count()
}

/// The rule that a writer of a peer breaks.
pub fn writer_rule(pass: Pass, peer: &PeerConfig, writer: &WriterConfig) -> Option<ConfigRule>
    ensures { result ≡ first_broken (writer_rules pass peer.now writer.now) }
{
    match pass {
        Pass::Parameters => writer_parameter(peer, writer),
        Pass::Policies => {
            exceeds_limit(writer.history, writer.max_samples).then_some(
                ConfigRule::DepthWithinMaximum,
            )
        }
    }
}

/// The rule of a parameter that a writer of a peer breaks.
fn writer_parameter(peer: &PeerConfig, writer: &WriterConfig) -> Option<ConfigRule>
    ensures { result ≡ first_broken (writer_rules Pass.Parameters peer.now writer.now) }
{
    if 1 < count_entity(peer, &writer.entity) {
        return Some(ConfigRule::OwnEntity);
    }
    if writer.entity.kind() != EntityId::WRITER_KIND {
        return Some(ConfigRule::EntityKind);
    }
    if has_no_depth(writer.history) {
        return Some(ConfigRule::Depth);
    }
    if !is_maximum(writer.max_samples) {
        return Some(ConfigRule::MaxSamples);
    }
    if is_bad_lease(writer.lease) {
        return Some(ConfigRule::Lease);
    }
    if is_bad_value(writer.max_value) {
        return Some(ConfigRule::MaxValue);
    }
    None
}

/// The rule that a reader of a peer breaks.
pub fn reader_rule(
    pass: Pass,
    peers: &[PeerConfig],
    peer: &PeerConfig,
    reader: &ReaderConfig,
) -> Option<ConfigRule>
    ensures { result ≡ first_broken (reader_rules pass peers.now peer.now reader.now) }
{
    match pass {
        Pass::Parameters => reader_parameter(peer, reader),
        Pass::Policies => reader_policy(peers, reader),
    }
}

/// The rule of a parameter that a reader of a peer breaks.
fn reader_parameter(peer: &PeerConfig, reader: &ReaderConfig) -> Option<ConfigRule>
    ensures { (peers : List PeerConfig)
        → result ≡ first_broken (reader_rules Pass.Parameters peers peer.now reader.now) }
{
    if 1 < count_entity(peer, &reader.entity) {
        return Some(ConfigRule::OwnEntity);
    }
    if reader.entity.kind() != EntityId::READER_KIND {
        return Some(ConfigRule::EntityKind);
    }
    if has_no_depth(reader.history) {
        return Some(ConfigRule::Depth);
    }
    if !is_maximum(reader.max_samples) {
        return Some(ConfigRule::MaxSamples);
    }
    if !is_maximum(reader.max_instances) {
        return Some(ConfigRule::MaxInstances);
    }
    if is_bad_life(reader.max_arrivals) {
        return Some(ConfigRule::MaxArrivals);
    }
    if is_bad_lease(reader.lease) {
        return Some(ConfigRule::Lease);
    }
    if is_bad_value(reader.max_value) {
        return Some(ConfigRule::MaxValue);
    }
    None
}

/// The rule of policies that a reader breaks, alone or with a matched writer.
fn reader_policy(peers: &[PeerConfig], reader: &ReaderConfig) -> Option<ConfigRule>
    ensures { (peer : PeerConfig)
        → result ≡ first_broken (reader_rules Pass.Policies peers.now peer reader.now) }
{
    if exceeds_limit(reader.history, reader.max_samples) {
        return Some(ConfigRule::DepthWithinMaximum);
    }
    if has_unfit_writer(PairPolicy::Ownership, peers, reader) {
        return Some(ConfigRule::SameOwnership);
    }
    if has_unfit_writer(PairPolicy::Reliability, peers, reader) {
        return Some(ConfigRule::OfferedReliability);
    }
    if has_unfit_writer(PairPolicy::Lease, peers, reader) {
        return Some(ConfigRule::OfferedLease);
    }
    if has_unfit_writer(PairPolicy::Value, peers, reader) {
        return Some(ConfigRule::OfferedValue);
    }
    None
}

/// Whether the writer offers less of this policy than the reader asks for.
fn is_not_offered(policy: UnfitPolicies, writer: &WriterConfig, reader: &ReaderConfig) -> bool
    ensures { result
        ≡ has_bit (unfit_policies (offered writer.now) (requested reader.now)).0 policy.0 }
{
    unfit_policies(&writer.offered(), &reader.requested()).contains(policy)
}

/// Whether the writer does not fit the reader in this policy: it has another ownership, is best-effort where the reader
/// is reliable, has a longer lease than it asks for, or a greater `max_value` than it takes.
fn is_unfit(policy: PairPolicy, writer: &WriterConfig, reader: &ReaderConfig) -> bool
    ensures { result ≡ is_unfit policy writer.now reader.now }
{
    match policy {
        PairPolicy::Ownership => is_not_offered(UnfitPolicies::OWNERSHIP, writer, reader),
        PairPolicy::Reliability => is_not_offered(UnfitPolicies::RELIABILITY, writer, reader),
        PairPolicy::Lease => is_longer(writer.lease, reader.lease),
        PairPolicy::Value => reader.max_value < writer.max_value,
    }
}

/// Whether some matched writer of the reader does not fit it in this policy.
fn has_unfit_writer(policy: PairPolicy, peers: &[PeerConfig], reader: &ReaderConfig) -> bool
    ensures { result ≡ list_any (λ w. is_unfit policy w reader.now)
        (matched_writers_of peers.now reader.now) }
{
    peers.iter().any(|p| has_unfit_writer_in(policy, p.writers.as_slice(), reader))
}

/// Whether one of these writers is matched and does not fit the reader in this policy.
fn has_unfit_writer_in(policy: PairPolicy, writers: &[WriterConfig], reader: &ReaderConfig) -> bool
    ensures { result ≡ list_any (λ w. same_topic w.topic reader.now.topic
        && is_unfit policy w reader.now) writers.now }
{
    writers
        .iter()
        .any(|w| w.topic == reader.topic && is_unfit(policy, w, reader))
}

/// Whether a policy keeps the last 0.
fn has_no_depth(history: HistoryQos) -> bool
    ensures { result ≡ has_no_depth history }
{
    match history {
        HistoryQos::KeepAll => false,
        HistoryQos::KeepLast(depth) => depth == 0,
    }
}

/// Whether a number is -1, for no limit, or positive.
fn is_maximum(maximum: i32) -> bool
    ensures { result ≡ is_maximum maximum }
{
    maximum == -1 || 0 < maximum
}

/// Whether a reader's life is of no change, or of more than 2^63.
fn is_bad_life(max_arrivals: u64) -> bool
    ensures { result ≡ is_bad_life max_arrivals }
{
    max_arrivals == 0 || MOST_ARRIVALS < max_arrivals
}

/// Whether there is a lease, of 0 or of 2^63 units and more.
fn is_bad_lease(lease: Option<u64>) -> bool
    ensures { result ≡ is_bad_lease lease }
{
    match lease {
        None => false,
        Some(lease) => lease == 0 || LEASE_END <= lease,
    }
}

/// Whether values may have no octet, or more than `MAX_VALUE`.
fn is_bad_value(max_value: u32) -> bool
    ensures { result ≡ is_bad_value max_value }
{
    max_value == 0 || MAX_VALUE < max_value as usize
}

/// Whether a depth is above a maximum that is a limit.
fn exceeds_limit(history: HistoryQos, max_samples: i32) -> bool
    ensures { result ≡ exceeds_limit history max_samples }
{
    match history {
        HistoryQos::KeepAll => false,
        HistoryQos::KeepLast(depth) => {
            0 <= max_samples && i64::from(max_samples) < i64::from(depth)
        }
    }
}

/// Whether a lease is longer than another; `None` never ends.
fn is_longer(lease: Option<u64>, other: Option<u64>) -> bool
    ensures { result ≡ is_longer lease other }
{
    match (lease, other) {
        (_, None) => false,
        (None, Some(_)) => true,
        (Some(lease), Some(other)) => other < lease,
    }
}
