//! Which rule a configuration breaks, and where.
//!
//! DDS 1.4, 2.2.1.1 (BAD_PARAMETER, INCONSISTENT_POLICY), 2.2.3 (supported QoS).

ghost use Rattle.std.specs.Prelude.{◌≡◌};
ghost use Rattle.dds_base.specs.Faults.{code_of_rule};

use crate::code::Code;
use std::fmt;

/// A rule of configurations that are taken.
///
/// DDS 1.4, 2.2.3 (supported QoS), where a rule is one of a policy; the counts, the bound of a lease and those of values are
/// limits of this project.
#[derive(Clone, Copy, Debug, PartialEq, Eq)]
pub enum ConfigRule {
    /// There are 1 to 16 peers.
    PeerCount,
    /// A peer has at most 16 writers.
    WriterCount,
    /// A peer has at most 16 readers.
    ReaderCount,
    /// A prefix is not twelve zeros (RTPS 2.5, 9.3, GUIDPREFIX_UNKNOWN).
    KnownPrefix,
    /// No two peers have one prefix.
    OwnPrefix,
    /// No two writers or readers of a peer have one entity.
    OwnEntity,
    /// The kind of a writer's entity is 0x02, that of a reader's 0x07 (RTPS 2.5, 9.3).
    EntityKind,
    /// A depth is not 0 (HISTORY).
    Depth,
    /// `max_samples` is -1, for no limit, or positive (RESOURCE_LIMITS).
    MaxSamples,
    /// `max_instances` of a reader is -1, for no limit, or positive (RESOURCE_LIMITS).
    MaxInstances,
    /// `max_arrivals` of a reader is from 1 to 2^63.
    MaxArrivals,
    /// A lease is from 1 to 2^63 - 1 units of 2^-32 second (LIVELINESS).
    Lease,
    /// `max_value` is from 1 to `MAX_VALUE`.
    MaxValue,
    /// A depth is at most `max_samples`, where that is a limit (HISTORY, RESOURCE_LIMITS).
    DepthWithinMaximum,
    /// Each matched writer has the reader's kind of ownership (OWNERSHIP).
    SameOwnership,
    /// No matched writer of a reliable reader is best-effort (RELIABILITY).
    OfferedReliability,
    /// No matched writer has a longer lease than the reader asks for (LIVELINESS).
    OfferedLease,
    /// No matched writer has a greater `max_value` than the reader takes.
    OfferedValue,
}

impl ConfigRule {
    /// The code with which a configuration that breaks the rule is refused: `InconsistentPolicy` for the last five
    /// rules, `BadParameter` for all others.
    pub fn code(self) -> Code
        ensures code { result ≡ code_of_rule self }
    {
        match self {
            ConfigRule::DepthWithinMaximum
            | ConfigRule::SameOwnership
            | ConfigRule::OfferedReliability
            | ConfigRule::OfferedLease
            | ConfigRule::OfferedValue => Code::InconsistentPolicy,
            _ => Code::BadParameter,
        }
    }

    /// What is wrong where the rule is broken.
    pub fn as_str(self) -> &'static str {
        match self {
            ConfigRule::PeerCount => "there are no peers, or more than 16",
            ConfigRule::WriterCount => "it has more than 16 writers",
            ConfigRule::ReaderCount => "it has more than 16 readers",
            ConfigRule::KnownPrefix => "its prefix is all zeros",
            ConfigRule::OwnPrefix => "another peer has its prefix",
            ConfigRule::OwnEntity => "another writer or reader of its peer has its entity",
            ConfigRule::EntityKind => "its entity has the wrong kind",
            ConfigRule::Depth => "its depth is 0",
            ConfigRule::MaxSamples => "its max_samples is neither -1 nor positive",
            ConfigRule::MaxInstances => "its max_instances is neither -1 nor positive",
            ConfigRule::MaxArrivals => "its max_arrivals is 0 or above 2^63",
            ConfigRule::Lease => "its lease is 0 or too long",
            ConfigRule::MaxValue => "its max_value is 0 or above 65000",
            ConfigRule::DepthWithinMaximum => "its depth is above its maximum of samples",
            ConfigRule::SameOwnership => "a matched writer has another ownership",
            ConfigRule::OfferedReliability => "it is reliable, and a matched writer is best-effort",
            ConfigRule::OfferedLease => "a matched writer has a longer lease than it asks for",
            ConfigRule::OfferedValue => "a matched writer has a greater max_value than it takes",
        }
    }
}

/// Where a rule is broken. Peers count from 1, and so do the writers and the readers of each.
///
/// Printed it is `the configuration`, `peer 1`, `writer 2 of peer 1` or `reader 2 of peer 1`.
#[derive(Clone, Copy, Debug, PartialEq, Eq)]
pub enum ConfigPlace {
    /// In the configuration as a whole.
    Whole,
    /// At a peer.
    Peer { peer: usize },
    /// At a writer of a peer.
    Writer { peer: usize, writer: usize },
    /// At a reader of a peer.
    Reader { peer: usize, reader: usize },
}

/// Why a configuration is refused: a rule that it breaks, and where.
///
/// Printed it is a sentence: `writer 2 of peer 1: its lease is 0 or too long`.
#[derive(Clone, Copy, Debug, PartialEq, Eq)]
pub struct ConfigFault {
    /// What breaks the rule.
    pub place: ConfigPlace,
    /// The rule that is broken there.
    pub rule: ConfigRule,
}

impl ConfigFault {
    /// The code with which `Config::check` refuses the configuration.
    pub fn code(&self) -> Code
        ensures code { result ≡ code_of_rule self.now.rule }
    {
        self.rule.code()
    }
}

impl fmt::Display for ConfigPlace {
    fn fmt<W: fmt::Write>(&self, f: &mut fmt::Formatter<W>) -> fmt::Result {
        match *self {
            ConfigPlace::Whole => write!(f, "the configuration"),
            ConfigPlace::Peer { peer } => write!(f, "peer {peer}"),
            ConfigPlace::Writer { peer, writer } => write!(f, "writer {writer} of peer {peer}"),
            ConfigPlace::Reader { peer, reader } => write!(f, "reader {reader} of peer {peer}"),
        }
    }
}

impl fmt::Display for ConfigFault {
    fn fmt<W: fmt::Write>(&self, f: &mut fmt::Formatter<W>) -> fmt::Result {
        write!(f, "{}: {}", self.place, self.rule.as_str())
    }
}
