//! The kinds of endpoints, and the policies that the numbers of an announcement say.
//!
//! The policies themselves are those of `dds_base`.
//!
//! DDS 1.4, 2.2.3 (supported QoS); RTPS 2.5, 9.6 (ParameterId values: the numbers).

ghost use Rattle.std.specs.Prelude.{◌≡◌};
ghost use Rattle.rtps_announcements.specs.ValueAt.{reliability_of, durability_of, ownership_of, liveliness_of, destination_order_of, scope_of};
ghost use Rattle.rtps_announcements.specs.Values.{default_reliability};

use dds_base::{
    DestinationOrderQos, DurabilityQos, LivelinessKind, OwnershipQos, PresentationScope,
    ReliabilityQos,
};

/// What an announcement of SEDP is about.
///
/// RTPS 2.5, 8.5 (SEDP): publications and subscriptions.
#[derive(Clone, Copy, Debug)]
pub enum EndpointKind {
    /// A DataWriter: the announcement is a publication.
    Writer,
    /// A DataReader: the announcement is a subscription.
    Reader,
}

impl EndpointKind {
    /// What its RELIABILITY is where none is announced.
    ///
    /// DDS 1.4, 2.2.3 (RELIABILITY): reliable for DataWriters, best effort for DataReaders.
    pub fn default_reliability(self) -> ReliabilityQos
        ensures default { result ≡ default_reliability self }
    {
        match self {
            EndpointKind::Writer => ReliabilityQos::Reliable,
            EndpointKind::Reader => ReliabilityQos::BestEffort,
        }
    }
}

/// The RELIABILITY of this number.
#[tactic(auto, unfolding(crate::specs::ValueAt::reliability_of))]
pub fn reliability_of(code: u32) -> Option<ReliabilityQos>
    ensures { result ≡ reliability_of code }
{
    match code {
        1 => Some(ReliabilityQos::BestEffort),
        2 => Some(ReliabilityQos::Reliable),
        _ => None,
    }
}

/// The DURABILITY of this number.
#[tactic(auto, unfolding(crate::specs::ValueAt::durability_of))]
pub fn durability_of(code: u32) -> Option<DurabilityQos>
    ensures { result ≡ durability_of code }
{
    match code {
        0 => Some(DurabilityQos::Volatile),
        1 => Some(DurabilityQos::TransientLocal),
        2 => Some(DurabilityQos::Transient),
        3 => Some(DurabilityQos::Persistent),
        _ => None,
    }
}

/// The OWNERSHIP of this number.
#[tactic(auto, unfolding(crate::specs::ValueAt::ownership_of))]
pub fn ownership_of(code: u32) -> Option<OwnershipQos>
    ensures { result ≡ ownership_of code }
{
    match code {
        0 => Some(OwnershipQos::Shared),
        1 => Some(OwnershipQos::Exclusive),
        _ => None,
    }
}

/// The kind of LIVELINESS of this number.
#[tactic(auto, unfolding(crate::specs::ValueAt::liveliness_of))]
pub fn liveliness_of(code: u32) -> Option<LivelinessKind>
    ensures { result ≡ liveliness_of code }
{
    match code {
        0 => Some(LivelinessKind::Automatic),
        1 => Some(LivelinessKind::ManualByParticipant),
        2 => Some(LivelinessKind::ManualByTopic),
        _ => None,
    }
}

/// The DESTINATION_ORDER of this number.
#[tactic(auto, unfolding(crate::specs::ValueAt::destination_order_of))]
pub fn destination_order_of(code: u32) -> Option<DestinationOrderQos>
    ensures { result ≡ destination_order_of code }
{
    match code {
        0 => Some(DestinationOrderQos::ByReceptionTimestamp),
        1 => Some(DestinationOrderQos::BySourceTimestamp),
        _ => None,
    }
}

/// The access scope of PRESENTATION of this number.
#[tactic(auto, unfolding(crate::specs::ValueAt::scope_of))]
pub fn scope_of(code: u32) -> Option<PresentationScope>
    ensures { result ≡ scope_of code }
{
    match code {
        0 => Some(PresentationScope::Instance),
        1 => Some(PresentationScope::Topic),
        2 => Some(PresentationScope::Group),
        _ => None,
    }
}
