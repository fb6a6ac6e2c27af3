//! The policies of a writer or a reader that are compared, and the numbers of their kinds.
//!
//! DDS 1.4, 2.2.3 (supported QoS); RTPS 2.5, 9.6 (ParameterId values: the numbers).

ghost use Rattle.std.specs.Prelude.{◌≡◌};
ghost use Rattle.dds_base.specs.Policies.{reliability_code, durability_code, ownership_code, liveliness_code, destination_order_code, scope_code};

use crate::duration::Duration;
use crate::qos::{OwnershipQos, ReliabilityQos};

/// Whether what was written before is for readers that come later.
///
/// DDS 1.4, 2.2.3 (DURABILITY).
#[derive(Clone, Copy, Debug, PartialEq, Eq)]
pub enum DurabilityQos {
    /// It is not.
    Volatile,
    /// It is, while its writer is there.
    TransientLocal,
    /// It is, kept apart from its writer.
    Transient,
    /// It is, kept for good.
    Persistent,
}

/// Who says that a writer is alive.
///
/// DDS 1.4, 2.2.3 (LIVELINESS).
#[derive(Clone, Copy, Debug, PartialEq, Eq)]
pub enum LivelinessKind {
    /// The service, for as long as its participant runs.
    Automatic,
    /// The application, for all writers of the participant.
    ManualByParticipant,
    /// The application, for each writer.
    ManualByTopic,
}

/// Who says that a writer is alive, and how long that holds.
///
/// DDS 1.4, 2.2.3 (LIVELINESS).
#[derive(Clone, Copy, Debug, PartialEq, Eq)]
pub struct LivelinessQos {
    /// Who says it.
    pub kind: LivelinessKind,
    /// The lease_duration: how long it holds.
    pub lease: Duration,
}

/// In which order samples of several writers are presented.
///
/// DDS 1.4, 2.2.3 (DESTINATION_ORDER).
#[derive(Clone, Copy, Debug, PartialEq, Eq)]
pub enum DestinationOrderQos {
    /// As they come.
    ByReceptionTimestamp,
    /// As they were written.
    BySourceTimestamp,
}

/// Within what order and coherence are kept.
///
/// DDS 1.4, 2.2.3 (PRESENTATION).
#[derive(Clone, Copy, Debug, PartialEq, Eq)]
pub enum PresentationScope {
    /// Within an instance.
    Instance,
    /// Within a topic.
    Topic,
    /// Within all topics of a publisher or a subscriber.
    Group,
}

/// Order and coherence of changes that belong together.
///
/// DDS 1.4, 2.2.3 (PRESENTATION).
#[derive(Clone, Copy, Debug, PartialEq, Eq)]
pub struct PresentationQos {
    /// The access_scope.
    pub scope: PresentationScope,
    /// Whether changes of a set come together.
    pub coherent_access: bool,
    /// Whether changes are presented in their order.
    pub ordered_access: bool,
}

impl PresentationQos {
    /// What holds where nothing else is said: within an instance, and neither.
    ///
    /// DDS 1.4, 2.2.3 (PRESENTATION).
    pub const DEFAULT: PresentationQos = PresentationQos {
        scope: PresentationScope::Instance,
        coherent_access: false,
        ordered_access: false,
    };
}

/// The policies of a writer or a reader by which the other side decides whether it fits.
///
/// DDS 1.4, 2.2.3 (supported QoS).
#[derive(Clone, Copy, Debug, PartialEq, Eq)]
pub struct Policies {
    /// RELIABILITY, without its max_blocking_time.
    pub reliability: ReliabilityQos,
    /// DURABILITY.
    pub durability: DurabilityQos,
    /// LIVELINESS.
    pub liveliness: LivelinessQos,
    /// OWNERSHIP.
    pub ownership: OwnershipQos,
    /// OWNERSHIP_STRENGTH, of a writer. It is not compared.
    pub strength: i32,
    /// DEADLINE.
    pub deadline: Duration,
    /// LATENCY_BUDGET.
    pub latency_budget: Duration,
    /// DESTINATION_ORDER.
    pub destination_order: DestinationOrderQos,
    /// PRESENTATION.
    pub presentation: PresentationQos,
}

/// The number of a kind of RELIABILITY: what offers more has a greater one.
///
/// RTPS 2.5, 9.6 (ParameterId values).
pub fn reliability_code(kind: ReliabilityQos) -> u32
    ensures code { result ≡ reliability_code kind }
{
    match kind {
        ReliabilityQos::BestEffort => 1,
        ReliabilityQos::Reliable => 2,
    }
}

/// The number of a kind of DURABILITY: what offers more has a greater one.
///
/// RTPS 2.5, 9.6 (ParameterId values).
pub fn durability_code(kind: DurabilityQos) -> u32
    ensures code { result ≡ durability_code kind }
{
    match kind {
        DurabilityQos::Volatile => 0,
        DurabilityQos::TransientLocal => 1,
        DurabilityQos::Transient => 2,
        DurabilityQos::Persistent => 3,
    }
}

/// The number of a kind of OWNERSHIP.
///
/// RTPS 2.5, 9.6 (ParameterId values).
pub fn ownership_code(kind: OwnershipQos) -> u32
    ensures code { result ≡ ownership_code kind }
{
    match kind {
        OwnershipQos::Shared => 0,
        OwnershipQos::Exclusive => 1,
    }
}

/// The number of a kind of LIVELINESS: what offers more has a greater one.
///
/// RTPS 2.5, 9.6 (ParameterId values).
pub fn liveliness_code(kind: LivelinessKind) -> u32
    ensures code { result ≡ liveliness_code kind }
{
    match kind {
        LivelinessKind::Automatic => 0,
        LivelinessKind::ManualByParticipant => 1,
        LivelinessKind::ManualByTopic => 2,
    }
}

/// The number of a kind of DESTINATION_ORDER: what offers more has a greater one.
///
/// RTPS 2.5, 9.6 (ParameterId values).
pub fn destination_order_code(kind: DestinationOrderQos) -> u32
    ensures code { result ≡ destination_order_code kind }
{
    match kind {
        DestinationOrderQos::ByReceptionTimestamp => 0,
        DestinationOrderQos::BySourceTimestamp => 1,
    }
}

/// The number of an access scope of PRESENTATION: a wider one has a greater one.
///
/// RTPS 2.5, 9.6 (ParameterId values).
pub fn scope_code(scope: PresentationScope) -> u32
    ensures code { result ≡ scope_code scope }
{
    match scope {
        PresentationScope::Instance => 0,
        PresentationScope::Topic => 1,
        PresentationScope::Group => 2,
    }
}
