//! Our writers and readers, as an application says them.
//!
//! `specs/Ends.antt` says it.
//!
//! DDS 1.4, 2.2.3 (supported QoS).

ghost use Rattle.std.specs.Prelude.{◌≡◌, ◌↔◌, ◌+◌, ◌∷◌, [], IfOk, IfSome, IsTrue};
ghost use Rattle.rtps_announcements.specs.WrittenEndpoints.{IsWritableEndpoint};
ghost use Rattle.rtps_announcements.specs.declared.qos.EndpointKind.TheVariants as kind_of;
ghost use Rattle.dds_exchange.specs.Opening.{CanHold};
ghost use Rattle.dds_exchange.specs.Tables.{said_by};
ghost use Rattle.dds_live.specs.Ends.{AreEnds, IsEnd, IsUsual, endpoint_of, entity_of, has_key, representation_of, said_in};

use crate::failure::Failure;
use dds_base::{
    DestinationOrderQos, DurabilityQos, Duration, EntityId, Guid, GuidPrefix, LivelinessKind,
    LivelinessQos, MAX_VALUE, OwnershipQos, Policies, PresentationQos, ReliabilityQos, USUAL_VALUE,
};
use dds_domain::OurEnd;
use dds_exchange::{Carried, can_hold};
use rtps_adapter::{Encoding, KeyField};
use rtps_announcements::{
    Endpoint, EndpointKind, Locators, Name, Partitions, Representations, is_writable_endpoint,
};
use rtps_matching::{End, Owned};
use std::alloc::{AllocError, Global};

/// How many octets a name has at most.
///
/// RTPS 2.5, 9.4.2 (strings); this project's own bound.
const MAX_NAME: usize = 256;

/// What the topic of a writer or a reader carries.
#[derive(Clone, Copy)]
pub enum Carries<'a> {
    /// The datum of this project.
    Datum,
    /// Another type, without a key: a value is a payload of it, with its representation and its options.
    Keyless,
    /// Another type, with these key fields, likewise.
    Keyed(Encoding, &'a [KeyField]),
}

/// A writer or a reader of ours. Writers are numbered from 1 in their order, and so are readers.
///
/// DDS 1.4, 2.2.2.4.1 and 2.2.2.5.2 (create_datawriter, create_datareader).
#[derive(Clone, Copy)]
pub struct EndSettings<'a> {
    /// Which of them it is.
    pub kind: EndpointKind,
    /// The name of its topic, of 256 octets at most.
    pub topic_name: &'a str,
    /// The name of its topic's type, likewise.
    pub type_name: &'a str,
    /// What its topic carries.
    pub carries: Carries<'a>,
    /// What it offers or asks for: of what our peer holds to, RELIABILITY, OWNERSHIP with its strength and LATENCY_BUDGET
    /// may be said.
    pub policies: Policies,
    /// How many octets a value has at most, from 1 to 65,000.
    pub max_value: u32,
}

/// The policies where none are said: RELIABLE, and else the standard's defaults.
const USUAL: Policies = Policies {
    reliability: ReliabilityQos::Reliable,
    durability: DurabilityQos::Volatile,
    liveliness: LivelinessQos {
        kind: LivelinessKind::Automatic,
        lease: Duration::INFINITE,
    },
    ownership: OwnershipQos::Shared,
    strength: 0,
    deadline: Duration::INFINITE,
    latency_budget: Duration::ZERO,
    destination_order: DestinationOrderQos::ByReceptionTimestamp,
    presentation: PresentationQos::DEFAULT,
};

impl<'a> EndSettings<'a> {
    /// A writer of a type without a key: RELIABLE, of values of up to 1,024 octets.
    pub fn writer(topic_name: &'a str, type_name: &'a str) -> EndSettings<'a>
        ensures usual { IsUsual kind_of.Writer topic_name.now type_name.now result }
    {
        EndSettings::usual(EndpointKind::Writer, topic_name, type_name)
    }

    /// A reader of such a type.
    pub fn reader(topic_name: &'a str, type_name: &'a str) -> EndSettings<'a>
        ensures usual { IsUsual kind_of.Reader topic_name.now type_name.now result }
    {
        EndSettings::usual(EndpointKind::Reader, topic_name, type_name)
    }

    fn usual(kind: EndpointKind, topic_name: &'a str, type_name: &'a str) -> EndSettings<'a>
        ensures { IsUsual kind topic_name.now type_name.now result }
    {
        EndSettings {
            kind,
            topic_name,
            type_name,
            carries: Carries::Keyless,
            policies: USUAL,
            max_value: USUAL_VALUE,
        }
    }
}

/// The entity id of a writer or a reader of this number, whose topic has a key or none.
fn entity_of(kind: EndpointKind, number: u8, keyed: bool) -> EntityId
    ensures { result ≡ entity_of kind number keyed }
{
    let kind = match (kind, keyed) {
        (EndpointKind::Writer, true) => 0x02,
        (EndpointKind::Writer, false) => 0x03,
        (EndpointKind::Reader, true) => 0x07,
        (EndpointKind::Reader, false) => 0x04,
    };
    EntityId([0, 0, number, kind])
}

impl<'a> Carries<'a> {
    fn has_key(self) -> bool
        ensures { result ≡ has_key self.entry }
    {
        !matches!(self, Carries::Keyless)
    }

    /// How its values stand in octets.
    fn representations(self) -> Representations
        ensures { result ≡ representation_of self.entry ∷ [] }
    {
        let mut representations = Representations::new();
        let _ = representations.push(match self {
            Carries::Keyed(Encoding::Cdr2, _) => Representations::XCDR2,
            _ => Representations::XCDR1,
        });
        representations
    }

    fn carried(self, alloc: Global) -> Result<Carried, AllocError>
        ensures { IfOk result (λ carried. said_by carried ≡ said_in self.entry) }
    {
        match self {
            Carries::Datum => Ok(Carried::Datum),
            Carries::Keyless => Ok(Carried::Keyless),
            Carries::Keyed(encoding, fields) => {
                Ok(Carried::Keyed(encoding, Vec::from_slice(alloc, fields)?))
            }
        }
    }
}

/// What is announced of it.
fn announced<'a>(prefix: GuidPrefix, number: u8, end: &EndSettings<'a>) -> Endpoint<'a>
    ensures { result ≡ endpoint_of prefix number end.now }
{
    let entity = entity_of(end.kind, number, end.carries.has_key());
    Endpoint {
        guid: Guid { prefix, entity },
        topic_name: Name::new(end.topic_name.as_bytes()),
        type_name: Name::new(end.type_name.as_bytes()),
        locators: Locators::new(),
        partitions: Partitions::new(),
        representations: end.carries.representations(),
        policies: end.policies,
    }
}

fn is_name(name: &str) -> bool {
    name.len() <= MAX_NAME && !name.as_bytes().contains(&0)
}

/// Why it is none, if it is not.
fn fault_of(number: u8, end: &EndSettings) -> Option<Failure> {
    if !is_name(end.topic_name) {
        return Some(Failure::TopicName(number));
    }
    if !is_name(end.type_name) {
        return Some(Failure::TypeName(number));
    }
    if end.max_value == 0 || end.max_value as usize > MAX_VALUE {
        return Some(Failure::MaxValue(number));
    }
    None
}

/// The writer or the reader of this number.
fn our_end(
    alloc: Global,
    prefix: GuidPrefix,
    number: u8,
    end: &EndSettings,
) -> Result<OurEnd, Failure>
    ensures end { IfOk result (λ o. IsEnd prefix number end.now o) }
{
    if let Some(failure) = fault_of(number, end) {
        return Err(failure);
    }
    let kind = end.kind;
    let endpoint = announced(prefix, number, end);
    if !can_hold(&end.policies) || !is_writable_endpoint(kind, &endpoint) {
        return Err(Failure::Policies(number));
    }
    let carried = end.carries.carried(alloc)?;
    let endpoint = Owned::of(alloc, &endpoint)?;
    Ok(OurEnd {
        end: End { kind, endpoint },
        carried: Some(carried),
        max_value: end.max_value,
    })
}

/// The number behind so many; `None` where there are 255.
fn number_behind(count: usize) -> Option<u8>
    ensures { IfSome result (λ number. number ≡ count + 1) }
{
    u8::try_from(count.saturating_add(1)).ok()
}

/// The writers and readers, numbered in their order.
pub(crate) fn our_ends(
    alloc: Global,
    prefix: GuidPrefix,
    ends: &[EndSettings],
) -> Result<Vec<OurEnd>, Failure>
    ensures ends { IfOk result (λ ours. AreEnds prefix ends.now ours.items) }
{
    let mut ours = Vec::new(alloc);
    for end in ends {
        let Some(number) = number_behind(ours.len()) else {
            return Err(Failure::TooManyEnds);
        };
        match our_end(alloc, prefix, number, end) {
            Ok(one) => ours.push(one)?,
            Err(failure) => return Err(failure),
        }
    }
    Ok(ours)
}
