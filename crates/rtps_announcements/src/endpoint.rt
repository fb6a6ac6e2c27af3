//! An endpoint, as its announcement says it.
//!
//! `specs/Endpoints.antt` is the grammar.
//!
//! RTPS 2.5, 8.5 (SEDP) and 9.6 (ParameterId values).

ghost use Rattle.std.specs.Prelude.{◌≡◌, ◌↔◌, Some, IfSome, IsTrue};
ghost use Rattle.rtps_announcements.specs.Endpoints.{ReadsEndpoint};
ghost use Rattle.rtps_announcements.specs.EndpointAt.{EndpointAt};
ghost use Rattle.rtps_announcements.specs.ListAt.{value_in};
ghost use Rattle.rtps_announcements.specs.Names.{pid_participant_guid};
ghost use Rattle.rtps_announcements.specs.Values.{IsOfKind, IsOfSender};
ghost use Rattle.rtps_announcements.specs.declared.endpoint.Endpoint.{Endpoint as EndpointOf};

use crate::guid::guid_in;
use crate::list::{first_value, has_parameters, take_representation};
use crate::locator::{Locators, locators_in};
use crate::name::{Name, name_in};
use crate::names::{
    LEN_ENTITY_ID, LEN_PREFIX, PID_ENDPOINT_GUID, PID_PARTICIPANT_GUID, PID_TOPIC_NAME,
    PID_TYPE_NAME, PID_UNICAST_LOCATOR,
};
use crate::partition::{Partitions, partitions_in};
use crate::policies::policies_in;
use crate::qos::EndpointKind;
use crate::representation::{Representations, representations_in};
use dds_base::{Endianness, Guid, GuidPrefix, Policies};

/// A DataWriter or a DataReader, as its participant announces it. The announcement lends the names.
///
/// RTPS 2.5, 8.5 (DiscoveredWriterData, DiscoveredReaderData).
#[derive(Debug, Drop)]
pub struct Endpoint<'a> {
    /// Its name, whose prefix is that of the sender.
    pub guid: Guid,
    /// The name of its topic.
    pub topic_name: Name<'a>,
    /// The name of its topic's type.
    pub type_name: Name<'a>,
    /// Where it can be reached by UDP over IPv4; none where that is as of its participant.
    pub locators: Locators,
    /// PARTITION: the names of its publisher's or subscriber's partitions; none is the one without a name.
    pub partitions: Partitions<'a>,
    /// DATA_REPRESENTATION: how its samples may stand in octets.
    pub representations: Representations,
    /// Its other policies.
    pub policies: Policies,
}

/// Whether the last octet of an entity id is of this kind.
pub fn is_of_kind(kind: EndpointKind, octet: u8) -> bool
    ensures { IsTrue result ↔ IsOfKind kind octet }
{
    match kind {
        EndpointKind::Writer => octet == 0x02 || octet == 0x03,
        EndpointKind::Reader => octet == 0x07 || octet == 0x04,
    }
}

/// Whether the GUID of the participant, where there is one, is of the sender.
fn is_of_sender(source: GuidPrefix, order: Endianness, list: &[u8]) -> bool
    ensures { IsTrue result ↔ IsOfSender source (value_in order list.now pid_participant_guid) }
{
    let Some(value) = first_value(order, list, PID_PARTICIPANT_GUID) else {
        return true;
    };
    LEN_PREFIX + LEN_ENTITY_ID <= value.len() && &value[..LEN_PREFIX] == source.as_slice()
}

/// The endpoint that a list of parameters announces.
fn endpoint_in(
    source: GuidPrefix,
    kind: EndpointKind,
    order: Endianness,
    list: &[u8],
) -> Option<Endpoint<'_>>
    ensures found { IfSome result (λ e. EndpointAt source kind order list.now e) }
    ensures only { (e : EndpointOf) → EndpointAt source kind order list.now e → result ≡ Some e }
{
    let guid = guid_in(source, order, list, PID_ENDPOINT_GUID)?;
    if !is_of_kind(kind, guid.entity.kind()) {
        return None;
    }
    if !is_of_sender(source, order, list) {
        return None;
    }
    let topic_name = name_in(order, list, PID_TOPIC_NAME)?;
    let type_name = name_in(order, list, PID_TYPE_NAME)?;
    let partitions = partitions_in(order, list)?;
    let representations = representations_in(order, list)?;
    let policies = policies_in(kind, order, list)?;
    Some(Endpoint {
        guid,
        topic_name,
        type_name,
        locators: locators_in(order, list, PID_UNICAST_LOCATOR),
        partitions,
        representations,
        policies,
    })
}

/// The endpoint that the payload of a DATA of SEDP announces: of a publication a writer, of a subscription a reader, of
/// the participant with the prefix `source`, which sent it. The payload lends the names. `None` where it announces none:
/// where the bytes are no list of parameters, a parameter that must be understood is not known, one that must be there is
/// not, or one has a value that there is not. Takes no memory.
///
/// Of a repeated parameter the first counts. What follows the sentinel, and in a value what follows its fields, is not
/// looked at.
///
/// RTPS 2.5, 8.5 (SEDP), 9.4.2 and 9.6; DDS 1.4, 2.2.3.
pub fn read_endpoint(source: GuidPrefix, kind: EndpointKind, bytes: &[u8]) -> Option<Endpoint<'_>>
    // What is read is announced so.
    ensures found { IfSome result (λ e. ReadsEndpoint source kind bytes.now e) }
    // What is announced so is read, and nothing else.
    ensures only { (e : EndpointOf) → ReadsEndpoint source kind bytes.now e → result ≡ Some e }
{
    // This shows the prover how many octets a prefix has.
    let _octets = source.as_slice();
    let (order, list) = take_representation(bytes)?;
    if !has_parameters(order, &[], list) {
        return None;
    }
    endpoint_in(source, kind, order, list)
}
