//! Which endpoints and participants can be written.
//!
//! `specs/WrittenEndpoints.antt` and `specs/WrittenParticipants.antt` say it.
//!
//! RTPS 2.5, 9.3.2 and 9.6.

ghost use Rattle.std.specs.Prelude.{◌↔◌, ◌<◌, ◌^◌, IsTrue};
ghost use Rattle.rtps_announcements.specs.Names.{max_locators, max_partitions, max_representations};
ghost use Rattle.rtps_announcements.specs.Values.{AreListed, IsDuration, IsName};
ghost use Rattle.rtps_announcements.specs.Written.{IsLocator};
ghost use Rattle.rtps_announcements.specs.WrittenEndpoints.{ArePolicies, IsWritableEndpoint};
ghost use Rattle.rtps_announcements.specs.WrittenParticipants.{AreReachable, IsWritableParticipant};

use crate::endpoint::{Endpoint, is_of_kind};
use crate::locator::{Locator, Locators, is_of_host};
use crate::name::Name;
use crate::names::{MAX_NAME, MAX_REPRESENTATIONS, SECONDS_END};
use crate::participant::Participant;
use crate::partition::Partitions;
use crate::qos::EndpointKind;
use crate::representation::Representations;
use dds_base::{Duration, Policies};

/// Whether the seconds are not negative.
fn is_duration(time: Duration) -> bool
    ensures { IsTrue result ↔ IsDuration time }
{
    time.seconds < SECONDS_END
}

/// Whether a name is short enough, and no octet of it is zero.
fn is_name(name: &Name) -> bool
    ensures { IsTrue result ↔ IsName name.now }
{
    let octets = name.as_slice();
    octets.len() <= MAX_NAME && !octets.contains(&0)
}

/// Whether each name is one.
fn are_names(partitions: &Partitions) -> bool
    ensures { IsTrue result ↔ AreListed max_partitions IsName partitions.now }
{
    for name in partitions.as_slice() {
        if !is_name(name) {
            return false;
        }
    }
    true
}

/// Whether one host can have the address, and the port is not 0.
fn is_locator(locator: &Locator) -> bool
    ensures { IsTrue result ↔ IsLocator locator.now }
{
    // This shows the prover how many octets there are.
    let _octets = locator.address.as_slice();
    0 < locator.port && is_of_host(locator.address[0])
}

/// Whether each locator is one.
fn are_locators(locators: &Locators) -> bool
    ensures { IsTrue result ↔ AreListed max_locators IsLocator locators.now }
{
    for locator in locators.as_slice() {
        if !is_locator(locator) {
            return false;
        }
    }
    true
}

/// Whether there is a locator, and each is one.
fn are_reachable(locators: &Locators) -> bool
    ensures { IsTrue result ↔ AreReachable locators.now }
{
    !locators.as_slice().is_empty() && are_locators(locators)
}

/// Whether each id is one: they all are.
fn are_ids(representations: &Representations) -> bool
    ensures { IsTrue result
        ↔ AreListed max_representations (λ id. id < 2 ^ 16) representations.now }
{
    // This shows the prover how many ids there are, and their range.
    let ids = representations.as_slice();
    ids.len() <= MAX_REPRESENTATIONS
}

/// Whether the policies have a written form: no time is negative.
fn are_policies(policies: &Policies) -> bool
    ensures { IsTrue result ↔ ArePolicies policies.now }
{
    // This shows the prover the range of the strength.
    let _strength = policies.strength;
    is_duration(policies.liveliness.lease)
        && is_duration(policies.deadline)
        && is_duration(policies.latency_budget)
}

/// Whether an endpoint of this kind can be written: its entity id is one of the kind, each name has at most 256 octets,
/// none of them zero, each locator is one of a host, and no time is negative.
pub fn is_writable_endpoint(kind: EndpointKind, endpoint: &Endpoint) -> bool
    ensures writable { IsTrue result ↔ IsWritableEndpoint kind endpoint.now }
{
    // These show the prover how many octets there are.
    let _prefix = endpoint.guid.prefix.as_slice();
    let _entity = endpoint.guid.entity.as_slice();
    is_of_kind(kind, endpoint.guid.entity.kind())
        && is_name(&endpoint.topic_name)
        && is_name(&endpoint.type_name)
        && are_locators(&endpoint.locators)
        && are_names(&endpoint.partitions)
        && are_ids(&endpoint.representations)
        && are_policies(&endpoint.policies)
}

/// Whether a participant can be written: its lease is not negative, and there are locators of a host for its builtin
/// endpoints, and for its others.
pub fn is_writable_participant(participant: &Participant) -> bool
    ensures writable { IsTrue result ↔ IsWritableParticipant participant.now }
{
    // These show the prover how many octets there are, and a range.
    let _prefix = participant.prefix.as_slice();
    let _vendor = participant.vendor.0.as_slice();
    let _endpoints = participant.builtin_endpoints;
    is_duration(participant.lease)
        && are_reachable(&participant.metatraffic)
        && are_reachable(&participant.default)
}
