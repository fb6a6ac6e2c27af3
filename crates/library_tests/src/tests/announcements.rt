//! Announcements of participants and endpoints.

mod captured;
mod fitting;
mod worked;
mod written;

use crate::tests::rows::{Subject, expect_rows, number_of, octets_of, push_hex, show, words_of};
use captured::CAPTURED;
use dds_base::{Code, Guid, GuidPrefix};
use fitting::FITTING;
use rtps_announcements::{
    Duration, Endpoint, EndpointKind, Locator, Name, Participant, Policies, is_writable_endpoint,
    is_writable_participant, read_endpoint, read_guid, read_participant, write_endpoint,
    write_guid, write_participant,
};
use rtps_discovery::{fits, misfit, taken_lease};
use std::alloc::Global;
use worked::WORKED;
use written::WRITTEN;

fn push_locators(text: &mut String, locators: &[Locator]) {
    for locator in locators {
        let (address, port) = (u32::from_be_bytes(locator.address), locator.port);
        let _ = write!(text, " {address:08x}:{port}");
    }
}

fn push_names(text: &mut String, names: &[Name]) {
    for name in names {
        let _ = text.push(' ');
        push_hex(text, name.as_slice());
    }
}

fn push_ids(text: &mut String, ids: &[u16]) {
    for id in ids {
        let _ = write!(text, " {id}");
    }
}

/// Appends a time: seconds, and 2^-32 seconds; or that it has no end.
fn push_time(text: &mut String, time: Duration) {
    match time.units() {
        Some(units) => {
            let (seconds, fraction) = (units >> 32, units & 0xffff_ffff);
            let _ = write!(text, "{seconds}.{fraction}");
        }
        None => {
            let _ = text.push_str("none");
        }
    }
}

fn push_policies(text: &mut String, policies: &Policies) {
    let (reliability, durability) = (policies.reliability, policies.durability);
    let (liveliness, ownership) = (policies.liveliness.kind, policies.ownership);
    let (strength, order) = (policies.strength, policies.destination_order);
    let scope = policies.presentation.scope;
    let coherent = policies.presentation.coherent_access;
    let ordered = policies.presentation.ordered_access;
    let _ = write!(text, "; {reliability:?} {durability:?} {liveliness:?} ");
    push_time(text, policies.liveliness.lease);
    let _ = write!(text, " {ownership:?} {strength}; deadline ");
    push_time(text, policies.deadline);
    let _ = text.push_str("; budget ");
    push_time(text, policies.latency_budget);
    let _ = write!(text, "; {order:?}; {scope:?} {coherent} {ordered}");
}

fn push_guid(text: &mut String, guid: &Guid) {
    let _ = text.push_str("guid ");
    push_hex(text, guid.prefix.as_slice());
    push_hex(text, guid.entity.as_slice());
}

fn push_endpoint(text: &mut String, endpoint: &Endpoint) {
    push_guid(text, &endpoint.guid);
    let _ = text.push_str("; topic ");
    push_hex(text, endpoint.topic_name.as_slice());
    let _ = text.push_str("; type ");
    push_hex(text, endpoint.type_name.as_slice());
    let _ = text.push_str("; at");
    push_locators(text, endpoint.locators.as_slice());
    let _ = text.push_str("; in");
    push_names(text, endpoint.partitions.as_slice());
    let _ = text.push_str("; as");
    push_ids(text, endpoint.representations.as_slice());
    push_policies(text, &endpoint.policies);
}

fn push_participant(text: &mut String, participant: &Participant) {
    let endpoints = participant.builtin_endpoints;
    let _ = text.push_str("vendor ");
    push_hex(text, &participant.vendor.0);
    let _ = write!(text, "; endpoints {endpoints:08x}; lease ");
    push_time(text, participant.lease);
    let _ = text.push_str("; metatraffic");
    push_locators(text, participant.metatraffic.as_slice());
    let _ = text.push_str("; default");
    push_locators(text, participant.default.as_slice());
}

fn push_read_endpoint(text: &mut String, source: GuidPrefix, kind: EndpointKind, octets: &[u8]) {
    match read_endpoint(source, kind, octets) {
        Some(endpoint) => push_endpoint(text, &endpoint),
        None => {
            let _ = text.push_str("none");
        }
    }
}

fn push_read_participant(text: &mut String, source: GuidPrefix, octets: &[u8]) {
    match read_participant(source, 0, octets) {
        Some(participant) => push_participant(text, &participant),
        None => {
            let _ = text.push_str("none");
        }
    }
}

fn push_read_guid(text: &mut String, source: GuidPrefix, octets: &[u8]) {
    match read_guid(source, octets) {
        Some(guid) => push_guid(text, &guid),
        None => {
            let _ = text.push_str("none");
        }
    }
}

fn push_written(text: &mut String, written: Result<Vec<u8>, Code>) {
    if let Ok(octets) = written {
        push_hex(text, &octets);
    }
}

/// Appends an endpoint as it is written, after it was read.
fn push_written_endpoint(
    alloc: Global,
    text: &mut String,
    source: GuidPrefix,
    kind: EndpointKind,
    octets: &[u8],
) {
    if let Some(endpoint) = read_endpoint(source, kind, octets) {
        if is_writable_endpoint(kind, &endpoint) {
            push_written(text, write_endpoint(alloc, kind, &endpoint));
        }
    }
}

fn push_written_participant(alloc: Global, text: &mut String, source: GuidPrefix, octets: &[u8]) {
    if let Some(participant) = read_participant(source, 0, octets) {
        if is_writable_participant(&participant) {
            push_written(text, write_participant(alloc, 0, &participant));
        }
    }
}

fn push_written_guid(alloc: Global, text: &mut String, source: GuidPrefix, octets: &[u8]) {
    if let Some(guid) = read_guid(source, octets) {
        push_written(text, write_guid(alloc, &guid));
    }
}

/// An endpoint with this entity id, of the topic "a" and the type "b", and with these parameters in little-endian.
fn announced(alloc: Global, id: &str, parameters: &str) -> Vec<u8> {
    let mut text = String::new(alloc);
    let _ = text.push_str("000300005a001000000000000000000000000001");
    let _ = text.push_str(id);
    let _ = text.push_str("0500080002000000610000000700080002000000 62000000 ");
    let _ = text.push_str(parameters);
    let _ = text.push_str(" 01000000");
    octets_of(alloc, &text)
}

/// Appends by which policy a writer and a reader do not fit, and whether they are matched.
fn push_fit(alloc: Global, text: &mut String, operands: &str) {
    let (offered, requested) = operands.split_once('/').unwrap_or((operands, ""));
    let source = prefix_of("000000000000000000000001");
    let writer = announced(alloc, "00000102", offered);
    let reader = announced(alloc, "00000104", requested);
    let writer = read_endpoint(source, EndpointKind::Writer, &writer);
    let reader = read_endpoint(source, EndpointKind::Reader, &reader);
    if let (Some(writer), Some(reader)) = (writer, reader) {
        let policy = misfit(&writer, &reader);
        let fits = fits(&writer, &reader);
        let _ = write!(text, "{policy:?} {fits}");
    }
}

/// Appends for how long a participant is taken to be there.
fn push_lease(text: &mut String, operands: &str) {
    let words = words_of(operands);
    let seconds = u32::try_from(number_of(words.first)).unwrap_or(u32::MAX);
    let fraction = u32::try_from(number_of(words.second)).unwrap_or(u32::MAX);
    show(text, &taken_lease(Duration { seconds, fraction }));
}

/// The prefix that hex digits spell, zeros where they spell none.
fn prefix_of(word: &str) -> GuidPrefix {
    let mut octets = [0; 12];
    let _ = hex::decode_to_slice(word, &mut octets);
    GuidPrefix(octets)
}

#[derive(Drop)]
struct Announcements;

impl Subject for Announcements {
    fn answer(&mut self, alloc: Global, text: &mut String, name: &str, operands: &str) {
        let (source, words) = operands.split_once(' ').unwrap_or((operands, ""));
        let source = prefix_of(source);
        let octets = octets_of(alloc, words);
        match name {
            "fits" => push_fit(alloc, text, operands),
            "lease" => push_lease(text, operands),
            "participant" => push_read_participant(text, source, &octets),
            "leaves" => push_read_guid(text, source, &octets),
            "write-participant" => push_written_participant(alloc, text, source, &octets),
            "write-leaves" => push_written_guid(alloc, text, source, &octets),
            "write-writer" => {
                push_written_endpoint(alloc, text, source, EndpointKind::Writer, &octets)
            }
            "write-reader" => {
                push_written_endpoint(alloc, text, source, EndpointKind::Reader, &octets)
            }
            "writer" => push_read_endpoint(text, source, EndpointKind::Writer, &octets),
            _ => push_read_endpoint(text, source, EndpointKind::Reader, &octets),
        }
    }
}

#[test]
fn announcements_are_read(rt: HostRuntime) {
    expect_rows(&rt, rt.alloc(), &mut Announcements, WORKED);
    expect_rows(&rt, rt.alloc(), &mut Announcements, CAPTURED);
    expect_rows(&rt, rt.alloc(), &mut Announcements, WRITTEN);
    expect_rows(&rt, rt.alloc(), &mut Announcements, FITTING);
}
