//! What no clause says: that the definitions of matching are what the standard has, on announcements.

mod tables;

use crate::tests::rows::{Subject, expect_rows, number_of, octets_of, push_hex, words_of};
use dds_base::{EntityId, Guid, GuidPrefix};
use rtps_announcements::{EndpointKind, read_endpoint};
use rtps_matching::{End, Endpoints, Owned, Told};
use std::alloc::Global;
use tables::TABLES;

/// The table.
#[derive(Drop)]
struct Matching {
    endpoints: Endpoints,
}

/// The prefix that ends with this octet.
fn prefix_of(word: &str) -> GuidPrefix {
    let mut prefix = [0; 12];
    prefix[11] = u8::try_from(number_of(word)).unwrap_or(0);
    GuidPrefix(prefix)
}

fn kind_of(word: &str) -> EndpointKind {
    match word {
        "writer" => EndpointKind::Writer,
        _ => EndpointKind::Reader,
    }
}

/// The first writer or reader of a participant.
fn guid_of(prefix: &str, kind: EndpointKind) -> Guid {
    let entity = match kind {
        EndpointKind::Writer => EntityId::writer([0, 0, 1]),
        EndpointKind::Reader => EntityId::reader([0, 0, 1]),
    };
    Guid {
        prefix: prefix_of(prefix),
        entity,
    }
}

fn push_guid(text: &mut String, guid: &Guid) {
    push_hex(text, guid.prefix.as_slice());
    push_hex(text, guid.entity.as_slice());
}

fn push_told(text: &mut String, told: &Told) {
    let (word, own, far) = match told {
        Told::Matched(own, far) => ("matched", own, far),
        Told::Unmatched(own, far) => ("unmatched", own, far),
        Told::Changed(own, far) => ("changed", own, far),
    };
    if !text.is_empty() {
        let _ = text.push_str("; ");
    }
    let _ = write!(text, "{word} ");
    push_guid(text, own);
    let _ = text.push(' ');
    push_guid(text, far);
}

/// One more of our own, of the participant 1, as its announcement says it.
fn add(
    alloc: Global,
    endpoints: &mut Endpoints,
    kind: EndpointKind,
    payload: &[u8],
) -> Option<Vec<Told>> {
    let endpoint = read_endpoint(prefix_of("1"), kind, payload)?;
    let endpoint = Owned::of(alloc, &endpoint).ok()?;
    endpoints.add(alloc, End { kind, endpoint }).ok()
}

/// What an operation tells; `None` where it is refused.
fn told_by(
    alloc: Global,
    endpoints: &mut Endpoints,
    name: &str,
    operands: &str,
) -> Option<Vec<Told>> {
    let words = words_of(operands);
    let kind = kind_of(words.second);
    match name {
        "add" => add(
            alloc,
            endpoints,
            kind_of(words.first),
            &octets_of(alloc, words.second),
        ),
        "remove" => endpoints
            .remove(alloc, &guid_of("1", kind_of(words.first)))
            .ok(),
        "announce" => {
            let payload = octets_of(alloc, words.third);
            endpoints
                .announce(alloc, guid_of(words.first, kind), kind, &payload)
                .ok()
        }
        "withdraw" => endpoints.withdraw(alloc, &guid_of(words.first, kind)).ok(),
        "leave" => endpoints.leave(alloc, &prefix_of(words.first)).ok(),
        "sleep" => endpoints.sleep(alloc, &prefix_of(words.first)).ok(),
        _ => endpoints.wake(alloc, &prefix_of(words.first)).ok(),
    }
}

impl Subject for Matching {
    fn answer(&mut self, alloc: Global, text: &mut String, name: &str, operands: &str) {
        let Some(all) = told_by(alloc, &mut self.endpoints, name, operands) else {
            let _ = text.push_str("refused");
            return;
        };
        for told in &all {
            push_told(text, told);
        }
        if text.is_empty() {
            let _ = text.push_str("nothing");
        }
    }
}

#[test]
fn endpoints_are_matched(rt: HostRuntime) {
    let alloc = rt.alloc();
    let mut matching = Matching {
        endpoints: Endpoints::new(alloc, 2),
    };
    expect_rows(&rt, alloc, &mut matching, TABLES);
}
