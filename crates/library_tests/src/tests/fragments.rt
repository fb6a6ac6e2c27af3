//! What no clause says: that datagrams with fragments are heard as the standard has them.

mod heard;

use crate::tests::rows::{Subject, expect_rows, octets_of, push_hex};
use dds_base::{EntityId, Guid, GuidPrefix, Octets};
use heard::HEARD;
use rtps_fragments::Fragments;
use std::alloc::Global;

/// The fragments of known writers.
#[derive(Drop)]
struct Hearing {
    fragments: Option<Fragments>,
}

fn guid_of(octets: &[u8]) -> Option<Guid> {
    if octets.len() != 16 {
        return None;
    }
    let mut prefix = [0; 12];
    prefix.copy_from_slice(&octets[..12]);
    let mut entity = [0; 4];
    entity.copy_from_slice(&octets[12..]);
    Some(Guid {
        prefix: GuidPrefix(prefix),
        entity: EntityId(entity),
    })
}

fn push_messages(text: &mut String, messages: &[Octets]) {
    for (i, message) in messages.iter().enumerate() {
        if i > 0 {
            let _ = text.push_str("; ");
        }
        push_hex(text, message.as_slice());
    }
}

fn push_lengths(text: &mut String, messages: &[Octets]) {
    for (i, message) in messages.iter().enumerate() {
        if i > 0 {
            let _ = text.push_str("; ");
        }
        let _ = write!(text, "{}", message.as_slice().len());
    }
}

impl Hearing {
    /// These writers are known, and nothing came of them.
    fn know(&mut self, alloc: Global, text: &mut String, operands: &str) {
        let mut writers = Vec::new(alloc);
        for word in operands.split(' ') {
            if let Some(guid) = guid_of(octets_of(alloc, word).as_slice()) {
                let _ = writers.push(guid);
            }
        }
        let _ = write!(text, "{}", writers.len());
        self.fragments = Fragments::new(alloc, writers.as_slice()).ok();
    }

    /// One more writer is known, or one no more.
    fn change(&mut self, alloc: Global, name: &str, operands: &str) {
        let Some(guid) = guid_of(octets_of(alloc, operands).as_slice()) else {
            return;
        };
        if let Some(fragments) = &mut self.fragments {
            if name == "knows" {
                let _ = fragments.know(alloc, guid);
            } else {
                fragments.forget(&guid);
            }
        }
    }

    /// The messages that come of a datagram.
    fn hear(&mut self, alloc: Global, operands: &str) -> Vec<Octets> {
        let mut whole = Vec::new(alloc);
        if let Some(fragments) = &mut self.fragments {
            let _ = fragments.hear(alloc, octets_of(alloc, operands).as_slice(), &mut whole);
        }
        whole
    }
}

impl Subject for Hearing {
    fn answer(&mut self, alloc: Global, text: &mut String, name: &str, operands: &str) {
        if name == "known" {
            self.know(alloc, text, operands);
            return;
        }
        if name == "knows" || name == "forgets" {
            self.change(alloc, name, operands);
            return;
        }
        let messages = self.hear(alloc, operands);
        if messages.is_empty() {
            let _ = text.push_str("nothing");
        } else if name == "hears" {
            push_messages(text, messages.as_slice());
        } else {
            push_lengths(text, messages.as_slice());
        }
    }
}

#[test]
fn fragments_make_payloads_whole(rt: HostRuntime) {
    let mut hearing = Hearing { fragments: None };
    expect_rows(&rt, rt.alloc(), &mut hearing, HEARD);
}
