//! What no clause says: that the definitions of discovery are what the standard has, on datagrams.

mod known;

use crate::tests::rows::{Subject, expect_rows, number_of, octets_of, push_hex, words_of};
use dds_base::GuidPrefix;
use known::KNOWN;
use rtps_announcements::{Locator, read_participant};
use rtps_discovery::{Heard, Limits, Packet, Participants, Row, Settings, Ticked, Told};
use std::alloc::Global;

/// What the first participant announces: a lease of 20 seconds, and its ports on the loopback.
const ANNOUNCED: &str =
    "00030000 50001000 000000000000000000000001 000001c1 15000400 02050000 16000400 00000000 \
0f000400 00000000 58000400 3f0c0000 02000800 14000000 00000000 32001800 01000000 f21c0000 00000000 00000000 00000000 \
7f000001 31001800 01000000 f31c0000 00000000 00000000 00000000 7f000001 01000000";

/// Where everybody is told of us.
const GROUP: Locator = Locator {
    address: [239, 255, 0, 1],
    port: 7400,
};

/// Those that are known, once it was opened.
#[derive(Drop)]
struct Knowing {
    participants: Option<Participants>,
}

fn address_of(alloc: Global, word: &str) -> [u8; 4] {
    match octets_of(alloc, word).as_slice() {
        [a, b, c, d] => [*a, *b, *c, *d],
        _ => [0; 4],
    }
}

/// The moment of so many seconds.
fn moment_of(word: &str) -> u64 {
    number_of(word).wrapping_mul(1 << 32)
}

fn opened(alloc: Global, words: &str) -> Option<Participants> {
    let words = words_of(words);
    let mut prefix = [0; 12];
    prefix[11] = 1;
    let participant = read_participant(GuidPrefix(prefix), 0, &octets_of(alloc, ANNOUNCED))?;
    let mut addresses = Vec::new(alloc);
    let _ = addresses.push(GROUP);
    let limits = Limits {
        of_all: usize::try_from(number_of(words.first)).unwrap_or(0),
        of_one_address: usize::try_from(number_of(words.second)).unwrap_or(0),
    };
    let settings = Settings {
        participant,
        domain: 0,
        addresses,
        limits,
    };
    Participants::open(alloc, settings).ok()
}

/// Appends what stands between two parts, where there is one already.
fn push_between(text: &mut String) {
    if !text.is_empty() {
        let _ = text.push_str("; ");
    }
}

fn push_told(text: &mut String, told: &Told) {
    push_between(text);
    let prefix = match told {
        Told::Appeared(prefix) => {
            let _ = text.push_str("appeared ");
            prefix
        }
        Told::Gone(prefix) => {
            let _ = text.push_str("gone ");
            prefix
        }
    };
    push_hex(text, prefix.as_slice());
}

fn push_packet(text: &mut String, packet: &Packet) {
    push_between(text);
    let _ = text.push_str("to ");
    push_hex(text, &packet.to.address);
    let port = packet.to.port;
    let _ = write!(text, ":{port} ");
    push_hex(text, packet.bytes.as_slice());
}

fn push_heard(text: &mut String, heard: &Heard) {
    if let Some(told) = &heard.told {
        push_told(text, told);
    }
    if let Some(packet) = &heard.packet {
        push_packet(text, packet);
    }
}

fn push_ticked(text: &mut String, ticked: &Ticked) {
    for told in &ticked.told {
        push_told(text, told);
    }
    for packet in &ticked.packets {
        push_packet(text, packet);
    }
}

fn push_row(text: &mut String, row: &Row) {
    push_between(text);
    push_hex(text, row.participant.prefix.as_slice());
    let _ = text.push(' ');
    push_hex(text, &row.source);
    let (seconds, state) = (
        row.heard >> 32,
        if row.is_awake { "awake" } else { "asleep" },
    );
    let _ = write!(text, " {seconds} {state}");
}

/// Appends what comes of an operation at an open one.
fn push_answer(
    alloc: Global,
    text: &mut String,
    participants: &mut Participants,
    name: &str,
    operands: &str,
) {
    let words = words_of(operands);
    match name {
        "hears" => {
            let (from, moment) = (address_of(alloc, words.first), moment_of(words.second));
            let bytes = octets_of(alloc, words.third);
            if let Ok(heard) = participants.deliver(alloc, moment, &from, &bytes) {
                push_heard(text, &heard);
            }
        }
        "ticks" => {
            if let Ok(ticked) = participants.tick(alloc, moment_of(words.first)) {
                push_ticked(text, &ticked);
            }
        }
        "farewells" => {
            if let Ok(packets) = participants.farewells(alloc) {
                for packet in &packets {
                    push_packet(text, packet);
                }
            }
        }
        _ => {
            for row in participants.rows() {
                push_row(text, row);
            }
        }
    }
}

impl Subject for Knowing {
    fn answer(&mut self, alloc: Global, text: &mut String, name: &str, operands: &str) {
        if name == "opens" {
            self.participants = opened(alloc, operands);
            let _ = text.push_str("opened");
            return;
        }
        if let Some(participants) = &mut self.participants {
            push_answer(alloc, text, participants, name, operands);
        }
        if text.is_empty() {
            let _ = text.push_str("nothing");
        }
    }
}

#[test]
fn participants_come_and_go(rt: HostRuntime) {
    let mut knowing = Knowing { participants: None };
    expect_rows(&rt, rt.alloc(), &mut knowing, KNOWN);
}
