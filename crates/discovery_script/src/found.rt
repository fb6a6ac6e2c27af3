//! How participants and endpoints are printed that were found.
//!
//! DDS 1.4, 2.2.3 (supported QoS); RTPS 2.5, 9.3 (VendorId_t).

use crate::text::{push_address, push_guid};
use dds_base::{OwnershipQos, ReliabilityQos};
use dds_script::{Fault, TranscriptLine, print};
use rtps_announcements::{
    DestinationOrderQos, DurabilityQos, Duration, Endpoint, EndpointKind, LivelinessKind, Policies,
    PresentationScope, Representations, VendorId,
};
use rtps_discovery::Row;
use rtps_matching::{End, Far};
use std::alloc::Global;
use std::io::Write;

/// Who has this id.
fn vendor_name(vendor: VendorId) -> &'static str {
    match vendor.0 {
        [0x01, 0x01] => " RTI Connext",
        [0x01, 0x03] => " OpenDDS",
        [0x01, 0x0f] => " Fast DDS",
        [0x01, 0x10] => " Cyclone DDS",
        _ => "",
    }
}

/// Visible characters as they are, and of all other octets the digits.
fn push_letter(text: &mut TranscriptLine, octet: u8) {
    let letter = [octet];
    match str::from_utf8(letter.as_slice()) {
        Ok(word) if octet.is_ascii_graphic() && octet != b'\\' => text.push_word(word),
        _ => {
            text.push_word("\\x");
            text.push_octets(letter.as_slice());
        }
    }
}

fn push_letters(text: &mut TranscriptLine, name: &[u8]) {
    for octet in name {
        push_letter(text, *octet);
    }
}

/// A name; `\` where it has no octets.
fn push_name(text: &mut TranscriptLine, name: &[u8]) {
    text.push_word(" ");
    if name.is_empty() {
        text.push_word("\\");
    }
    push_letters(text, name);
}

/// A time, to a millionth of a second.
fn push_time(
    alloc: Global,
    text: &mut TranscriptLine,
    name: &str,
    time: Duration,
) -> Result<(), Fault> {
    text.push_word(name);
    if time.units().is_none() {
        text.push_word("infinite");
        return Ok(());
    }
    let seconds = u64::from(time.seconds);
    let millionths = (u64::from(time.fraction)
        .saturating_mul(1_000_000)
        .saturating_add(1 << 31))
        >> 32;
    let all = seconds.saturating_mul(1_000_000).saturating_add(millionths);
    let word = if millionths == 0 {
        format!(in alloc; "{seconds}s")?
    } else if all % 1_000 == 0 {
        format!(in alloc; "{}ms", all / 1_000)?
    } else {
        format!(in alloc; "{all}us")?
    };
    text.push_word(word.as_str());
    Ok(())
}

/// A time, if it has an end.
fn push_end(
    alloc: Global,
    text: &mut TranscriptLine,
    name: &str,
    time: Duration,
) -> Result<(), Fault> {
    if time.units().is_none() {
        return Ok(());
    }
    push_time(alloc, text, name, time)
}

fn reliability_word(policies: &Policies) -> &'static str {
    match policies.reliability {
        ReliabilityQos::Reliable => " reliable",
        ReliabilityQos::BestEffort => " besteffort",
    }
}

fn durability_word(policies: &Policies) -> &'static str {
    match policies.durability {
        DurabilityQos::Volatile => " volatile",
        DurabilityQos::TransientLocal => " transientlocal",
        DurabilityQos::Transient => " transient",
        DurabilityQos::Persistent => " persistent",
    }
}

fn liveliness_word(policies: &Policies) -> &'static str {
    match policies.liveliness.kind {
        LivelinessKind::Automatic => "",
        LivelinessKind::ManualByParticipant => " byparticipant",
        LivelinessKind::ManualByTopic => " bytopic",
    }
}

fn ownership_word(policies: &Policies) -> &'static str {
    match policies.ownership {
        OwnershipQos::Shared => "",
        OwnershipQos::Exclusive => " exclusive",
    }
}

fn order_word(policies: &Policies) -> &'static str {
    match policies.destination_order {
        DestinationOrderQos::ByReceptionTimestamp => "",
        DestinationOrderQos::BySourceTimestamp => " bysource",
    }
}

fn scope_word(policies: &Policies) -> &'static str {
    match policies.presentation.scope {
        PresentationScope::Instance => "",
        PresentationScope::Topic => " intopic",
        PresentationScope::Group => " ingroup",
    }
}

/// The options that are words: RELIABILITY and DURABILITY, and of the others what is not the default.
fn push_words(text: &mut TranscriptLine, policies: &Policies) {
    text.push_word(reliability_word(policies));
    text.push_word(durability_word(policies));
    text.push_word(liveliness_word(policies));
    text.push_word(ownership_word(policies));
    text.push_word(order_word(policies));
    text.push_word(scope_word(policies));
    if policies.presentation.coherent_access {
        text.push_word(" coherent");
    }
    if policies.presentation.ordered_access {
        text.push_word(" ordered");
    }
}

/// The options with a time or a number that is not the default.
fn push_numbers(
    alloc: Global,
    text: &mut TranscriptLine,
    policies: &Policies,
) -> Result<(), Fault> {
    let strength = policies.strength;
    if strength != 0 {
        text.push_word(format!(in alloc; " strength={strength}")?.as_str());
    }
    push_end(alloc, text, " lease=", policies.liveliness.lease)?;
    push_end(alloc, text, " deadline=", policies.deadline)?;
    if policies.latency_budget != Duration::ZERO {
        push_time(alloc, text, " latency=", policies.latency_budget)?;
    }
    Ok(())
}

/// The representations, where they are others than XCDR1 alone.
fn push_representations(
    alloc: Global,
    text: &mut TranscriptLine,
    all: &Representations,
) -> Result<(), Fault> {
    match all.as_slice() {
        [] | [Representations::XCDR1] => Ok(()),
        ids => {
            for id in ids {
                text.push_word(format!(in alloc; " representation={id}")?.as_str());
            }
            Ok(())
        }
    }
}

/// The names of its topic and of its type, and its options.
fn push_endpoint(
    alloc: Global,
    text: &mut TranscriptLine,
    endpoint: &Endpoint,
) -> Result<(), Fault> {
    push_name(text, endpoint.topic_name.as_slice());
    push_name(text, endpoint.type_name.as_slice());
    push_words(text, &endpoint.policies);
    push_numbers(alloc, text, &endpoint.policies)?;
    for name in endpoint.partitions.as_slice() {
        text.push_word(" partition=");
        push_letters(text, name.as_slice());
    }
    push_representations(alloc, text, &endpoint.representations)
}

fn kind_word(kind: EndpointKind) -> &'static str {
    match kind {
        EndpointKind::Writer => "writer ",
        EndpointKind::Reader => "reader ",
    }
}

/// Prints a writer or a reader, after a word.
pub fn print_end(
    alloc: Global,
    word: &str,
    end: &End,
    output: &mut impl Write,
) -> Result<(), Fault> {
    let mut text = TranscriptLine::new(alloc);
    text.push_word(word);
    text.push_word(kind_word(end.kind));
    push_guid(&mut text, &end.endpoint.guid());
    push_endpoint(alloc, &mut text, &end.endpoint.lend())?;
    print(output, text.finish()?.as_str())
}

/// Prints an endpoint of another participant, as it was announced last, after a word.
pub fn print_far(
    alloc: Global,
    word: &str,
    far: &Far,
    output: &mut impl Write,
) -> Result<(), Fault> {
    if let Some(end) = &far.end {
        return print_end(alloc, word, end, output);
    }
    let mut text = TranscriptLine::new(alloc);
    text.push_word(word);
    text.push_word("unread ");
    push_guid(&mut text, &far.guid);
    print(output, text.finish()?.as_str())
}

/// Prints a participant that is known: where it is, its lease, and who made it.
pub fn print_row(alloc: Global, row: &Row, output: &mut impl Write) -> Result<(), Fault> {
    let mut text = TranscriptLine::new(alloc);
    text.push_word("participant ");
    text.push_octets(row.participant.prefix.as_slice());
    text.push_word(" ");
    push_address(alloc, &mut text, &row.source)?;
    push_time(alloc, &mut text, " lease=", row.participant.lease)?;
    if !row.is_awake {
        text.push_word(" asleep");
    }
    text.push_word(" vendor=");
    text.push_octets(row.participant.vendor.0.as_slice());
    text.push_word(vendor_name(row.participant.vendor));
    print(output, text.finish()?.as_str())
}
