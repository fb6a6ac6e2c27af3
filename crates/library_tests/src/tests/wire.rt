//! Messages and their octets.

mod captured;
mod headers;
mod other_forms;
mod written;

use crate::tests::rows::{
    Subject, Words, expect_rows, number_of, octets_of, push_hex, push_octets, show, words_of,
};
use crate::tests::sets::push_set;
use captured::CAPTURED;
use dds_base::{DatumRef, EntityId, GuidPrefix, Key, Sn};
use headers::{CUT, HEADERS};
use other_forms::OTHER_FORMS;
use rtps_wire::{
    AckNack, ChangeBody, Data, DataContent, Gap, Heartbeat, Message, Read, Submessage, Submessages,
    is_writable, read_message, write_message,
};
use std::alloc::Global;
use written::{WRITABLE, WRITTEN};

/// RTPS, version 2.5, no vendor, the first peer.
const HEADER: &str = "52545053 0205 0000 000000000000000000000001";

const FIRST: GuidPrefix = GuidPrefix([0, 0, 0, 0, 0, 0, 0, 0, 0, 0, 0, 1]);

const ONE: Key = Key([0, 0, 0, 0, 0, 0, 0, 0, 0, 0, 0, 0, 0, 0, 0, 1]);

/// The octets of a message with these after its header.
fn message_of(alloc: Global, words: &str) -> Vec<u8> {
    let mut octets = octets_of(alloc, HEADER);
    push_octets(alloc, &mut octets, words);
    octets
}

fn push_ids(text: &mut String, name: &str, writer: EntityId, reader: EntityId) {
    let (writer, reader) = (u32::from_be_bytes(writer.0), u32::from_be_bytes(reader.0));
    let _ = write!(text, "; {name} writer {writer:08x} reader {reader:08x}");
}

fn push_key(text: &mut String, kind: &str, key: &Key) {
    let _ = text.push_str(kind);
    push_hex(text, key.as_slice());
}

fn push_body(text: &mut String, body: &ChangeBody) {
    match body {
        ChangeBody::Write(datum) => {
            push_key(text, " write ", &datum.key());
            let _ = text.push(' ');
            push_hex(text, datum.value());
        }
        ChangeBody::Dispose(key) => push_key(text, " dispose ", key),
        ChangeBody::Unregister(key) => push_key(text, " unregister ", key),
        ChangeBody::DisposeUnregister(key) => push_key(text, " dispose and unregister ", key),
    }
}

fn push_content(text: &mut String, content: &DataContent) {
    push_body(text, &content.body);
    if let Some(strength) = content.strength {
        let _ = write!(text, " strength {strength}");
    }
}

fn push_data(text: &mut String, data: &Data) {
    let sn = data.writer_sn.number();
    push_ids(text, "DATA", data.writer_id, data.reader_id);
    let _ = write!(text, " sn {sn}");
    push_content(text, &data.content);
}

fn push_heartbeat(text: &mut String, h: &Heartbeat) {
    let (first, last, count) = (h.first_sn.number(), h.last_sn.number(), h.count);
    let (is_final, is_alive) = (h.final_flag, h.liveliness_flag);
    push_ids(text, "HEARTBEAT", h.writer_id, h.reader_id);
    let _ = write!(
        text,
        " first {first} last {last} count {count} final {is_final} liveliness {is_alive}"
    );
}

fn push_acknack(text: &mut String, a: &AckNack) {
    let (count, is_final) = (a.count, a.final_flag);
    push_ids(text, "ACKNACK", a.writer_id, a.reader_id);
    let _ = write!(text, " count {count} final {is_final} ");
    push_set(text, &a.reader_sn_state);
}

fn push_gap(text: &mut String, g: &Gap) {
    let start = g.gap_start.number();
    push_ids(text, "GAP", g.writer_id, g.reader_id);
    let _ = write!(text, " start {start} ");
    push_set(text, &g.gap_list);
}

/// Appends a submessage.
fn push_submessage(text: &mut String, submessage: &Submessage) {
    match submessage {
        Submessage::InfoDst(prefix) => {
            let _ = text.push_str("; INFO_DST ");
            push_hex(text, prefix.as_slice());
        }
        Submessage::InfoTs(Some(moment)) => {
            let _ = write!(text, "; INFO_TS {moment:016x}");
        }
        Submessage::Data(d) => push_data(text, d),
        Submessage::Heartbeat(h) => push_heartbeat(text, h),
        Submessage::AckNack(a) => push_acknack(text, a),
        Submessage::Gap(g) => push_gap(text, g),
        Submessage::Other(id) => {
            let _ = write!(text, "; OTHER {id:02x}");
        }
        Submessage::Pad => {
            let _ = text.push_str("; PAD");
        }
        Submessage::InfoTs(None) => {
            let _ = text.push_str("; INFO_TS none");
        }
    }
}

fn push_submessages(text: &mut String, submessages: &[Submessage]) {
    for submessage in submessages {
        push_submessage(text, submessage);
    }
}

fn push_form(text: &mut String, written: &[u8], octets: &[u8]) {
    if written == octets {
        let _ = text.push_str("; written so");
    } else {
        let len = written.len();
        let _ = write!(text, "; written in {len} octets");
    }
}

/// Appends how a message is written that was read of these octets.
fn push_written(alloc: Global, text: &mut String, message: &Message, octets: &[u8]) {
    if is_writable(message) {
        if let Ok(written) = write_message(alloc, message) {
            push_form(text, &written, octets);
        }
    }
}

/// Appends where reading ended, the submessages, and how they are written.
fn push_read(alloc: Global, text: &mut String, read: &Read, octets: &[u8]) {
    show(text, &read.stop);
    push_submessages(text, read.message.submessages.as_slice());
    push_written(alloc, text, &read.message, octets);
}

/// Appends what is read of octets.
fn push_message(alloc: Global, text: &mut String, octets: &[u8]) {
    match read_message(alloc, octets) {
        Ok(Some(read)) => push_read(alloc, text, &read, octets),
        Ok(None) => {
            let _ = text.push_str("no message");
        }
        Err(code) => show(text, &code),
    }
}

/// Where reading of a message ends, and how many submessages it has; zeros where it is no message.
fn extent_of(alloc: Global, octets: &[u8]) -> (usize, usize) {
    match read_message(alloc, octets) {
        Ok(Some(read)) => (read.stop, read.message.submessages.as_slice().len()),
        _ => (0, 0),
    }
}

/// Appends each length of some octets at which something else is read of them than at the one before.
fn push_cuts(alloc: Global, text: &mut String, octets: &[u8]) {
    let mut last = (0, 0);
    for len in 0..=octets.len() {
        let (stop, count) = extent_of(alloc, &octets[..len]);
        if (stop, count) != last {
            let _ = write!(text, "[{len}: {stop} {count}]");
        }
        last = (stop, count);
    }
}

fn body_of<'a>(words: Words<'_>, value: &'a [u8]) -> ChangeBody<'a> {
    if words.first == "dispose" {
        return ChangeBody::Dispose(ONE);
    }
    ChangeBody::Write(DatumRef::new(ONE, value))
}

fn content_of<'a>(words: Words<'_>, value: &'a [u8]) -> DataContent<'a> {
    let strength = if words.first == "strong" {
        Some(5)
    } else {
        None
    };
    DataContent {
        body: body_of(words, value),
        strength,
    }
}

fn submessage_of<'a>(words: Words<'_>, value: &'a [u8]) -> Submessage<'a> {
    if words.first == "other" {
        return Submessage::Other(0x80);
    }
    Submessage::Data(Data {
        reader_id: EntityId::UNKNOWN,
        writer_id: EntityId([0, 0, 1, 2]),
        writer_sn: Sn::new(number_of(words.second)),
        content: content_of(words, value),
    })
}

/// The message of so many submessages, whose values are this one.
fn made_of<'a>(alloc: Global, words: Words<'_>, value: &'a [u8]) -> Message<'a> {
    let mut submessages = Submessages::new(alloc);
    for _ in 0..number_of(words.fourth) {
        let _ = submessages.push(submessage_of(words, value));
    }
    Message {
        prefix: FIRST,
        submessages,
    }
}

/// Appends whether the message that the words name is writable.
fn push_writable(alloc: Global, text: &mut String, words: Words<'_>) {
    let value = octets_of(alloc, words.third);
    let message = made_of(alloc, words, &value);
    let (count, fits) = (message.submessages.as_slice().len(), is_writable(&message));
    let _ = write!(text, "{count} {fits}");
}

/// Messages.
#[derive(Drop)]
struct Messages;

impl Subject for Messages {
    fn answer(&mut self, alloc: Global, text: &mut String, name: &str, operands: &str) {
        match name {
            "read" => push_message(alloc, text, &message_of(alloc, operands)),
            "whole" => push_message(alloc, text, &octets_of(alloc, operands)),
            "cut" => push_cuts(alloc, text, &message_of(alloc, operands)),
            "make" => push_writable(alloc, text, words_of(operands)),
            _ => {}
        }
    }
}

#[test]
fn messages_are_read_as_they_were_written(rt: HostRuntime) {
    let alloc = rt.alloc();
    expect_rows(&rt, alloc, &mut Messages, WRITTEN);
    expect_rows(&rt, alloc, &mut Messages, WRITABLE);
    expect_rows(&rt, alloc, &mut Messages, OTHER_FORMS);
    expect_rows(&rt, alloc, &mut Messages, HEADERS);
    expect_rows(&rt, alloc, &mut Messages, CUT);
    expect_rows(&rt, alloc, &mut Messages, CAPTURED);
}
