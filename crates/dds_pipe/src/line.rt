//! The lines that a peer is given.

use crate::kinds::{KindLine, guid, kind_line};
use dds_base::{Guid, Moment, Octets};
use dds_protocol::Event;
use dds_script::{
    ListenerLine, SetupLine, call_of, decimal_u32, entity_id, guid_prefix, listener_line,
    reader_number, reader_options, units, value, words_of, writer_options,
};
use std::alloc::{AllocError, Global};

/// What a line says.
#[derive(Drop)]
pub enum Line {
    /// A peer of the configuration, or a writer or a reader of the last one.
    Setup(SetupLine),
    /// What the topic of a writer carries.
    Kind(KindLine),
    /// The fragments of a writer are put together.
    Fragments(Guid),
    /// A datagram is looked at for fragments.
    Hear(Octets),
    /// The peer opens as the one of this number.
    Open(u32),
    /// The peer has a filter more, by the octets with which a value begins.
    Filter(Octets),
    /// An entity of the peer has another listener, or none.
    Listener(ListenerLine),
    /// Something happens to the peer.
    Event(Event),
}

fn peer(words: &[&str]) -> Option<Line> {
    let [prefix] = words else {
        return None;
    };
    Some(Line::Setup(SetupLine::Peer(guid_prefix(prefix)?)))
}

fn writer(words: &[&str]) -> Option<Line> {
    let [entity, options @ ..] = words else {
        return None;
    };
    let entity = entity_id(entity)?;
    let options = writer_options(options)?;
    Some(Line::Setup(SetupLine::Writer(entity, options)))
}

fn reader(words: &[&str]) -> Option<Line> {
    let [entity, options @ ..] = words else {
        return None;
    };
    let entity = entity_id(entity)?;
    let options = reader_options(options)?;
    Some(Line::Setup(SetupLine::Reader(entity, options)))
}

fn open(words: &[&str]) -> Option<Line> {
    let [number] = words else {
        return None;
    };
    Some(Line::Open(decimal_u32(number)?))
}

fn fragments(words: &[&str]) -> Option<Line> {
    let [prefix, entity] = words else {
        return None;
    };
    Some(Line::Fragments(guid(prefix, entity)?))
}

fn tick(words: &[&str]) -> Option<Line> {
    let [now] = words else {
        return None;
    };
    let now = Moment::new(units(now)?);
    Some(Line::Event(Event::Tick(now)))
}

fn resumption(words: &[&str]) -> Option<Line> {
    let [reader] = words else {
        return None;
    };
    let reader = reader_number(reader)?;
    Some(Line::Event(Event::Resume { reader }))
}

fn listener(words: &[&str]) -> Option<Line> {
    Some(Line::Listener(listener_line(words)?))
}

/// What the words of a line say that takes no memory.
fn short_line(name: &str, words: &[&str]) -> Option<Line> {
    match name {
        "peer" => peer(words),
        "writer" => writer(words),
        "reader" => reader(words),
        "open" => open(words),
        "fragments" => fragments(words),
        "tick" => tick(words),
        "resume" => resumption(words),
        _ => None,
    }
}

fn call(alloc: Global, words: &[&str]) -> Result<Option<Line>, AllocError> {
    match call_of(alloc, words)? {
        Some(call) => Ok(Some(Line::Event(Event::Call(call)))),
        None => Ok(None),
    }
}

/// The octets that are the only word.
fn only_octets(alloc: Global, words: &[&str]) -> Result<Option<Octets>, AllocError> {
    match words {
        [octets] => value(alloc, octets),
        _ => Ok(None),
    }
}

fn delivery(alloc: Global, words: &[&str]) -> Result<Option<Line>, AllocError> {
    match only_octets(alloc, words)? {
        Some(bytes) => Ok(Some(Line::Event(Event::Deliver(bytes)))),
        None => Ok(None),
    }
}

fn filter(alloc: Global, words: &[&str]) -> Result<Option<Line>, AllocError> {
    match only_octets(alloc, words)? {
        Some(octets) => Ok(Some(Line::Filter(octets))),
        None => Ok(None),
    }
}

fn hearing(alloc: Global, words: &[&str]) -> Result<Option<Line>, AllocError> {
    match only_octets(alloc, words)? {
        Some(bytes) => Ok(Some(Line::Hear(bytes))),
        None => Ok(None),
    }
}

fn kind(alloc: Global, words: &[&str]) -> Result<Option<Line>, AllocError> {
    match kind_line(alloc, words)? {
        Some(kind) => Ok(Some(Line::Kind(kind))),
        None => Ok(None),
    }
}

fn line_of_words(alloc: Global, words: &[&str]) -> Result<Option<Line>, AllocError> {
    match words {
        ["call", operands @ ..] => call(alloc, operands),
        ["deliver", operands @ ..] => delivery(alloc, operands),
        ["filter", operands @ ..] => filter(alloc, operands),
        ["hear", operands @ ..] => hearing(alloc, operands),
        ["kind", operands @ ..] => kind(alloc, operands),
        ["listener" | "unlisten", ..] => Ok(listener(words)),
        [name, operands @ ..] => Ok(short_line(name, operands)),
        [] => Ok(None),
    }
}

/// What a line says, without its line feed; none where it says nothing.
pub fn line_of(alloc: Global, line: &[u8]) -> Result<Option<Line>, AllocError> {
    match str::from_utf8(line) {
        Ok(line) => line_of_words(alloc, &words_of(alloc, line)?),
        Err(_) => Ok(None),
    }
}
