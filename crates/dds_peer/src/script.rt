//! The lines of a script.

use crate::setup::SetupPart;
use dds_base::{Endpoint, Moment, Octets};
use dds_machine::WorldEvent;
use dds_script::{
    ListenerLine, call_of, decimal, decimal_u32, listener_line, reader_end, reader_number,
    reader_options, units, value, words_of, writer_end, writer_options,
};
use std::alloc::{AllocError, Global};

/// What a line says.
#[derive(Drop)]
pub enum Line {
    /// An empty line or a comment.
    Skipped,
    Setup(SetupPart),
    /// Something happens to the network.
    Event(WorldEvent),
    /// A peer has a filter more, by the octets with which a value begins.
    Filter { peer: u32, octets: Octets },
    /// An entity of a peer has another listener, or none.
    Listener { peer: u32, asked: ListenerLine },
    /// A round of repair for a writer and a reader.
    Round { writer: Endpoint, reader: Endpoint },
    /// The bytes of a packet are asked for.
    Packet(u64),
}

fn tick(peer: u32, words: &[&str]) -> Option<Line> {
    let [now] = words else {
        return None;
    };
    let now = Moment::new(units(now)?);
    Some(Line::Event(WorldEvent::Tick { peer, now }))
}

fn resumption(peer: u32, words: &[&str]) -> Option<Line> {
    let [reader] = words else {
        return None;
    };
    let reader = reader_number(reader)?;
    Some(Line::Event(WorldEvent::Resume { peer, reader }))
}

fn delivery(words: &[&str]) -> Option<Line> {
    let [peer, packet] = words else {
        return None;
    };
    let peer = decimal_u32(peer)?;
    let packet = decimal(packet)?;
    Some(Line::Event(WorldEvent::Deliver { peer, packet }))
}

fn round(words: &[&str]) -> Option<Line> {
    let [writer, reader] = words else {
        return None;
    };
    let writer = writer_end(writer)?;
    let reader = reader_end(reader)?;
    Some(Line::Round { writer, reader })
}

fn packet(words: &[&str]) -> Option<Line> {
    let [number] = words else {
        return None;
    };
    Some(Line::Packet(decimal(number)?))
}

fn peer(words: &[&str]) -> Option<Line> {
    match words {
        [] => Some(Line::Setup(SetupPart::Peer)),
        ["later"] => Some(Line::Setup(SetupPart::Later)),
        _ => None,
    }
}

/// What a line says whose first word is none of a peer's number.
fn command(first: &str, words: &[&str]) -> Option<Line> {
    match first {
        "peer" => peer(words),
        "writer" => Some(Line::Setup(SetupPart::Writer(writer_options(words)?))),
        "reader" => Some(Line::Setup(SetupPart::Reader(reader_options(words)?))),
        "deliver" => delivery(words),
        "packet" => packet(words),
        "round" => round(words),
        _ => None,
    }
}

fn filter(alloc: Global, peer: u32, words: &[&str]) -> Result<Option<Line>, AllocError> {
    let [octets] = words else {
        return Ok(None);
    };
    match value(alloc, octets)? {
        Some(octets) => Ok(Some(Line::Filter { peer, octets })),
        None => Ok(None),
    }
}

fn listener(peer: u32, words: &[&str]) -> Option<Line> {
    let asked = listener_line(words)?;
    Some(Line::Listener { peer, asked })
}

fn call(alloc: Global, peer: u32, words: &[&str]) -> Result<Option<Line>, AllocError> {
    match call_of(alloc, words)? {
        Some(call) => Ok(Some(Line::Event(WorldEvent::Call { peer, call }))),
        None => Ok(None),
    }
}

/// What a peer is told to do.
fn operation(alloc: Global, peer: u32, words: &[&str]) -> Result<Option<Line>, AllocError> {
    match words {
        ["tick", operands @ ..] => Ok(tick(peer, operands)),
        ["resume", operands @ ..] => Ok(resumption(peer, operands)),
        ["filter", operands @ ..] => filter(alloc, peer, operands),
        ["listener" | "unlisten", ..] => Ok(listener(peer, words)),
        words => call(alloc, peer, words),
    }
}

fn line_of_words(alloc: Global, words: &[&str]) -> Result<Option<Line>, AllocError> {
    let [first, operands @ ..] = words else {
        return Ok(None);
    };
    match decimal_u32(first) {
        Some(peer) => operation(alloc, peer, operands),
        None => Ok(command(first, operands)),
    }
}

/// What a line says, without its line feed; none where it is no command.
pub fn line_of(alloc: Global, line: &[u8]) -> Result<Option<Line>, AllocError> {
    match line {
        [] | [b'#', ..] => Ok(Some(Line::Skipped)),
        _ => match str::from_utf8(line) {
            Ok(line) => line_of_words(alloc, &words_of(alloc, line)?),
            Err(_) => Ok(None),
        },
    }
}
