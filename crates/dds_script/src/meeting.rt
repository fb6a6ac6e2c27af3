//! The calls of a script that tell a writer or a reader of an end that it may not know, by a name and a GUID.

use crate::number::{decimal_i32, entity_id, guid_prefix, units};
use crate::operand::{reader_end, reader_number, writer_end, writer_number};
use dds_base::{EntityId, Guid, ReaderConfig, ReliabilityQos, WriterConfig};
use dds_machine::{Call, FarReader, FarWriter};

/// A reader that a writer meets: its policies, and how it is told.
#[derive(Clone, Copy)]
struct MetReader {
    config: ReaderConfig,
    greeted: bool,
}

impl MetReader {
    /// One of the usual policies, which is not greeted.
    fn new(entity: EntityId) -> Self {
        MetReader {
            config: ReaderConfig::new(entity, 0),
            greeted: false,
        }
    }

    /// Takes up what a word says of it, if it says something.
    fn take(&mut self, word: &str) -> Option<()> {
        match word {
            "besteffort" => self.config.reliability = ReliabilityQos::BestEffort,
            "greeted" => self.greeted = true,
            _ => return None,
        }
        Some(())
    }
}

/// A writer that a reader meets, by its policies.
#[derive(Clone, Copy)]
struct MetWriter {
    config: WriterConfig,
}

impl MetWriter {
    /// One of the usual policies.
    fn new(entity: EntityId) -> Self {
        MetWriter {
            config: WriterConfig::new(entity, 0),
        }
    }

    /// Takes up what a word says of it, if it says something.
    fn take(&mut self, word: &str) -> Option<()> {
        let (name, number) = word.split_once('=')?;
        match name {
            "strength" => self.config.strength = decimal_i32(number)?,
            "lease" => self.config.lease = Some(units(number)?),
            _ => return None,
        }
        Some(())
    }
}

/// Whether a word says something of a reader that is met.
pub fn is_of_met_reader(word: &str) -> bool {
    MetReader::new(EntityId::UNKNOWN).take(word).is_some()
}

/// Whether a word says something of a writer that is met.
pub fn is_of_met_writer(word: &str) -> bool {
    MetWriter::new(EntityId::UNKNOWN).take(word).is_some()
}

/// The GUID that two words spell.
fn guid(prefix: &str, entity: &str) -> Option<Guid> {
    Some(Guid {
        prefix: guid_prefix(prefix)?,
        entity: entity_id(entity)?,
    })
}

/// A writer is told of a reader of this name and GUID. Of what is said twice the last counts.
fn reader_meeting(writer: u8, reader: &str, guid: Guid, words: &[&str]) -> Option<Call> {
    let mut met = MetReader::new(guid.entity);
    for word in words {
        met.take(word)?;
    }
    Some(Call::MeetReader {
        writer,
        far: FarReader {
            endpoint: reader_end(reader)?,
            guid,
            requested: met.config.requested(),
        },
        greeted: met.greeted,
    })
}

/// A reader is told of a writer of this name and GUID. Of what is said twice the last counts.
fn writer_meeting(reader: u8, writer: &str, guid: Guid, words: &[&str]) -> Option<Call> {
    let mut met = MetWriter::new(guid.entity);
    for word in words {
        met.take(word)?;
    }
    Some(Call::MeetWriter {
        reader,
        far: FarWriter {
            endpoint: writer_end(writer)?,
            guid,
            offered: met.config.offered(),
        },
    })
}

/// The call that `meet` asks for, with these words behind it.
pub fn meeting_of(words: &[&str]) -> Option<Call> {
    let [end, other, prefix, entity, rest @ ..] = words else {
        return None;
    };
    let guid = guid(prefix, entity)?;
    match writer_number(end) {
        Some(writer) => reader_meeting(writer, other, guid, rest),
        None => writer_meeting(reader_number(end)?, other, guid, rest),
    }
}
