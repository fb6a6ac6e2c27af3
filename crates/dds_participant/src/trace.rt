//! The trace: what happened to our peer, in lines that `dds_pipe` answers as our peer did.

use crate::calls::{push_call, push_guid};
use crate::failure::Failure;
use crate::line::Line;
use crate::samples::{Type, TypeKind};
use crate::words::Purpose;
use dds_base::{Guid, GuidPrefix, OwnershipQos, ReaderConfig, ReliabilityQos, WriterConfig};
use dds_domain::Turn;
use dds_exchange::{called_in, reader_config, writer_config};
use dds_machine::Call;
use dds_protocol::Event;
use rtps_adapter::{Encoding, FieldSize, KeyField};
use rtps_announcements::EndpointKind;
use rtps_matching::End;
use std::alloc::Global;
use std::fs::{File, Files, create};
use std::io;
use std::io::Write;

/// The file that lines go to, and what a `kind` line says behind the GUID of a writer.
#[derive(Drop)]
pub struct Trace {
    alloc: Global,
    file: File,
    kind: String,
}

/// Why lines can't be written.
fn failed(alloc: Global, error: io::Error) -> Failure {
    match format!(in alloc; "{error}") {
        Ok(cause) => Failure::TraceFailed(cause),
        Err(_) => Failure::Memory,
    }
}

/// How many octets a key field takes.
fn size_of(field: &KeyField) -> u8 {
    match field.size {
        FieldSize::One => 1,
        FieldSize::Two => 2,
        FieldSize::Four => 4,
        FieldSize::Eight => 8,
    }
}

/// What topics carry.
fn kind_of(alloc: Global, of: &Type) -> Result<String, Failure> {
    let word = match of.kind {
        TypeKind::Datum => " datum",
        TypeKind::Keyless => " keyless",
        TypeKind::Keyed(Encoding::Cdr) => " cdr",
        TypeKind::Keyed(Encoding::Cdr2) => " cdr2",
    };
    let mut text = String::from_str(alloc, word)?;
    for field in of.fields.iter() {
        let (place, size) = (field.place, size_of(field));
        text.push_str(format!(in alloc; " {place}:{size}")?.as_str())?;
    }
    let most = of.max_value;
    text.push_str(format!(in alloc; " values={most}")?.as_str())?;
    Ok(text)
}

/// The options that writers and readers of ours have.
fn push_options(
    line: &mut Line,
    topic: u32,
    ownership: OwnershipQos,
    reliability: ReliabilityQos,
    max_value: u32,
) {
    line.push(format_args!(" all topic={topic} values={max_value}"));
    if ownership == OwnershipQos::Exclusive {
        line.push(" exclusive");
    }
    if reliability == ReliabilityQos::BestEffort {
        line.push(" besteffort");
    }
}

fn put_writer(alloc: Global, config: &WriterConfig, lines: &mut Vec<u8>) -> Result<(), Failure> {
    let mut line = Line::new(alloc, "writer ");
    line.push_octets(config.entity.as_slice());
    push_options(
        &mut line,
        config.topic,
        config.ownership,
        config.reliability,
        config.max_value,
    );
    let strength = config.strength;
    line.push(format_args!(" strength={strength}"));
    Ok(line.end(lines)?)
}

fn put_reader(alloc: Global, config: &ReaderConfig, lines: &mut Vec<u8>) -> Result<(), Failure> {
    let mut line = Line::new(alloc, "reader ");
    line.push_octets(config.entity.as_slice());
    push_options(
        &mut line,
        config.topic,
        config.ownership,
        config.reliability,
        config.max_value,
    );
    Ok(line.end(lines)?)
}

impl Trace {
    /// The file of this name is empty from then on. All our topics carry this type.
    ///
    /// # Errors
    ///
    /// `TraceFailed` where it can't be opened, else `Memory`.
    pub fn open<R: Files<File = File>>(
        rt: &R,
        alloc: Global,
        path: &str,
        of: &Type,
    ) -> Result<Trace, Failure> {
        let kind = kind_of(alloc, of)?;
        match create(rt, path) {
            Ok(file) => Ok(Trace { alloc, file, kind }),
            Err(error) => Err(failed(alloc, error)),
        }
    }

    /// Writes lines.
    fn give(&mut self, lines: &[u8]) -> Result<(), Failure> {
        let written = match self.file.write_all(lines) {
            Ok(()) => self.file.flush(),
            Err(error) => Err(error),
        };
        match written {
            Ok(()) => Ok(()),
            Err(error) => Err(failed(self.alloc, error)),
        }
    }

    /// What the topic of a writer carries; of one of others what can't be read stands in GAPs.
    fn put_kind(&self, writer: &Guid, has_gaps: bool, lines: &mut Vec<u8>) -> Result<(), Failure> {
        let mut line = Line::new(self.alloc, "kind");
        push_guid(&mut line, writer);
        line.push(self.kind.as_str());
        if has_gaps {
            line.push(" gaps");
        }
        Ok(line.end(lines)?)
    }

    /// An endpoint of ours, of the topic of this number.
    fn put_end(
        &self,
        end: &End,
        topic: u32,
        max_value: u32,
        lines: &mut Vec<u8>,
    ) -> Result<(), Failure> {
        match end.kind {
            EndpointKind::Writer => {
                put_writer(self.alloc, &writer_config(end, topic, max_value), lines)
            }
            EndpointKind::Reader => {
                put_reader(self.alloc, &reader_config(end, topic, max_value), lines)
            }
        }
    }

    /// What a writer of ours carries.
    fn put_own_kind(
        &self,
        prefix: GuidPrefix,
        end: &End,
        lines: &mut Vec<u8>,
    ) -> Result<(), Failure> {
        match end.kind {
            EndpointKind::Writer => {
                let entity = writer_config(end, 0, 1).entity;
                self.put_kind(&Guid { prefix, entity }, false, lines)
            }
            EndpointKind::Reader => Ok(()),
        }
    }

    /// Our peer at its opening, with these endpoints.
    ///
    /// # Errors
    ///
    /// `TraceFailed` where that can't be written, else `Memory`.
    pub fn begin(
        &mut self,
        prefix: GuidPrefix,
        ends: &[End],
        max_value: u32,
    ) -> Result<(), Failure> {
        let mut lines = Vec::new(self.alloc);
        let mut line = Line::new(self.alloc, "peer ");
        line.push_octets(prefix.as_slice());
        line.end(&mut lines)?;
        for (topic, end) in ends.iter().enumerate() {
            let topic = u32::try_from(topic).unwrap_or(u32::MAX);
            self.put_end(end, topic, max_value, &mut lines)?;
        }
        for end in ends {
            self.put_own_kind(prefix, end, &mut lines)?;
        }
        lines.extend_from_slice(b"open 1\n")?;
        self.give(&lines)
    }

    /// A call; before a writer of others is met what it carries.
    fn put_call(&self, call: &Call, lines: &mut Vec<u8>) -> Result<(), Failure> {
        if let Call::MeetWriter { far, .. } = call {
            self.put_kind(&far.guid, true, lines)?;
        }
        let mut line = Line::new(self.alloc, "call ");
        push_call(&mut line, call);
        Ok(line.end(lines)?)
    }

    /// A message, with entities called as at a peer.
    fn put_delivery(&self, bytes: &[u8], lines: &mut Vec<u8>) -> Result<(), Failure> {
        let called = called_in(self.alloc, bytes)?;
        let mut line = Line::new(self.alloc, "deliver ");
        line.push_value(called.as_slice());
        Ok(line.end(lines)?)
    }

    fn put_event(&self, event: &Event, lines: &mut Vec<u8>) -> Result<(), Failure> {
        match event {
            Event::Call(call) => self.put_call(call, lines),
            Event::Deliver(bytes) => self.put_delivery(bytes.as_slice(), lines),
            Event::Tick(moment) => {
                let units = moment.units();
                let mut line = Line::new(self.alloc, "tick ");
                line.push(units);
                Ok(line.end(lines)?)
            }
            Event::Resume { reader } => {
                let mut line = Line::new(self.alloc, "resume ");
                line.push(format_args!("r{reader}"));
                Ok(line.end(lines)?)
            }
        }
    }

    /// What happened to our peer in a turn.
    ///
    /// # Errors
    ///
    /// `TraceFailed` where it can't be written; `Memory` where there is none, also where the turn had none to record all.
    pub fn put(&mut self, turn: &Turn) -> Result<(), Failure> {
        if !turn.is_recording {
            return Err(Failure::Memory);
        }
        let mut lines = Vec::new(self.alloc);
        for event in turn.events.iter() {
            self.put_event(event, &mut lines)?;
        }
        self.give(&lines)
    }
}
