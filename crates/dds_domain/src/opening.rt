//! Our endpoints, and how a participant begins with them.
//!
//! DDS 1.4, 2.2.2.4.1 and 2.2.2.5.2 (Publisher: create_datawriter; Subscriber: create_datareader).

ghost use Rattle.std.specs.Prelude.{◌≡◌, IfOk, OnOk};
ghost use Rattle.std.specs.List.{fold};
ghost use Rattle.dds_domain.specs.Opening.{config_of, next_topic, no_parts, sharing, with_end, with_reader, with_writer};

use dds_base::{Code, Config, Guid, GuidPrefix, PeerConfig, ReaderConfig, Sequence, WriterConfig};
use dds_exchange::{Carried, OwnEnd, reader_config, writer_config};
use rtps_announcements::EndpointKind;
use rtps_matching::End;
use std::alloc::{AllocError, Global};
use std::marker::Model;

/// A writer or a reader of ours.
#[derive(Drop)]
pub struct OurEnd {
    /// What is announced of it.
    pub end: End,
    /// What its topic carries; `None` where it is announced alone, and our peer has no part in it.
    pub carried: Option<Carried>,
    /// How many octets a value has at most.
    pub max_value: u32,
}

/// Why a participant does not begin.
#[derive(Clone, Copy)]
pub enum Unopened {
    /// What we announce of ourselves has no written form.
    Settings,
    /// Our peer can't have these endpoints, for this cause.
    Endpoints(Code),
    /// Memory was wanting.
    Memory,
}

/// Our endpoints, as discovery and as our peer has them.
#[derive(Drop)]
pub struct Parts {
    /// Those of our peer: each is of a topic of its own, as no two of ours are matched.
    pub writers: Vec<WriterConfig>,
    pub readers: Vec<ReaderConfig>,
    /// More of them, in the same order.
    pub own_writers: Vec<OwnEnd>,
    pub own_readers: Vec<OwnEnd>,
    /// What is announced, in the order in which they were given.
    pub ends: Vec<End>,
    /// What our readers are called on the network.
    pub names: Vec<Guid>,
}

impl Model for Parts {
    ghost use Rattle.dds_domain.specs.Opening.{State};

    ghost Value = { State };

    ghost view = { λ p. record {
      writers = p.writers.items;
      readers = p.readers.items;
      own_writers = p.own_writers.items;
      own_readers = p.own_readers.items;
      ends = p.ends.items;
      names = p.names.items;
    } };
}

impl Parts {
    fn new(alloc: Global) -> Parts
        ensures none { result ≡ no_parts }
    {
        Parts {
            writers: Vec::new(alloc),
            readers: Vec::new(alloc),
            own_writers: Vec::new(alloc),
            own_readers: Vec::new(alloc),
            ends: Vec::new(alloc),
            names: Vec::new(alloc),
        }
    }

    /// The topic of the next one.
    fn next_topic(&self) -> u32
        ensures { result ≡ next_topic self.now }
    {
        u32::try_from(self.ends.len()).unwrap_or(u32::MAX)
    }

    fn add_writer(&mut self, writer: &End, own: OwnEnd) -> Result<(), AllocError>
        ensures added { OnOk result (self.new ≡ with_writer writer.now own self.old) }
    {
        let config = writer_config(writer, self.next_topic(), own.max_value);
        self.writers.push(config)?;
        self.own_writers.push(own)?;
        Ok(())
    }

    fn add_reader(&mut self, reader: &End, own: OwnEnd) -> Result<(), AllocError>
        ensures added { OnOk result (self.new ≡ with_reader reader.now own self.old) }
    {
        let config = reader_config(reader, self.next_topic(), own.max_value);
        self.readers.push(config)?;
        self.own_readers.push(own)?;
        self.names.push(reader.endpoint.guid())?;
        Ok(())
    }

    /// Our peer has it too.
    fn share(&mut self, end: &End, carried: Carried, max_value: u32) -> Result<(), AllocError>
        ensures shared { OnOk result (self.new ≡ sharing end.now carried max_value self.old) }
    {
        let own = OwnEnd {
            entity: end.endpoint.guid().entity,
            carried,
            max_value,
        };
        match end.kind {
            EndpointKind::Writer => self.add_writer(end, own),
            EndpointKind::Reader => self.add_reader(end, own),
        }
    }

    /// One more.
    fn add(&mut self, ours: OurEnd) -> Result<(), AllocError>
        ensures added { OnOk result (self.new ≡ with_end self.old ours) }
    {
        let OurEnd {
            end,
            carried,
            max_value,
        } = ours;
        if let Some(carried) = carried {
            self.share(&end, carried, max_value)?;
        }
        self.ends.push(end)?;
        Ok(())
    }
}

/// Our endpoints, as they were given.
pub fn parts_of(alloc: Global, ours: Vec<OurEnd>) -> Result<Parts, AllocError>
    // Each stands behind those before it.
    ensures all { IfOk result (λ parts. parts ≡ fold with_end no_parts ours.items) }
{
    let mut parts = Parts::new(alloc);
    for one in ours {
        parts.add(one)?;
    }
    Ok(parts)
}

/// The configuration of our peer: it is alone.
pub fn config_of(
    alloc: Global,
    prefix: GuidPrefix,
    writers: Vec<WriterConfig>,
    readers: Vec<ReaderConfig>,
) -> Result<Config, AllocError>
    ensures config { IfOk result (λ config. config ≡ config_of prefix writers.items readers.items) }
{
    let mut peers = Vec::new(alloc);
    peers.push(PeerConfig {
        prefix,
        writers: Sequence::from_vec(writers),
        readers: Sequence::from_vec(readers),
    })?;
    Ok(Config {
        peers: Sequence::from_vec(peers),
    })
}
