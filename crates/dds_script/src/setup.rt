//! A configuration that is named line by line.

use crate::options::{Options, reader_config, writer_config};
use dds_base::{Config, EntityId, GuidPrefix, PeerConfig, ReaderConfig, Sequence, WriterConfig};
use std::alloc::{AllocError, Global};
use std::mem;

/// A peer, or a writer or a reader of the last peer, by its name.
#[derive(Clone, Copy)]
pub enum SetupLine {
    /// A peer, of which more lines may name writers and readers.
    Peer(GuidPrefix),
    /// A writer of the last peer.
    Writer(EntityId, Options),
    /// A reader of the last peer.
    Reader(EntityId, Options),
}

/// A peer whose writers and readers are still being named.
#[derive(Drop)]
struct PeerDraft {
    prefix: GuidPrefix,
    writers: Vec<WriterConfig>,
    readers: Vec<ReaderConfig>,
}

/// The peers that have been named so far.
#[derive(Drop)]
pub struct Setup {
    alloc: Global,
    peers: Vec<PeerDraft>,
}

impl Setup {
    /// Without a peer.
    pub fn new(alloc: Global) -> Self {
        Setup {
            alloc,
            peers: Vec::new(alloc),
        }
    }

    /// Takes up a line. Answers whether it may stand here: a writer or a reader needs a peer before it.
    ///
    /// # Errors
    ///
    /// Want of memory.
    pub fn take(&mut self, line: SetupLine) -> Result<bool, AllocError> {
        if let SetupLine::Peer(prefix) = line {
            self.peers.push(PeerDraft::new(self.alloc, prefix))?;
            return Ok(true);
        }
        match self.peers.last_mut() {
            Some(draft) => draft.take(line),
            None => Ok(false),
        }
    }

    /// The configuration of the peers, of which none is kept.
    ///
    /// # Errors
    ///
    /// Want of memory.
    pub fn config(&mut self) -> Result<Config, AllocError> {
        let peers = mem::replace(&mut self.peers, Vec::new(self.alloc));
        let mut configs = Vec::with_capacity(self.alloc, peers.len())?;
        for draft in peers {
            configs.push(draft.config())?;
        }
        Ok(Config {
            peers: Sequence::from_vec(configs),
        })
    }
}

impl PeerDraft {
    fn new(alloc: Global, prefix: GuidPrefix) -> Self {
        PeerDraft {
            prefix,
            writers: Vec::new(alloc),
            readers: Vec::new(alloc),
        }
    }

    fn take(&mut self, line: SetupLine) -> Result<bool, AllocError> {
        match line {
            SetupLine::Peer(_) => {}
            SetupLine::Writer(entity, options) => {
                self.writers.push(writer_config(entity, options))?;
            }
            SetupLine::Reader(entity, options) => {
                self.readers.push(reader_config(entity, options))?;
            }
        }
        Ok(true)
    }

    fn config(self) -> PeerConfig {
        let PeerDraft {
            prefix,
            writers,
            readers,
        } = self;
        PeerConfig {
            prefix,
            writers: Sequence::from_vec(writers),
            readers: Sequence::from_vec(readers),
        }
    }
}
