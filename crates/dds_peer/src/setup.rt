//! The set-up of a script, in which peers, writers and readers go by their numbers.

use crate::peers::Peers;
use dds_base::{EntityId, GuidPrefix};
use dds_script::{Options, Setup, SetupLine};
use std::alloc::{AllocError, Global};

/// A line of the set-up.
#[derive(Clone, Copy)]
pub enum SetupPart {
    /// A peer that the opening knows.
    Peer,
    /// A peer that the opening does not know.
    Later,
    Writer(Options),
    Reader(Options),
}

/// The set-up so far: how many peers there are, and how many writers and readers the last of them has, in 8 bits, of
/// which more than 255 are refused for their count.
#[derive(Drop)]
pub struct NumberedSetup {
    alloc: Global,
    /// The peers that the opening knows.
    opening: Setup,
    /// Those that come later, each by itself.
    later: Vec<Setup>,
    peers: u32,
    writers: u8,
    readers: u8,
}

/// Why a line of the set-up may not stand where it does.
const PEER_BEHIND: &str = "a peer that the opening knows stands before those that come later";

const END_BEFORE: &str = "a writer or a reader follows a peer";

impl NumberedSetup {
    /// Without a peer.
    pub fn new(alloc: Global) -> Self {
        NumberedSetup {
            alloc,
            opening: Setup::new(alloc),
            later: Vec::new(alloc),
            peers: 0,
            writers: 0,
            readers: 0,
        }
    }

    /// The name of the next peer: eight zeros and its number.
    fn next_peer(&mut self) -> SetupLine {
        self.peers = self.peers.wrapping_add(1);
        self.writers = 0;
        self.readers = 0;
        let [a, b, c, d] = self.peers.to_be_bytes();
        SetupLine::Peer(GuidPrefix([0, 0, 0, 0, 0, 0, 0, 0, a, b, c, d]))
    }

    /// A writer or a reader of the last peer. Answers whether there is one.
    fn take_end(&mut self, line: SetupLine) -> Result<bool, AllocError> {
        match self.later.last_mut() {
            Some(setup) => setup.take(line),
            None => self.opening.take(line),
        }
    }

    /// A peer that the opening knows. Answers whether it stands before those that come later.
    fn take_peer(&mut self) -> Result<bool, AllocError> {
        if !self.later.is_empty() {
            return Ok(false);
        }
        let line = self.next_peer();
        self.opening.take(line)
    }

    /// A peer that comes later.
    fn take_later(&mut self) -> Result<bool, AllocError> {
        let line = self.next_peer();
        let mut setup = Setup::new(self.alloc);
        let is_taken = setup.take(line)?;
        self.later.push(setup)?;
        Ok(is_taken)
    }

    /// Takes up a line, with the name that it gives: for a writer or a reader its number. Answers why it may not stand
    /// here, if it is not taken up.
    pub fn take(&mut self, part: SetupPart) -> Result<Option<&'static str>, AllocError> {
        let (is_taken, cause) = match part {
            SetupPart::Peer => (self.take_peer()?, PEER_BEHIND),
            SetupPart::Later => (self.take_later()?, PEER_BEHIND),
            SetupPart::Writer(options) => {
                self.writers = self.writers.wrapping_add(1);
                let entity = EntityId([0, 0, self.writers, 0x02]);
                (
                    self.take_end(SetupLine::Writer(entity, options))?,
                    END_BEFORE,
                )
            }
            SetupPart::Reader(options) => {
                self.readers = self.readers.wrapping_add(1);
                let entity = EntityId([0, 0, self.readers, 0x07]);
                (
                    self.take_end(SetupLine::Reader(entity, options))?,
                    END_BEFORE,
                )
            }
        };
        Ok(if is_taken { None } else { Some(cause) })
    }

    /// The peers.
    pub fn peers(&mut self) -> Result<Peers, AllocError> {
        let opening = self.opening.config()?;
        let mut later = Vec::with_capacity(self.alloc, self.later.len())?;
        for setup in self.later.as_mut_slice() {
            later.push(setup.config()?)?;
        }
        Ok(Peers { opening, later })
    }
}
