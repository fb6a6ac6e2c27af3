//! The peers of a script, by their numbers.

use dds_base::{Config, ConfigFault, ConfigPlace, PeerConfig, index_of_peer};

/// The peers that a set-up names. They are numbered from 1 in their order: those that the opening knows, then those that
/// come later.
#[derive(Drop)]
pub struct Peers {
    /// Those that the opening knows.
    pub opening: Config,
    /// Those that come later, each with itself alone.
    pub later: Vec<Config>,
}

/// The same place, at the peer of another number.
fn place_at(place: ConfigPlace, peer: usize) -> ConfigPlace {
    match place {
        ConfigPlace::Writer { writer, .. } => ConfigPlace::Writer { peer, writer },
        ConfigPlace::Reader { reader, .. } => ConfigPlace::Reader { peer, reader },
        ConfigPlace::Whole | ConfigPlace::Peer { .. } => ConfigPlace::Peer { peer },
    }
}

/// Which rule is broken by the peer that comes later under this number, by itself alone.
pub fn fault_of(alone: &Config, number: usize) -> Option<ConfigFault> {
    let ConfigFault { place, rule } = alone.fault()?;
    Some(ConfigFault {
        place: place_at(place, number),
        rule,
    })
}

impl Peers {
    /// Whether the peer of this number comes later.
    pub fn is_later(&self, number: u32) -> bool {
        self.later_peer(number).is_some()
    }

    /// The peer of this number, if it comes later.
    fn later_peer(&self, number: u32) -> Option<&PeerConfig> {
        let behind = (number as usize).checked_sub(self.opening.peers.as_slice().len())?;
        let alone = self.later.get(behind.checked_sub(1)?)?;
        alone.peers.as_slice().first()
    }

    /// The peer of this number, if there is one.
    pub fn get(&self, number: u32) -> Option<&PeerConfig> {
        let known = self.opening.peers.as_slice();
        match index_of_peer(number, known.len()) {
            Some(index) => known.get(index),
            None => self.later_peer(number),
        }
    }
}
