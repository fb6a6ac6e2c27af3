//! How a peer comes to a network.
//!
//! RTPS 2.5, 8.2 (Participant), 8.4.7 (matched_readers), 8.4.10 (matched_writers).

ghost use Rattle.std.specs.Prelude.{◌≡◌, None, IfOk, IfErr};
ghost use Rattle.dds_base.specs.Refusal.{Refuses};
ghost use Rattle.dds_protocol.specs.Coming.{coming_peer};
ghost use Rattle.dds_core.specs.Opening.{InRostersAt, coming_refusal};
ghost use Rattle.dds_core.specs.Standing.{StandsFor};

use crate::opening::open;
use crate::peer::Peer;
use dds_base::{Code, Config};
use std::alloc::Global;

impl Peer {
    /// The one peer of a configuration, as it comes to a network under this number: its writers and readers are matched
    /// with its own alone, until they are told of others.
    ///
    /// # Errors
    ///
    /// The first of these: what `Config::check` answers; `BadParameter` where the configuration has more peers than one,
    /// or the number is 0; `Memory` where a growth was refused.
    pub fn come(alloc: Global, config: &Config, number: u32) -> Result<Peer, Code>
        // By the roster of each list that has the peer under this number it stands for it as it comes.
        ensures coming { IfOk result (λ core. InRostersAt config.now number
            (λ roster p. StandsFor core roster (coming_peer number p))) }
        // Against what comes there is no cause.
        ensures taken { IfOk result (λ core. coming_refusal config.now.peers number ≡ None) }
        // A refusal is by the first cause that there is, or for want of memory.
        ensures refused { IfErr result (Refuses (coming_refusal config.now.peers number)) }
    {
        config.check()?;
        let peers = config.peers.as_slice();
        if peers.len() != 1 || number == 0 {
            return Err(Code::BadParameter);
        }
        Ok(open(alloc, number, peers, 0)?)
    }
}
