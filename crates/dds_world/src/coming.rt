//! How a peer comes to the network.
//!
//! RTPS 2.5, 8.2 (Participant), 8.4.7 (matched_readers), 8.4.10 (matched_writers).

ghost use Rattle.std.specs.Prelude.{◌≡◌, IfOk, IfErr, OnErr};
ghost use Rattle.std.specs.List.{list_any};
ghost use Rattle.dds_base.specs.Checked.{same_prefix};
ghost use Rattle.dds_world.specs.Coming.{HasNewcomer, RefusesPeer};

use crate::world::World;
use dds_base::{Code, Config, GuidPrefix};
use dds_conditions::Filter;
use dds_core::Core;
use dds_notices::Listener;

impl<F: Filter, L: Listener> World<F, L> {
    /// The one peer of a configuration comes to the network, and has the next number, which is given. Its writers and
    /// readers are matched with its own alone, until they are told of others; it has no filters, and nobody listens at
    /// it. Nothing of what is there changes: whether it fits the others is not asked.
    ///
    /// # Errors
    ///
    /// The first of these: what `Config::check` answers; `BadParameter` where the configuration has more peers than one,
    /// or a peer that is there has its prefix; `OutOfResources` where 2^32 - 1 peers are there; `Memory` where a growth
    /// was refused. Nothing changes then.
    ///
    /// RTPS 2.5, 8.2 (Participant).
    pub fn come(&mut self, config: &Config) -> Result<u32, Code>
        // In each list of peers that has it next, the network stands for the machine, and for the peers, to which it came.
        ensures ok { IfOk result
            (λ number. HasNewcomer L.notices L.capacity L.becomes self.old config.now.peers number self.new) }
        // A refusal is by the first cause that there is, or for want of memory.
        ensures refused { IfErr result
            (RefusesPeer L.notices L.capacity L.becomes self.old config.now.peers) }
        // A refusal changes nothing.
        ensures err { OnErr result (self.new ≡ self.old) }
    {
        config.check()?;
        let peers = config.peers.as_slice();
        if peers.len() != 1 || self.has_prefix(peers[0].prefix) {
            return Err(Code::BadParameter);
        }
        let count = self.peers.len();
        if u32::MAX as usize <= count {
            return Err(Code::OutOfResources);
        }
        let number = (count + 1) as u32;
        let core = Core::come(self.alloc, config, number)?;
        self.peers.push(core)?;
        Ok(number)
    }

    /// Whether a peer that is there has this prefix.
    fn has_prefix(&self, prefix: GuidPrefix) -> bool
        ensures { result ≡ list_any
            (λ core. same_prefix core.filtered.peer.prefix prefix) self.now.cores }
    {
        self.peers.iter().any(|core| core.prefix() == prefix)
    }
}
