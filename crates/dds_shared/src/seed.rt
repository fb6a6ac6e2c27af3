//! A peer before threads share it.
//!
//! DDS 1.4, 2.2.2.1 (Entity, set_listener), 2.2.2.5 (QueryCondition). Seeds are this project's own.

ghost use Rattle.std.specs.Prelude.{◌≡◌, None, IfOk, IfErr, OnErr};
ghost use Rattle.dds_base.specs.Refusal.{Refuses};
ghost use Rattle.dds_core.specs.Listening.{Adds, RefusesFilter, RefusesListener, Sets};
ghost use Rattle.dds_core.specs.Opening.{core_refusal};

use dds_base::{Code, Config, Entity};
use dds_conditions::Filter;
use dds_core::Mindful;
use dds_log::NewWord;
use dds_notices::{Listener, StatusMask};
use dds_trace::Entry;
use std::alloc::Global;
use std::marker::Model;
use std::snapshot::Snapshot;
use std::sync::ledger::Blank;

/// A peer before threads share it: here it gets its filters and its listeners.
///
/// Seeds are this project's own.
#[derive(Drop)]
pub struct Seed<F: Filter, L: Listener> {
    pub(crate) core: Mindful<F, L>,
    pub(crate) blank: Blank,
    pub(crate) word: NewWord<Entry>,
    pub(crate) config: Snapshot<Config>,
    pub(crate) peer: u32,
    pub(crate) alloc: Global,
}

impl<F: Filter, L: Listener> Model for Seed<F, L> {
    ghost use Rattle.std.specs.Prelude.{◌≡◌, []};
    ghost use Rattle.dds_trace.specs.History.{IsHistoryOf};
    ghost use Rattle.dds_shared.specs.Seeds.{Planted, listeners_in};

    ghost Value = { Planted F L };

    ghost view = { λ s. record {
      core = s.core;
      config = s.config.value;
      peer = s.peer;
      name = s.blank.name;
      parts = s.blank.parts;
      word = s.word;
    } };

    ghost invariant = { λ s.
        IsHistoryOf F.meaning L.notices L.capacity L.becomes (listeners_in s.core.listeners) s.config.value s.peer []
        s.core
        × (s.blank.parts ≡ 4294967295) };
}

impl<F: Filter, L: Listener> Seed<F, L> {
    /// The peer of this number of a configuration, at its opening. All room is made here that setting its listeners and
    /// sharing it need.
    ///
    /// # Errors
    ///
    /// The first of these: what `Config::check` answers; `BadParameter` where the configuration has no peer of this
    /// number; `Memory` where a growth was refused.
    pub fn new(alloc: Global, config: &Config, peer: u32) -> Result<Seed<F, L>, Code>
        // It is that peer.
        ensures of { IfOk result (λ seed. (seed.config ≡ config.now) × (seed.peer ≡ peer)) }
        // Against what is opened there is no cause.
        ensures taken { IfOk result (λ seed. core_refusal config.now.peers peer ≡ None) }
        // A refusal is by the first cause that there is, or for want of memory.
        ensures refused { IfErr result (Refuses (core_refusal config.now.peers peer)) }
    {
        let core = Mindful::open(alloc, config, peer)?;
        let word = NewWord::new(alloc)?;
        Ok(Seed {
            core,
            blank: Blank::new(4294967295),
            word,
            config: Snapshot::of(config),
            peer,
            alloc,
        })
    }

    /// Adds a filter, by the next number, from 1: query conditions can name it from then on.
    ///
    /// # Errors
    ///
    /// `OutOfResources` where 2^32 - 1 filters were added, else `Memory` where a growth was refused. The filter comes
    /// back, and nothing changes.
    ///
    /// DDS 1.4, 2.2.2.5 (QueryCondition).
    pub fn add_filter(&mut self, filter: F) -> Result<u32, (Code, F)>
        // It is the last one, by the next number.
        ensures ok { IfOk result
            (λ number. Adds L.notices L.capacity L.becomes self.old.core filter number self.new.core) }
        // Nothing changes but the core.
        ensures kept { self.new ≡ record self.old { core = self.new.core } }
        // A refusal is for want of a number, exactly then, or for want of memory.
        ensures refused { IfErr result
            (λ e. RefusesFilter L.notices L.capacity L.becomes self.old.core e.0) }
        // What is refused comes back.
        ensures back { IfErr result (λ e. e.1 ≡ filter) }
        // A refusal changes nothing.
        ensures err { OnErr result (self.new ≡ self.old) }
    {
        self.core.add_filter(filter)
    }

    /// Sets the listener of an entity, with the statuses that it is told of, and hands back the one that was set
    /// before; `None` takes the listener away. It takes no memory. A listener is told under the lock of the shared peer.
    ///
    /// # Errors
    ///
    /// `BadParameter` where there is no such entity, else `PreconditionNotMet` where the listener keeps notices
    /// already. It comes back, and nothing changes.
    ///
    /// DDS 1.4, 2.2.2.1 (Entity, set_listener).
    pub fn set_listener(
        &mut self,
        entity: Entity,
        mask: StatusMask,
        listener: Option<L>,
    ) -> Result<Option<L>, (Code, Option<L>)>
        // It is set.
        ensures ok { IfOk result (λ handed.
            Sets L.notices L.capacity L.becomes self.old.core entity mask listener handed self.new.core) }
        // Nothing changes but the core.
        ensures kept { self.new ≡ record self.old { core = self.new.core } }
        // A refusal is by the first cause that there is, exactly then.
        ensures refused { IfErr result (λ e.
            RefusesListener L.notices L.capacity L.becomes self.old.core entity listener e.0) }
        // What is refused comes back.
        ensures back { IfErr result (λ e. e.1 ≡ listener) }
        // A refusal changes nothing.
        ensures err { OnErr result (self.new ≡ self.old) }
    {
        self.core.set_listener(entity, mask, listener)
    }
}
