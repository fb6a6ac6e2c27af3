//! The listeners of a peer's entities.
//!
//! DDS 1.4, 2.2.2.1 (Entity: set_listener), 2.2.4.3 (listeners: the one of the entity, or else of what contains
//! it).

ghost use Rattle.std.specs.Prelude.{◌≡◌, ◌≢◌, [], true, Option, is_some, None, Some, IfOk, IfErr, OnErr, OnOk};
ghost use Rattle.std.specs.List.{list_any};
ghost use Rattle.std.specs.Option.{option_copied};
ghost use Rattle.dds_base.specs.declared.code.Code.TheVariants.{Memory};
ghost use Rattle.dds_base.specs.Refusal.{Refuses};
ghost use Rattle.dds_notices.specs.Listeners.{ByEntity, has_entity, with_entity, Places, Sets, StandsFor, after_notice, at_entity, is_any, kept_in, listener_refusal, nobody, shown, told_at, unknown_entity, taker_of};

use crate::listener::Listener;
use crate::mask::StatusMask;
use crate::notice::{Notice, Status};
use crate::slot::{Slot, is_fresh, kept, listener_of, shown, slot_of, takes, tell};
use dds_base::{Code, EachEntity, Entity};
use std::alloc::{AllocError, Global};
use std::marker::Model;

/// The listeners of a peer's entities: at most one at the participant, at each writer and at each reader.
///
/// DDS 1.4, 2.2.2.1 (Entity: set_listener), 2.2.4.3 (access through listeners).
#[derive(Drop)]
pub struct Slots<L> {
    slots: EachEntity<Option<Slot<L>>>,
    /// Whether one was ever set or taken away: before, nobody is looked for.
    was_set: bool,
}

impl<L> Model for Slots<L> {
    ghost use Rattle.std.specs.Prelude.{◌≡◌, false};
    ghost use Rattle.dds_notices.specs.Listeners.{Slotted, is_any};

    ghost Value = { Slotted L };

    ghost view = { λ s. s.slots };

    ghost invariant = { λ s. s.was_set ≡ false → is_any s.slots ≡ false };
}

/// Whether somebody is there.
fn is_any<L: Listener>(slots: &[Option<Slot<L>>]) -> bool
    ensures { result ≡ list_any is_some slots.now }
{
    slots.iter().any(|slot| slot.is_some())
}

/// Nobody, of a peer with so many writers and readers.
fn unset<L: Listener>(
    alloc: Global,
    writers: usize,
    readers: usize,
) -> Result<EachEntity<Option<Slot<L>>>, AllocError>
    ensures { IfOk result (λ slots. slots ≡ nobody writers readers) }
{
    Ok(EachEntity::open(alloc, writers, readers, || None)?)
}

impl<L: Listener> Slots<L> {
    /// No listeners yet, of a peer with so many writers and readers. Makes all the room that there will be.
    ///
    /// # Errors
    ///
    /// Where a growth was refused.
    pub fn open(alloc: Global, writers: usize, readers: usize) -> Result<Slots<L>, AllocError>
        // There is a place at each entity, and nobody in it.
        ensures nobody { IfOk result (λ slots. slots ≡ nobody writers readers) }
    {
        Ok(Slots {
            slots: unset(alloc, writers, readers)?,
            was_set: false,
        })
    }

    /// Whether a listener is set at some entity.
    pub fn has_listeners(&self) -> bool
        ensures listeners { result ≡ is_any self.now }
    {
        self.was_set && self.is_any_set()
    }

    /// The same, once one was set or taken away.
    #[inline(never)]
    fn is_any_set(&self) -> bool
        ensures { result ≡ is_any self.now }
    {
        self.at(Entity::Participant).is_some()
            || is_any(self.slots.writers())
            || is_any(self.slots.readers())
    }

    /// Who is at an entity.
    fn at(&self, entity: Entity) -> Option<&Slot<L>>
        ensures { option_copied result ≡ at_entity self.now entity }
    {
        match self.slots.at(entity) {
            Some(Some(slot)) => Some(slot),
            _ => None,
        }
    }

    /// Whether a listener is told of this status of the entity: its own, or else the participant's.
    ///
    /// DDS 1.4, 2.2.4.3 (listeners: the one of the entity, or else of what contains it).
    pub fn takes(&self, entity: Entity, status: &Status) -> bool
        // Some listener takes the status.
        ensures taker { (given : ByEntity L) (places : Places)
            → StandsFor L.notices L.capacity L.becomes given self.now places
            → result ≡ is_some (taker_of places entity status.now) }
    {
        takes(self.at(entity), status) || takes(self.at(Entity::Participant), status)
    }

    /// Of which statuses the listener of an entity is told, and how many notices it can keep; `None` where there is none.
    ///
    /// DDS 1.4, 2.2.2.1 (Entity: get_listener).
    pub fn slot(&self, entity: Entity) -> Option<(StatusMask, usize)>
        // So it is of each of the places that they stand for.
        ensures slot { (given : ByEntity L) (places : Places)
            → StandsFor L.notices L.capacity L.becomes given self.now places
            → result ≡ shown (at_entity places entity) }
    {
        shown(self.at(entity))
    }

    /// The notices that the listener of an entity keeps, the oldest first; none where there is no listener.
    ///
    /// # Errors
    ///
    /// `BadParameter` for an entity that there isn't, else `Memory` where a growth was refused, which only one that keeps a
    /// notice needs.
    pub fn notices(&self, alloc: Global, entity: Entity) -> Result<Vec<Notice>, Code>
        // They are the last ones of all that was told there, as many as there is room for.
        ensures ok { IfOk result (λ kept. (given : ByEntity L) (places : Places)
            → StandsFor L.notices L.capacity L.becomes given self.now places
            → kept.items ≡ kept_in (at_entity places entity)) }
        // There is such an entity.
        ensures taken { OnOk result (unknown_entity self.now entity ≡ None) }
        // A refusal is for its cause, or for want of memory.
        ensures refused { IfErr result (Refuses (unknown_entity self.now entity)) }
        // Memory is wanted where a notice is kept.
        ensures some { IfErr result (λ code. code ≡ Memory → (given : ByEntity L) (places : Places)
            → StandsFor L.notices L.capacity L.becomes given self.now places
            → kept_in (at_entity places entity) ≢ []) }
    {
        if !self.slots.has(entity) {
            return Err(Code::BadParameter);
        }
        Ok(kept(alloc, self.at(entity))?)
    }

    /// Tells the listener at an entity that there is.
    fn tell_at(&mut self, entity: Entity, notice: &Notice)
        requires { has_entity self.old entity ≡ true }
        ensures { (given : ByEntity L) (all : Places)
            → StandsFor L.notices L.capacity L.becomes given self.old all
            → StandsFor L.notices L.capacity L.becomes given self.new
            (told_at all (Some entity) notice.now) }
    {
        let mut slot = self.put(entity, None);
        tell(&mut slot, notice);
        self.put(entity, slot);
    }

    /// Tells the listener that takes the status of the notice, if one does: the entity's own, or else the
    /// participant's.
    ///
    /// DDS 1.4, 2.2.4.3 (listeners: the one of the entity, or else of what contains it).
    pub fn tell(&mut self, notice: &Notice)
        // The one that takes it is told, once.
        ensures told { (given : ByEntity L) (places : Places)
            → StandsFor L.notices L.capacity L.becomes given self.old places
            → StandsFor L.notices L.capacity L.becomes given self.new (after_notice places notice.now) }
    {
        if takes(self.at(notice.entity), &notice.status) {
            self.tell_at(notice.entity, notice);
        } else if takes(self.at(Entity::Participant), &notice.status) {
            self.tell_at(Entity::Participant, notice);
        }
    }

    /// Puts another one at an entity that there is, and hands out the one that was there.
    fn put(&mut self, entity: Entity, slot: Option<Slot<L>>) -> Option<Slot<L>>
        requires { has_entity self.old entity ≡ true }
        ensures old { result ≡ at_entity self.old entity }
        ensures new { self.new ≡ with_entity self.old entity slot }
    {
        self.was_set = true;
        self.slots.replace(entity, slot)
    }

    /// Sets the listener of an entity, with the statuses that it is told of, and hands back the one that was set
    /// before; `None` takes the listener away. It takes no memory.
    ///
    /// DDS 1.4, 2.2.2.1 (Entity: set_listener).
    ///
    /// # Errors
    ///
    /// `BadParameter` for an entity that there isn't, else `PreconditionNotMet` for a listener that keeps notices
    /// already. The listener is handed back with the code.
    pub fn set(
        &mut self,
        entity: Entity,
        mask: StatusMask,
        listener: Option<L>,
    ) -> Result<Option<L>, (Code, Option<L>)>
        // It is set, and the one of before is handed back as what it became by being told.
        ensures ok { IfOk result
            (λ back. Sets L.notices L.capacity L.becomes self.old entity mask listener back self.new) }
        // A refusal is for its cause.
        ensures refused { IfErr result
            (λ e. listener_refusal L.notices self.old entity listener ≡ Some e.0) }
        // A refused listener is handed back.
        ensures back { IfErr result (λ e. e.1 ≡ listener) }
        // A refusal changes nothing.
        ensures err { OnErr result (self.new ≡ self.old) }
    {
        if !self.slots.has(entity) {
            return Err((Code::BadParameter, listener));
        }
        if !is_fresh(&listener) {
            return Err((Code::PreconditionNotMet, listener));
        }
        Ok(listener_of(self.put(entity, slot_of(mask, listener))))
    }
}
