//! What stands at each entity of a peer.
//!
//! DDS 1.4, 2.2.2.1 (Entity).

ghost use Rattle.std.specs.Prelude.{◌≡◌, ◌-◌, ◌==◌, true, false, length, get_or, set, replicate, IfOk, IfSome, IfNone, if◌then◌else◌};
ghost use Rattle.dds_base.specs.EachEntity.{entity_or, everywhere, has_entity, with_entity};
ghost use Rattle.dds_base.specs.Number.{is_number};

use crate::entity::Entity;
use crate::number::is_number;
use std::alloc::{AllocError, Global};
use std::marker::Model;
use std::mem::replace;

/// What stands at the participant, at each writer and at each reader of a peer.
///
/// DDS 1.4, 2.2.2.1 (Entity).
#[derive(Drop)]
pub struct EachEntity<T> {
    participant: T,
    writers: Vec<T>,
    readers: Vec<T>,
}

impl<T> Model for EachEntity<T> {
    ghost use Rattle.dds_base.specs.EachEntity.{EachEntity};

    ghost Value = { EachEntity T };

    ghost view = { λ b. record { participant = b.participant; writers = b.writers.items; readers = b.readers.items } };
}

/// So many of what `make` makes.
fn filled<T: Drop, F: Fn() -> T>(
    alloc: Global,
    count: usize,
    make: &F,
) -> Result<Vec<T>, AllocError>
    requires callable { F.IsAlwaysCallable make.now }
    ensures { (x : T) → ((y : T) → F.post make.now y → y ≡ x)
        → IfOk result (λ all. all.items ≡ replicate count x) }
{
    let mut all = Vec::with_capacity(alloc, count)?;
    for _ in 0..count {
        all.push(make())?;
    }
    Ok(all)
}

/// What has this number.
fn at_number<T>(all: &[T], number: u8) -> Option<&T>
    ensures there { IfSome result
        (λ value. (is_number number (length all.now) ≡ true)
        × ((none : T) → value.now ≡ (if number == 0 then none else get_or all.now (number - 1) none))) }
    ensures none { IfNone result (is_number number (length all.now) ≡ false) }
{
    if !is_number(number, all.len()) {
        return None;
    }
    Some(&all[usize::from(number) - 1])
}

/// Puts another one where this number is, and hands out the one that was there.
fn replace_number<T>(all: &mut Vec<T>, number: u8, value: T) -> T
    requires { is_number number (length all.old.items) ≡ true }
    ensures old { (none : T)
        → result ≡ (if number == 0 then none else get_or all.old.items (number - 1) none) }
    ensures new { all.new.items ≡ set all.old.items (number - 1) value }
{
    replace(&mut all[usize::from(number) - 1], value)
}

impl<T: Drop> EachEntity<T> {
    /// What `make` makes at the participant, at so many writers and at so many readers. Makes all the room that there
    /// will be.
    ///
    /// # Errors
    ///
    /// Where a growth was refused.
    pub fn open<F: Fn() -> T>(
        alloc: Global,
        writers: usize,
        readers: usize,
        make: F,
    ) -> Result<EachEntity<T>, AllocError>
        // It can be called at any time.
        requires callable { F.IsAlwaysCallable make }
        // If it makes the same each time, that stands everywhere.
        ensures everywhere { (x : T) → ((y : T) → F.post make y → y ≡ x)
            → IfOk result (λ all. all ≡ everywhere x writers readers) }
    {
        Ok(EachEntity {
            participant: make(),
            writers: filled(alloc, writers, &make)?,
            readers: filled(alloc, readers, &make)?,
        })
    }
}

impl<T> EachEntity<T> {
    /// What stands at the writers, in the order of their numbers.
    pub fn writers(&self) -> &[T]
        ensures writers { result.now ≡ self.now.writers }
    {
        self.writers.as_slice()
    }

    /// What stands at the readers, in the order of their numbers.
    pub fn readers(&self) -> &[T]
        ensures readers { result.now ≡ self.now.readers }
    {
        self.readers.as_slice()
    }

    /// Whether there is such an entity: the participant always, a writer or a reader of a number from 1 to how many
    /// there are.
    pub fn has(&self, entity: Entity) -> bool
        ensures there { result ≡ has_entity self.now entity }
    {
        match entity {
            Entity::Participant => true,
            Entity::Writer(number) => is_number(number, self.writers.len()),
            Entity::Reader(number) => is_number(number, self.readers.len()),
        }
    }

    /// What stands at an entity, if there is such an entity.
    pub fn at(&self, entity: Entity) -> Option<&T>
        // There is such an entity, and this stands there.
        ensures there { IfSome result
            (λ value. (has_entity self.now entity ≡ true)
            × ((none : T) → value.now ≡ entity_or self.now entity none)) }
        // There is none only where there is no such entity.
        ensures none { IfNone result (has_entity self.now entity ≡ false) }
    {
        match entity {
            Entity::Participant => Some(&self.participant),
            Entity::Writer(number) => at_number(&self.writers, number),
            Entity::Reader(number) => at_number(&self.readers, number),
        }
    }

    /// Puts another one at an entity that there is, and hands out the one that stood there.
    pub fn replace(&mut self, entity: Entity, value: T) -> T
        // There is such an entity.
        requires there { has_entity self.old entity ≡ true }
        // It stood there.
        ensures old { (none : T) → result ≡ entity_or self.old entity none }
        // The other one stands there, and nothing else changes.
        ensures new { self.new ≡ with_entity self.old entity value }
    {
        match entity {
            Entity::Participant => replace(&mut self.participant, value),
            Entity::Writer(number) => replace_number(&mut self.writers, number, value),
            Entity::Reader(number) => replace_number(&mut self.readers, number, value),
        }
    }
}
