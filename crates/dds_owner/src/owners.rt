//! The registered writers of an instance, and its owner.
//!
//! DDS 1.4, 2.2.3 (OWNERSHIP, OWNERSHIP_STRENGTH, LIVELINESS), 2.2.2.4 (register_instance, unregister_instance).

ghost use Rattle.std.specs.Prelude.{◌≡◌, ◌≤◌, ◌∷◌, ℕ, List, length, not, true, false, IfOk, IfErr};
ghost use Rattle.dds_base.specs.declared.code.Code.TheVariants.{Memory};
ghost use Rattle.dds_base.specs.declared.happening.Arrival.{Arrival};
ghost use Rattle.dds_base.specs.declared.happening.Happening.{Happening};
ghost use Rattle.dds_base.specs.declared.happening.Happening.TheVariants.{Came, Died};
ghost use Rattle.dds_base.specs.declared.key.Key.{Key};
ghost use Rattle.dds_base.specs.declared.qos.ReaderQos.{ReaderQos};
ghost use Rattle.dds_base.specs.Happening.{is_unregister};
ghost use Rattle.dds_base.specs.Life.{is_nobody};
ghost use Rattle.dds_base.specs.Ownership.{IsMatched, accepted_kind, is_registered, owner_of, registered_writers, writers_of};
ghost use Rattle.dds_base.specs.declared.qos.OwnershipQos.TheVariants.{Exclusive};
ghost use Rattle.dds_owner.specs.Standing.{IsBlank, StandsFor, TellsStrengths, has_writers, places_of};

use crate::ranking::{KeptOwner, accepted_by, current_owner, leader_of, owner_but, owner_to_keep};
use crate::registration::{
    Registration, blank_items, enter, is_anybody_there, is_writer_there, put_front,
    would_anybody_be_there,
};
use crate::strengths::Strengths;
use dds_base::{Arrival, ChangeKind, Code, Handle, OwnershipQos, ReaderQos};
use std::alloc::Global;
use std::marker::Model;

/// Which of a reader's matched writers are registered for one instance, kept up with what happens there.
///
/// A writer is registered from a write or a dispose of the instance, accepted or not, until its unregister or its
/// death. Of the matched writers it has places for the first ones alone, where some joined since: one that it has no place
/// for is not registered, and `widen` goes before it is.
///
/// DDS 1.4, 2.2.3 (OWNERSHIP, OWNERSHIP_STRENGTH), 2.2.2.4 (register_instance, unregister_instance).
#[derive(Drop)]
pub struct Owners {
    /// By publication handle, of the first matched writers.
    registrations: Vec<Registration>,
    /// The owner, while it is known.
    owner: Option<KeptOwner>,
}

impl Model for Owners {
    ghost use Rattle.dds_owner.specs.Standing.{Kept};

    ghost Value = { Kept };

    ghost view = { λ o. record { registrations = o.registrations.items; owner = o.owner } };
}

impl Owners {
    /// Of an instance for which nobody is registered, with places for so many writers. It has all the memory that these
    /// will ever need.
    ///
    /// # Errors
    ///
    /// `Memory` where a growth was refused.
    pub fn open(alloc: Global, writers: usize) -> Result<Owners, Code>
        // It stands for each instance for which nobody is registered.
        ensures ok { IfOk result (IsBlank writers) }
        // The only refusal is for want of memory.
        ensures memory { IfErr result (λ code. code ≡ Memory) }
    {
        let registrations = blank_items(alloc, writers)?;
        Ok(Owners {
            registrations,
            owner: None,
        })
    }

    /// For how many of the matched writers it has places: the first ones.
    pub fn places(&self) -> usize
        ensures { result ≡ places_of self.now }
    {
        self.registrations.len()
    }

    /// Takes over the places of blank owners, if these have more. It needs no memory.
    pub fn widen(&mut self, blank: Owners)
        // It stands for what it stood for, where so many writers are matched.
        ensures same { (n : ℕ) (q : ReaderQos) (i : Key) (h : List Happening) → IsBlank n blank
            → n ≤ length (writers_of q h) → StandsFor self.old q i h → StandsFor self.new q i h }
        // It has as many places as they had.
        ensures places { places_of blank ≤ places_of self.new }
        // Somebody is registered exactly where somebody was.
        ensures writers { (n : ℕ) → IsBlank n blank → has_writers self.new ≡ has_writers self.old }
    {
        if blank.places() <= self.places() {
            return;
        }
        let Owners {
            mut registrations,
            owner: _,
        } = blank;
        put_front(&mut registrations, &self.registrations);
        self.registrations = registrations;
    }

    /// A write or a dispose of the instance came, accepted or not: its writer is registered.
    ///
    /// DDS 1.4, 2.2.2.4 (register_instance).
    pub fn register(&mut self, writer: Handle)
        // A change of it came that does not unregister, and it has a place.
        ensures came { (q : ReaderQos) (h : List Happening) (a : Arrival)
            → writer ≤ places_of self.old → StandsFor self.old q a.change.key h
            → a.writer ≡ writer → is_unregister a.change.kind ≡ false
            → StandsFor self.new q a.change.key (Came a ∷ h) }
    {
        if !is_writer_there(&self.registrations, writer) {
            self.owner = None;
            enter(&mut self.registrations, writer, true);
        }
    }

    /// An unregister of the instance came, with a dispose or without: its writer is not registered any more.
    ///
    /// DDS 1.4, 2.2.2.4 (unregister_instance).
    pub fn unregister(&mut self, writer: Handle)
        // A change of it came that unregisters.
        ensures came { (q : ReaderQos) (h : List Happening) (a : Arrival)
            → StandsFor self.old q a.change.key h
            → a.writer ≡ writer → is_unregister a.change.kind ≡ true
            → StandsFor self.new q a.change.key (Came a ∷ h) }
    {
        self.owner = owner_but(self.owner, writer);
        enter(&mut self.registrations, writer, false);
    }

    /// A writer died, at whichever moment: it is not registered any more.
    ///
    /// DDS 1.4, 2.2.3 (LIVELINESS).
    pub fn drop_writer(&mut self, dead: Handle)
        // It died.
        ensures died { (q : ReaderQos) (i : Key) (h : List Happening) (moment : ℕ)
            → StandsFor self.old q i h
            → StandsFor self.new q i (Died dead moment ∷ h) }
        // Nobody is registered by it.
        ensures fewer { has_writers self.new ≡ true → has_writers self.old ≡ true }
    {
        self.owner = owner_but(self.owner, dead);
        enter(&mut self.registrations, dead, false);
    }

    /// Finds out who owns the instance, where ownership is EXCLUSIVE and the owner is not known: until a writer is registered
    /// that was not, the owner's registration ends, or a strength changes, `accepted` and `owner` look at no other one.
    ///
    /// DDS 1.4, 2.2.3 (OWNERSHIP, OWNERSHIP_STRENGTH).
    pub fn keep_owner(&mut self, qos: &ReaderQos, strengths: &Strengths)
        // It stands for what it stood for.
        ensures same { (i : Key) (h : List Happening) → StandsFor self.old qos.now i h
            → TellsStrengths strengths.now h → StandsFor self.new qos.now i h }
        // Somebody is registered exactly where somebody was.
        ensures writers { has_writers self.new ≡ has_writers self.old }
        // It has as many places as before.
        ensures places { places_of self.new ≡ places_of self.old }
    {
        if qos.ownership == OwnershipQos::Exclusive
            && current_owner(strengths, self.owner).is_none()
        {
            self.owner = owner_to_keep(qos, strengths, &self.registrations);
        }
    }

    /// The owner under EXCLUSIVE ownership, none where nobody is registered.
    ///
    /// It is the registered writer of the greatest strength, by what the writers' changes said, and of equals the one
    /// whose sixteen GUID octets are the smaller. Where two matched writers share a GUID, and both come first, there is
    /// none.
    ///
    /// DDS 1.4, 2.2.3 (OWNERSHIP, OWNERSHIP_STRENGTH).
    pub fn owner(&self, qos: &ReaderQos, strengths: &Strengths) -> Option<Handle>
        // It is the owner among the registered writers.
        ensures owner { (i : Key) (h : List Happening) → StandsFor self.now qos.now i h
            → TellsStrengths strengths.now h
            → result ≡ owner_of qos.now h (registered_writers qos.now i h) }
    {
        if let Some(owner) = current_owner(strengths, self.owner) {
            return Some(owner);
        }
        let leader = leader_of(qos, strengths, &self.registrations)?;
        if leader.is_sole {
            Some(leader.writer)
        } else {
            None
        }
    }

    /// Whether a writer is registered; of a handle that names none, `false`.
    ///
    /// DDS 1.4, 2.2.2.4 (register_instance, unregister_instance).
    pub fn is_registered(&self, writer: Handle) -> bool
        // It is so by the definitions.
        ensures matched { (q : ReaderQos) (i : Key) (h : List Happening) → StandsFor self.now q i h
            → IsMatched q h writer → result ≡ is_registered i writer h }
        // A handle that names no writer names none that is registered.
        ensures unmatched { (q : ReaderQos) (i : Key) (h : List Happening)
            → StandsFor self.now q i h
            → (IsMatched q h writer → ⊥) → result ≡ false }
    {
        is_writer_there(&self.registrations, writer)
    }

    /// Whether anybody is registered.
    ///
    /// DDS 1.4, 2.2.2.5 (instance_state).
    pub fn has_writers(&self) -> bool
        // It is told of what is kept.
        ensures kept { result ≡ has_writers self.now }
        // It is so by the definitions.
        ensures anybody { (q : ReaderQos) (i : Key) (h : List Happening) → StandsFor self.now q i h
            → result ≡ not (is_nobody (registered_writers q i h)) }
    {
        is_anybody_there(&self.registrations)
    }

    /// Whether anybody would be registered once a change of the instance came, where so many writers are matched.
    ///
    /// DDS 1.4, 2.2.2.5 (instance_state).
    pub fn would_have_writers(&self, arrival: &Arrival, writers: usize) -> bool
        // It is so by the definitions.
        ensures anybody { (q : ReaderQos) (h : List Happening)
            → StandsFor self.now q arrival.now.change.key h → length (writers_of q h) ≡ writers
            → result
            ≡ not (is_nobody (registered_writers q arrival.now.change.key (Came arrival.now ∷ h))) }
    {
        let is_entered = !arrival.change.kind.is_unregister();
        let writer = arrival.writer.number() as usize;
        if is_entered && self.registrations.len() < writer && writer <= writers {
            // It has no place for the writer yet.
            return true;
        }
        would_anybody_be_there(&self.registrations, arrival.writer, is_entered)
    }

    /// The kind of a change of the instance, if it is accepted where it comes now.
    ///
    /// Under SHARED ownership each write and each dispose is, and nothing is asked of the strengths. Under EXCLUSIVE
    /// it is if its writer is the owner among those that are registered and itself, by the strengths before it and its
    /// own.
    ///
    /// DDS 1.4, 2.2.3 (OWNERSHIP, OWNERSHIP_STRENGTH).
    pub fn accepted(
        &self,
        qos: &ReaderQos,
        strengths: &Strengths,
        arrival: &Arrival,
    ) -> Option<ChangeKind>
        // It is that of the definitions.
        ensures accepted { (h : List Happening)
            → StandsFor self.now qos.now arrival.now.change.key h
            → (qos.now.ownership ≡ Exclusive → TellsStrengths strengths.now h)
            → result ≡ accepted_kind qos.now arrival.now.change.key h (Came arrival.now) }
    {
        accepted_by(qos, strengths, self.owner, &self.registrations, arrival)
    }
}
