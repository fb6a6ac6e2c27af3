//! The instances that a writer has registered: a set, so how many there are matters to none of these.
//!
//! DDS 1.4, 2.2.2.4 (register_instance, unregister_instance).

ghost use Rattle.std.specs.Prelude.{◌≡◌, ◌<◌, ◌||◌, ◌⊎◌, [], not, false, true, slice_get, Some, IsOk, IfOk, OnErr, OnOk, if◌then◌else◌};
ghost use Rattle.dds_base.specs.Happening.{same_key, is_unregister};
ghost use Rattle.rtps_writer.specs.Registered.{IsAgain, is_among};

use dds_base::{ChangeKind, Key};
use indexmap::IndexSet;
use std::alloc::{AllocError, AllocFailed, Global};
use std::marker::Model;

/// The instances that a writer has registered.
#[derive(Drop)]
pub struct RegisteredInstances {
    set: IndexSet<Key>,
    /// A place at which the instance of the last write or dispose stood: its key is compared before one is hashed.
    latest: usize,
}

impl Model for RegisteredInstances {
    ghost use Rattle.rtps_writer.specs.Registered.{Instances, instances_of};

    ghost Value = { Instances };

    ghost view = { instances_of };
}

/// Whether a key stands at this place.
fn is_at(set: &IndexSet<Key>, place: usize, key: Key) -> bool
    ensures { result ≡ true → slice_get set.now.keys place ≡ Some key }
{
    match set.get_index(place) {
        Some(other) => *other == key,
        None => false,
    }
}

impl RegisteredInstances {
    /// None.
    pub fn new(alloc: Global) -> RegisteredInstances
        ensures none { result.keys ≡ [] }
    {
        RegisteredInstances {
            set: IndexSet::new(alloc),
            latest: 0,
        }
    }

    /// Whether the instance is registered.
    pub fn has(&self, key: Key) -> bool
        ensures { result ≡ is_among self.now.keys key }
    {
        self.set.contains(&key)
    }

    /// Whether this key stands at the remembered place, or at the one behind it, which is remembered then: instances are often
    /// gone over in turn. Then it is registered.
    fn finds(&mut self, key: Key) -> bool
        ensures keys { self.new.keys ≡ self.old.keys }
        ensures room { self.new.room ≡ self.old.room }
        ensures found { result ≡ true → is_among self.old.keys key ≡ true }
    {
        if is_at(&self.set, self.latest, key) {
            return true;
        }
        let following = self.latest.wrapping_add(1);
        if is_at(&self.set, following, key) {
            self.latest = following;
            return true;
        }
        false
    }

    /// Registers an instance, whether or not it is registered.
    pub fn register(&mut self, key: Key) -> Result<(), AllocFailed<Key>>
        ensures registered { OnOk result ((k : Key)
            → is_among self.new.keys k ≡ (same_key key k || is_among self.old.keys k)) }
        ensures err { OnErr result (self.new.keys ≡ self.old.keys) }
        ensures absent { OnErr result (is_among self.old.keys key ≡ false) }
        ensures succeeds { 0 < self.old.room → IsOk result }
    {
        self.set.insert(key)?;
        Ok(())
    }

    /// Ends the registration of an instance.
    fn unregister(&mut self, key: Key)
        ensures { (k : Key)
            → is_among self.new.keys k
            ≡ (if same_key key k then false else is_among self.old.keys k) }
    {
        self.set.swap_remove(&key);
    }

    /// Makes the room that a change of this kind needs: one that registers an instance which is not registered yet. Where it
    /// is told so, the change registers one that is registered already.
    pub fn reserve(&mut self, key: Key, kind: ChangeKind) -> Result<bool, AllocError>
        ensures keys { self.new.keys ≡ self.old.keys }
        ensures room { OnOk result (is_unregister kind ≡ false
            → (0 < self.new.room) ⊎ (is_among self.new.keys key ≡ true)) }
        ensures again { IfOk result (λ again. again ≡ true → IsAgain self.new.keys key kind) }
        ensures wants { OnErr result
            ((is_unregister kind ≡ false) × (is_among self.old.keys key ≡ false)) }
    {
        if kind.is_unregister() {
            return Ok(false);
        }
        if self.finds(key) {
            return Ok(true);
        }
        match self.set.reserve(1) {
            Ok(()) => Ok(false),
            // Most sets have room: which instances there are is looked up only where there is none.
            Err(_) if self.has(key) => Ok(true),
            Err(error) => Err(error),
        }
    }

    /// Registers the instance of a change, for which there is room.
    fn keep(&mut self, key: Key)
        requires { (0 < self.old.room) ⊎ (is_among self.old.keys key ≡ true) }
        ensures { (k : Key)
            → is_among self.new.keys k ≡ (if same_key key k then true else is_among self.old.keys k) }
    {
        match self.set.get_index_of(&key) {
            Some(place) => self.latest = place,
            None => {
                self.latest = self.set.len();
                self.register(key).unwrap();
            }
        }
    }

    /// What a change of this kind does: a write and a dispose register its instance, the others end its registration. It may be
    /// told that the change registers one that is registered already.
    pub fn note(&mut self, key: Key, kind: ChangeKind, is_again: bool)
        requires room { is_unregister kind ≡ false
            → (0 < self.old.room) ⊎ (is_among self.old.keys key ≡ true) }
        requires again { is_again ≡ true → IsAgain self.old.keys key kind }
        ensures { (k : Key) → is_among self.new.keys k
            ≡ (if same_key key k then not (is_unregister kind) else is_among self.old.keys k) }
    {
        if is_again {
            return;
        }
        if kind.is_unregister() {
            self.unregister(key);
        } else {
            self.keep(key);
        }
    }
}
