//! Where an instance is kept.
//!
//! DDS 1.4, 2.2.2.5 (lookup_instance).

ghost use Rattle.std.specs.Prelude.{◌≡◌, ◌+◌, ◌<◌, ◌≤◌, ◌++◌, ◌∷◌, [], not, filter, length, false, true, Some, slice_get, MatchOption, OnOk, vec_len, vec_capacity};
ghost use Rattle.std.specs.List.{list_any, IsDistinct};
ghost use Rattle.dds_base.specs.Happening.{same_key};
ghost use Rattle.dds_instances.specs.Following.{IsPlaceOf};

use crate::track::InstanceTrack;
use dds_base::Key;
use indexmap::IndexSet;
use std::alloc::{AllocError, Global};
use std::marker::Model;

/// The keys of known instances, each at the place of its instance.
#[derive(Drop)]
pub struct KeyIndex {
    set: IndexSet<Key>,
    /// The place of the instance that was expected last: its key, and that of the one behind it, are compared before a key is
    /// hashed.
    latest: usize,
    /// The key of no instance that was expected last, if there is one: it is compared then.
    absent: Option<Key>,
}

impl Model for KeyIndex {
    ghost use Rattle.dds_instances.specs.Keys.{Keys};

    ghost Value = { Keys };

    ghost use Rattle.dds_instances.specs.Index.{keys_of, Remembers};

    ghost view = { keys_of };

    ghost invariant = { Remembers };
}

impl KeyIndex {
    /// Of no instance.
    pub fn new(alloc: Global) -> KeyIndex
        ensures { result.keys ≡ [] }
    {
        KeyIndex {
            set: IndexSet::new(alloc),
            latest: 0,
            absent: None,
        }
    }

    /// Makes room for so many more keys.
    pub fn reserve(&mut self, additional: usize) -> Result<(), AllocError>
        ensures keys { self.new.keys ≡ self.old.keys }
        ensures ok { OnOk result (additional ≤ self.new.room) }
        ensures more { self.old.room ≤ self.new.room }
    {
        self.set.reserve(additional)
    }

    /// The next key that is looked up is most likely the one at this place.
    pub fn expect_at(&mut self, place: usize)
        ensures same { self.new ≡ self.old }
    {
        self.latest = place;
    }

    /// The place of a key, if it is there. The next key that is looked up is most likely this one, be it there or not.
    #[inline(always)]
    pub fn seek(&mut self, key: Key) -> Option<usize>
        ensures place { MatchOption result (list_any (same_key key) self.old.keys
            ≡ false) (IsPlaceOf self.old.keys key) }
        ensures same { self.new ≡ self.old }
    {
        let found = find(self, key);
        match found {
            Some(place) => self.latest = place,
            None => self.absent = Some(key),
        }
        found
    }

    /// The next key that is looked up is most likely this one, be it there or not.
    pub fn expect(&mut self, key: Key)
        ensures same { self.new ≡ self.old }
    {
        let _ = self.seek(key);
    }

    /// Puts a key last, in the room that there is.
    pub fn push(&mut self, key: Key)
        requires room { 0 < self.old.room }
        requires absent { list_any (same_key key) self.old.keys ≡ false }
        ensures keys { self.new.keys ≡ self.old.keys ++ key ∷ [] }
        ensures room { self.old.room ≤ self.new.room + 1 }
    {
        self.latest = self.set.len();
        self.absent = None;
        self.set.insert(key).unwrap();
    }

    /// Forgets a key.
    pub fn forget(&mut self, key: Key)
        ensures keys { self.new.keys ≡ filter (λ other. not (same_key other key)) self.old.keys }
        ensures room { self.old.room ≤ self.new.room }
    {
        self.set.retain(|other| *other != key);
        self.absent = Some(key);
    }

    /// Forgets all keys.
    pub fn clear(&mut self)
        ensures keys { self.new.keys ≡ [] }
        ensures room { length self.old.keys + self.old.room ≤ self.new.room }
    {
        self.set.clear();
    }

    /// How many keys there are.
    pub fn len(&self) -> usize
        ensures len { result ≡ length self.now.keys }
        ensures distinct { IsDistinct same_key self.now.keys }
    {
        self.set.len()
    }
}

/// Whether a key stands at this place.
fn is_at(set: &IndexSet<Key>, place: usize, key: Key) -> bool
    ensures { result ≡ true → slice_get set.now.keys place ≡ Some key }
{
    match set.get_index(place) {
        Some(other) => *other == key,
        None => false,
    }
}

/// Whether this key is that one, if there is one.
fn is_that(absent: &Option<Key>, key: Key) -> bool
    ensures { result ≡ true → absent.now ≡ Some key }
{
    match absent {
        Some(absent) => *absent == key,
        None => false,
    }
}

/// The place of a key, if it is there, most likely not where one was expected last.
// It needs more registers than a look at the latest, which so saves none.
#[inline(never)]
fn find_other(index: &KeyIndex, key: Key) -> Option<usize>
    ensures { MatchOption result (list_any (same_key key) index.now.keys
        ≡ false) (IsPlaceOf index.now.keys key) }
{
    let _ = index.set.len(); // its contract says that no two keys are one
    if is_that(&index.absent, key) {
        return None;
    }
    // Instances are often gone over in turn.
    let following = index.latest.saturating_add(1);
    if is_at(&index.set, following, key) {
        return Some(following);
    }
    index.set.get_index_of(&key)
}

/// The place of a key, if it is there.
#[inline(always)]
pub fn find(index: &KeyIndex, key: Key) -> Option<usize>
    ensures { MatchOption result (list_any (same_key key) index.now.keys
        ≡ false) (IsPlaceOf index.now.keys key) }
{
    let _ = index.set.len(); // its contract says that no two keys are one
    if is_at(&index.set, index.latest, key) {
        return Some(index.latest);
    }
    find_other(index, key)
}

/// Puts an instance last, in the room that there is.
pub fn put_last(index: &mut KeyIndex, tracks: &mut Vec<InstanceTrack>, track: InstanceTrack)
    requires place { 0 < index.old.room }
    requires room { vec_len tracks.old < vec_capacity tracks.old }
    requires absent { list_any (same_key track.key) index.old.keys ≡ false }
    ensures tracks { tracks.new.items ≡ tracks.old.items ++ track ∷ [] }
    ensures keys { index.new.keys ≡ index.old.keys ++ track.key ∷ [] }
    ensures room { index.old.room ≤ index.new.room + 1 }
    ensures len { vec_len tracks.new ≡ vec_len tracks.old + 1 }
    ensures capacity { vec_capacity tracks.old ≤ vec_capacity tracks.new }
{
    let key = track.key;
    tracks.push_reserved(track);
    index.push(key);
}
