//! The changes that a history keeps.
//!
//! They stand in the order of their numbers, and no number stands twice. So what all readers have acknowledged is at
//! the front, and a number is found at its distance from the first, or, where some between are missing, in halves.
//!
//! Under KEEP_LAST nothing is written to the older changes of a key when one more is made: each has its turn, and the
//! key its count, which tell what is dropped. What is dropped goes once it is first, or once it is more than what is
//! kept.
//!
//! DDS 1.4, 2.2.3 (HISTORY); RTPS 2.5, 8.2 (HistoryCache, CacheChange).

ghost use Rattle.std.specs.Prelude.{◌≡◌, [], ℕ, ◌+◌, ◌-◌, ◌^◌, ◌<◌, ◌≤◌, ◌==◌, ◌&&◌, ◌||◌, find, filter, slice_get, false, true, min, nat_le, nat_lt, Some, IfErr, IfSome, IfOk, MatchOption, OnOk, OnErr, if◌then◌else◌};
ghost use Rattle.std.specs.List.{reduce};
ghost use Rattle.std.specs.Option.{option_copied, option_map, unwrap_or};
ghost use Rattle.std.specs.VecDeque.{deque_len};
ghost use Rattle.dds_base.specs.declared.code.Code.TheVariants.{Memory};
ghost use Rattle.dds_base.specs.declared.key.Key.{Key};
ghost use Rattle.dds_base.specs.declared.qos.HistoryQos.TheVariants.{KeepLast};
ghost use Rattle.dds_base.specs.Happening.{same_key};
ghost use Rattle.dds_history.specs.declared.held.Entry.{Entry};
ghost use Rattle.dds_history.specs.Held.{IsNext, awaits, granted, kept_after, older_after};
ghost use Rattle.dds_history.specs.Entries.{Gains, HasRuns, Holds, HoldsBefore, IsAfterFirst, Rises, count_in, goes_first, held_as, one_fewer, remaining_by, shown, state, is_any_counted, is_counted_by, IsCounted, IsCountedAt, IsCountedBy, IsFew, IsFewBy, IsUncounted};

use crate::turn::Turn;
use dds_base::{Change, Code, HistoryQos, Key};
use indexmap::IndexMap;
use std::alloc::{AllocFailed, Global};
use std::collections::VecDeque;

/// So many keys may stand of which nothing is kept, beside twice as many as changes are: a writer that goes over some hundred
/// instances in turn finds each counted still, at some 40 octets a key.
const IDLE_KEYS: u64 = 1024;

/// A change, with its turn among those of its key.
#[derive(Drop)]
pub struct Entry {
    pub number: u64,
    pub change: Change,
    /// So many changes of its key were made with it, since some of them are kept; nothing counts under KEEP_ALL. The key was
    /// counted at its place when the change came, and most likely stands there still.
    pub turn: Turn,
}

/// What is counted of a key of which changes are kept.
#[derive(Clone, Copy)]
pub struct KeyCount {
    /// So many changes of it were made, since some of them are kept.
    pub turns: u64,
    /// So many of them are kept.
    pub kept: u64,
}

/// The changes that are kept, and some that were dropped.
#[derive(Drop)]
pub struct Kept {
    pub policy: HistoryQos,
    pub entries: VecDeque<Entry>,
    /// The keys of which changes are kept, and some of which none is any more; nothing counts under KEEP_ALL.
    pub keys: IndexMap<Key, KeyCount>,
    /// So many changes are kept; nothing counts under KEEP_ALL.
    pub live: u64,
    /// The place at which a key was counted last.
    pub latest: usize,
}

/// Whether some reader has not acknowledged the number.
pub fn is_awaited(acknowledged: &[u64], number: u64) -> bool
    ensures { result ≡ awaits acknowledged.now number }
{
    acknowledged.iter().any(|to| *to <= number)
}

/// The first number that some reader has not acknowledged; this other one where there is no reader.
pub fn first_awaited(acknowledged: &[u64], none: u64) -> u64
    ensures { result ≡ unwrap_or (reduce min acknowledged.now) none }
{
    acknowledged.iter().copied().min().unwrap_or(none)
}

/// What is counted of the key, if it stands at this place.
#[inline(always)]
fn count_at(keys: &IndexMap<Key, KeyCount>, place: usize, key: Key) -> Option<KeyCount>
    ensures { IfSome result (IsCountedAt keys.now.entries key place) }
{
    let (other, count) = keys.get_index(place)?;
    if *other == key { Some(*count) } else { None }
}

/// What is counted of the key, which most likely stands at this place.
fn count_of(keys: &IndexMap<Key, KeyCount>, likely: usize, key: Key) -> KeyCount
    ensures { result ≡ count_in keys.now.entries key }
{
    if let Some(count) = count_at(keys, likely, key) {
        return count;
    }
    match keys.get(&key) {
        Some(count) => *count,
        None => KeyCount { turns: 0, kept: 0 },
    }
}

/// Where the key stands, and what is counted of it, if anything is, by its hash.
fn find_count(keys: &IndexMap<Key, KeyCount>, key: Key) -> Option<(usize, KeyCount)>
    ensures { MatchOption result (count_in keys.now.entries key ≡ record { turns = 0; kept = 0 })
        (λ found. IsCountedAt keys.now.entries key found.0 found.1) }
{
    let (place, _, count) = keys.get_full(&key)?;
    Some((place, *count))
}

/// Counts this of the key that stands at a place.
fn recount(keys: &mut IndexMap<Key, KeyCount>, place: usize, count: KeyCount)
    ensures { (key : Key) (before : KeyCount) → slice_get keys.old.entries place ≡ Some (key, before)
        → (k : Key) → count_in keys.new.entries k
        ≡ (if same_key key k then count else count_in keys.old.entries k) }
{
    if let Some(found) = keys.get_index_mut(place) {
        *found = count;
    }
}

/// Enters the key, which most likely stands at the place behind this one, as keys are often gone over in turn, or at this one,
/// behind which no place is where there is one key alone, and gives its place and what was counted of it. What is entered of it
/// is right once it is counted anew.
fn enter(
    keys: &mut IndexMap<Key, KeyCount>,
    likely: usize,
    key: Key,
) -> Result<(usize, KeyCount), AllocFailed<(Key, KeyCount)>>
    ensures entered { IfOk result (λ entered. (entered.1 ≡ count_in keys.old.entries key)
        × (before : KeyCount) × (slice_get keys.new.entries entered.0 ≡ Some (key, before))) }
    ensures others { OnOk result ((k : Key) → same_key key k ≡ false
        → count_in keys.new.entries k ≡ count_in keys.old.entries k) }
    ensures err { OnErr result (keys.new.entries ≡ keys.old.entries) }
{
    let following = likely.wrapping_add(1);
    if let Some(count) = count_at(keys, following, key) {
        return Ok((following, count));
    }
    if let Some(count) = count_at(keys, likely, key) {
        return Ok((likely, count));
    }
    let (place, before) = keys.insert_full(key, KeyCount { turns: 0, kept: 0 })?;
    Ok((place, before.unwrap_or(KeyCount { turns: 0, kept: 0 })))
}

/// A change of this turn is kept until so many of its key were made.
fn kept_until(depth: u32, turn: &Turn) -> u64
    ensures { result ≡ turn.now + depth }
{
    // The sum does not wrap: a turn takes 49 bits.
    turn.number().wrapping_add(u64::from(depth))
}

/// So many more changes of its key drop the change: it is dropped where that is none.
fn remaining(policy: HistoryQos, keys: &IndexMap<Key, KeyCount>, entry: &Entry) -> u64
    ensures { result ≡ remaining_by policy keys.now.entries entry.now }
{
    match policy {
        HistoryQos::KeepAll => 1,
        HistoryQos::KeepLast(depth) => {
            let count = count_of(keys, entry.turn.place(), entry.change.key);
            kept_until(depth, &entry.turn).saturating_sub(count.turns)
        }
    }
}

/// What is counted of a key once one change fewer of it is kept.
fn one_fewer(count: KeyCount) -> KeyCount
    ensures { result ≡ one_fewer count }
{
    if count.kept <= 1 {
        KeyCount { turns: 0, kept: 0 }
    } else {
        KeyCount {
            turns: count.turns,
            kept: count.kept - 1,
        }
    }
}

/// Forgets the keys of which nothing is counted.
fn forget_idle(keys: &mut IndexMap<Key, KeyCount>)
    ensures { (k : Key) → count_in keys.new.entries k ≡ count_in keys.old.entries k }
{
    let _ = keys.len(); // its contract says that no two keys are one
    keys.retain(
        |_key: &Key, count: &mut KeyCount| -> bool
            ensures { (result ≡ is_any_counted count.old) × (count.new ≡ count.old) }
        { 0 < count.turns || 0 < count.kept },
    );
}

/// The change that stands as far from the first as its number does, if that is this number: so it is where no number
/// between is missing.
fn at_distance(entries: &VecDeque<Entry>, number: u64) -> Option<&Entry>
    ensures { Rises entries.now.items → IfSome result (λ entry.
        find (λ (e : Entry). e.number == number) entries.now.items ≡ Some entry.now) }
{
    let first = entries.front()?;
    let distance = number.checked_sub(first.number)?;
    let entry = entries.get(distance as usize)?;
    if entry.number == number {
        Some(entry)
    } else {
        None
    }
}

/// The change of a number, if it is here, looked for in halves.
fn search(entries: &VecDeque<Entry>, number: u64) -> Option<&Entry>
    ensures { Rises entries.now.items
        → option_copied result ≡ find (λ (e : Entry). e.number == number) entries.now.items }
{
    let at = entries.partition_point(|entry| entry.number < number);
    let entry = entries.get(at)?;
    if entry.number == number {
        Some(entry)
    } else {
        None
    }
}

/// What stands at a number, if anything.
fn find_entry(entries: &VecDeque<Entry>, number: u64) -> Option<&Entry>
    ensures { Rises entries.now.items
        → option_copied result ≡ find (λ (e : Entry). e.number == number) entries.now.items }
{
    if let Some(entry) = at_distance(entries, number) {
        return Some(entry);
    }
    search(entries, number)
}

/// So many more changes of its key drop a new change; nothing counts under KEEP_ALL.
fn granted(policy: HistoryQos) -> u64
    ensures { result ≡ granted policy }
{
    match policy {
        HistoryQos::KeepAll => 1,
        HistoryQos::KeepLast(depth) => u64::from(depth),
    }
}

/// Whether as many changes of a key are kept as can be.
fn is_full(depth: u32, count: KeyCount) -> bool
    ensures { result ≡ (nat_lt 0 depth && count.kept == depth) }
{
    0 < depth && count.kept == u64::from(depth)
}

/// The first entry that is not dropped.
fn first_kept<'a>(
    entries: &'a VecDeque<Entry>,
    policy: HistoryQos,
    keys: &IndexMap<Key, KeyCount>,
) -> Option<&'a Entry>
    ensures { option_copied result ≡ find (λ e. nat_lt 0 (remaining_by policy keys.now.entries e)) entries.now.items }
{
    entries
        .iter()
        .find(|entry| 0 < remaining(policy, keys, entry))
}

/// Lets go of what was dropped.
fn retain_kept(entries: &mut VecDeque<Entry>, policy: HistoryQos, keys: &IndexMap<Key, KeyCount>)
    ensures { entries.new.items ≡ filter (λ e. nat_lt 0 (remaining_by policy keys.now.entries e)) entries.old.items }
{
    entries.retain(|entry| 0 < remaining(policy, keys, entry));
}

impl Kept {
    /// Nothing is kept.
    pub fn new(alloc: Global, policy: HistoryQos) -> Self
        ensures holds { Holds 0 (state result) }
        ensures policy { result.policy ≡ policy }
        ensures none { shown (state result) ≡ [] }
    {
        Kept {
            policy,
            entries: VecDeque::new(alloc),
            keys: IndexMap::new(alloc),
            live: 0,
            latest: 0,
        }
    }

    /// Whether a new change is kept, which some reader awaits or not.
    pub fn takes(&self, is_awaited: bool) -> bool
        ensures { result ≡ (nat_lt 0 (granted self.now.policy) && is_awaited) }
    {
        0 < granted(self.policy) && is_awaited
    }

    /// The change of a number, if it is kept.
    pub fn find(&self, number: u64) -> Option<&Entry>
        ensures { Rises self.now.entries.items
            → option_map (held_as self.now.policy self.now.keys.entries) (option_copied result)
            ≡ find (λ h. h.number == number) (shown (state self.now)) }
    {
        let entry = find_entry(&self.entries, number)?;
        if 0 < remaining(self.policy, &self.keys, entry) {
            Some(entry)
        } else {
            None
        }
    }

    /// The first change that is kept.
    pub fn first(&self) -> Option<&Entry>
        ensures { option_map (held_as self.now.policy self.now.keys.entries) (option_copied result)
            ≡ slice_get (shown (state self.now)) 0 }
    {
        first_kept(&self.entries, self.policy, &self.keys)
    }

    /// Counts one change fewer of a key that stands at this place, of which this is counted, where an entry of it goes that is
    /// kept until so many were made. The key stands there on where none of it is kept, so that the other keys stay at their places
    /// too.
    #[inline(always)]
    fn uncount_at(&mut self, until: u64, key: Key, place: usize, count: KeyCount)
        requires { IsCountedAt self.old.keys.entries key place count }
        ensures policy { self.new.policy ≡ self.old.policy }
        ensures entries { self.new.entries ≡ self.old.entries }
        ensures counted { nat_lt 0 (until - (count_in self.old.keys.entries key).turns) ≡ true
            → IsUncounted key (state self.old) (state self.new) }
        ensures dropped { nat_lt 0 (until - (count_in self.old.keys.entries key).turns) ≡ false
            → state self.new ≡ state self.old }
    {
        if 0 < until.saturating_sub(count.turns) {
            self.live = self.live.saturating_sub(1);
            recount(&mut self.keys, place, one_fewer(count));
        }
    }

    /// The same of a key that stands anywhere, by its hash.
    // It is seldom asked, and needs more registers than a look at one place.
    #[inline(never)]
    fn uncount_found(&mut self, until: u64, key: Key)
        ensures policy { self.new.policy ≡ self.old.policy }
        ensures entries { self.new.entries ≡ self.old.entries }
        ensures counted { nat_lt 0 (until - (count_in self.old.keys.entries key).turns) ≡ true
            → 0 < (count_in self.old.keys.entries key).turns
            → IsUncounted key (state self.old) (state self.new) }
        ensures dropped { nat_lt 0 (until - (count_in self.old.keys.entries key).turns) ≡ false
            → state self.new ≡ state self.old }
    {
        if let Some((place, count)) = find_count(&self.keys, key) {
            self.uncount_at(until, key, place, count);
        }
    }

    /// Counts one change of its key fewer, where an entry goes that was not dropped.
    fn uncount(&mut self, depth: u32, entry: &Entry)
        ensures policy { self.new.policy ≡ self.old.policy }
        ensures entries { self.new.entries ≡ self.old.entries }
        ensures counted { is_counted_by (KeepLast depth) self.old.keys.entries entry.now ≡ true
            → 0 < (count_in self.old.keys.entries entry.now.change.key).turns
            → IsUncounted entry.now.change.key (state self.old) (state self.new) }
        ensures dropped { is_counted_by (KeepLast depth) self.old.keys.entries entry.now ≡ false
            → state self.new ≡ state self.old }
    {
        let (key, likely) = (entry.change.key, entry.turn.place());
        let until = kept_until(depth, &entry.turn);
        if let Some(count) = count_at(&self.keys, likely, key) {
            self.uncount_at(until, key, likely, count);
        } else {
            self.uncount_found(until, key);
        }
    }

    /// Lets go of the first entry, which goes by this number: one that was dropped is counted no longer.
    fn drop_first(&mut self, number: u64)
        ensures policy { self.new.policy ≡ self.old.policy }
        ensures after { (last : ℕ) → Holds last (state self.old) → goes_first number (state self.old) ≡ true
            → IsAfterFirst last (state self.old) (state self.new) }
        ensures len { deque_len self.new.entries ≡ deque_len self.old.entries - 1 }
    {
        if let Some(entry) = self.entries.pop_front() {
            if let HistoryQos::KeepLast(depth) = self.policy {
                if entry.number < number {
                    self.uncount(depth, &entry);
                }
            }
        }
    }

    /// Whether the first entry goes: its number is below this one, or it is dropped.
    fn goes_first(&self, number: u64) -> bool
        ensures { result ≡ goes_first number (state self.now) }
    {
        match self.entries.front() {
            Some(entry) => {
                entry.number < number || remaining(self.policy, &self.keys, entry) == 0
            }
            None => false,
        }
    }

    /// Lets go of the changes below the number, and of what was dropped before the first that stays.
    fn let_go(&mut self, number: u64)
        ensures policy { self.new.policy ≡ self.old.policy }
        ensures rest { (last : ℕ) → Holds last (state self.old)
            → Holds last (state self.new)
            × (shown (state self.new) ≡ filter (λ h. nat_le number h.number) (shown (state self.old))) }
    {
        while self.goes_first(number) {
            self.drop_first(number);
        }
    }

    /// Counts one more change of the key, and gives the number of its turn.
    fn count(&mut self, depth: u32, key: Key) -> Result<u64, Code>
        ensures counts { (last : ℕ) → last < 2 ^ 48 → IsFew last (state self.old)
            → IfOk result (IsCounted depth key (state self.old) (state self.new)) }
        ensures memory { IfErr result (λ code. code ≡ Memory) }
        ensures err { OnErr result (state self.new ≡ state self.old) }
        ensures entries { self.new.entries ≡ self.old.entries }
        ensures policy { self.new.policy ≡ self.old.policy }
    {
        let (place, count) = enter(&mut self.keys, self.latest, key)?;
        let is_full = count.kept == u64::from(depth);
        // No sum wraps: a writer makes 2^48 changes at most.
        let turns = count.turns.wrapping_add(1);
        let kept = if is_full {
            count.kept
        } else {
            count.kept.wrapping_add(1)
        };
        recount(&mut self.keys, place, KeyCount { turns, kept });
        self.latest = place;
        if !is_full {
            self.live = self.live.wrapping_add(1);
        }
        Ok(turns)
    }

    /// The turn of one more change of the key, which is counted.
    fn turn(&mut self, key: Key) -> Result<Turn, Code>
        ensures counts { (last : ℕ) → last < 2 ^ 48 → IsFewBy self.old.policy last (state self.old)
            → IfOk result (IsCountedBy self.old.policy key (state self.old) (state self.new)) }
        ensures memory { IfErr result (λ code. code ≡ Memory) }
        ensures err { OnErr result (state self.new ≡ state self.old) }
        ensures entries { self.new.entries ≡ self.old.entries }
        ensures policy { self.new.policy ≡ self.old.policy }
    {
        match self.policy {
            HistoryQos::KeepAll => Ok(Turn::new(0, 0)),
            HistoryQos::KeepLast(depth) => {
                let number = self.count(depth, key)?;
                Ok(Turn::new(number, self.latest))
            }
        }
    }

    /// Adds a change, which may drop an older one of its key.
    fn add(&mut self, number: u64, change: Change) -> Result<(), Code>
        ensures ok { (last : ℕ) → HoldsBefore last number (state self.old)
            → HasRuns (state self.old) → 0 < granted self.old.policy
            → OnOk result (Gains number change true (state self.old) (state self.new)) }
        ensures policy { self.new.policy ≡ self.old.policy }
        ensures memory { IfErr result (λ code. code ≡ Memory) }
        ensures err { OnErr result (state self.new ≡ state self.old) }
    {
        // Before anything changes.
        self.entries.reserve(1)?;
        let turn = self.turn(change.key)?;
        self.entries.push_back_reserved(Entry {
            number,
            change,
            turn,
        });
        Ok(())
    }

    /// Whether more was dropped than is kept.
    fn is_sparse(&self) -> bool {
        match self.policy {
            HistoryQos::KeepAll => false,
            HistoryQos::KeepLast(_) => self.live.saturating_mul(2) < self.entries.len() as u64,
        }
    }

    /// Lets go of what was dropped, where it is first, or more than what is kept.
    fn tidy(&mut self)
        ensures policy { self.new.policy ≡ self.old.policy }
        ensures same { (last : ℕ) → Holds last (state self.old)
            → Holds last (state self.new) × (shown (state self.new) ≡ shown (state self.old)) }
    {
        // Then nothing is dropped.
        if let HistoryQos::KeepAll = self.policy {
            return;
        }
        self.let_go(0);
        if self.is_sparse() {
            retain_kept(&mut self.entries, self.policy, &self.keys);
        }
    }

    /// Forgets the keys of which nothing is kept, where they are many more than the changes that are.
    fn tidy_keys(&mut self)
        ensures policy { self.new.policy ≡ self.old.policy }
        ensures same { (last : ℕ) → Holds last (state self.old)
            → Holds last (state self.new) × (shown (state self.new) ≡ shown (state self.old)) }
    {
        if self.live.saturating_mul(2).saturating_add(IDLE_KEYS) < self.keys.len() as u64 {
            forget_idle(&mut self.keys);
        }
    }

    /// Lets go of the changes below the number, and of what was dropped before the first that stays; and of the keys of which
    /// nothing is kept then, where they are many.
    pub fn acknowledge(&mut self, number: u64)
        ensures policy { self.new.policy ≡ self.old.policy }
        ensures rest { (last : ℕ) → Holds last (state self.old)
            → Holds last (state self.new)
            × (shown (state self.new) ≡ filter (λ h. nat_le number h.number) (shown (state self.old))) }
    {
        self.let_go(number);
        self.tidy_keys();
    }

    /// One more change, which is kept if some reader awaits it, and may drop an older one of its key.
    pub fn append(&mut self, number: u64, change: Change, is_awaited: bool) -> Result<(), Code>
        ensures ok { (last : ℕ) → HoldsBefore last number (state self.old)
            → IsNext self.old.policy (shown (state self.old)) is_awaited
            → OnOk result (Gains number change is_awaited (state self.old) (state self.new)) }
        ensures policy { self.new.policy ≡ self.old.policy }
        ensures memory { IfErr result (λ code. code ≡ Memory) }
        ensures taken { OnErr result ((nat_lt 0 (granted self.old.policy) && is_awaited) ≡ true) }
        ensures err { OnErr result (state self.new ≡ state self.old) }
    {
        if !self.takes(is_awaited) {
            return Ok(());
        }
        let before = self.live;
        self.add(number, change)?;
        // Where one more is kept, none was dropped for it.
        if self.live == before {
            self.tidy();
        }
        Ok(())
    }

    /// How many changes are kept once one more of this key was made, the new one among them if some reader awaits it.
    pub fn kept_with(&self, key: Key, is_awaited: bool) -> u64
        ensures { (last : ℕ) → last < 2 ^ 48 → Holds last (state self.now)
            → HasRuns (state self.now)
            → result ≡ kept_after self.now.policy (shown (state self.now)) key is_awaited }
    {
        let older = self.older(key);
        if self.takes(is_awaited) {
            older.saturating_add(1)
        } else {
            older
        }
    }

    /// How many changes stay kept once one more of this key was made.
    fn older(&self, key: Key) -> u64
        ensures older { (last : ℕ) → Holds last (state self.now) → HasRuns (state self.now)
            → result ≡ older_after self.now.policy (shown (state self.now)) key }
        ensures few { (last : ℕ) → last < 2 ^ 48 → Holds last (state self.now) → result < 2 ^ 64 - 1 }
    {
        match self.policy {
            HistoryQos::KeepAll => self.entries.len() as u64,
            HistoryQos::KeepLast(depth) => {
                if is_full(depth, count_of(&self.keys, self.latest, key)) {
                    self.live.saturating_sub(1)
                } else {
                    self.live
                }
            }
        }
    }
}
