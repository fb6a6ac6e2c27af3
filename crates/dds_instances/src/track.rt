//! One instance, followed through what happens.
//!
//! DDS 1.4, 2.2.2.5 (SampleInfo: instance_state, view_state, the two generation counts).

ghost use Rattle.std.specs.Prelude.{◌≡◌, ◌+◌, ◌∷◌, ◌<◌, ◌≤◌, ◌^◌, if◌then◌else◌, List, None, length, true, ℕ};
ghost use Rattle.dds_base.specs.declared.happening.Happening.{Happening};
ghost use Rattle.dds_base.specs.declared.happening.Happening.TheVariants.{Came, Died};
ghost use Rattle.dds_base.specs.declared.key.Key.{Key};
ghost use Rattle.dds_base.specs.declared.qos.ReaderQos.{ReaderQos};
ghost use Rattle.dds_base.specs.Instance.{is_disposed, is_without_writers};
ghost use Rattle.dds_base.specs.Life.{or_else, state_after, is_write, becomes_not_alive};
ghost use Rattle.dds_base.specs.Ownership.{accepted_kind, writers_of};
ghost use Rattle.dds_base.specs.Presence.{marks};
ghost use Rattle.dds_owner.specs.Standing.{IsBlank, StandsFor, TellsStrengths, has_writers, places_of};
ghost use Rattle.dds_instances.specs.Track.{state_of_track, one_if, fresh, seen_at, with_one_more, IsOneMore, is_born_dead, is_left_at_first, Counts, TracksEntry, Fits, Tracks};

use dds_base::{Arrival, ChangeKind, Handle, InstanceState, Key, OwnershipQos, ReaderQos};
use dds_owner::{Owners, Strengths};

/// What is known of an instance after what has happened. `docs/DECISIONS.md`, "A reader's cache", says why it has
/// owners of its own.
#[derive(Drop)]
pub struct InstanceTrack {
    pub key: Key,
    /// The handle of its life.
    pub handle: u64,
    pub owners: Owners,
    /// The kind of the last accepted write or dispose.
    pub last_accepted: Option<ChangeKind>,
    pub disposed_generations: u64,
    pub no_writers_generations: u64,
    /// The position of the latest rebirth, or else that at which its life began.
    pub latest_rebirth: u64,
    /// The position of the last marker.
    pub last_marker: Option<u64>,
    pub accepted_writes: u64,
    /// Whether a read or a take returned a sample of it since its latest rebirth.
    pub is_seen: bool,
    /// Whether something of it is noted as held: then its life goes on, though nobody be registered for it.
    pub is_held: bool,
}

fn state_by(last: Option<ChangeKind>, nobody: bool) -> Option<InstanceState>
    ensures { result ≡ state_after last nobody }
{
    match last {
        None => None,
        Some(ChangeKind::Write) => {
            if nobody {
                Some(InstanceState::NotAliveNoWriters)
            } else {
                Some(InstanceState::Alive)
            }
        }
        Some(_) => Some(InstanceState::NotAliveDisposed),
    }
}

/// Whether the first change of a life turns its instance to a state that is not alive, where so many writers are matched.
pub fn begins_dead(kind: ChangeKind, writer: Handle, writers: usize) -> bool
    ensures { result ≡ is_born_dead writers writer kind }
{
    match kind {
        ChangeKind::Write => !(0 < writer.number() && writer.number() <= writers as u64),
        ChangeKind::Unregister => false,
        _ => true,
    }
}

/// Whether nobody is registered for an unknown instance once a change of it came, where so many writers are matched.
pub fn begins_left(kind: ChangeKind, writer: Handle, writers: usize) -> bool
    ensures { result ≡ is_left_at_first writers writer kind }
{
    kind.is_unregister() || !(0 < writer.number() && writer.number() <= writers as u64)
}

fn is_written(kind: Option<ChangeKind>) -> bool
    ensures { result ≡ is_write kind }
{
    match kind {
        Some(ChangeKind::Write) => true,
        _ => false,
    }
}

fn is_disposed_state(state: Option<InstanceState>) -> bool
    ensures { result ≡ is_disposed state }
{
    match state {
        Some(InstanceState::NotAliveDisposed) => true,
        _ => false,
    }
}

fn is_without_writers_state(state: Option<InstanceState>) -> bool
    ensures { result ≡ is_without_writers state }
{
    match state {
        Some(InstanceState::NotAliveNoWriters) => true,
        _ => false,
    }
}

fn is_new_end(before: Option<InstanceState>, after: Option<InstanceState>) -> bool
    ensures { result ≡ becomes_not_alive before after }
{
    match after {
        Some(InstanceState::NotAliveDisposed) => match before {
            Some(InstanceState::NotAliveDisposed) => false,
            _ => true,
        },
        Some(InstanceState::NotAliveNoWriters) => match before {
            Some(InstanceState::NotAliveNoWriters) => false,
            _ => true,
        },
        _ => false,
    }
}

/// 1 where it is so.
pub fn count_if(is_so: bool) -> u64
    ensures count { result ≡ one_if is_so }
    ensures bound { result < 2 }
{
    if is_so { 1 } else { 0 }
}

fn chosen<T: Copy>(is_so: bool, first: T, second: T) -> T
    ensures { result ≡ (if is_so then first else second) }
{
    if is_so { first } else { second }
}

fn first_there(first: Option<ChangeKind>, second: Option<ChangeKind>) -> Option<ChangeKind>
    ensures { result ≡ or_else first second }
{
    match first {
        None => second,
        Some(kind) => Some(kind),
    }
}

/// A change of the instance came, accepted or not, of a writer that has a place.
fn note(owners: &mut Owners, arrival: &Arrival)
    ensures { (q : ReaderQos) (h : List Happening) → arrival.now.writer ≤ places_of owners.old
        → StandsFor owners.old q arrival.now.change.key h
        → StandsFor owners.new q arrival.now.change.key (Came arrival.now ∷ h) }
{
    if arrival.change.kind.is_unregister() {
        owners.unregister(arrival.writer);
    } else {
        owners.register(arrival.writer);
    }
}

impl InstanceTrack {
    /// Of an instance of whose life nothing has come, where it is to have this handle.
    pub fn new(key: Key, handle: u64, owners: Owners) -> Self
        ensures { result ≡ fresh key handle owners }
    {
        InstanceTrack {
            key,
            handle,
            owners,
            last_accepted: None,
            disposed_generations: 0,
            no_writers_generations: 0,
            latest_rebirth: 0,
            last_marker: None,
            accepted_writes: 0,
            is_seen: false,
            is_held: false,
        }
    }

    /// The state of the instance, none while it is unknown.
    pub fn state(&self) -> Option<InstanceState>
        ensures { result ≡ state_of_track self.now }
    {
        state_by(self.last_accepted, !self.owners.has_writers())
    }

    /// Whether a change of the instance would turn it to a state that is not alive, from another one.
    /// So many writers are matched.
    pub fn would_mark(
        &self,
        qos: &ReaderQos,
        strengths: &Strengths,
        arrival: &Arrival,
        writers: usize,
    ) -> bool
        ensures { (h : List Happening) → Tracks qos.now arrival.now.change.key h self.now
            → TellsStrengths strengths.now h → length (writers_of qos.now h) ≡ writers
            → result ≡ marks qos.now arrival.now.change.key h (Came arrival.now) }
    {
        let accepted = self.owners.accepted(qos, strengths, arrival);
        let last = first_there(accepted, self.last_accepted);
        let nobody = !self.owners.would_have_writers(arrival, writers);
        is_new_end(self.state(), state_by(last, nobody))
    }

    /// Counts an entry, once its owners have taken it up.
    fn count(&mut self, before: Option<InstanceState>, kind: Option<ChangeKind>, position: u64)
        requires writes { self.old.accepted_writes < position }
        requires generations { self.old.disposed_generations + self.old.no_writers_generations
            < position }
        ensures { Counts before kind position self.old self.new }
    {
        let is_birth = self.last_accepted.is_none() && kind.is_some();
        self.last_accepted = first_there(kind, self.last_accepted);
        let is_write = is_written(kind);
        let revives_disposed = is_write && is_disposed_state(before);
        let revives_without_writers = is_write && is_without_writers_state(before);
        self.disposed_generations += count_if(revives_disposed);
        self.no_writers_generations += count_if(revives_without_writers);
        let begins = is_birth || (revives_disposed || revives_without_writers);
        self.latest_rebirth = chosen(begins, position, self.latest_rebirth);
        self.is_seen = !begins && self.is_seen;
        let is_marked = is_new_end(before, self.state());
        self.last_marker = chosen(is_marked, Some(position), self.last_marker);
        self.is_held = is_marked || self.is_held;
        self.accepted_writes += count_if(is_write);
    }

    /// It takes over the places of blank owners, if these have more.
    pub fn widen(&mut self, blank: Owners)
        ensures others { self.new ≡ record self.old { owners = self.new.owners } }
        ensures same { (n : ℕ) (q : ReaderQos) (i : Key) (h : List Happening) → IsBlank n blank
            → n ≤ length (writers_of q h) → StandsFor self.old.owners q i h
            → StandsFor self.new.owners q i h }
        ensures places { places_of blank ≤ places_of self.new.owners }
        ensures writers { (n : ℕ) → IsBlank n blank
            → has_writers self.new.owners ≡ has_writers self.old.owners }
    {
        self.owners.widen(blank);
    }

    /// Takes up a change of the instance, the entry of this position, and gives its kind if it is accepted.
    pub fn change(
        &mut self,
        qos: &ReaderQos,
        strengths: &Strengths,
        arrival: &Arrival,
        position: u64,
    ) -> Option<ChangeKind>
        requires fits { Fits position self.old }
        ensures advances { TracksEntry result position self.old self.new }
        ensures accepted { (h : List Happening)
            → StandsFor self.old.owners qos.now arrival.now.change.key h
            → TellsStrengths strengths.now h
            → result ≡ accepted_kind qos.now arrival.now.change.key h (Came arrival.now) }
        ensures came { (h : List Happening) → arrival.now.writer ≤ places_of self.old.owners
            → StandsFor self.old.owners qos.now arrival.now.change.key h
            → TellsStrengths strengths.now h
            → StandsFor self.new.owners qos.now arrival.now.change.key (Came arrival.now ∷ h) }
    {
        let before = self.state();
        self.owners.keep_owner(qos, strengths);
        let accepted = self.owners.accepted(qos, strengths, arrival);
        note(&mut self.owners, arrival);
        self.count(before, accepted, position);
        accepted
    }

    /// Whether a change of the instance is one more write of it, upon a write: of a writer that is registered, where ownership
    /// is SHARED. Then the instance is alive, and stays so.
    pub fn is_one_more(&self, qos: &ReaderQos, arrival: &Arrival) -> bool
        ensures { result ≡ true → IsOneMore qos.now arrival.now self.now }
    {
        if let OwnershipQos::Exclusive = qos.ownership {
            return false;
        }
        is_written(Some(arrival.change.kind))
            && is_written(self.last_accepted)
            && self.owners.is_registered(arrival.writer)
    }

    /// Counts one more write of the instance: all else of it stays.
    pub fn count_write(&mut self)
        requires fits { self.old.accepted_writes + 1 < 2 ^ 64 }
        ensures { self.new ≡ with_one_more self.old }
    {
        self.accepted_writes += 1;
    }

    /// Takes up the death of a writer, the entry of this position.
    pub fn bury(&mut self, writer: Handle, position: u64)
        requires fits { Fits position self.old }
        ensures advances { TracksEntry None position self.old self.new }
        ensures died { (q : ReaderQos) (i : Key) (h : List Happening) (moment : ℕ)
            → StandsFor self.old.owners q i h
            → StandsFor self.new.owners q i (Died writer moment ∷ h) }
        ensures fewer { has_writers self.new.owners ≡ true → has_writers self.old.owners ≡ true }
    {
        let before = self.state();
        self.owners.drop_writer(writer);
        self.count(before, None, position);
    }

    /// Takes up that a sample of the instance at this position was returned.
    pub fn see(&mut self, position: u64)
        ensures { self.new ≡ seen_at position self.old }
    {
        self.is_seen = self.is_seen || self.latest_rebirth <= position;
    }
}
