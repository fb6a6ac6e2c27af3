//! What an entry changes at the instances that are kept.
//!
//! DDS 1.4, 2.2.2.5 (SampleInfo: instance_state, view_state, the two generation counts), 2.2.3 (OWNERSHIP_STRENGTH,
//! LIVELINESS).

ghost use Rattle.std.specs.Prelude.{Bool, ◌≡◌, ◌+◌, ◌^◌, ◌<◌, ◌≤◌, ◌∷◌, [], List, ℕ, true, false, None, is_some, IsTrue, MatchOption, IfSome, IfErr, OnOk, map, count_by, length, All, vec_len, vec_capacity, filter};
ghost use Rattle.std.specs.List.{list_any, IsDistinct};
ghost use Rattle.dds_base.specs.declared.happening.Happening.{Happening};
ghost use Rattle.dds_base.specs.declared.happening.Happening.TheVariants.{Came, Died};
ghost use Rattle.dds_base.specs.declared.qos.ReaderQos.{ReaderQos};
ghost use Rattle.dds_base.specs.Happening.{same_key, is_write_or_dispose};
ghost use Rattle.dds_base.specs.declared.code.Code.TheVariants.{Memory};
ghost use Rattle.dds_base.specs.declared.key.Key.{Key};
ghost use Rattle.dds_base.specs.Life.{is_at, is_nobody, last_accepted};
ghost use Rattle.dds_base.specs.Access.{lives_begun};
ghost use Rattle.dds_base.specs.Ownership.{IsMatched, registered_writers, writers_of};
ghost use Rattle.dds_owner.specs.Standing.{KeptStrengths, TellsStrengths, strengths_room};
ghost use Rattle.dds_base.specs.declared.happening.SamplePosition.{SamplePosition};
ghost use Rattle.dds_instances.specs.Track.{Fits, Tracks, is_alive_track, held_as, held_too, is_other, lives_on, seen_in};
ghost use Rattle.dds_instances.specs.Table.{is_any_left};
ghost use Rattle.dds_instances.specs.declared.track.InstanceTrack.{InstanceTrack};
ghost use Rattle.dds_instances.specs.Following.{key_of, AreBlank, Follows, FollowsBefore, HasPlace, HeldRight, IsForNextLife, IsPlaceOf, LivesRight, MayTakeUp, Reaches, TakeUp, TakesWrite};

use crate::known::{KnownInstance, told_as};
use crate::place::{KeyIndex, find, put_last};
use crate::track::InstanceTrack;
use dds_base::{Arrival, Code, Handle, InstanceState, Key, ReaderQos, SamplePosition};
use dds_owner::{Owners, Strengths};
use std::alloc::Global;

/// A known instance takes up a change of it, the entry of this position.
pub fn change_known(
    tracks: &mut Vec<InstanceTrack>,
    at: usize,
    qos: &ReaderQos,
    strengths: &Strengths,
    arrival: &Arrival,
    position: u64,
)
    requires place { IsPlaceOf (map key_of tracks.old.items) arrival.now.change.key at }
    requires fits { All (Fits position) tracks.old.items }
    ensures fits { All (Fits (position + 1)) tracks.new.items }
    ensures keys { map key_of tracks.new.items ≡ map key_of tracks.old.items }
    ensures len { vec_len tracks.new ≡ vec_len tracks.old }
    ensures capacity { vec_capacity tracks.new ≡ vec_capacity tracks.old }
    ensures alive { count_by is_alive_track tracks.new.items
        ≤ count_by is_alive_track tracks.old.items + 1 }
    ensures follows { (h : List Happening)
        → MayTakeUp qos.now strengths.now h position tracks.old.items
        → IsMatched qos.now h arrival.now.writer → HasPlace tracks.old.items at arrival.now.writer
        → TakeUp qos.now h arrival.now tracks.new.items false }
{
    tracks[at].change(qos, strengths, arrival, position);
}

/// A known instance gets a place for a matched writer, if it has none for it: it takes over those of blank owners. So many
/// writers are matched.
pub fn make_place(
    tracks: &mut Vec<InstanceTrack>,
    at: usize,
    blanks: &mut Vec<Owners>,
    writers: usize,
    writer: Handle,
)
    requires within { at < vec_len tracks.old }
    requires spare_blank { 0 < vec_len blanks.old }
    requires blank { AreBlank writers blanks.old.items }
    ensures fits { (n : ℕ) → All (Fits n) tracks.old.items → All (Fits n) tracks.new.items }
    ensures keys { map key_of tracks.new.items ≡ map key_of tracks.old.items }
    ensures len { vec_len tracks.new ≡ vec_len tracks.old }
    ensures capacity { vec_capacity tracks.new ≡ vec_capacity tracks.old }
    ensures alive { count_by is_alive_track tracks.new.items
        ≡ count_by is_alive_track tracks.old.items }
    ensures blanks_len { vec_len blanks.old ≤ vec_len blanks.new + 1 }
    ensures blanks { (n : ℕ) → AreBlank n blanks.old.items → AreBlank n blanks.new.items }
    ensures follows { (q : ReaderQos) (h : List Happening) → writers ≤ length (writers_of q h)
        → Follows q h tracks.old.items → Follows q h tracks.new.items }
    ensures placed { writer ≤ writers → HasPlace tracks.new.items at writer }
{
    if tracks[at].owners.places() < writer.number() as usize {
        let blank = blanks.pop().unwrap();
        tracks[at].widen(blank);
    }
}

/// A known instance takes up a change of it, where that is one more write, and it is told what is known of the instance then;
/// else nothing changes.
#[inline(always)]
pub fn write_known(
    tracks: &mut Vec<InstanceTrack>,
    at: usize,
    qos: &ReaderQos,
    arrival: &Arrival,
) -> Option<KnownInstance>
    requires place { IsPlaceOf (map key_of tracks.old.items) arrival.now.change.key at }
    requires counts_fit { All (λ (t : InstanceTrack). t.accepted_writes + 1 < 2 ^ 64) tracks.old.items }
    ensures fits { (n : ℕ) → All (Fits n) tracks.old.items → All (Fits (n + 1)) tracks.new.items }
    ensures keys { map key_of tracks.new.items ≡ map key_of tracks.old.items }
    ensures len { vec_len tracks.new ≡ vec_len tracks.old }
    ensures capacity { vec_capacity tracks.new ≡ vec_capacity tracks.old }
    ensures alive { count_by is_alive_track tracks.new.items
        ≡ count_by is_alive_track tracks.old.items }
    ensures small { (n : ℕ) → All (Fits n) tracks.old.items
        → IfSome result (λ known. known.disposed_generations + known.no_writers_generations < n) }
    ensures follows { IfSome result (λ known. (kept : KeptStrengths) (n : ℕ) (h : List Happening)
        → MayTakeUp qos.now kept h n tracks.old.items
        → TakesWrite qos.now h arrival.now tracks.new.items known) }
    ensures same { result ≡ None → tracks.new ≡ tracks.old }
{
    if !tracks[at].is_one_more(qos, arrival) {
        return None;
    }
    let track = &mut tracks[at];
    track.count_write();
    Some(told_as(track, InstanceState::Alive))
}

/// An instance becomes known by the first write or dispose of a life, the entry of this position, which is to have this
/// handle.
pub fn introduce(
    index: &mut KeyIndex,
    tracks: &mut Vec<InstanceTrack>,
    blank: Owners,
    qos: &ReaderQos,
    strengths: &Strengths,
    arrival: &Arrival,
    position: u64,
    handle: u64,
)
    requires place { 0 < index.old.room }
    requires room { vec_len tracks.old < vec_capacity tracks.old }
    requires indexed { index.old.keys ≡ map key_of tracks.old.items }
    requires absent { list_any (same_key arrival.now.change.key) index.old.keys ≡ false }
    requires kind { is_write_or_dispose arrival.now.change.kind ≡ true }
    requires later { 0 < position }
    requires fits { All (Fits position) tracks.old.items }
    ensures fits { All (Fits (position + 1)) tracks.new.items }
    ensures indexed { index.new.keys ≡ map key_of tracks.new.items }
    ensures room { index.old.room ≤ index.new.room + 1 }
    ensures len { vec_len tracks.new ≡ vec_len tracks.old + 1 }
    ensures capacity { vec_capacity tracks.old ≤ vec_capacity tracks.new }
    ensures alive { count_by is_alive_track tracks.new.items
        ≤ count_by is_alive_track tracks.old.items + 1 }
    ensures follows { (h : List Happening)
        → MayTakeUp qos.now strengths.now h position tracks.old.items
        → IsMatched qos.now h arrival.now.writer → IsForNextLife qos.now h handle blank
        → TakeUp qos.now h arrival.now tracks.new.items true }
{
    let mut track = InstanceTrack::new(arrival.change.key, handle, blank);
    track.change(qos, strengths, arrival, position);
    put_last(index, tracks, track);
}

/// All instances take up the death of a writer, the entry of this position.
pub fn bury_all(tracks: &mut Vec<InstanceTrack>, writer: Handle, position: u64)
    requires fits { All (Fits position) tracks.old.items }
    ensures fits { All (Fits (position + 1)) tracks.new.items }
    ensures keys { map key_of tracks.new.items ≡ map key_of tracks.old.items }
    ensures len { vec_len tracks.new ≡ vec_len tracks.old }
    ensures capacity { vec_capacity tracks.new ≡ vec_capacity tracks.old }
    ensures marked { count_by is_alive_track tracks.new.items + count_by
        (λ t. is_at t.last_marker position) tracks.new.items
        ≤ count_by is_alive_track tracks.old.items }
    ensures reaches { (q : ReaderQos) (h : List Happening) (now : ℕ)
        → FollowsBefore q h position tracks.old.items → IsMatched q h writer
        → Reaches q h (Died writer now) tracks.new.items }
    ensures lives { (q : ReaderQos) (h : List Happening) (now : ℕ)
        → FollowsBefore q h position tracks.old.items → HeldRight q h tracks.old.items
        → LivesRight q (Died writer now ∷ h) tracks.new.items }
{
    for at in 0..tracks.len() {
        tracks[at].bury(writer, position);
    }
}

/// An instance takes up that a sample of it was returned, if it is kept. Returns whether nobody is registered for it.
#[inline(always)]
fn see_sample(index: &KeyIndex, tracks: &mut Vec<InstanceTrack>, sample: SamplePosition) -> bool
    requires indexed { index.now.keys ≡ map key_of tracks.old.items }
    ensures fits { (n : ℕ) → All (Fits n) tracks.old.items → All (Fits n) tracks.new.items }
    ensures keys { map key_of tracks.new.items ≡ map key_of tracks.old.items }
    ensures len { vec_len tracks.new ≡ vec_len tracks.old }
    ensures capacity { vec_capacity tracks.new ≡ vec_capacity tracks.old }
    ensures alive { count_by is_alive_track tracks.new.items
        ≡ count_by is_alive_track tracks.old.items }
    ensures sees { tracks.new.items ≡ map (seen_in (sample ∷ [])) tracks.old.items }
    ensures left { (q : ReaderQos) (h : List Happening) → Follows q h tracks.old.items
        → result ≡ is_nobody (registered_writers q sample.key h) }
{
    match find(index, sample.key) {
        Some(at) => {
            let is_left = !tracks[at].owners.has_writers();
            tracks[at].see(sample.position);
            is_left
        }
        None => true,
    }
}

/// All instances take up which samples a read returned.
pub fn see_all(index: &KeyIndex, tracks: &mut Vec<InstanceTrack>, samples: &[SamplePosition])
    requires indexed { index.now.keys ≡ map key_of tracks.old.items }
    ensures fits { (n : ℕ) → All (Fits n) tracks.old.items → All (Fits n) tracks.new.items }
    ensures keys { map key_of tracks.new.items ≡ map key_of tracks.old.items }
    ensures len { vec_len tracks.new ≡ vec_len tracks.old }
    ensures capacity { vec_capacity tracks.new ≡ vec_capacity tracks.old }
    ensures alive { count_by is_alive_track tracks.new.items
        ≡ count_by is_alive_track tracks.old.items }
    ensures sees { tracks.new.items ≡ map (seen_in samples.now) tracks.old.items }
{
    for sample in samples {
        see_sample(index, tracks, *sample);
    }
}

/// The instances take up a change that came, the entry of this position, and it is told whether a life begins with it,
/// which has this handle then. So many writers are matched.
pub fn take_up(
    index: &mut KeyIndex,
    tracks: &mut Vec<InstanceTrack>,
    blanks: &mut Vec<Owners>,
    writers: usize,
    qos: &ReaderQos,
    strengths: &Strengths,
    arrival: &Arrival,
    position: u64,
    handle: u64,
) -> bool
    requires place { 0 < index.old.room }
    requires room { vec_len tracks.old < vec_capacity tracks.old }
    requires spare_blank { 0 < vec_len blanks.old }
    requires blank { AreBlank writers blanks.old.items }
    requires indexed { index.old.keys ≡ map key_of tracks.old.items }
    requires later { 0 < position }
    requires fits { All (Fits position) tracks.old.items }
    ensures fits { All (Fits (position + 1)) tracks.new.items }
    ensures indexed { index.new.keys ≡ map key_of tracks.new.items }
    ensures room { index.old.room ≤ index.new.room + 1 }
    ensures len { vec_len tracks.new ≤ vec_len tracks.old + 1 }
    ensures capacity { vec_capacity tracks.old ≤ vec_capacity tracks.new }
    ensures alive { count_by is_alive_track tracks.new.items
        ≤ count_by is_alive_track tracks.old.items + 1 }
    ensures blanks_len { vec_len blanks.old ≤ vec_len blanks.new + 1 }
    ensures blanks { (n : ℕ) → AreBlank n blanks.old.items → AreBlank n blanks.new.items }
    ensures follows { (h : List Happening)
        → MayTakeUp qos.now strengths.now h position tracks.old.items
        → IsMatched qos.now h arrival.now.writer → writers ≡ length (writers_of qos.now h)
        → handle ≡ lives_begun qos.now h + 1
        → TakeUp qos.now h arrival.now tracks.new.items result }
{
    if let Some(at) = find(index, arrival.change.key) {
        index.expect_at(at);
        make_place(tracks, at, blanks, writers, arrival.writer);
        change_known(tracks, at, qos, strengths, arrival, position);
        return false;
    }
    if !arrival.change.kind.is_write_or_dispose() {
        return false;
    }
    let blank = blanks.pop().unwrap();
    introduce(
        index, tracks, blank, qos, strengths, arrival, position, handle,
    );
    true
}

/// Notes that nothing is held of any instance.
pub fn hold_none(tracks: &mut Vec<InstanceTrack>)
    ensures held { tracks.new.items ≡ map (held_as false) tracks.old.items }
    ensures keys { map key_of tracks.new.items ≡ map key_of tracks.old.items }
    ensures fits { (n : ℕ) → All (Fits n) tracks.old.items → All (Fits n) tracks.new.items }
    ensures alive { count_by is_alive_track tracks.new.items
        ≡ count_by is_alive_track tracks.old.items }
    ensures len { vec_len tracks.new ≡ vec_len tracks.old }
    ensures capacity { vec_capacity tracks.new ≡ vec_capacity tracks.old }
{
    for at in 0..tracks.len() {
        tracks[at].is_held = false;
    }
}

/// Notes that something is held of the instance of a key, if it is kept.
pub fn hold(index: &KeyIndex, tracks: &mut Vec<InstanceTrack>, key: Key)
    requires indexed { index.now.keys ≡ map key_of tracks.old.items }
    ensures held { tracks.new.items ≡ map (held_too key) tracks.old.items }
    ensures keys { map key_of tracks.new.items ≡ map key_of tracks.old.items }
    ensures fits { (n : ℕ) → All (Fits n) tracks.old.items → All (Fits n) tracks.new.items }
    ensures alive { count_by is_alive_track tracks.new.items
        ≡ count_by is_alive_track tracks.old.items }
    ensures len { vec_len tracks.new ≡ vec_len tracks.old }
    ensures capacity { vec_capacity tracks.new ≡ vec_capacity tracks.old }
{
    if let Some(at) = find(index, key) {
        tracks[at].is_held = true;
    }
}

/// Whether nobody is registered for the instance of a key: nobody is for one that is not kept.
fn is_left(index: &KeyIndex, tracks: &[InstanceTrack], key: Key) -> bool
    requires indexed { index.now.keys ≡ map key_of tracks.now }
    ensures { (q : ReaderQos) (h : List Happening) → Follows q h tracks.now
        → result ≡ is_nobody (registered_writers q key h) }
{
    match look_up(index, tracks, key) {
        Some(track) => !track.owners.has_writers(),
        None => true,
    }
}

/// Whether nobody is registered for the instance of some of these samples.
#[inline(always)]
pub fn is_any_left(index: &KeyIndex, tracks: &[InstanceTrack], samples: &[SamplePosition]) -> bool
    requires indexed { index.now.keys ≡ map key_of tracks.now }
    ensures { (q : ReaderQos) (h : List Happening) → Follows q h tracks.now
        → result ≡ is_any_left q h samples.now }
{
    for sample in samples {
        if is_left(index, tracks, sample.key) {
            return true;
        }
    }
    false
}

/// All instances take up which samples a take returned. Returns whether nobody is registered for the instance of some of
/// them. One sample is looked up once.
#[inline(always)]
pub fn see_taken(
    index: &KeyIndex,
    tracks: &mut Vec<InstanceTrack>,
    samples: &[SamplePosition],
) -> bool
    requires indexed { index.now.keys ≡ map key_of tracks.old.items }
    ensures fits { (n : ℕ) → All (Fits n) tracks.old.items → All (Fits n) tracks.new.items }
    ensures keys { map key_of tracks.new.items ≡ map key_of tracks.old.items }
    ensures len { vec_len tracks.new ≡ vec_len tracks.old }
    ensures capacity { vec_capacity tracks.new ≡ vec_capacity tracks.old }
    ensures alive { count_by is_alive_track tracks.new.items
        ≡ count_by is_alive_track tracks.old.items }
    ensures sees { tracks.new.items ≡ map (seen_in samples.now) tracks.old.items }
    ensures left { (q : ReaderQos) (h : List Happening) → Follows q h tracks.old.items
        → result ≡ is_any_left q h samples.now }
{
    if samples.len() == 1 {
        let sample = samples[0];
        return see_sample(index, tracks, sample);
    }
    let is_any_left = is_any_left(index, tracks, samples);
    see_all(index, tracks, samples);
    is_any_left
}

/// Makes an index anew of these instances, in the room that it has.
fn index_anew(index: &mut KeyIndex, tracks: &[InstanceTrack])
    requires distinct { IsDistinct same_key (map key_of tracks.now) }
    requires room { length tracks.now ≤ length index.old.keys }
    ensures indexed { index.new.keys ≡ map key_of tracks.now }
    ensures room { index.old.room ≤ index.new.room }
{
    index.clear();
    for track in tracks {
        // No more keys are there than there were.
        index.push(track.key);
    }
}

/// Forgets the instances for which nobody is registered and of which nothing is held.
pub fn forget_left(index: &mut KeyIndex, tracks: &mut Vec<InstanceTrack>)
    requires indexed { index.old.keys ≡ map key_of tracks.old.items }
    ensures kept { tracks.new.items ≡ filter lives_on tracks.old.items }
    ensures fits { (n : ℕ) → All (Fits n) tracks.old.items → All (Fits n) tracks.new.items }
    ensures fewer { (p : InstanceTrack → Bool) → count_by p tracks.new.items ≤ count_by p tracks.old.items }
    ensures indexed { index.new.keys ≡ map key_of tracks.new.items }
    ensures room { index.old.room ≤ index.new.room }
    ensures len { vec_len tracks.new ≤ vec_len tracks.old }
    ensures capacity { vec_capacity tracks.new ≡ vec_capacity tracks.old }
    ensures distinct { IsDistinct same_key (map key_of tracks.old.items) }
{
    let _ = index.len(); // its contract says that no two keys are one
    tracks.retain(|track| track.is_held || track.owners.has_writers());
    index_anew(index, tracks);
}

/// Forgets the instance of a key, if it is kept.
pub fn forget(index: &mut KeyIndex, tracks: &mut Vec<InstanceTrack>, key: Key)
    requires indexed { index.old.keys ≡ map key_of tracks.old.items }
    ensures kept { tracks.new.items ≡ filter (is_other key) tracks.old.items }
    ensures fits { (n : ℕ) → All (Fits n) tracks.old.items → All (Fits n) tracks.new.items }
    ensures fewer { (p : InstanceTrack → Bool) → count_by p tracks.new.items ≤ count_by p tracks.old.items }
    ensures indexed { index.new.keys ≡ map key_of tracks.new.items }
    ensures room { index.old.room ≤ index.new.room }
    ensures len { vec_len tracks.new ≤ vec_len tracks.old }
    ensures capacity { vec_capacity tracks.new ≡ vec_capacity tracks.old }
{
    tracks.retain(|track| track.key != key);
    index.forget(key);
}

/// A change came: what it says of its writer's strength is kept, where there is memory for that of each writer.
pub fn note_strength(strengths: &mut Strengths, arrival: &Arrival)
    ensures came { (h : List Happening) → 0 < arrival.now.writer
        → arrival.now.writer ≤ strengths_room strengths.old → TellsStrengths strengths.old h
        → TellsStrengths strengths.new (Came arrival.now ∷ h) }
    ensures room { strengths_room strengths.new ≡ strengths_room strengths.old }
{
    if let Some(strength) = arrival.change.strength {
        strengths.set_strength(arrival.writer, strength);
    }
}

/// Owners of so many instances at least, of which nothing has come.
pub fn add_blanks(
    blanks: &mut Vec<Owners>,
    alloc: Global,
    writers: usize,
    wanted: usize,
) -> Result<(), Code>
    requires blank { AreBlank writers blanks.old.items }
    ensures blank { AreBlank writers blanks.new.items }
    ensures more { vec_len blanks.old ≤ vec_len blanks.new }
    ensures ok { OnOk result (wanted ≤ vec_len blanks.new) }
    ensures memory { IfErr result (λ e. e ≡ Memory) }
{
    for _ in blanks.len()..wanted {
        let blank = Owners::open(alloc, writers)?;
        blanks.push(blank)?;
    }
    Ok(())
}

/// What is kept of a key, if its instance is known.
pub fn look_up<'a>(
    index: &KeyIndex,
    tracks: &'a [InstanceTrack],
    key: Key,
) -> Option<&'a InstanceTrack>
    requires indexed { index.now.keys ≡ map key_of tracks.now }
    ensures kept { (q : ReaderQos) (h : List Happening) → Follows q h tracks.now
        → MatchOption result (last_accepted q key h ≡ None)
        (λ t. Tracks q key h t.now × IsTrue (is_some (last_accepted q key h))) }
    ensures fits { (n : ℕ) → All (Fits n) tracks.now → IfSome result (λ t. Fits n t.now) }
{
    match find(index, key) {
        Some(at) => Some(&tracks[at]),
        None => None,
    }
}
