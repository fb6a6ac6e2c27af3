//! The instances of a reader, kept up with what happens at it.
//!
//! DDS 1.4, 2.2.2.5 (SampleInfo: instance_handle, instance_state, view_state, the two generation counts).

ghost use Rattle.std.specs.Prelude.{◌≡◌, ◌||◌, ◌+◌, ◌≤◌, ◌<◌, ◌^◌, ◌∷◌, [], List, ℕ, length, slice_get, take, true, false, All, IsOk, OnOk, OnErr, IfErr, IfOk, IfSome, None, MatchOption};
ghost use Rattle.std.specs.Option.{option_map};
ghost use Rattle.dds_base.specs.declared.key.Key.{Key};
ghost use Rattle.dds_base.specs.Happening.{same_key};
ghost use Rattle.dds_base.specs.declared.happening.Happening.{Happening};
ghost use Rattle.dds_base.specs.declared.happening.Happening.TheVariants.{Came, Passed, Heard, Died, Left, Joined, Read, Took, Looked};
ghost use Rattle.dds_base.specs.declared.happening.SamplePosition.{SamplePosition};
ghost use Rattle.dds_base.specs.declared.happening.StatusKind.{StatusKind};
ghost use Rattle.dds_base.specs.declared.qos.ReaderQos.{ReaderQos};
ghost use Rattle.dds_base.specs.declared.code.Code.TheVariants.{Memory};

use crate::keeping::{
    add_blanks, bury_all, forget, forget_left, hold, hold_none, is_any_left, look_up,
    note_strength, see_all, see_taken, take_up, write_known,
};
use crate::known::{KnownInstance, told, view_of};
use crate::place::KeyIndex;
use crate::track::{InstanceTrack, begins_dead, begins_left, count_if};
use dds_base::{
    Arrival, Code, Handle, InstanceState, Key, MatchedWriter, OwnershipQos, ReaderQos,
    SamplePosition, ViewState,
};
use dds_owner::{Owners, Strengths};
use std::alloc::Global;
use std::marker::Model;

/// The known instances of a reader, by handle, and what follows of each from what happened at the reader.
///
/// A change takes about the same time however many instances there are. A writer's death takes up all of them, and where
/// the life of some ends, so does what ends it. Of a life that has ended nothing is kept.
#[derive(Drop)]
pub struct Instances {
    alloc: Global,
    /// How many writers are matched.
    writers: usize,
    /// How strong they are.
    strengths: Strengths,
    /// How many lives have begun.
    begun: u64,
    /// How many entries were taken up.
    happened: u64,
    /// For how many more there is memory.
    room: usize,
    /// The keys of the known instances.
    index: KeyIndex,
    /// These, in the order of their handles.
    tracks: Vec<InstanceTrack>,
    /// Owners of the instances to come.
    blanks: Vec<Owners>,
}

impl Model for Instances {
    ghost use Rattle.dds_instances.specs.Table.{Table};

    ghost Value = { Table };

    ghost use Rattle.dds_instances.specs.Sound.{table_of, IsSound};

    ghost view = { table_of };

    ghost invariant = { IsSound };
}

/// How much room is left once one more entry is counted; none is taken while the count has room of its own.
fn room_after(happened: u64, room: usize) -> Result<usize, Code>
    requires fits { happened + room < 2 ^ 64 }
    ensures fits { IfOk result (λ left. happened + 1 + left < 2 ^ 64) }
    ensures less { IfOk result (λ left. left ≤ room) }
    ensures one { IfOk result (λ left. room ≤ left + 1) }
    ensures succeeds { 1 ≤ room → IsOk result }
    ensures counted { happened + 1 < 2 ^ 64 → IsOk result }
    ensures memory { IfErr result (λ e. e ≡ Memory) }
{
    if (room as u64) < u64::MAX - happened {
        Ok(room)
    } else {
        room.checked_sub(1).ok_or(Code::Memory)
    }
}

impl Instances {
    ghost use Rattle.dds_base.specs.Life.{ends_life, ends_with_write, is_at, is_nobody};
    ghost use Rattle.dds_base.specs.Ownership.{IsMatched, is_registered, registered_writers};
    ghost use Rattle.dds_base.specs.Presence.{is_accepted, marks};
    ghost use Rattle.dds_instances.specs.Known.{IsKnown, IsReturnable};
    ghost use Rattle.dds_base.specs.Access.{handle_of, instance_of};
    ghost use Rattle.dds_base.specs.Instance.{instance_state_of, view_state_of, disposed_generations, no_writers_generations, is_known, known_instances};
    ghost use Rattle.dds_instances.specs.Table.{HoldsLeft, HoldsPresent, Stands, TakesUpEntry, alive_of, happened_of, has_marked, is_any_left, is_held, marked_of, room_of};

    /// Of a reader at which nothing has happened.
    pub fn open(alloc: Global, qos: &ReaderQos) -> Self
        // Nothing has happened.
        ensures opening { Stands qos.now result [] }
        // None is alive.
        ensures alive { alive_of result ≡ 0 }
    {
        Instances {
            alloc,
            writers: qos.writers.as_slice().len(),
            strengths: Strengths::new(alloc),
            begun: 0,
            happened: 0,
            room: 0,
            index: KeyIndex::new(alloc),
            tracks: Vec::new(alloc),
            blanks: Vec::new(alloc),
        }
    }

    /// Makes room for so many more entries: as many that come then find it.
    ///
    /// # Errors
    ///
    /// `Memory` where a growth was refused, or where more than 2^64 - 1 entries would be counted; nothing has changed
    /// then.
    pub fn reserve(&mut self, additional: usize) -> Result<(), Code>
        // It stands for what it stood for.
        ensures same { (q : ReaderQos) (h : List Happening) → Stands q self.old h
            → Stands q self.new h }
        // There is room for so many entries.
        ensures room { OnOk result (additional ≤ room_of self.new) }
        // There is no less room than before.
        ensures more { room_of self.old ≤ room_of self.new }
        // As many are alive as before.
        ensures alive { alive_of self.new ≡ alive_of self.old }
        // Where there is room enough it succeeds.
        ensures succeeds { additional ≤ room_of self.old → IsOk result }
        // A refusal leaves it as it was.
        ensures err { OnErr result (self.new ≡ self.old) }
        // It is refused for want of memory alone.
        ensures memory { IfErr result (λ e. e ≡ Memory) }
    {
        if additional <= self.room {
            return Ok(());
        }
        if u64::MAX - self.happened < additional as u64 {
            return Err(Code::Memory);
        }
        self.index.reserve(additional)?;
        self.tracks.reserve(additional)?;
        add_blanks(&mut self.blanks, self.alloc, self.writers, additional)?;
        self.strengths.reserve(self.writers)?;
        self.room = additional;
        Ok(())
    }

    /// Takes up a change, in the room that there is.
    fn change(&mut self, qos: &ReaderQos, arrival: &Arrival, is_end: bool)
        requires room { 1 ≤ room_of self.old }
        ensures stands { (h : List Happening) → Stands qos.now self.old h
            → IsMatched qos.now h arrival.now.writer → is_end ≡ ends_life qos.now arrival.now.change.key h (Came arrival.now)
            → Stands qos.now self.new (Came arrival.now ∷ h) }
        ensures room { room_of self.new + 1 ≡ room_of self.old }
        ensures alive { alive_of self.new ≤ alive_of self.old + 1 }
    {
        let position = self.happened + 1;
        let is_beginning = take_up(
            &mut self.index,
            &mut self.tracks,
            &mut self.blanks,
            self.writers,
            qos,
            &self.strengths,
            arrival,
            position,
            self.begun + 1,
        );
        self.begun += count_if(is_beginning);
        if is_end {
            forget(&mut self.index, &mut self.tracks, arrival.change.key);
        }
        note_strength(&mut self.strengths, arrival);
        self.room -= 1;
        self.happened = position;
    }

    /// Takes up a change that came at a reader of these policies, of a matched writer. Whether it ends the life of its
    /// instance, the caller has to say, who knows which samples are present.
    ///
    /// # Errors
    ///
    /// `Memory` as `reserve` answers it, and never where room was reserved; nothing has changed then.
    ///
    /// DDS 1.4, 2.2.2.5 (instance_state, generation counts), 2.2.3 (OWNERSHIP, OWNERSHIP_STRENGTH).
    pub fn come(&mut self, qos: &ReaderQos, arrival: &Arrival, is_end: bool) -> Result<(), Code>
        // The change came, where it was said right whether it ends a life.
        ensures ok { OnOk result
            ((h : List Happening) → Stands qos.now self.old h
            → IsMatched qos.now h arrival.now.writer
            → is_end ≡ ends_life qos.now arrival.now.change.key h (Came arrival.now)
            → Stands qos.now self.new (Came arrival.now ∷ h)) }
        // One more is alive at most.
        ensures alive { alive_of self.new ≤ alive_of self.old + 1 }
        // It is an entry as each is: where there is room it is taken up, it takes the room of one at most, and it is
        // refused for want of memory alone, and then changes nothing.
        ensures entry { TakesUpEntry self.old self.new result }
    {
        self.reserve(1)?;
        self.change(qos, arrival, is_end);
        Ok(())
    }

    /// Takes up a change that came at a reader of these policies, in the room that there is, where it is one more write of an
    /// instance that is alive, of a writer that is registered for that, and ownership is SHARED: then no life begins or ends
    /// with it, and nothing turns but the count of the writes. Tells what is known of the instance then. None where the change
    /// is any other one, which `come` takes up.
    ///
    /// DDS 1.4, 2.2.2.5 (instance_state), 2.2.3 (OWNERSHIP).
    #[inline(always)]
    pub fn write_again(&mut self, qos: &ReaderQos, arrival: &Arrival) -> Option<KnownInstance>
        // There is room for an entry.
        requires room { 1 ≤ room_of self.old }
        // Where something is told, the change came.
        ensures came { IfSome result (λ known. (h : List Happening) → Stands qos.now self.old h
            → Stands qos.now self.new (Came arrival.now ∷ h)) }
        // It is an accepted write.
        ensures written { IfSome result (λ known. (h : List Happening) → Stands qos.now self.old h
            → ends_with_write qos.now arrival.now.change.key (Came arrival.now ∷ h) ≡ true) }
        // The same instances are known as before.
        ensures lives { IfSome result (λ known. (h : List Happening) → Stands qos.now self.old h
            → known_instances qos.now (Came arrival.now ∷ h) ≡ known_instances qos.now h) }
        // What is told is of its instance.
        ensures key { IfSome result (λ known. (h : List Happening) → Stands qos.now self.old h
            → known.key ≡ arrival.now.change.key) }
        // It is what the definitions say.
        ensures known { IfSome result (λ known. (h : List Happening) → Stands qos.now self.old h
            → IsKnown qos.now (Came arrival.now ∷ h) known) }
        // The two generation counts can be added.
        ensures small { IfSome result
            (λ known. known.disposed_generations + known.no_writers_generations < 2 ^ 64) }
        // It takes the room of one entry.
        ensures room { IfSome result (λ known. room_of self.new + 1 ≡ room_of self.old) }
        // As many are alive as before.
        ensures alive { alive_of self.new ≡ alive_of self.old }
        // Where nothing is told, nothing has changed.
        ensures same { result ≡ None → self.new ≡ self.old }
    {
        let at = self.index.seek(arrival.change.key)?;
        let known = write_known(&mut self.tracks, at, qos, arrival)?;
        note_strength(&mut self.strengths, arrival);
        self.room -= 1;
        self.happened += 1;
        Some(known)
    }

    /// Says that what follows asks for an instance several times over, known or not: its key is hashed here, and then
    /// compared alone, until another is expected. It changes nothing that is told.
    pub fn expect(&mut self, key: Key)
        // It stays as it was.
        ensures same { self.new ≡ self.old }
    {
        self.index.expect(key);
    }

    /// Notes that nothing is held of any instance.
    pub fn hold_none(&mut self)
        // It stands for what it stood for.
        ensures same { (q : ReaderQos) (h : List Happening) → Stands q self.old h → Stands q self.new h }
        // Of no instance something is held.
        ensures held { (i : Key) → is_held self.new i ≡ false }
        // There is as much room as before.
        ensures room { room_of self.new ≡ room_of self.old }
        // As many are alive as before.
        ensures alive { alive_of self.new ≡ alive_of self.old }
        // As much happened.
        ensures happened { happened_of self.new ≡ happened_of self.old }
    {
        hold_none(&mut self.tracks);
    }

    /// Notes that something is held of an instance, if that is known.
    pub fn hold(&mut self, key: Key)
        // It stands for what it stood for.
        ensures same { (q : ReaderQos) (h : List Happening) → Stands q self.old h → Stands q self.new h }
        // It is noted of this instance, and of those of which it was.
        ensures held { (q : ReaderQos) (h : List Happening) (i : Key) → Stands q self.old h → is_known q h i ≡ true
            → is_held self.new i ≡ (same_key key i || is_held self.old i) }
        // There is as much room as before.
        ensures room { room_of self.new ≡ room_of self.old }
        // As many are alive as before.
        ensures alive { alive_of self.new ≡ alive_of self.old }
        // As much happened.
        ensures happened { happened_of self.new ≡ happened_of self.old }
    {
        hold(&self.index, &mut self.tracks, key);
    }

    /// Takes up the death of a matched writer, at whichever moment. It ends the life of each instance for which nobody is
    /// registered then, unless it leaves a marker of it, or something of it is held.
    ///
    /// # Errors
    ///
    /// `Memory` after 2^64 - 1 entries, and never where room was reserved; nothing has changed then.
    ///
    /// DDS 1.4, 2.2.3 (LIVELINESS).
    pub fn died(&mut self, writer: Handle) -> Result<(), Code>
        // The writer died, where it was noted right of which instances something is present.
        ensures ok { OnOk result
            ((q : ReaderQos) (h : List Happening) (moment : ℕ) → Stands q self.old h
            → IsMatched q h writer → HoldsPresent q h self.old
            → Stands q self.new (Died writer moment ∷ h)) }
        // It is one entry more.
        ensures happened { OnOk result (happened_of self.new ≡ happened_of self.old + 1) }
        // It leaves a marker of no more instances than those that were alive and are not any more.
        ensures marked { OnOk result (alive_of self.new + marked_of self.new ≤ alive_of self.old) }
        // It is taken up before 2^64 - 1 entries were.
        ensures counted { happened_of self.old + 1 < 2 ^ 64 → IsOk result }
        // It is an entry as each is: where there is room it is taken up, it takes the room of one at most, and it is
        // refused for want of memory alone, and then changes nothing.
        ensures entry { TakesUpEntry self.old self.new result }
    {
        let room = room_after(self.happened, self.room)?;
        let position = self.happened + 1;
        bury_all(&mut self.tracks, writer, position);
        forget_left(&mut self.index, &mut self.tracks);
        self.room = room;
        self.happened = position;
        Ok(())
    }

    /// Takes up that a writer was matched that was not known: it has the next publication handle. It touches no instance, and
    /// leaves no room: who needs some reserves it anew, with a place for the newcomer in each instance to come. All memory is
    /// asked for before anything changes.
    ///
    /// # Errors
    ///
    /// `Memory` where a growth was refused, or after 2^64 - 1 entries; nothing has changed then.
    ///
    /// RTPS 2.5, 8.4.10 (matched_writer_add).
    pub fn join(&mut self, writer: MatchedWriter) -> Result<(), Code>
        // It joined.
        ensures joined { OnOk result
            ((q : ReaderQos) (h : List Happening) → Stands q self.old h
            → Stands q self.new (Joined writer ∷ h)) }
        // It is one entry more.
        ensures happened { OnOk result (happened_of self.new ≡ happened_of self.old + 1) }
        // As many are alive as before.
        ensures alive { alive_of self.new ≡ alive_of self.old }
        // A refusal leaves it as it was.
        ensures err { OnErr result (self.new ≡ self.old) }
        // It is refused for want of memory alone.
        ensures memory { IfErr result (λ e. e ≡ Memory) }
    {
        let happened = self.happened.checked_add(1).ok_or(Code::Memory)?;
        let writers = self.writers.checked_add(1).ok_or(Code::Memory)?;
        self.strengths.join(writer)?;
        self.blanks.clear();
        self.room = 0;
        self.writers = writers;
        self.happened = happened;
        Ok(())
    }

    /// Takes up an entry that says nothing of any instance: changes of a matched writer that were passed over, one that was
    /// heard or left, or a status that was looked at.
    ///
    /// # Errors
    ///
    /// `Memory` after 2^64 - 1 entries, and never where room was reserved; nothing has changed then.
    pub fn skip(&mut self) -> Result<(), Code>
        // Changes were passed over.
        ensures passed { OnOk result
            ((q : ReaderQos) (h : List Happening) (w first last : ℕ) → Stands q self.old h
            → IsMatched q h w → Stands q self.new (Passed w first last ∷ h)) }
        // A writer was heard.
        ensures heard { OnOk result
            ((q : ReaderQos) (h : List Happening) (w moment : ℕ) → Stands q self.old h
            → IsMatched q h w → Stands q self.new (Heard w moment ∷ h)) }
        // A writer left.
        ensures left { OnOk result
            ((q : ReaderQos) (h : List Happening) (w moment : ℕ) → Stands q self.old h
            → IsMatched q h w → Stands q self.new (Left w moment ∷ h)) }
        // A status was looked at.
        ensures looked { OnOk result
            ((q : ReaderQos) (h : List Happening) (kind : StatusKind) → Stands q self.old h
            → Stands q self.new (Looked kind ∷ h)) }
        // It is one entry more.
        ensures happened { OnOk result (happened_of self.new ≡ happened_of self.old + 1) }
        // As many are alive as before.
        ensures alive { alive_of self.new ≡ alive_of self.old }
        // It is taken up before 2^64 - 1 entries were.
        ensures counted { happened_of self.old + 1 < 2 ^ 64 → IsOk result }
        // It is an entry as each is: where there is room it is taken up, it takes the room of one at most, and it is
        // refused for want of memory alone, and then changes nothing.
        ensures entry { TakesUpEntry self.old self.new result }
    {
        self.room = room_after(self.happened, self.room)?;
        self.happened += 1;
        Ok(())
    }

    /// Takes up that a read returned these samples, each of a known instance and of what has happened.
    ///
    /// # Errors
    ///
    /// `Memory` after 2^64 - 1 entries, and never where room was reserved; nothing has changed then.
    ///
    /// DDS 1.4, 2.2.2.5 (view_state).
    pub fn read(&mut self, samples: &[SamplePosition]) -> Result<(), Code>
        // A read returned them.
        ensures read { OnOk result
            ((q : ReaderQos) (h : List Happening) → Stands q self.old h
            → All (IsReturnable q h) samples.now
            → Stands q self.new (Read samples.now ∷ h)) }
        // As many are alive as before.
        ensures alive { alive_of self.new ≡ alive_of self.old }
        // It is taken up before 2^64 - 1 entries were.
        ensures counted { happened_of self.old + 1 < 2 ^ 64 → IsOk result }
        // It is an entry as each is: where there is room it is taken up, it takes the room of one at most, and it is
        // refused for want of memory alone, and then changes nothing.
        ensures entry { TakesUpEntry self.old self.new result }
    {
        self.room = room_after(self.happened, self.room)?;
        self.happened += 1;
        see_all(&self.index, &mut self.tracks, samples);
        Ok(())
    }

    /// Whether nobody is registered for the instance of some of these samples: then a take of them may end its life.
    #[inline(always)]
    pub fn is_any_left(&self, samples: &[SamplePosition]) -> bool
        // It is so by the definitions.
        ensures left { (q : ReaderQos) (h : List Happening) → Stands q self.now h
            → result ≡ is_any_left q h samples.now }
    {
        is_any_left(&self.index, &self.tracks, samples)
    }

    /// Takes up that a take returned these samples, each of a known instance and of what has happened. It ends the life
    /// of each instance for which nobody is registered and of which nothing is held.
    ///
    /// # Errors
    ///
    /// `Memory` after 2^64 - 1 entries, and never where room was reserved; nothing has changed then.
    ///
    /// DDS 1.4, 2.2.2.5 (take, view_state).
    #[inline(always)]
    pub fn took(&mut self, samples: &[SamplePosition]) -> Result<(), Code>
        // A take returned them, where it was noted right of which instances something is left: it need not be where
        // somebody is registered for the instance of each.
        ensures took { OnOk result
            ((q : ReaderQos) (h : List Happening) → Stands q self.old h
            → All (IsReturnable q h) samples.now
            → (is_any_left q h samples.now ≡ true → HoldsLeft q h samples.now self.old)
            → Stands q self.new (Took samples.now ∷ h)) }
        // No more are alive than before.
        ensures alive { alive_of self.new ≤ alive_of self.old }
        // It is taken up before 2^64 - 1 entries were.
        ensures counted { happened_of self.old + 1 < 2 ^ 64 → IsOk result }
        // It is an entry as each is: where there is room it is taken up, it takes the room of one at most, and it is
        // refused for want of memory alone, and then changes nothing.
        ensures entry { TakesUpEntry self.old self.new result }
    {
        self.room = room_after(self.happened, self.room)?;
        self.happened += 1;
        if see_taken(&self.index, &mut self.tracks, samples) {
            forget_left(&mut self.index, &mut self.tracks);
        }
        Ok(())
    }

    /// How many entries were taken up: the number of the newest.
    pub fn happened(&self) -> u64
        // It is the number of those that were taken up.
        ensures entries { result ≡ happened_of self.now }
        // It is the number of all that happened.
        ensures happened { (q : ReaderQos) (h : List Happening) → Stands q self.now h
            → result ≡ length h }
    {
        self.happened
    }

    /// How many instances are known.
    pub fn len(&self) -> usize
        // No more are alive.
        ensures alive { alive_of self.now ≤ result }
        // It is the number of the known instances.
        ensures len { (q : ReaderQos) (h : List Happening) → Stands q self.now h
            → result ≡ length (known_instances q h) }
    {
        self.tracks.len()
    }

    /// The state of an instance, none while it is unknown.
    ///
    /// DDS 1.4, 2.2.2.5 (instance_state).
    pub fn state(&self, key: Key) -> Option<InstanceState>
        // It is that of the definitions.
        ensures state { (q : ReaderQos) (h : List Happening) → Stands q self.now h
            → result ≡ instance_state_of q key h }
    {
        match look_up(&self.index, &self.tracks, key) {
            Some(track) => track.state(),
            None => None,
        }
    }

    /// How often an instance was reborn after a dispose, and how often after it had no writers.
    ///
    /// DDS 1.4, 2.2.2.5 (disposed_generation_count, no_writers_generation_count).
    pub fn counts(&self, key: Key) -> (u64, u64)
        // The first is the count of rebirths after a dispose.
        ensures disposed { (q : ReaderQos) (h : List Happening) → Stands q self.now h
            → result.0 ≡ disposed_generations q key h }
        // The second is the count of rebirths after it had no writers.
        ensures no_writers { (q : ReaderQos) (h : List Happening) → Stands q self.now h
            → result.1 ≡ no_writers_generations q key h }
    {
        match look_up(&self.index, &self.tracks, key) {
            Some(track) => (track.disposed_generations, track.no_writers_generations),
            None => (0, 0),
        }
    }

    /// Whether the reader has seen an instance since its latest rebirth.
    ///
    /// DDS 1.4, 2.2.2.5 (view_state).
    pub fn view(&self, key: Key) -> ViewState
        // It is that of the definitions.
        ensures view { (q : ReaderQos) (h : List Happening) → Stands q self.now h
            → result ≡ view_state_of q key h }
    {
        match look_up(&self.index, &self.tracks, key) {
            Some(track) => view_of(track),
            None => ViewState::New,
        }
    }

    /// The handle of an instance, `NIL` while it is unknown.
    ///
    /// DDS 1.4, 2.2.2.5 (instance_handle, lookup_instance).
    pub fn handle(&self, key: Key) -> Handle
        // It is that of the definitions.
        ensures handle { (q : ReaderQos) (h : List Happening) → Stands q self.now h
            → result ≡ handle_of q h key }
    {
        match look_up(&self.index, &self.tracks, key) {
            Some(track) => Handle::new(track.handle),
            None => Handle::NIL,
        }
    }

    /// The key of the instance of a handle, none for a handle that names none.
    ///
    /// DDS 1.4, 2.2.2.5 (get_key_value).
    pub fn key(&self, handle: Handle) -> Option<Key>
        // It is that of the definitions.
        ensures key { (q : ReaderQos) (h : List Happening) → Stands q self.now h
            → result ≡ instance_of q h handle }
    {
        let below = Handle::new(handle.number().saturating_sub(1));
        match self.tracks.get(self.place_above(below)) {
            Some(track) => {
                if track.handle == handle.number() {
                    Some(track.key)
                } else {
                    None
                }
            }
            None => None,
        }
    }

    /// At which place among the known instances, which stand by handle, the first one above a handle stands, counted
    /// from 0; as many as there are where none does. It takes about as many steps as the number of these has bits.
    pub fn place_above(&self, previous: Handle) -> usize
        // It is one of their places, or their number.
        ensures within { (q : ReaderQos) (h : List Happening) → Stands q self.now h
            → result ≤ length (known_instances q h) }
        // None that stands before it is above the handle.
        ensures before { (q : ReaderQos) (h : List Happening) → Stands q self.now h
            → All (λ i. handle_of q h i ≤ previous) (take result (known_instances q h)) }
        // The one that stands there is.
        ensures above { (q : ReaderQos) (h : List Happening) → Stands q self.now h
            → IfSome (slice_get (known_instances q h) result) (λ i. previous < handle_of q h i) }
    {
        self.tracks
            .partition_point(|track| track.handle <= previous.number())
    }

    /// What is known of the instance at a place among the known ones, which stand by handle, counted from 0; none behind
    /// the last.
    pub fn at(&self, place: usize) -> Option<KnownInstance>
        // It is of the instance at the place.
        ensures key { (q : ReaderQos) (h : List Happening) → Stands q self.now h
            → option_map (λ known. known.key) result ≡ slice_get (known_instances q h) place }
        // What is told is what the definitions say.
        ensures known { (q : ReaderQos) (h : List Happening) → Stands q self.now h
            → IfSome result (IsKnown q h) }
        // Its last marker is of the newest entry, if that left one.
        ensures marker { IfSome result
            (λ known. is_at known.last_marker (happened_of self.now) ≡ has_marked self.now place) }
        // The two generation counts can be added.
        ensures small { IfSome result
            (λ known. known.disposed_generations + known.no_writers_generations < 2 ^ 64) }
    {
        match self.tracks.get(place) {
            Some(track) => Some(told(track)),
            None => None,
        }
    }

    /// What is known of the instance of a key, none while it is unknown.
    pub fn known(&self, key: Key) -> Option<KnownInstance>
        // It is of this instance, and none is told of an unknown one alone.
        ensures key { (q : ReaderQos) (h : List Happening) → Stands q self.now h
            → MatchOption result (instance_state_of q key h ≡ None) (λ known. known.key ≡ key) }
        // What is told is what the definitions say.
        ensures known { (q : ReaderQos) (h : List Happening) → Stands q self.now h
            → IfSome result (IsKnown q h) }
        // The two generation counts can be added.
        ensures small { IfSome result
            (λ known. known.disposed_generations + known.no_writers_generations < 2 ^ 64) }
    {
        match look_up(&self.index, &self.tracks, key) {
            Some(track) => Some(told(track)),
            None => None,
        }
    }

    /// Whether a matched writer is registered for an instance.
    ///
    /// DDS 1.4, 2.2.2.4 (register_instance, unregister_instance).
    pub fn is_registered(&self, key: Key, writer: Handle) -> bool
        // It is so by the definitions.
        ensures registered { (q : ReaderQos) (h : List Happening) → Stands q self.now h
            → IsMatched q h writer
            → result ≡ is_registered key writer h }
    {
        match look_up(&self.index, &self.tracks, key) {
            Some(track) => track.owners.is_registered(writer),
            None => false,
        }
    }

    /// Whether nobody would be registered for its instance, if a change came at a reader of these policies.
    ///
    /// DDS 1.4, 2.2.2.4 (register_instance, unregister_instance).
    pub fn would_be_left(&self, arrival: &Arrival) -> bool
        // It is so by the definitions.
        ensures left { (q : ReaderQos) (h : List Happening) → Stands q self.now h
            → result ≡ is_nobody (registered_writers q arrival.now.change.key (Came arrival.now ∷ h)) }
    {
        let change = &arrival.change;
        if !begins_left(change.kind, arrival.writer, self.writers) {
            // Its writer would be registered.
            return false;
        }
        match look_up(&self.index, &self.tracks, change.key) {
            Some(track) => !track.owners.would_have_writers(arrival, self.writers),
            None => true,
        }
    }

    /// Whether a change would be accepted, if it came at a reader of these policies.
    ///
    /// DDS 1.4, 2.2.3 (OWNERSHIP, OWNERSHIP_STRENGTH).
    pub fn accepts(&self, qos: &ReaderQos, arrival: &Arrival) -> bool
        // It is so by the definitions.
        ensures accepts { (h : List Happening) → Stands qos.now self.now h
            → result ≡ is_accepted qos.now h (Came arrival.now) }
    {
        let change = &arrival.change;
        if let OwnershipQos::Shared = qos.ownership {
            return change.kind.is_write_or_dispose();
        }
        match look_up(&self.index, &self.tracks, change.key) {
            Some(track) => track
                .owners
                .accepted(qos, &self.strengths, arrival)
                .is_some(),
            None => change.kind.is_write_or_dispose(),
        }
    }

    /// Whether a change, if it came at a reader of these policies, would leave a sample without data of its instance.
    ///
    /// DDS 1.4, 2.2.2.5 (valid_data).
    pub fn would_mark(&self, qos: &ReaderQos, arrival: &Arrival) -> bool
        // It is so by the definitions.
        ensures marks { (h : List Happening) → Stands qos.now self.now h
            → result ≡ marks qos.now arrival.now.change.key h (Came arrival.now) }
    {
        let change = &arrival.change;
        match look_up(&self.index, &self.tracks, change.key) {
            Some(track) => track.would_mark(qos, &self.strengths, arrival, self.writers),
            None => begins_dead(change.kind, arrival.writer, self.writers),
        }
    }
}
